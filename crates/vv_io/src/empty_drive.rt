ghost use Rattle.std.specs.Prelude.{◌≡◌, Some, [], IsErr};

use crate::{Drive, DriveFault};

/// A drive of no blocks. No block can be asked for; where one is asked for all the same, nothing happens and the
/// answer is a fault.
#[derive(Clone, Copy, Debug, PartialEq, Eq)]
pub struct EmptyDrive;

impl Drive for EmptyDrive {
    ghost kept = { λ _. record { size = 0; blocks = Some []; faults = 0 } };

    fn blocks(&self) -> u32 {
        0
    }

    fn get(&mut self, _block: u32, into: &mut [u8; 512]) -> Result<(), DriveFault>
        ensures fault { IsErr result }
        ensures same { into.new ≡ into.old }
    {
        let _ = into;
        Err(DriveFault)
    }

    fn set(&mut self, _block: u32, _from: &[u8; 512]) -> Result<(), DriveFault>
        ensures { IsErr result }
    {
        Err(DriveFault)
    }
}
