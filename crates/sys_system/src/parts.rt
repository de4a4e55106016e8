ghost use Rattle.std.specs.Prelude.{◌≡◌, All, map, vec_len};
ghost use Rattle.sys_devices.specs.Rows.{FitsDrive};
ghost use Rattle.sys_system.specs.Calls.{StoresVolumes};
ghost use Rattle.sys_system.specs.Held.{AreSystemParts, system_of};
ghost use Rattle.sys_state.specs.Places.{place_of};

use crate::turns::Turns;
use sys_devices::store_volumes;
use sys_guests::Kernel;
use sys_store::Volumes;
use vm_guest::Counts;
use vv_io::Drive;

/// What a system is made of.
#[derive(Drop)]
pub struct Parts {
    pub kernel: Kernel,
    pub volumes: Volumes,
    pub turns: Turns,
    /// Rounds begun.
    pub rounds: u32,
    pub counts: Counts,
    /// The drives that have failed.
    pub drives: [bool; 16],
}

/// The first drive that is marked.
pub fn first_drive(drives: &[bool; 16]) -> Option<u8>
    ensures { result ≡ place_of (λ b. b) drives.now }
{
    for (drive, is_marked) in drives.iter().enumerate() {
        if *is_marked {
            return Some(drive as u8);
        }
    }
    None
}

/// Stores every block of every volume to its drive, in order; a drive that fails is marked and gets no more.
pub fn store(s: &mut Parts, drives: &mut Vec<Box<dyn Drive>>)
    requires inside { AreSystemParts s.old }
    requires drives { vec_len drives.old ≡ 16 }
    requires fit { All (FitsDrive (map (λ d. kept d) drives.old.items)) (system_of s.old).config.volumes }
    ensures stores { StoresVolumes (system_of s.old) (map (λ d. kept d) drives.old.items) (system_of s.new) (map (λ d. kept d) drives.new.items) }
    ensures inside { AreSystemParts s.new }
    ensures len { vec_len drives.new ≡ vec_len drives.old }
{
    let rows = s.kernel.config.volumes.as_slice();
    store_volumes(rows, &s.volumes, &mut s.drives, drives);
}
