ghost use Rattle.vv_io.specs.Keys.{Keys, Takes};

use crate::Sink;
use vv_base::Text;

/// A keyboard failed.
#[derive(Clone, Copy, Debug, PartialEq, Eq)]
pub struct KeyFault;

/// A line as a keyboard gives it, without its end: at most 1,024 bytes.
pub type KeyLine = Text<1024>;

/// A keyboard, at which lines are typed by one who sees an output.
pub trait Keyboard<O: Sink> {
    /// The lines that are still to come, where they are known, how often it has failed, and what was on the output at each call.
    ghost keys: { Self → Keys };

    /// The next line, or its first 1,024 bytes where it has more; none where no more come. After a fault no line is gone.
    /// It may wait until a line is typed.
    fn next(&mut self, out: &O) -> Result<Option<KeyLine>, KeyFault>
        ensures { Takes (O.printed out.now) (keys self.old) (keys self.new) result };
}
