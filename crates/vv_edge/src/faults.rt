ghost use Rattle.std.specs.Prelude.{◌≡◌};
ghost use Rattle.vv_edge.specs.Faults.{shelf_fault};
ghost use Rattle.vv_io.specs.Causes.{HasCause};

use std::io::ErrorKind;
use vv_io::ShelfFault;

/// What it means for a shelf that a file could not be opened or read.
pub fn shelf_fault(kind: ErrorKind) -> ShelfFault
    ensures { result ≡ shelf_fault kind }
{
    match kind {
        ErrorKind::NotFound => ShelfFault::Missing,
        ErrorKind::OutOfMemory => ShelfFault::NoMemory,
        _ => ShelfFault::Failed,
    }
}

/// What a call gave, or this fault in place of its own, which is counted.
pub fn counted<T, E: Drop, F: Drop>(faults: &mut u64, done: Result<T, E>, fault: F) -> Result<T, F>
    ensures { HasCause faults.old faults.new result }
{
    match done {
        Ok(value) => Ok(value),
        Err(_) => {
            *faults = faults.saturating_add(1);
            Err(fault)
        }
    }
}
