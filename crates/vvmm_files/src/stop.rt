ghost use Rattle.std.specs.Prelude.{◌≡◌};

use std::alloc::{AllocError, AllocFailed};
use sys_objects::ConfigFault;
use sys_script::ScriptFault;
use sys_snap::SnapFault;
use vv_base::{FileName, NoMemory};

/// Why a command stops before anything is shown.
#[derive(Drop)]
pub enum CommandFault {
    /// The shelf lacks a file.
    Missing(FileName),
    /// A file has more than 16,777,216 bytes.
    TooLong(FileName),
    /// The shelf failed.
    ShelfFault,
    /// The configuration breaks a rule.
    Config(ConfigFault),
    /// A line of the script is refused.
    Script(ScriptFault),
    /// A snapshot would have too many bytes or rounds.
    SnapSize,
    /// The bytes of a file are no snapshot.
    Snap(SnapFault),
    /// Memory ran out.
    NoMemory,
}

impl From<NoMemory> for CommandFault {
    ghost use Rattle.vvmm_files.specs.declared.stop.CommandFault.TheVariants.{NoMemory as OutOfMemory};

    ghost from_gives = { λ _ e. e ≡ OutOfMemory };

    fn from(_: NoMemory) -> CommandFault {
        CommandFault::NoMemory
    }
}

impl From<AllocError> for CommandFault {
    ghost use Rattle.vvmm_files.specs.declared.stop.CommandFault.TheVariants.{NoMemory as OutOfMemory};

    ghost from_gives = { λ _ e. e ≡ OutOfMemory };

    fn from(_: AllocError) -> CommandFault {
        CommandFault::NoMemory
    }
}

impl<T: Drop> From<AllocFailed<T>> for CommandFault {
    ghost use Rattle.vvmm_files.specs.declared.stop.CommandFault.TheVariants.{NoMemory as OutOfMemory};

    ghost from_gives = { λ _ e. e ≡ OutOfMemory };

    fn from(_: AllocFailed<T>) -> CommandFault {
        CommandFault::NoMemory
    }
}
