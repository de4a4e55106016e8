ghost use Rattle.std.specs.Prelude.{◌≡◌};

use std::alloc::{AllocError, AllocFailed};
use thiserror::Error;
use vv_base::NoMemory;

/// A snapshot is refused: where the first field begins that is cut or not allowed after those before it, or where bytes
/// are left over.
#[derive(Clone, Copy, Debug, PartialEq, Eq)]
pub struct SnapFault {
    pub place: u32,
}

/// Why bytes are not read as a snapshot.
#[derive(Debug, Drop, Error)]
pub enum SnapError {
    /// The bytes are no snapshot.
    #[error("snapshot at {}", .0.place)]
    Fault(SnapFault),
    /// Memory ran out before that was decided.
    #[error("out of memory")]
    NoMemory,
}

impl From<SnapFault> for SnapError {
    ghost use Rattle.sys_snap.specs.declared.fault.SnapError.TheVariants.{Fault as Refused};

    ghost from_gives = { λ f e. e ≡ Refused f };

    fn from(fault: SnapFault) -> SnapError {
        SnapError::Fault(fault)
    }
}

impl From<AllocError> for SnapError {
    ghost use Rattle.sys_snap.specs.declared.fault.SnapError.TheVariants.{NoMemory as OutOfMemory};

    ghost from_gives = { λ _ e. e ≡ OutOfMemory };

    fn from(_: AllocError) -> SnapError {
        SnapError::NoMemory
    }
}

impl<T: Drop> From<AllocFailed<T>> for SnapError {
    ghost use Rattle.sys_snap.specs.declared.fault.SnapError.TheVariants.{NoMemory as OutOfMemory};

    ghost from_gives = { λ _ e. e ≡ OutOfMemory };

    fn from(_: AllocFailed<T>) -> SnapError {
        SnapError::NoMemory
    }
}

impl From<NoMemory> for SnapError {
    ghost use Rattle.sys_snap.specs.declared.fault.SnapError.TheVariants.{NoMemory as OutOfMemory};

    ghost from_gives = { λ _ e. e ≡ OutOfMemory };

    fn from(_: NoMemory) -> SnapError {
        SnapError::NoMemory
    }
}
