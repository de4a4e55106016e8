ghost use Rattle.std.specs.Prelude.{◌≡◌};

use std::alloc::{AllocError, AllocFailed};
use thiserror::Error;
use vv_base::NoMemory;

/// The least rule that a configuration breaks, 0 to 18, and the first place at which it breaks it, counted from 0.
#[derive(Clone, Copy, Debug, PartialEq, Eq)]
pub struct ConfigFault {
    pub rule: u8,
    pub place: u32,
}

/// Why a text is no configuration.
#[derive(Debug, Drop, Error)]
pub enum ConfigError {
    /// It breaks a rule.
    #[error("rule {} is broken at {}", .0.rule, .0.place)]
    Fault(ConfigFault),
    /// Memory ran out before that was decided.
    #[error("out of memory")]
    NoMemory,
}

impl From<AllocError> for ConfigError {
    ghost use Rattle.sys_objects.specs.declared.errors.ConfigError.TheVariants.{NoMemory as OutOfMemory};

    ghost from_gives = { λ _ e. e ≡ OutOfMemory };

    fn from(_: AllocError) -> ConfigError {
        ConfigError::NoMemory
    }
}

impl<T: Drop> From<AllocFailed<T>> for ConfigError {
    ghost use Rattle.sys_objects.specs.declared.errors.ConfigError.TheVariants.{NoMemory as OutOfMemory};

    ghost from_gives = { λ _ e. e ≡ OutOfMemory };

    fn from(_: AllocFailed<T>) -> ConfigError {
        ConfigError::NoMemory
    }
}

impl From<NoMemory> for ConfigError {
    ghost use Rattle.sys_objects.specs.declared.errors.ConfigError.TheVariants.{NoMemory as OutOfMemory};

    ghost from_gives = { λ _ e. e ≡ OutOfMemory };

    fn from(_: NoMemory) -> ConfigError {
        ConfigError::NoMemory
    }
}

/// The fault of a rule at a place.
pub fn fault(rule: u8, place: u32) -> ConfigError
    ensures { result ≡ ConfigError.Fault (record { rule = rule; place = place }) }
{
    ConfigError::Fault(ConfigFault { rule, place })
}
