ghost use Rattle.std.specs.Prelude.{◌≡◌, if◌then◌else◌, Some, None};
ghost use Rattle.vm_state.specs.Stops.{is_stop_code};

use std::marker::Model;

/// Why a guest has stopped, with the numbers of the stop codes.
#[derive(Clone, Copy, Debug, PartialEq, Eq)]
pub enum StopReason {
    NeverStarted = 0x00,
    /// An operator's command.
    Commanded = 0x02,
    /// The interrupt stack isn't valid.
    InterruptStackBad = 0x04,
    /// HALT.
    Halted = 0x06,
    /// A vector whose low bits are reserved.
    BadVector = 0x07,
    /// CHM on the interrupt stack.
    ChangedMode = 0x0A,
    /// A reference beyond memory.
    PastMemory = 0x10,
}

/// A stop code. Contracts see it as its number.
#[derive(Clone, Copy, Debug, PartialEq, Eq)]
pub struct StopCode(pub StopReason);

impl Model for StopCode {
    ghost use Rattle.std.specs.Prelude.{ℕ};

    ghost Value = { ℕ };

    ghost use Rattle.vm_state.specs.StopNumbers.{numbered_code, codes_have_numbers, reason_number};

    ghost view = { λ code. reason_number code.0 };

    ghost inverse = { numbered_code };

    ghost inverse_ok = { λ code h. codes_have_numbers code };
}

impl StopCode {
    /// The number that a guest shows, and a snapshot has.
    pub fn number(self) -> u8
        ensures { result ≡ self }
    {
        self.0 as u8
    }

    /// The stop code of a number.
    pub fn from_number(number: u8) -> Option<StopCode>
        ensures { result ≡ (if is_stop_code number then Some number else None) }
    {
        let reason = match number {
            0x00 => StopReason::NeverStarted,
            0x02 => StopReason::Commanded,
            0x04 => StopReason::InterruptStackBad,
            0x06 => StopReason::Halted,
            0x07 => StopReason::BadVector,
            0x0A => StopReason::ChangedMode,
            0x10 => StopReason::PastMemory,
            _ => return None,
        };
        Some(StopCode(reason))
    }
}
