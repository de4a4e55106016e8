ghost use Rattle.std.specs.Prelude.{◌≡◌, map, string_bytes};
ghost use Rattle.vvmm_call.specs.Devices.{devices_needed};
ghost use Rattle.vvmm_files.specs.Words.{wanted};

use vvmm_files::{Request, parse};

/// The devices that a command has.
#[derive(Clone, Copy, Debug, PartialEq, Eq)]
pub enum Devices {
    /// Neither lines nor drives.
    Nothing,
    /// Lines alone.
    Lines,
    /// Lines and drives.
    LinesAndDrives,
}

/// The devices that the command of these words has: no other is put, read or written by `vvmm_run`.
pub fn devices_of(words: &[String]) -> Devices
    ensures { result ≡ devices_needed (wanted (map (λ w. string_bytes w) words.now)) }
{
    match parse(words) {
        Some(Request::Solo(_)) => Devices::Lines,
        Some(Request::Trace(_)) => Devices::Lines,
        Some(Request::Load(_)) => Devices::Lines,
        Some(Request::Run(_)) => Devices::LinesAndDrives,
        Some(Request::Save(_)) => Devices::LinesAndDrives,
        Some(Request::Resume(_)) => Devices::LinesAndDrives,
        Some(Request::Extend(_)) => Devices::LinesAndDrives,
        Some(Request::Live(_)) => Devices::LinesAndDrives,
        _ => Devices::Nothing,
    }
}
