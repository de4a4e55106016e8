ghost use Rattle.std.specs.Prelude.{◌≡◌};
ghost use Rattle.vvmm_call.specs.Answer.{power_status, fault_status};

use sys_system::PowerFault;
use vvmm_files::{CommandFault, Status};

/// The answer of a command that stops.
pub fn fault_status(stop: CommandFault) -> Status
    ensures { result ≡ fault_status stop }
{
    match stop {
        CommandFault::Missing(name) => Status::Missing(name),
        CommandFault::TooLong(name) => Status::TooLong(name),
        CommandFault::ShelfFault => Status::ShelfFault,
        CommandFault::Config(fault) => Status::Config(fault),
        CommandFault::Script(fault) => Status::Script(fault),
        CommandFault::SnapSize => Status::SnapSize,
        CommandFault::Snap(fault) => Status::Snap(fault),
        CommandFault::NoMemory => Status::NoMemory,
    }
}

/// The answer where power doesn't come up.
pub fn power_status(fault: PowerFault) -> Status
    ensures { result ≡ power_status fault }
{
    match fault {
        PowerFault::Image(guest) => Status::Image(guest),
        PowerFault::VolumeSize(volume) => Status::VolumeSize(volume),
        PowerFault::DriveIn(drive) => Status::DriveIn(drive),
        PowerFault::NoMemory => Status::NoMemory,
    }
}
