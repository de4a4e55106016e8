use sys_objects::Mount;
use vv_base::Name;

/// What a line asks for: objects by their names, a unit by its number, 0 to 3.
#[derive(Drop)]
pub enum NamedCommand {
    Connect(Name),
    Start(Name),
    Halt(Name),
    /// A guest, its unit, a volume, and whether it is to be written.
    Mount(Name, u8, Name, bool),
    Dismount(Name, u8),
    Show,
}

/// A command that is granted: objects by their places.
#[derive(Clone, Copy, Debug, PartialEq, Eq)]
pub enum Command {
    /// The guest's console moves to the terminal.
    Connect(u8),
    /// The guest is reset and runs.
    Start(u8),
    /// The guest is stopped.
    Halt(u8),
    /// The mount is at the guest's unit.
    MountAt(u8, u8, Mount),
    /// Nothing is at the guest's unit.
    Dismount(u8, u8),
    /// The visible objects are listed.
    Show,
}

/// Why a command on visible objects is denied.
#[derive(Clone, Copy, Debug, PartialEq, Eq)]
pub enum Rule {
    /// The guest isn't of the terminal's class.
    Equal,
    /// A volume that is to be written isn't of the terminal's class.
    Write,
}

/// What the server answers to a line.
#[derive(Clone, Copy, Debug, PartialEq, Eq)]
pub enum Verdict {
    Granted(Command),
    BadCommand,
    NoSuchObject,
    Denied(Rule),
}

/// What the server keeps: by terminal the guest that it is connected to, by guest and unit what is mounted, and by
/// guest whether it runs.
#[derive(Clone, Copy)]
pub struct ServerState {
    pub at: [Option<u8>; 32],
    pub mounts: [[Option<Mount>; 4]; 16],
    pub running: [bool; 16],
}
