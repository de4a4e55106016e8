use sys_devices::Marks;
use sys_objects::Config;
use sys_server::ServerState;
use vm_console::KeptPort;
use vm_guest::Guest;

/// What a guest shows in 100,000 steps at most, in bytes: 14 a step.
pub const MOST_SHOWN: usize = 1_400_000;

/// What the kernel keeps of several guests.
#[derive(Drop)]
pub struct Kernel {
    pub config: Config,
    /// By terminal the guest whose console it is, and by guest and unit what is mounted. Who runs is seen at the guests.
    pub server: ServerState,
    pub guests: Vec<Guest>,
    /// The lines that have failed.
    pub marks: Marks,
    /// Keeps what a guest shows, until a line is shown it.
    pub port: KeptPort<MOST_SHOWN>,
}
