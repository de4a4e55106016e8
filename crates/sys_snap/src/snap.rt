use sys_objects::Config;
use sys_server::ServerState;
use vm_state::GuestState;

/// A guest of a snapshot: its state, and the bytes of its memory.
#[derive(Drop)]
pub struct GuestSnap {
    pub state: GuestState,
    pub memory: Vec<u8>,
}

/// What a snapshot holds: the configuration, how many rounds were made, what the server keeps, the guests, and the blocks
/// of each volume.
#[derive(Drop)]
pub struct Snap {
    pub config: Config,
    pub round: u32,
    pub server: ServerState,
    pub guests: Vec<GuestSnap>,
    pub volumes: Vec<Vec<[u8; 512]>>,
}
