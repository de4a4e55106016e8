use sys_objects::Config;
use sys_script::Event;

/// What a system is run on.
#[derive(Drop)]
pub struct Workload {
    pub config: Config,
    /// The image of each guest.
    pub images: Vec<Vec<u8>>,
    /// The blocks of each volume, of 512 bytes each.
    pub volumes: Vec<Vec<[u8; 512]>>,
    pub events: Vec<Event>,
    pub rounds: u32,
}
