/// A memory management fault: translation not valid, or an access violation; the address of the byte that has it; and the
/// parameter. Its bit 0 says that it was a length violation, bit 1 that the process entry's own address failed, and bit 2 that
/// the byte was to be written.
#[derive(Clone, Copy, Debug, PartialEq, Eq)]
pub struct MemFault {
    pub not_valid: bool,
    pub va: u32,
    pub param: u8,
}

/// What an address is translated to. `Frame` has the physical place of the byte, the place of the page table entry
/// (`None` with mapping off), and the place of the system entry that maps that entry, for a process page. `Beyond` says
/// that the byte, its entry, or the entry's own entry would lie beyond the guest's memory.
#[derive(Clone, Copy, Debug, PartialEq, Eq)]
pub enum Walk {
    Frame {
        pa: u32,
        entry: Option<u32>,
        table: Option<u32>,
    },
    Fault(MemFault),
    Beyond,
}
