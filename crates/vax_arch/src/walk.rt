/// The pages of a region. A page's number is its region times this, and its number in the region.
pub const REGION: u32 = 0x20_0000;

/// The outcome of a page's look-up: the physical place of its entry, with that of the system entry that maps it for a process
/// page; or, with mapping off, the page as its own frame. Otherwise a fault that is not valid or a length violation, with bits
/// 1:0 of its parameter; or a place beyond memory.
#[derive(Clone, Copy, Debug, PartialEq, Eq)]
pub enum Lookup {
    Found { place: u32, table: Option<u32> },
    Direct { frame: u32 },
    Fails { not_valid: bool, parameter: u8 },
    Beyond,
}

/// What a page table entry gives a mode: its frame; or its code refuses, it isn't valid, or its frame is beyond memory.
#[derive(Clone, Copy, Debug, PartialEq, Eq)]
pub enum Grant {
    Granted { frame: u32 },
    Refused,
    Absent,
    Past,
}
