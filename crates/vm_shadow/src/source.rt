/// The frames of the guest's page table entries that a real entry was read from.
#[derive(Clone, Copy, Debug, PartialEq, Eq)]
pub enum Source {
    /// None: mapping is off.
    Direct,
    /// The frame of a system page's entry.
    System { entry: u32 },
    /// The frame of a process page's entry, and that of the system entry above it.
    Process { entry: u32, table: u32 },
}
