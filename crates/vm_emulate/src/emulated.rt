use vm_state::{Exc, StopCode};

/// The outcome of an instruction's emulation. It is done; or the modify bit of a byte's page was set, and the instruction begins
/// again. Or it has a fault, of which nothing happened, for the caller to initiate; or it completes by stopping the guest with a
/// code. Or a place that it reads or writes is beyond memory, which stops the guest with code 10. Or the real entries of a PROBE
/// are filled now, and nothing else happened.
#[derive(Clone, Copy, Debug, PartialEq, Eq)]
pub enum Emulated {
    Done,
    SetModify { va: u32 },
    Fault(Exc),
    Stopped(StopCode),
    PastMemory,
    Filled,
}
