use vm_state::StopCode;

/// The outcome of an initiation: it is taken; vector 08 is taken in its place, since the kernel stack isn't valid; or the
/// guest stops with a code.
#[derive(Clone, Copy, Debug, PartialEq, Eq)]
pub enum Initiated {
    Taken,
    KernelStackBad,
    Stopped(StopCode),
}
