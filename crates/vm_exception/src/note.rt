/// What is noted of a step beside its kind: where the vector that it took is in the system control block, in bytes; or the first
/// address of the page whose modify bit it set.
#[derive(Clone, Copy, Debug, PartialEq, Eq)]
pub enum Note {
    Nothing,
    Vector(u32),
    Page(u32),
}
