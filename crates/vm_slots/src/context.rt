/// What a guest's process addresses are read under: whether mapping is on, and the bases and lengths of its P0 and P1 tables.
#[derive(Clone, Copy, Debug, Default, PartialEq, Eq)]
pub struct Context {
    pub mapped: bool,
    pub p0br: u32,
    pub p0lr: u32,
    pub p1br: u32,
    pub p1lr: u32,
}

/// The slot that a context was given, from 0 to 3; whether it had none before; and whether another context lost its slot.
#[derive(Clone, Copy, Debug, PartialEq, Eq)]
pub struct Taken {
    pub slot: u8,
    pub fresh: bool,
    pub evicted: bool,
}
