use vax_arch::Psl;
use vax_table::{Refusal, Trapped};

/// What is loaded into the machine: the registers, the real PSL and the virtual machine's (VMPSL), and the bases and
/// lengths of the real page tables.
#[derive(Clone, Copy, Debug, PartialEq, Eq)]
pub struct World {
    pub r: [u32; 16],
    pub psl: Psl,
    pub vmpsl: Psl,
    pub p0br: u32,
    pub p0lr: u32,
    pub p1br: u32,
    pub p1lr: u32,
    pub sbr: u32,
    pub slr: u32,
}

/// Why a run of the machine ended: the budget is used; an instruction retired with an arithmetic trap of this
/// kind; or else the first trouble of an instruction that did not retire.
#[derive(Clone, Copy, Debug, PartialEq, Eq)]
pub enum Exit {
    Budget,
    NotValid { va: u32, write: bool },
    Denied { va: u32, write: bool },
    Modify { va: u32 },
    Emulate(Trapped),
    Arithmetic { kind: u8 },
    Refused(Refusal),
}
