ghost use Rattle.std.specs.Prelude.{◌≡◌};
ghost use Rattle.test_vm.specs.Registers.{are_allowed};
ghost use Rattle.vm_state.specs.State.{state_of, tables_of};

use vm_state::GuestState;

/// The table registers of a guest.
#[derive(Clone, Copy)]
pub struct Registers {
    pub mapen: bool,
    pub p0br: u32,
    pub p0lr: u32,
    pub p1br: u32,
    pub p1lr: u32,
    pub sbr: u32,
    pub slr: u32,
}

/// P0 with 64 pages from a table at 80004200 on, an empty P1, and a system table of 64 pages at 4000.
pub const MAPPED: Registers = Registers {
    mapen: true,
    p0br: 0x8000_4200,
    p0lr: 64,
    p1br: 0,
    p1lr: 0x20_0000,
    sbr: 0x4000,
    slr: 64,
};

impl Registers {
    /// Puts them into a guest.
    pub fn put_into(&self, g: &mut GuestState)
        ensures state { state_of g.new ≡ record (state_of g.old) { tables = tables_of g.new } }
        ensures pages { g.new.pages ≡ g.old.pages }
        ensures base { g.new.base ≡ g.old.base }
        ensures tables { tables_of g.new ≡ record { mapped = self.now.mapen; p0br = self.now.p0br; p0lr = self.now.p0lr; p1br = self.now.p1br; p1lr = self.now.p1lr; sbr = self.now.sbr; slr = self.now.slr } }
    {
        g.mapen = self.mapen;
        g.p0br = self.p0br;
        g.p0lr = self.p0lr;
        g.p1br = self.p1br;
        g.p1lr = self.p1lr;
        g.sbr = self.sbr;
        g.slr = self.slr;
    }

    /// Whether each has a value that a guest's may have.
    pub fn are_allowed(&self) -> bool
        ensures { result ≡ are_allowed (record { mapped = self.now.mapen; p0br = self.now.p0br; p0lr = self.now.p0lr; p1br = self.now.p1br; p1lr = self.now.p1lr; sbr = self.now.sbr; slr = self.now.slr }) }
    {
        (self.p0br == 0 || self.p0br % 4 == 0 && self.p0br / 0x4000_0000 == 2)
            && (self.p0lr <= 8192
                && (self.p1br % 4 == 0
                    && (2_088_960 <= self.p1lr
                        && self.p1lr <= 2_097_152
                        && (self.sbr % 4 == 0 && self.slr <= 8192))))
    }
}
