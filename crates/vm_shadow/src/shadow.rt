use crate::marks::Marks;
use crate::records::Records;
use std::marker::Model;
use vm_slots::{Context, Slots};

/// The shadow page tables of a guest: where they lie, and what is kept of them. Contracts see it as that.
#[derive(Drop)]
pub struct Shadow {
    /// The guest's pages of 512 bytes, the first of them in the machine, and the first page of its real tables.
    pub(crate) pages: u32,
    pub(crate) base: u32,
    pub(crate) at: u32,
    /// The registers of the last switch, and the slot of the context.
    pub(crate) context: Context,
    pub(crate) sbr: u32,
    pub(crate) slr: u32,
    pub(crate) slot: u8,
    pub(crate) held: Slots,
    /// By the number of a real entry, the frames that it was read from.
    pub(crate) reads: Records,
    /// By frame of the guest: an entry may have been read from it.
    pub(crate) consulted: Vec<bool>,
    /// By frame of the guest, 576 each: the groups of real entries in which one may map it with its modify bit set.
    pub(crate) writable: Marks,
}

impl Model for Shadow {
    ghost use Rattle.vm_shadow.specs.Marks.{flags_of};
    ghost use Rattle.vm_shadow.specs.Shadowed.{Shadowed};

    ghost Value = { Shadowed };

    ghost view = { λ s. record { pages = s.pages; base = s.base; at = s.at; told = record { mapped = s.context.mapped; p0br = s.context.p0br; p0lr = s.context.p0lr; p1br = s.context.p1br; p1lr = s.context.p1lr; sbr = s.sbr; slr = s.slr }; slot = s.slot; held = s.held; reads = s.reads; consulted = s.consulted.items; writable = flags_of s.writable } };
}

impl Shadow {
    /// How many records of real entries were looked at since it was made, modulo 2 ^ 64: to drop entries, and to close pages.
    pub fn looked_at(&self) -> u64 {
        self.reads.looked()
    }
}
