ghost use Rattle.std.specs.Prelude.{◌≡◌, not};
ghost use Rattle.vax_arch.specs.Rei.{rei_refuses};

use crate::Mode;

/// A processor status longword, the PSL.
#[derive(Clone, Copy, Debug, PartialEq, Eq)]
pub struct Psl(pub u32);

impl Psl {
    ghost use Rattle.vax_arch.specs.Fields.{current_of, previous_of, ipl_of, is_on_interrupt_stack};
    ghost use Rattle.vax_arch.specs.Rei.{has_must_be_zero_bit};

    /// The current access mode, bits 25:24.
    pub fn current(&self) -> Mode
        ensures { result ≡ current_of self.now.0 }
    {
        Mode::from_number(self.0 / 0x100_0000)
    }

    /// The previous access mode, bits 23:22.
    pub fn previous(&self) -> Mode
        ensures { result ≡ previous_of self.now.0 }
    {
        Mode::from_number(self.0 / 0x40_0000)
    }

    /// The interrupt priority level, bits 20:16.
    pub fn ipl(&self) -> u8
        ensures { result ≡ ipl_of self.now.0 }
    {
        (self.0 / 0x1_0000 % 32) as u8
    }

    /// Whether the interrupt stack is in use, bit 26.
    pub fn on_interrupt_stack(&self) -> bool
        ensures { result ≡ is_on_interrupt_stack self.now.0 }
    {
        self.0 / 0x400_0000 % 2 == 1
    }

    /// Whether a bit is set that must be zero.
    pub fn has_must_be_zero_bit(&self) -> bool
        ensures { result ≡ has_must_be_zero_bit self.now.0 }
    {
        self.0 / 0x800_0000 != 0 || self.0 / 0x20_0000 % 2 != 0 || self.0 / 0x100 % 0x100 != 0
    }
}

/// Whether REI may load `new` where the PSL is `old`.
pub fn rei_allowed(old: Psl, new: Psl) -> bool
    ensures { result ≡ not (rei_refuses old.0 new.0) }
{
    let mode = new.current().number();
    let on_interrupt_stack = new.on_interrupt_stack();
    let ipl = new.ipl();
    if new.has_must_be_zero_bit() || mode < old.current().number() {
        return false;
    }
    if mode != 0 && (on_interrupt_stack || ipl != 0) {
        return false;
    }
    if mode > new.previous().number() {
        return false;
    }
    if on_interrupt_stack && (!old.on_interrupt_stack() || ipl == 0) {
        return false;
    }
    ipl <= old.ipl()
}
