ghost use Rattle.std.specs.Prelude.{◌≡◌, ◌≤◌, ◌<◌, ◌^◌, IfOk};
ghost use Rattle.vv_base.specs.Width.{size_of};
ghost use Rattle.vax_arch.specs.Fields.{current_of};
ghost use Rattle.vax_arch.specs.Protection.{may_of};
ghost use Rattle.vax_arch.specs.Walk.{granted};
ghost use Rattle.vax_hw.specs.RealTables.{everywhere, place_by};
ghost use Rattle.vax_table.specs.Interaction.{number_at};
ghost use Rattle.vax_table.specs.Troubles.{intent_of, with_trouble};
ghost use Rattle.vax_paged.specs.Paged.{at_byte, paged, placed};

use crate::entries::{Entry, Paged};
use crate::memory::{byte_in, number_in};
use vax_arch::{Intent, Pte, may};
use vax_operand::{Space, Trouble};
use vv_base::Width;

/// Reading, or writing.
fn intent_of(write: bool) -> Intent
    ensures { result ≡ intent_of write }
{
    if write { Intent::Write } else { Intent::Read }
}

impl Paged<'_> {
    /// The place that an entry gives an address, in the real mode.
    #[tactic(auto, unfolding(vax_arch::specs::Walk::granted))]
    fn granted(&self, entry: Pte, va: u32, write: bool) -> Result<u32, Trouble>
        ensures is { with_trouble result ≡ at_byte (intent_of write) va
            (place_by va (granted may_of everywhere entry.0 (current_of self.now.world.now.psl.0) (intent_of write))) }
        ensures small { IfOk result (λ place. place < 2 ^ 30) }
    {
        if !may(entry.prot(), self.world.psl.current(), intent_of(write)) {
            Err(Trouble::Denied { va, write })
        } else if !entry.valid() {
            Err(Trouble::NotValid { va, write })
        } else {
            Ok(512 * entry.frame() + va % 512)
        }
    }

    /// The place of an address in the machine, for reading or for writing in the real mode.
    #[tactic(auto, unfolding(vax_hw::specs::RealTables::place_in), using(crate::proofs::Lookups::mapped))]
    pub fn place(&self, va: u32, write: bool) -> Result<u32, Trouble>
        ensures is { with_trouble result ≡ at_byte (intent_of write) va (placed self.now.memory.now self.now.world.now (intent_of write) va) }
        ensures small { IfOk result (λ place. place < 2 ^ 30) }
    {
        match self.entry(va / 512) {
            Entry::Found(entry) => self.granted(entry, va, write),
            Entry::NotValid => Err(Trouble::NotValid { va, write }),
            Entry::TooFar => Err(Trouble::Denied { va, write }),
        }
    }

    /// The byte at an address.
    pub fn byte(&self, va: u32, write: bool) -> Result<u8, Trouble>
        ensures { with_trouble result ≡ number_at (paged self.now.memory.now self.now.world.now) (intent_of write) 1 va }
    {
        let place = self.place(va, write)?;
        Ok(byte_in(self.memory, place as usize))
    }

    /// The number in `bytes` bytes, the lowest first, each by its own page.
    #[tactic(auto, using(vax_operand::proofs::ByteByByte::byte_by_byte))]
    #[cold]
    #[inline(never)]
    fn number_by_bytes(&self, va: u32, bytes: u32, write: bool) -> Result<u64, Trouble>
        requires { bytes ≤ 8 }
        ensures number { with_trouble result ≡ number_at (paged self.now.memory.now self.now.world.now) (intent_of write) bytes va }
        ensures fits { IfOk result (λ v. v < 256 ^ bytes) }
    {
        if bytes == 0 {
            return Ok(0);
        }
        let byte = self.byte(va, write)?;
        let rest = self.number_by_bytes(va.wrapping_add(1), bytes - 1, write)?;
        Ok(u64::from(byte) + 256 * rest)
    }

    /// The number of a width, the lowest byte first: by one look-up where it lies in one page.
    fn number(&self, va: u32, w: Width, write: bool) -> Result<u64, Trouble>
        ensures number { with_trouble result ≡ number_at (paged self.now.memory.now self.now.world.now) (intent_of write) (size_of w) va }
        ensures fits { IfOk result (λ v. v < 256 ^ size_of w) }
    {
        if va % 512 + u32::from(w.bytes()) > 512 {
            return self.number_by_bytes(va, u32::from(w.bytes()), write);
        }
        let place = self.place(va, write)?;
        Ok(number_in(self.memory, place as usize, w))
    }
}

impl Space for Paged<'_> {
    ghost space = { λ m. paged m.memory.now m.world.now };

    fn read(&self, va: u32, w: Width) -> Result<u64, Trouble> {
        self.number(va, w, false)
    }

    fn claim(&self, va: u32, w: Width) -> Result<u64, Trouble> {
        self.number(va, w, true)
    }
}
