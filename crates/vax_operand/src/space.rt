ghost use Rattle.std.specs.Prelude.{◌≡◌, ◌<◌, ◌^◌, ℕ, Result, IfOk};
ghost use Rattle.vv_base.specs.Width.{size_of};
ghost use Rattle.vax_arch.specs.declared.mode.Intent.{Intent};
ghost use Rattle.vax_arch.specs.declared.mode.Intent.TheVariants.{Read, Write};
ghost use Rattle.vax_table.specs.Interaction.{Cause, number_at};
ghost use Rattle.vax_table.specs.Troubles.{with_trouble};

use vax_table::evaluation::Trouble;
use vv_base::Width;

/// What an instruction reaches in one mode: for reading and for writing, the byte at an address, or why there is none.
/// An error is that of the first byte of the reference that has trouble, so it is never `ReservedOperand`. Addresses are
/// modulo 2^32.
pub trait Space {
    ghost space: { Self → Intent → ℕ → Result ℕ Cause };

    /// The number in the width's bytes from `va`, the lowest first.
    fn read(&self, va: u32, w: Width) -> Result<u64, Trouble>
        ensures number { with_trouble result ≡ number_at (space self.now) Read (size_of w) va }
        ensures fits { IfOk result (λ v. v < 256 ^ size_of w) };

    /// The number in the width's bytes from `va`, the lowest first, each of which has a place for writing: one access with
    /// write intent.
    fn claim(&self, va: u32, w: Width) -> Result<u64, Trouble>
        ensures number { with_trouble result ≡ number_at (space self.now) Write (size_of w) va }
        ensures fits { IfOk result (λ v. v < 256 ^ size_of w) };
}
