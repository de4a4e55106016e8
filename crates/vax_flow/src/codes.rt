ghost use Rattle.std.specs.Prelude.{◌≡◌};
ghost use Rattle.vv_base.specs.declared.width.Width.TheVariants.{Quad};
ghost use Rattle.vax_table.specs.Arithmetic.{alu_of};
ghost use Rattle.vax_table.specs.declared.answer.AluOp.TheVariants.{Move};

/// The status word after a quadword was moved: C stays.
#[tactic(auto, unfolding(vax_table::specs::Arithmetic::alu_of))]
#[inline(always)]
pub fn moved_psw(v: u64, psw: u8) -> u8
    ensures { result ≡ (alu_of Move v 0 Quad psw).psw }
{
    let negative = if v >= 0x8000_0000_0000_0000 { 8 } else { 0 };
    let zero = if v == 0 { 4 } else { 0 };
    psw / 16 * 16 + negative + zero + psw % 2
}
