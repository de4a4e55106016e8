ghost use Rattle.std.specs.Prelude.{◌≡◌, true, sum, take, slice_index, IfSome, Ok};
ghost use Rattle.vv_base.specs.declared.width.Width.TheVariants.{Long};
ghost use Rattle.vax_arch.specs.declared.mode.Intent.TheVariants.{Read};
ghost use Rattle.vax_table.specs.Effects.{store};
ghost use Rattle.vax_table.specs.Interaction.{number_at};
ghost use Rattle.vax_table.specs.Operand.{minus, plus};
ghost use Rattle.vax_table.specs.Spelling.{IsWellFormed, view};
ghost use Rattle.vax_normal.specs.Subroutine.{IsCall, IsReturn, call_finished, return_finished};

use crate::carry_out::go_on;
use crate::make::jump_of;
use crate::total::set;
use vax_operand::{Kind, Prepared, Space};
use vax_table::Operation;
use vax_table::effect::Store;
use vv_base::Width;

/// BSBB or BSBW in normal form: a branch by a number of bytes from its own address, after a push of the address of the next
/// instruction.
#[derive(Clone, Copy)]
pub struct Call {
    pub jump: u32,
    pub length: u32,
}

impl Call {
    /// The return address, stored below SP.
    #[inline(always)]
    pub fn store(&self, r: &[u32; 16]) -> Store
        ensures { result ≡ store (minus (slice_index r.now 14) 4) Long (plus (slice_index r.now 15) self.now.length) }
    {
        Store {
            va: r[14].wrapping_sub(4),
            width: Width::Long,
            value: u64::from(r[15].wrapping_add(self.length)),
        }
    }

    /// The registers after it.
    #[inline(always)]
    pub fn finish(&self, r: &mut [u32; 16], total: u64) -> u64
        requires { total ≡ sum (take 15 r.old) }
        ensures registers { r.new ≡ call_finished self.now r.old }
        ensures sum { result ≡ sum (take 15 r.new) }
    {
        let sp = r[14].wrapping_sub(4);
        go_on(r, self.jump, total);
        set(r, 14, sp, total)
    }
}

/// The normal form of BSBB or BSBW.
pub fn call_of(prepared: &Prepared) -> Option<Call>
    requires { IsWellFormed (view prepared.now.decoded) }
    ensures { IfSome result (λ n. IsCall n (view prepared.now.decoded)) }
{
    let length = u32::from(prepared.decoded.length);
    match (prepared.operation, prepared.operands.as_slice()) {
        (Operation::CallSubroutine, [x]) => match x.kind {
            Kind::Branch(displacement) => Some(Call {
                jump: jump_of(displacement, length),
                length,
            }),
            _ => None,
        },
        _ => None,
    }
}

/// Whether an instruction is RSB.
pub fn is_return(prepared: &Prepared) -> bool
    requires { IsWellFormed (view prepared.now.decoded) }
    ensures { result ≡ true → IsReturn (view prepared.now.decoded) }
{
    match (prepared.operation, prepared.operands.as_slice()) {
        (Operation::LeaveSubroutine, []) => true,
        _ => false,
    }
}

/// The return address at SP, if it is in a space.
#[inline(always)]
pub fn return_address<S: Space>(space: &S, r: &[u32; 16]) -> Option<u32>
    ensures { IfSome result (λ pc. number_at (S.space space.now) Read 4 (slice_index r.now 14) ≡ Ok pc) }
{
    match space.read(r[14], Width::Long) {
        Ok(pc) => Some(pc as u32),
        Err(_) => None,
    }
}

/// The registers after a return to an address.
#[inline(always)]
pub fn return_to(pc: u32, r: &mut [u32; 16], total: u64) -> u64
    requires { total ≡ sum (take 15 r.old) }
    ensures registers { r.new ≡ return_finished pc r.old }
    ensures sum { result ≡ sum (take 15 r.new) }
{
    let sp = r[14].wrapping_add(4);
    let total = set(r, 14, sp, total);
    r[15] = pc;
    total
}
