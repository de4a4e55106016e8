ghost use Rattle.std.specs.Prelude.{◌≡◌, ◌<◌, ◌%◌, IfOk};
ghost use Rattle.arrayvec.specs.ArrayVec.{array_vec_len};
ghost use Rattle.vv_base.specs.Bits.{is_set};
ghost use Rattle.vax_table.specs.Branches.{bit_intent, bit_made, bit_tested, branched_on_bit, byte_of_bit, with_bit};
ghost use Rattle.vax_table.specs.Effects.{effect};
ghost use Rattle.vax_table.specs.Interaction.{number_at, outcome};
ghost use Rattle.vax_table.specs.Troubles.{with_trouble};
ghost use Rattle.vax_operand.specs.Left.{left, operands_with_registers};

use crate::begun::begin;
use crate::branches::comes_out;
use vax_operand::{Dest, Space, Trouble, Values};
use vax_table::effect::Plan;
use vv_base::Width;

/// Whether bit k of a longword is set.
fn has(n: u32, k: u32) -> bool
    requires { k < 32 }
    ensures { result ≡ is_set n k }
{
    (n >> k) % 2 == 1
}

/// A longword with bit k as given.
fn with_bit(to: bool, k: u32, n: u32) -> u32
    requires { k < 32 }
    ensures { result ≡ with_bit to k n }
{
    if to { n | (1 << k) } else { n & !(1 << k) }
}

/// The byte that has a bit: positions are signed, and count from bit 0 of the byte at the base.
#[inline(always)]
pub fn byte_of_bit(base: u32, position: u32) -> u32
    ensures { result ≡ byte_of_bit base position }
{
    base.wrapping_add((position.cast_signed() >> 3).cast_unsigned())
}

/// Tests bit k of a byte or a longword, and makes it what `becomes` says. Goes on at an address where the bit was `on`.
fn test_bit(
    plan: &mut Plan,
    on: bool,
    becomes: Option<bool>,
    dest: Dest,
    w: Width,
    k: u32,
    n: u32,
    to: u32,
)
    requires bit { k < 32 }
    requires room { array_vec_len plan.old.writes < 20 }
    ensures { effect plan.new ≡ bit_tested on k n to (bit_made becomes dest w k n (effect plan.old)) }
{
    if let Some(value) = becomes {
        plan.put(dest, w, u64::from(with_bit(value, k, n)));
    }
    plan.go_if(comes_out(on, has(n, k)), to);
}

/// A byte that is read, with write intent where it may change.
fn read_byte<S: Space>(space: &S, va: u32, becomes: Option<bool>) -> Result<u64, Trouble>
    ensures number { with_trouble result ≡ number_at (S.space space.now) (bit_intent becomes) 1 va }
    ensures fits { IfOk result (λ v. v < 256) }
{
    if becomes.is_some() {
        space.claim(va, Width::Byte)
    } else {
        space.read(va, Width::Byte)
    }
}

/// BBS, BBC and those that change the bit.
#[tactic(auto, unfolding(vax_table::specs::Branches::branched_on_bit))]
pub fn branch_on_bit<S: Space>(
    space: &S,
    on: bool,
    becomes: Option<bool>,
    o: &Values,
    psw: u8,
    plan: &mut Plan,
) -> Result<(), Trouble>
    ensures { left result (effect plan.new) ≡ outcome (S.space space.now) (branched_on_bit on becomes (operands_with_registers o.now plan.old.r) psw) }
{
    let position = o.long(0);
    let to = o.long(2);
    begin(plan, psw);
    match o.dests[1] {
        Dest::Nowhere => {}
        Dest::Register(_) if position >= 32 => {
            return Err(Trouble::ReservedOperand);
        }
        Dest::Register(n) => {
            let value = plan.r.get(usize::from(n)).copied().unwrap_or(0);
            test_bit(
                plan,
                on,
                becomes,
                Dest::Register(n),
                Width::Long,
                position,
                value,
                to,
            );
        }
        Dest::Memory(base) => {
            let at = byte_of_bit(base, position);
            let value = read_byte(space, at, becomes)? as u32;
            test_bit(
                plan,
                on,
                becomes,
                Dest::Memory(at),
                Width::Byte,
                position % 8,
                value,
                to,
            );
        }
    }
    Ok(())
}
