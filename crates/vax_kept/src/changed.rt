ghost use Rattle.std.specs.Prelude.{◌≡◌, ◌+◌, ◌<◌, sum, take};
ghost use Rattle.vax_kept.specs.Changed.{AreAlikeBut, all_leave_registers, changed_register, is_still, leaves_registers, operand_register, register_at, result_register, target_register};

use vax_normal::sum_of;
use vax_operand::{Base, Kind, Operand, Prepared};
use vax_table::{Operation, Target};
use vv_base::Width;

/// Whether a way to an address leaves each register as it is.
fn is_still(base: Base) -> bool
    ensures { result ≡ is_still base }
{
    !matches!(
        base,
        Base::Decrement | Base::Increment | Base::IncrementDeferred
    )
}

/// Whether an operand leaves each register as it is.
fn leaves_registers(kind: Kind) -> bool
    ensures { result ≡ leaves_registers kind }
{
    match kind {
        Kind::Read(base)
        | Kind::Modify(base)
        | Kind::Write(base)
        | Kind::Address(base)
        | Kind::Bits(base) => is_still(base),
        _ => true,
    }
}

/// Whether operands leave each register as it is.
fn all_leave_registers(operands: &[Operand]) -> bool
    ensures { result ≡ all_leave_registers operands.now }
{
    let [operand, rest @ ..] = operands else {
        return true;
    };
    leaves_registers(operand.kind) && all_leave_registers(rest)
}

/// The register that is an operand's place, or R0, where it has none.
fn register_of(operand: &Operand) -> u8
    ensures { result ≡ operand_register operand.now.kind operand.now.spec.reg }
{
    match operand.kind {
        Kind::ModifyRegister | Kind::WriteRegister | Kind::BitsRegister => operand.spec.reg,
        _ => 0,
    }
}

/// The register that is the place of the operand of this number, from 0 on.
fn register_at(i: usize, operands: &[Operand]) -> u8
    ensures { result ≡ register_at i operands.now }
{
    let [operand, rest @ ..] = operands else {
        return 0;
    };
    if i == 0 {
        return register_of(operand);
    }
    register_at(i - 1, rest)
}

/// The register that gets an operation's result, or R0, where none does.
fn target_register(target: Target, operands: &[Operand]) -> u8
    ensures { result ≡ target_register target operands.now }
{
    match target {
        Target::CodesOnly => 0,
        Target::First => register_at(0, operands),
        Target::Second => register_at(1, operands),
        Target::Third => register_at(2, operands),
    }
}

/// The register that an operation changes after its operands, if it changes one of R0 to R14 at most; else 15.
fn result_register(operation: Operation, operands: &[Operand]) -> u8
    ensures { result ≡ result_register operation operands.now }
{
    match operation {
        Operation::Compute(_, Width::Quad, _, _) => 15,
        Operation::Compute(_, _, _, target) => target_register(target, operands),
        Operation::Branch(_) | Operation::BranchOnLowBit(_) => 0,
        Operation::SubtractOne(_) => register_at(0, operands),
        Operation::AddOne(_) | Operation::BranchOnBit(..) => register_at(1, operands),
        _ => 15,
    }
}

/// The register that an instruction changes, if it changes one of R0 to R14 at most; else 15.
pub fn changed_register(prepared: &Prepared) -> u8
    ensures { result ≡ changed_register prepared.now.operation prepared.now.operands.items }
{
    let operands = prepared.operands.as_slice();
    if all_leave_registers(operands) {
        result_register(prepared.operation, operands)
    } else {
        15
    }
}

/// The sum of R0 to R14, by that of before one of them changed; or, where this is register 15, anew.
#[inline(always)]
pub fn sum_after(total: u64, changed: u8, before: &[u32; 16], after: &[u32; 16]) -> u64
    requires sum { total ≡ sum (take 15 before.now) }
    requires alike { changed < 15 → AreAlikeBut changed before.now after.now }
    ensures { result ≡ sum (take 15 after.now) }
{
    let n = usize::from(changed);
    if n < 15 {
        total - u64::from(before[n]) + u64::from(after[n])
    } else {
        sum_of(after)
    }
}
