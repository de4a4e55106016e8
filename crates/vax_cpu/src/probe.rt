ghost use Rattle.std.specs.Prelude.{◌≡◌, ◌+◌, ◌*◌, ◌/◌, ◌%◌, ◌^◌, [], not, slice_index};
ghost use Rattle.vax_hw.specs.Machine.{machine_tables};
ghost use Rattle.vax_hw.specs.Real.{real_probe};
ghost use Rattle.vax_hw.specs.RealTables.{access_judged, both_judged, is_kernels_alone, judged_by};
ghost use Rattle.vax_table.specs.Arithmetic.{bit_of};
ghost use Rattle.vax_table.specs.Effects.{effect};
ghost use Rattle.vax_table.specs.Plan.{probed};
ghost use Rattle.vax_table.specs.Probing.{last_of, probe_mode};

use vax_arch::{Intent, Mode, Prot, Psl, Pte, may};
use vax_exec::{Plan, begin};
use vax_operand::Values;
use vax_paged::{Entry, Paged};

/// The less privileged of the mode that the operand names and the previous one.
fn probe_mode(psl: Psl, named: u32) -> Mode
    ensures { result ≡ probe_mode psl.0 named }
{
    let named = Mode::from_number(named);
    let previous = psl.previous();
    if previous.number() <= named.number() {
        named
    } else {
        previous
    }
}

/// The last byte of a range of `bytes` bytes; the base, where there are none.
fn last_of(base: u32, bytes: u32) -> u32
    ensures { result ≡ last_of base bytes }
{
    if bytes == 0 {
        base
    } else {
        base.wrapping_add(bytes).wrapping_sub(1)
    }
}

/// Whether a code opens to kernel mode alone.
fn is_kernels_alone(p: Prot) -> bool
    ensures { result ≡ is_kernels_alone p }
{
    may(p, Mode::Kernel, Intent::Read) && !may(p, Mode::Executive, Intent::Read)
}

/// Whether an entry allows a mode to use a byte, where the machine judges by it.
fn judged_by(entry: Pte, m: Mode, i: Intent) -> Option<bool>
    ensures { result ≡ judged_by entry.0 m i }
{
    if entry.valid() && !is_kernels_alone(entry.prot()) {
        Some(may(entry.prot(), m, i))
    } else {
        None
    }
}

/// Both answers as one.
fn both(a: Option<bool>, b: Option<bool>) -> Option<bool>
    ensures { result ≡ both_judged a b }
{
    match (a, b) {
        (Some(a), Some(b)) => Some(a && b),
        _ => None,
    }
}

/// Whether a mode may use the byte at an address, where the machine judges that.
#[tactic(auto, unfolding(vax_hw::specs::RealTables::access_judged), using(vax_paged::proofs::Lookups::mapped))]
fn judged(space: &Paged, m: Mode, i: Intent, va: u32) -> Option<bool>
    ensures { result ≡ access_judged space.now.memory.now (machine_tables space.now.world.now) m i va }
{
    match space.entry(va / 512) {
        Entry::Found(entry) => judged_by(entry, m, i),
        Entry::NotValid | Entry::TooFar => None,
    }
}

/// Whether both bytes may be used, where the machine judges that: by one entry where they lie in one page.
fn both_judged(space: &Paged, m: Mode, i: Intent, base: u32, last: u32) -> Option<bool>
    ensures { result ≡ both_judged (access_judged space.now.memory.now (machine_tables space.now.world.now) m i base)
        (access_judged space.now.memory.now (machine_tables space.now.world.now) m i last) }
{
    let first = judged(space, m, i, base);
    if last / 512 == base / 512 {
        return first;
    }
    both(first, judged(space, m, i, last))
}

/// Whether both bytes that PROBE asks of may be used, where the machine judges that, by the mode that it names, how many bytes
/// they lie apart, and the address of the first.
pub fn judge_at(space: &Paged, i: Intent, named: u32, bytes: u32, base: u32) -> Option<bool>
    ensures { result ≡ real_probe space.now.memory.now space.now.world.now i named bytes base }
{
    let m = probe_mode(space.world.psl, named);
    both_judged(space, m, i, base, last_of(base, bytes % 0x1_0000))
}

/// Whether both bytes that PROBE asks of may be used, by its operands: the mode, the length, and the base.
pub fn judge(space: &Paged, i: Intent, o: &Values) -> Option<bool>
    ensures { result ≡ real_probe space.now.memory.now space.now.world.now i
        (slice_index o.now.values 0 % 2 ^ 32) (slice_index o.now.values 1 % 2 ^ 32)
        (slice_index o.now.values 2 % 2 ^ 32) }
{
    judge_at(space, i, o.long(0), o.long(1), o.long(2))
}

/// The status word after PROBE: Z where not both bytes may be used, and C as before.
pub fn probed_psw(is_accessible: bool, psw: u8) -> u8
    ensures { result ≡ psw / 16 * 16 + 4 * bit_of (not is_accessible) + psw % 2 }
{
    let zero = if is_accessible { 0 } else { 4 };
    psw / 16 * 16 + zero + psw % 2
}

/// PROBE after its operands: Z where not both bytes may be used, and C as before.
pub fn probed(is_accessible: bool, psw: u8, plan: &mut Plan)
    ensures { effect plan.new ≡ probed is_accessible (record { values = []; dests = []; r = plan.old.r }) psw }
{
    begin(plan, probed_psw(is_accessible, psw));
}
