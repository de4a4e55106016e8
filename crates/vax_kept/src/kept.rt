ghost use Rattle.std.specs.Prelude.{◌≡◌, ◌+◌, ◌≤◌, ◌<◌, true, ℕ, [], length, slice_index, take, IfSome};
ghost use Rattle.vax_table.specs.Operations.{operation_of};
ghost use Rattle.vax_table.specs.Plan.{is_planned};
ghost use Rattle.vax_table.specs.Reading.{Whole, decoded_at};
ghost use Rattle.vax_table.specs.Spelling.{view};
ghost use Rattle.vax_normal.specs.InMemory.{IsInMemory, in_memory-prop};
ghost use Rattle.vax_normal.specs.Normal.{IsNormal, normal-prop};
ghost use Rattle.vax_normal.specs.Rarer.{IsRarer, rarer-prop};
ghost use Rattle.vax_kept.specs.Changed.{changed_register};

use crate::changed::changed_register;
use arrayvec::ArrayVec;
use vax_decode::Decoded;
use vax_normal::{InMemory, Normal, Rarer};
use vax_operand::Prepared;
use vax_table::{Operation, operation};

/// An instruction that was decoded and prepared, the bytes that spell it, and those that came after them. What is looked at to do
/// it at once, up to the opcode, lies together, so that it is in few lines of the host's cache.
#[derive(Drop)]
pub struct Kept {
    /// Its rarer normal form, if it has one.
    pub rarer: Option<Rarer>,
    /// Its normal form in memory, if it refers to memory and has one.
    pub in_memory: Option<InMemory>,
    /// Its normal form, if it has one.
    pub normal: Option<Normal>,
    /// The register that it changes, if it changes one of R0 to R14 at most; else 15.
    pub changed: u8,
    /// The first place in a page from which on it lies over the page's end, if it is one of the instructions that `plan_into`
    /// plans; else 0.
    pub end: u32,
    /// That place, if the instruction also has at most eight bytes; else 0.
    pub near_end: u32,
    pub bytes: [u8; 24],
    pub prepared: Prepared,
    ghost sized: { length bytes ≡ 24 },
    ghost small: { (i : ℕ) → slice_index bytes i < 256 },
    ghost spelled: { decoded_at (take prepared.decoded.length bytes) ≡ Whole (view prepared.decoded) [] },
    ghost whole: { 0 < end → end + prepared.decoded.length ≡ 513 },
    ghost short: { 0 < end → prepared.decoded.length ≤ 24 },
    ghost near_whole: { 0 < near_end → near_end + prepared.decoded.length ≡ 513 },
    ghost near_short: { 0 < near_end → prepared.decoded.length ≤ 8 },
    ghost near_low: { near_end ≤ 512 },
    ghost near_planned: { 0 < near_end → is_planned (operation_of prepared.decoded.opcode) ≡ true },
    ghost changes: { changed ≡ changed_register prepared.operation prepared.operands.items },
    ghost normal_form: { IfSome normal (λ n. IsNormal n (view prepared.decoded)) } by { normal-prop normal (view prepared.decoded) },
    ghost memory_form: { IfSome in_memory (λ n. IsInMemory n (view prepared.decoded)) } by { in_memory-prop in_memory (view prepared.decoded) },
    ghost rarer_form: { IfSome rarer (λ n. IsRarer n (view prepared.decoded)) } by { rarer-prop rarer (view prepared.decoded) },
    ghost planned: { 0 < end → is_planned (operation_of prepared.decoded.opcode) ≡ true },
}

/// Whether an operation is one of those that `plan_into` plans.
pub fn is_planned(what: Operation) -> bool
    ensures { result ≡ is_planned what }
{
    match what {
        Operation::Other
        | Operation::Sensitive(_)
        | Operation::MoveStatus
        | Operation::Probe(_)
        | Operation::Breakpoint
        | Operation::Customer => false,
        _ => true,
    }
}

/// From which place in a page on an instruction that is kept lies over the page's end, as far as that is asked.
pub fn end_of(decoded: &Decoded) -> u32
    ensures whole { 0 < result → result + decoded.now.length ≡ 513 }
    ensures short { 0 < result → decoded.now.length ≤ 24 }
    ensures planned { 0 < result → is_planned (operation_of decoded.now.opcode) ≡ true }
{
    if is_planned(operation(decoded.opcode)) && decoded.length <= 24 {
        513 - u32::from(decoded.length)
    } else {
        0
    }
}

/// What `end_of` gives, if the instruction has at most eight bytes; else 0.
pub fn near_end_of(decoded: &Decoded) -> u32
    ensures whole { 0 < result → result + decoded.now.length ≡ 513 }
    ensures short { 0 < result → decoded.now.length ≤ 8 }
    ensures low { result ≤ 512 }
    ensures planned { 0 < result → is_planned (operation_of decoded.now.opcode) ≡ true }
{
    if (1..=8).contains(&decoded.length) {
        end_of(decoded)
    } else {
        0
    }
}

impl Kept {
    /// WAIT, which fills the places where nothing was decoded yet.
    #[tactic(auto, unfolding(vax_table::specs::Reading::decoded_at))]
    pub fn wait() -> Kept {
        let mut bytes = [0; 24];
        bytes[0] = 0xFD;
        bytes[1] = 1;
        let prepared = Prepared::new(Decoded {
            opcode: 0xFD,
            wait: true,
            length: 2,
            specs: ArrayVec::new(),
        });
        Kept {
            bytes,
            changed: changed_register(&prepared),
            normal: None,
            in_memory: None,
            rarer: None,
            prepared,
            end: 0,
            near_end: 0,
        }
    }
}
