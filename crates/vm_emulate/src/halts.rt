ghost use Rattle.std.specs.Prelude.{◌≡◌, ◌∷◌, ◌++◌, [], Some, slice_index, true};
ghost use Rattle.vm_emulate.specs.declared.emulated.Emulated.TheVariants.{Done, PastMemory, Stopped};
ghost use Rattle.vm_state.specs.Sensitive.{past_instruction};
ghost use Rattle.vm_state.specs.State.{HasPlace, state_of};

use crate::Emulated;
use vax_table::Trapped;
use vm_state::{GuestState, StopCode, StopReason};

/// R0 to R14 with the operands' side effects, and the next PC.
pub fn registers_after(t: &Trapped) -> [u32; 16]
    ensures registers { result ≡ t.now.regs ++ t.now.next_pc ∷ [] }
    ensures pc { slice_index result 15 ≡ t.now.next_pc }
{
    let mut r = [0; 16];
    r[..15].copy_from_slice(&t.regs);
    r[15] = t.next_pc;
    r
}

/// The guest goes on after an instruction.
pub fn go_after(g: &mut GuestState, t: &Trapped)
    ensures state { state_of g.new ≡ past_instruction (state_of g.old) t.now }
    ensures place { HasPlace g.old.pages g.old.base g.old.start g.new }
{
    g.r = registers_after(t);
}

/// The guest stops with a code.
pub fn stop(g: &mut GuestState, code: StopCode) -> Emulated
    ensures result { result ≡ Stopped code }
    ensures state { state_of g.new ≡ record (state_of g.old) { halt = Some code } }
    ensures place { HasPlace g.old.pages g.old.base g.old.start g.new }
{
    g.halt = Some(code);
    Emulated::Stopped(code)
}

/// A place beyond memory stops the guest.
pub fn stop_past_memory(g: &mut GuestState) -> Emulated
    ensures result { result ≡ PastMemory }
    ensures state { state_of g.new ≡ record (state_of g.old) { halt = Some 0x10 } }
    ensures place { HasPlace g.old.pages g.old.base g.old.start g.new }
{
    g.halt = Some(StopCode(StopReason::PastMemory));
    Emulated::PastMemory
}

/// HALT: the guest stops after it.
pub fn halt(g: &mut GuestState, t: &Trapped) -> Emulated
    ensures result { result ≡ Stopped 6 }
    ensures state { state_of g.new ≡ record (past_instruction (state_of g.old) t.now) { halt = Some 6 } }
    ensures place { HasPlace g.old.pages g.old.base g.old.start g.new }
{
    go_after(g, t);
    stop(g, StopCode(StopReason::Halted))
}

/// WAIT: the guest waits for an interrupt.
pub fn wait(g: &mut GuestState, t: &Trapped) -> Emulated
    ensures result { result ≡ Done }
    ensures state { state_of g.new ≡ record (past_instruction (state_of g.old) t.now) { waiting = true } }
    ensures place { HasPlace g.old.pages g.old.base g.old.start g.new }
{
    go_after(g, t);
    g.waiting = true;
    Emulated::Done
}
