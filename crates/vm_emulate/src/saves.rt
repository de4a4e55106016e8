ghost use Rattle.std.specs.Prelude.{[], ◌≡◌, ◌≤◌, ◌+◌, ◌*◌, ◌%◌, ◌∷◌, ◌==◌, if◌then◌else◌, false, length};
ghost use Rattle.vax_arch.specs.Fields.{ipl_of, is_on_interrupt_stack};
ghost use Rattle.vm_emulate.specs.Emulated.{Senses};
ghost use Rattle.vm_emulate.specs.Readings.{popped_of};
ghost use Rattle.vm_exception.specs.Wrote.{Wrote};
ghost use Rattle.vm_shadow.specs.Shadowed.{Keeps, own};
ghost use Rattle.vm_shadow.specs.StandsFor.{StandsFor};
ghost use Rattle.vm_state.specs.Contexts.{after_pops, long_frames, longs_stored, on_interrupt, on_interrupt_stack, saved_longs, saves_context};
ghost use Rattle.vm_state.specs.Partition.{guest_of};
ghost use Rattle.vm_state.specs.Registers.{with_ipl};
ghost use Rattle.vm_state.specs.State.{HasPlace, pointer_of, state_of};

use crate::Emulated;
use crate::halts::stop_past_memory;
use crate::loads::is_block_past;
use crate::reading::Unread;
use crate::returns::{Popped, read_popped};
use vax_arch::Psl;
use vax_hw::Hardware;
use vax_table::Trapped;
use vm_shadow::Shadow;
use vm_state::{Exc, GuestState, pointer, stack_in};

/// The PSL's bit of the interrupt stack, and IPL 1.
const INTERRUPT_STACK: u32 = 0x0400_0000;

const FIRST_LEVEL: u32 = 0x1_0000;

/// KSP, ESP, SSP and USP.
fn pointers(g: &GuestState) -> [u32; 4]
    ensures { result ≡ pointer_of (state_of g.now) 0 ∷ pointer_of (state_of g.now) 1 ∷ pointer_of (state_of g.now) 2 ∷ pointer_of (state_of g.now) 3 ∷ [] }
{
    [pointer(g, 0), pointer(g, 1), pointer(g, 2), pointer(g, 3)]
}

/// What the block keeps of a guest, in its order: the stack pointers of the four modes, R0 to R13, and the PC and PSL that
/// were popped.
fn saved_longs(g: &GuestState, popped: Popped) -> [u32; 20]
    ensures { result ≡ saved_longs (state_of g.now) (popped_of popped) }
{
    let mut longs = [0; 20];
    longs[..4].copy_from_slice(&pointers(g));
    longs[4..18].copy_from_slice(&g.r[..14]);
    longs[18] = popped.pc;
    longs[19] = popped.psl;
    longs
}

/// Writes longwords of the guest's memory, one after another, from a physical address that is a multiple of 4.
fn store_longs<H: Hardware>(machine: &mut H, s: &mut Shadow, at: u32, longs: &[u32])
    requires keeps { Keeps [] [] (H.machine machine.old).memory s.old }
    requires aligned { at % 4 ≡ 0 }
    requires inside { at + 4 * length longs.now ≤ 512 * s.old.pages }
    ensures { Wrote (long_frames at (length longs.now)) (longs_stored at longs.now
        (own (H.machine machine.old).memory s.old)) (H.machine machine.old) s.old (H.machine machine.new) s.new }
{
    let mut place = at;
    for long in longs {
        s.store_long(machine, place, *long);
        place += 4;
    }
}

/// R14 is after the PC and the PSL that were popped, and PC is the next instruction's.
fn go_after_pops(g: &mut GuestState, next_pc: u32)
    ensures state { state_of g.new ≡ after_pops (state_of g.old) next_pc }
    ensures place { HasPlace g.old.pages g.old.base g.old.start g.new }
{
    g.r[14] = g.r[14].wrapping_add(8);
    g.r[15] = next_pc;
}

/// The PSL on the interrupt stack, at IPL 1 at least.
fn interrupt_psl(psl: Psl) -> Psl
    requires { is_on_interrupt_stack psl.0 ≡ false }
    ensures { result.0 ≡ with_ipl (on_interrupt_stack psl.0) (if ipl_of psl.0 == 0 then 1 else ipl_of psl.0) }
{
    if psl.ipl() == 0 {
        Psl(psl.0 + INTERRUPT_STACK + FIRST_LEVEL)
    } else {
        Psl(psl.0 + INTERRUPT_STACK)
    }
}

/// Goes over to the interrupt stack, at IPL 1 at least. Where that stack is in use, nothing changes.
fn go_on_interrupt_stack(g: &mut GuestState)
    ensures state { state_of g.new ≡ on_interrupt (state_of g.old) }
    ensures place { HasPlace g.old.pages g.old.base g.old.start g.new }
{
    if g.psl.on_interrupt_stack() {
        return;
    }
    let isp = g.stacks[4];
    g.stacks[stack_in(g.psl)] = g.r[14];
    g.r[14] = isp;
    g.psl = interrupt_psl(g.psl);
}

/// SVPCTX: PC and PSL are popped from the stack in use, the context is saved in the block at PCBB, and the guest goes over
/// to the interrupt stack. A pop's fault, or a place beyond memory, comes before anything is written.
pub fn save_context<H: Hardware>(
    machine: &mut H,
    s: &mut Shadow,
    g: &mut GuestState,
    t: &Trapped,
) -> Emulated
    requires { StandsFor (H.machine machine.old).memory s.old g.old }
    ensures { Senses (saves_context (guest_of (H.machine machine.old).memory g.old) t.now.next_pc)
        (H.machine machine.old) s.old g.old result (H.machine machine.new) s.new g.new }
{
    match read_popped(machine, g, g.r[14]) {
        Ok(_) if is_block_past(g) => stop_past_memory(g),
        Ok(popped) => {
            go_after_pops(g, t.next_pc);
            let longs = saved_longs(g, popped);
            store_longs(machine, s, g.pcbb, &longs);
            go_on_interrupt_stack(g);
            Emulated::Done
        }
        Err(Unread::Faulty(fault)) => Emulated::Fault(Exc::Memory(fault)),
        Err(Unread::PastMemory) => stop_past_memory(g),
    }
}
