ghost use Rattle.std.specs.Prelude.{◌≡◌, ◌≤◌, ◌+◌, ◌*◌, ◌∷◌, [], length};
ghost use Rattle.vax_arch.specs.Fields.{current_of, mode_number};
ghost use Rattle.vm_emulate.specs.Changed.{is_done, mode_change_sensed};
ghost use Rattle.vm_emulate.specs.Emulated.{Senses};
ghost use Rattle.vm_exception.specs.Pushed.{walked_of};
ghost use Rattle.vm_shadow.specs.StandsFor.{StandsFor};
ghost use Rattle.vm_state.specs.Initiate.{initiate, more_privileged};
ghost use Rattle.vm_state.specs.Partition.{guest_of};
ghost use Rattle.vm_state.specs.Pushes.{push_walked};
ghost use Rattle.vm_state.specs.Sensitive.{change_mode, mode_changed};
ghost use Rattle.vm_state.specs.declared.exception.Exc.TheVariants.{Chm};
ghost use Rattle.vm_state.specs.State.{pc_of, pointer_of, state_of};

use crate::Emulated;
use crate::halts::{registers_after, stop, stop_past_memory};
use vax_arch::Mode;
use vax_hw::Hardware;
use vax_table::Trapped;
use vm_exception::{Initiated, Walked, initiate, walk_pushes};
use vm_shadow::Shadow;
use vm_state::{Exc, GuestState, StopCode, StopReason, pointer};

/// The more privileged of the mode that CHM names and the current one.
fn mode_entered(g: &GuestState, to: Mode) -> Mode
    ensures { result ≡ more_privileged to (current_of g.now.psl.0) }
{
    let current = g.psl.current();
    if to.number() <= current.number() {
        to
    } else {
        current
    }
}

/// The walk of what CHM pushes on a mode's stack.
fn walk_push<H: Hardware>(machine: &H, g: &GuestState, m: Mode, code: u32) -> Walked
    requires { 512 * (g.now.base + g.now.pages) ≤ length (H.machine machine.now).memory }
    ensures { walked_of result ≡ push_walked (guest_of (H.machine machine.now).memory g.now) m
        (pointer_of (state_of g.now) (mode_number m)) (g.now.psl.0 ∷ pc_of (state_of g.now) ∷ code ∷ []) }
{
    let sp = pointer(g, usize::from(m.number()));
    walk_pushes(machine, g, m, sp, &[g.psl.0, g.r[15], code])
}

/// Initiates CHM; the outcome of that is its own completion.
fn begin<H: Hardware>(
    machine: &mut H,
    s: &mut Shadow,
    g: &mut GuestState,
    to: Mode,
    code: u32,
) -> Emulated
    requires { StandsFor (H.machine machine.old).memory s.old g.old }
    ensures { Senses (mode_changed (initiate (guest_of (H.machine machine.old).memory g.old) (Chm to code)))
        (H.machine machine.old) s.old g.old result (H.machine machine.new) s.new g.new }
{
    match initiate(machine, s, g, Exc::Chm { to, code }) {
        Initiated::Taken | Initiated::KernelStackBad => Emulated::Done,
        Initiated::Stopped(code) => Emulated::Stopped(code),
    }
}

/// Changes the mode of a guest that is past CHM. Where that goes to another stack than the kernel's, the push is walked
/// first, and trouble of it is a fault of CHM.
fn enter<H: Hardware>(
    machine: &mut H,
    s: &mut Shadow,
    g: &mut GuestState,
    to: Mode,
    code: u32,
) -> Emulated
    requires { StandsFor (H.machine machine.old).memory s.old g.old }
    ensures { Senses (mode_change_sensed (guest_of (H.machine machine.old).memory g.old) to code)
        (H.machine machine.old) s.old g.old result (H.machine machine.new) s.new g.new }
{
    let m = mode_entered(g, to);
    if m == Mode::Kernel {
        return begin(machine, s, g, to, code);
    }
    match walk_push(machine, g, m, code) {
        Walked::Homes(_) => begin(machine, s, g, to, code),
        Walked::Faulty(fault) => Emulated::Fault(Exc::Memory(fault)),
        Walked::PastMemory => stop_past_memory(g),
    }
}

/// Whether an instruction was done.
fn is_done(emulated: &Emulated) -> bool
    ensures { result ≡ is_done emulated.now }
{
    matches!(emulated, Emulated::Done)
}

/// CHM: on the interrupt stack it stops the guest.
pub fn change_mode<H: Hardware>(
    machine: &mut H,
    s: &mut Shadow,
    g: &mut GuestState,
    t: &Trapped,
    to: Mode,
) -> Emulated
    requires { StandsFor (H.machine machine.old).memory s.old g.old }
    ensures { Senses (change_mode (guest_of (H.machine machine.old).memory g.old) t.now to)
        (H.machine machine.old) s.old g.old result (H.machine machine.new) s.new g.new }
{
    if g.psl.on_interrupt_stack() {
        return stop(g, StopCode(StopReason::ChangedMode));
    }
    let before = g.r;
    g.r = registers_after(t);
    let result = enter(machine, s, g, to, t.a);
    if !is_done(&result) {
        g.r = before;
    }
    result
}
