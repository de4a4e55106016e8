ghost use Rattle.std.specs.Prelude.{◌≡◌, ◌≤◌, ◌<◌, ◌+◌, ◌*◌, ◌/◌, ◌%◌, ◌^◌, ◌-◌, IsTrue};
ghost use Rattle.vm_stepping.specs.Ran.{IsRun};
ghost use Rattle.vm_clock.specs.Ticks.{ticks_to_wrap};
ghost use Rattle.vm_shadow.specs.StandsFor.{StandsFor};
ghost use Rattle.vm_simulation_laws.specs.Bursts.{IsQuiet, counted_by, with_count};
ghost use Rattle.vm_simulation_laws.specs.Loaded.{as_run};
ghost use Rattle.vm_state.specs.State.{state_of};

use vax_arch::Psl;
use vax_hw::{Exit, Hardware, World};
use vm_shadow::Shadow;
use vm_state::GuestState;

/// What a run of the machine did: how many instructions retired, the sum of their terms of the trail modulo 2^64, and why it
/// ended.
#[derive(Clone, Copy, Debug, PartialEq, Eq)]
pub struct Ran {
    pub done: u32,
    pub terms: u64,
    pub exit: Exit,
}

/// Takes the registers and the status word back from the machine.
pub fn take_back(g: &mut GuestState, w: &World)
    ensures { g.new ≡ as_run w.now g.old }
{
    g.r = w.r;
    g.psl = Psl(w.vmpsl.0 / 256 * 256 + w.psl.0 % 256);
}

/// How many steps a run counts besides the first: the one that its last instruction stopped in, too.
fn counted_by(exit: &Exit, done: u32) -> u32
    requires { counted_by exit.now done ≤ done }
    ensures { result ≡ counted_by exit.now done }
{
    match exit {
        Exit::Budget | Exit::Arithmetic { .. } => done.saturating_sub(1),
        _ => done,
    }
}

/// Counts `steps` more steps of a guest, in none of which its clock wraps: their ticks, and the steps modulo 2^32.
pub fn count_more(g: &mut GuestState, steps: u32)
    requires { IsTrue g.old.clock.run → steps < ticks_to_wrap g.old.clock }
    ensures { g.new ≡ with_count steps g.old }
{
    g.clock.pass(steps);
    g.steps = g.steps.wrapping_add(steps);
}

/// The steps that are counted of a guest, modulo 2^32.
fn steps_of(g: &GuestState) -> u32
    ensures is { result ≡ g.now.steps }
    ensures small { result < 2 ^ 32 }
{
    g.steps
}

/// Runs the machine for a guest, whose next step is counted, by at most `budget` instructions. In as many steps no interrupt may
/// become due.
pub fn burst<H: Hardware>(machine: &mut H, s: &Shadow, g: &mut GuestState, budget: u32) -> Ran
    requires stands { StandsFor (H.machine machine.old).memory s.now g.old }
    requires some { 1 ≤ budget }
    requires quiet { IsQuiet budget (state_of g.old) }
    requires within { IsTrue g.old.clock.run → budget ≤ ticks_to_wrap g.old.clock }
    ensures { IsRun budget (H.machine machine.old) s.now g.old result (H.machine machine.new) g.new }
{
    let _steps = steps_of(g);
    let retired = machine.retired();
    let trail = machine.trail();
    machine.load_world(&s.world(g));
    let mut ran = Ran {
        done: 0,
        terms: 0,
        exit: machine.run(budget),
    };
    take_back(g, &machine.save_world());
    ran.done = machine.retired().wrapping_sub(retired) as u32;
    ran.terms = machine.trail().wrapping_sub(trail);
    count_more(g, counted_by(&ran.exit, ran.done));
    ran
}
