ghost use Rattle.std.specs.Prelude.{◌≡◌, ◌+◌, ◌<◌, ◌≤◌, ◌^◌, IsTrue, false, true, None};
ghost use Rattle.vm_clock.specs.Ticks.{ticks_to_wrap};
ghost use Rattle.vm_exception.specs.Noted.{note_of};
ghost use Rattle.vm_simulation_laws.specs.Paid.{Pays};
ghost use Rattle.vm_shadow.specs.StandsFor.{StandsFor};
ghost use Rattle.vm_simulation_laws.specs.Bursts.{IsQuiet};
ghost use Rattle.vm_state.specs.Partition.{guest_of};
ghost use Rattle.vm_state.specs.State.{state_of};
ghost use Rattle.vm_state.specs.Touches.{touching_steps};
ghost use Rattle.vm_stepping.specs.Advances.{Advances, Idles, IsBegun, Proceeds, to_do};
ghost use Rattle.vm_stepping.specs.Made.{steps_in, underway};
ghost use Rattle.vm_stepping.specs.Noted.{NotesOne};
ghost use Rattle.vm_stepping.specs.Pays.{PaysOn};

use crate::Counts;
use crate::bursts::{burst, count_more};
use crate::made::{count_step, take_interrupt};
use crate::met::meet;
use vax_hw::{Exit, Hardware};
use vm_console::Port;
use vm_exception::{Note, begin, due};
use vm_shadow::Shadow;
use vm_state::{Exc, GuestState};

/// The steps that are left of a guest, of which the next may be counted already: then it reaches the guest's instruction.
#[derive(Clone, Copy, Debug, PartialEq, Eq)]
struct Left {
    steps: u32,
    counted: bool,
}

impl Left {
    /// Steps of which none is counted.
    fn of(steps: u32) -> Left
        ensures { result ≡ record { steps = steps; counted = false } }
    {
        Left {
            steps,
            counted: false,
        }
    }
}

/// How many instructions the machine may run at most: the steps that are left, or those up to the clock's next wrap.
fn budget(g: &GuestState, left: u32) -> u32
    requires some { 1 ≤ left }
    ensures some { 1 ≤ result }
    ensures most { result ≤ left }
    ensures within { IsTrue g.now.clock.run → result ≤ ticks_to_wrap g.now.clock }
{
    match g.clock.steps_to_event() {
        Some(ticks) => u64::from(left).min(ticks) as u32,
        None => left,
    }
}

/// Runs the machine for a guest whose next step is counted, and handles its exit.
fn run_on<H: Hardware, T: Port>(
    machine: &mut H,
    s: &mut Shadow,
    g: &mut GuestState,
    port: &mut T,
    counts: &mut Counts,
    note: &mut Note,
    left: u32,
) -> Left
    requires stands { StandsFor (H.machine machine.old).memory s.old g.old }
    requires some { 1 ≤ left }
    requires quiet { IsQuiet 1 (state_of g.old) }
    requires room { steps_in counts.old + left < 2 ^ 32 }
    ensures proceeds { Proceeds T.may (record { steps = left; counted = true }) result
        (underway port.old (H.machine machine.old) s.old g.old counts.old)
        (underway port.new (H.machine machine.new) s.new g.new counts.new) }
    ensures pays { PaysOn (record { steps = left; counted = true }) result (H.machine machine.old) s.old g.old (H.machine machine.new) s.new g.new }
    ensures falls { to_do result s.new < to_do (record { steps = left; counted = true }) s.old }
    ensures note { NotesOne (record { steps = left; counted = true }) result (H.machine machine.old) g.old (H.machine machine.new) g.new note.new }
{
    let ran = burst(machine, s, g, budget(g, left));
    counts.retire(ran.done, ran.terms);
    *note = Note::Nothing;
    let left = left - ran.done;
    match &ran.exit {
        Exit::Budget => Left::of(left),
        Exit::Arithmetic { kind } => {
            *note = begin(machine, s, g, port, Exc::Arithmetic(*kind));
            Left::of(left)
        }
        exit => {
            if meet(machine, s, g, port, counts, note, exit) {
                Left::of(left - 1)
            } else {
                Left {
                    steps: left,
                    counted: true,
                }
            }
        }
    }
}

/// The steps that are counted of a guest, modulo 2^32.
fn steps_of(g: &GuestState) -> u32
    ensures is { result ≡ g.now.steps }
    ensures small { result < 2 ^ 32 }
{
    g.steps
}

/// A guest that waits, whose next step is counted, is idle in it and in those that are left, up to its clock's next wrap.
fn idle(g: &mut GuestState, counts: &mut Counts, left: u32) -> Left
    requires some { 1 ≤ left }
    requires room { steps_in counts.old + left < 2 ^ 32 }
    ensures { Idles left result g.old counts.old g.new counts.new }
{
    let _counted = steps_of(g);
    let steps = budget(g, left);
    count_more(g, steps - 1);
    counts.idle += u64::from(steps);
    Left::of(left - steps)
}

/// Begins the next step of a guest. One that has stopped is stopped in all that are left; an interrupt that is due is taken, and
/// a guest that waits is idle. Else the step is counted, and reaches the guest's instruction.
fn begin_step<H: Hardware, T: Port>(
    machine: &mut H,
    s: &mut Shadow,
    g: &mut GuestState,
    port: &mut T,
    counts: &mut Counts,
    note: &mut Note,
    left: u32,
) -> Left
    requires stands { StandsFor (H.machine machine.old).memory s.old g.old }
    requires some { 1 ≤ left }
    requires room { steps_in counts.old + left < 2 ^ 32 }
    ensures proceeds { Proceeds T.may (record { steps = left; counted = false }) result
        (underway port.old (H.machine machine.old) s.old g.old counts.old)
        (underway port.new (H.machine machine.new) s.new g.new counts.new) }
    ensures pays { PaysOn (record { steps = left; counted = false }) result (H.machine machine.old) s.old g.old (H.machine machine.new) s.new g.new }
    ensures falls { to_do result s.new < to_do (record { steps = left; counted = false }) s.old }
    ensures note { NotesOne (record { steps = left; counted = false }) result (H.machine machine.old) g.old (H.machine machine.new) g.new note.new }
{
    *note = Note::Nothing;
    if g.halt.is_some() {
        counts.stopped += u64::from(left);
        return Left::of(0);
    }
    count_step(g);
    if let Some(source) = due(g) {
        take_interrupt(machine, s, g, port, counts, note, source);
        return Left::of(left - 1);
    }
    if g.waiting {
        return idle(g, counts, left);
    }
    Left {
        steps: left,
        counted: true,
    }
}

/// Goes on with the steps that are left.
fn proceed<H: Hardware, T: Port>(
    machine: &mut H,
    s: &mut Shadow,
    g: &mut GuestState,
    port: &mut T,
    counts: &mut Counts,
    note: &mut Note,
    left: Left,
) -> Left
    requires stands { StandsFor (H.machine machine.old).memory s.old g.old }
    requires some { 1 ≤ left.steps }
    requires begun { IsBegun left g.old }
    requires room { steps_in counts.old + left.steps < 2 ^ 32 }
    ensures proceeds { Proceeds T.may left result (underway port.old (H.machine machine.old) s.old g.old counts.old)
        (underway port.new (H.machine machine.new) s.new g.new counts.new) }
    ensures pays { PaysOn left result (H.machine machine.old) s.old g.old (H.machine machine.new) s.new g.new }
    ensures falls { to_do result s.new < to_do left s.old }
    ensures note { NotesOne left result (H.machine machine.old) g.old (H.machine machine.new) g.new note.new }
{
    if left.counted {
        run_on(machine, s, g, port, counts, note, left.steps)
    } else {
        begin_step(machine, s, g, port, counts, note, left.steps)
    }
}

/// Takes `steps` steps of a guest over the machine and its shadow page tables, and shows on its port what it shows. Answers how
/// many of each kind there were. A note is made of a single step.
fn advance_noting<H: Hardware, T: Port>(
    machine: &mut H,
    s: &mut Shadow,
    g: &mut GuestState,
    port: &mut T,
    note: &mut Note,
    steps: u32,
) -> Counts
    requires stands { StandsFor (H.machine machine.old).memory s.old g.old }
    ensures advances { Advances T.may steps port.old port.new (H.machine machine.old) s.old g.old (H.machine machine.new) s.new g.new result }
    ensures pays { Pays (touching_steps steps (guest_of (H.machine machine.old).memory g.old)) (H.machine machine.old) s.old (H.machine machine.new) s.new }
    ensures note { steps ≡ 1 → note.new ≡ note_of (guest_of (H.machine machine.old).memory g.old) }
{
    let mut counts = Counts::none();
    let mut left = Left::of(steps);
    while left.steps > 0 {
        left = proceed(machine, s, g, port, &mut counts, note, left);
    }
    counts
}

/// Takes `steps` steps of a guest over the machine and its shadow page tables, and shows on its port what it shows. Answers how
/// many of each kind there were.
pub fn advance<H: Hardware, T: Port>(
    machine: &mut H,
    s: &mut Shadow,
    g: &mut GuestState,
    port: &mut T,
    steps: u32,
) -> Counts
    requires stands { StandsFor (H.machine machine.old).memory s.old g.old }
    ensures advances { Advances T.may steps port.old port.new (H.machine machine.old) s.old g.old (H.machine machine.new) s.new g.new result }
    ensures pays { Pays (touching_steps steps (guest_of (H.machine machine.old).memory g.old)) (H.machine machine.old) s.old (H.machine machine.new) s.new }
{
    let mut note = Note::Nothing;
    advance_noting(machine, s, g, port, &mut note, steps)
}

/// One step of a guest: how many of each kind there were, which is one in all, and its note.
#[derive(Clone, Copy, Debug, PartialEq, Eq)]
pub struct Once {
    pub counts: Counts,
    pub note: Note,
}

/// Takes one step of a guest as `advance` does, and answers its note besides.
pub fn advance_once<H: Hardware, T: Port>(
    machine: &mut H,
    s: &mut Shadow,
    g: &mut GuestState,
    port: &mut T,
) -> Once
    requires stands { StandsFor (H.machine machine.old).memory s.old g.old }
    ensures advances { Advances T.may 1 port.old port.new (H.machine machine.old) s.old g.old (H.machine machine.new) s.new g.new result.counts }
    ensures pays { Pays (touching_steps 1 (guest_of (H.machine machine.old).memory g.old)) (H.machine machine.old) s.old (H.machine machine.new) s.new }
    ensures note { result.note ≡ note_of (guest_of (H.machine machine.old).memory g.old) }
{
    let mut note = Note::Nothing;
    let counts = advance_noting(machine, s, g, port, &mut note, 1);
    Once { counts, note }
}
