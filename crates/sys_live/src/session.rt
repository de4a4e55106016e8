ghost use Rattle.std.specs.Prelude.{◌≡◌, ◌<◌, ◌≤◌, ◌+◌, ◌*◌, All, IfOk, false, length, map, vec_len};
ghost use Rattle.sys_runs.specs.Besides.{MissesArePaid};
ghost use Rattle.sys_live.specs.Lives.{LivesRun};
ghost use Rattle.sys_live.specs.Made.{GoesOnShowing, MakesTyped};
ghost use Rattle.sys_runs.specs.Rounds.{MakesRounds};
ghost use Rattle.sys_script.specs.Events.{AreEvents};
ghost use Rattle.sys_devices.specs.Screens.{AreScreens};
ghost use Rattle.sys_objects.specs.Condition.{IsConfig};
ghost use Rattle.sys_system.specs.System.{IsInMachine, IsSystem};
ghost use Rattle.vm_stepping.specs.Made.{steps_in};

use crate::typing::{Count, Typing, read_round};
use std::alloc::Global;
use sys_devices::{Screen, echo, screens_of};
use sys_objects::Config;
use sys_runs::{Ran, make_rounds};
use sys_script::{Event, typed_law};
use sys_system::{PowerFault, System};
use vax_hw::Hardware;
use vv_io::{Drive, Keyboard, Lines, NoProgress, Sink};

/// What is left of a run that was typed: what is left of any run, its rounds, whether what was to be shown of them is cut, and how
/// the typing stands: it goes on where all rounds were made.
#[derive(Clone, Copy, Debug, PartialEq, Eq)]
pub struct Lived {
    pub ran: Ran,
    pub rounds: u32,
    pub is_cut: bool,
    pub typing: Typing,
}

/// How the rounds went.
#[derive(Clone, Copy, Debug, PartialEq, Eq)]
pub struct Went {
    pub is_cut: bool,
    pub typing: Typing,
}

/// Shows what terminals were shown since the last time, where nothing was cut before; whether something is cut then.
fn show_news<O: Sink, L: Lines>(
    screens: &mut Vec<Screen>,
    lines: &mut L,
    is_cut: bool,
    out: &mut O,
) -> bool
    requires there { All (λ screen. screen.line < 32) screens.old.items }
    ensures goes_on { GoesOnShowing is_cut result (L.lines lines.new) screens.old.items screens.new.items (O.printed out.old) (O.printed out.new) }
    ensures stays { L.lines lines.new ≡ L.lines lines.old }
{
    if is_cut {
        return true;
    }
    echo(screens, lines, out).is_err()
}

/// Makes the next round with its events, and shows what terminals were shown in it where nothing was cut before; whether something
/// is cut then.
fn make_next<H: Hardware, O: Sink, L: Lines>(
    system: &mut System,
    screens: &mut Vec<Screen>,
    machine: &mut H,
    lines: &mut L,
    events: &[Event],
    is_cut: bool,
    out: &mut O,
) -> bool
    requires rests { system.old.turns.is_begun ≡ false }
    requires few { system.old.rounds + 1 ≤ 2000000 }
    requires ordered { AreEvents events.now }
    requires holds { IsSystem system.old }
    requires stands { IsInMachine (H.machine machine.old).memory system.old }
    requires there { All (λ screen. screen.line < 32) screens.old.items }
    ensures makes { MakesRounds 1 events.now (H.machine machine.old) system.old (L.lines lines.old) (H.machine machine.new) system.new (L.lines lines.new) }
    ensures goes_on { GoesOnShowing is_cut result (L.lines lines.new) screens.old.items screens.new.items (O.printed out.old) (O.printed out.new) }
    ensures holds { IsSystem system.new }
{
    make_rounds(system, machine, lines, events, 1, &mut NoProgress);
    show_news(screens, lines, is_cut, out)
}

/// Makes at most `most` rounds of a system, each when its lines have ended, and shows what terminals were shown in it. Where no
/// more lines come the round that is begun is the last one.
fn make_typed<H: Hardware, K: Keyboard<O>, E: Sink, O: Sink, L: Lines>(
    alloc: Global,
    system: &mut System,
    screens: &mut Vec<Screen>,
    most: u32,
    machine: &mut H,
    lines: &mut L,
    keyboard: &mut K,
    errors: &mut E,
    out: &mut O,
) -> Went
    requires fresh { system.old.rounds ≡ 0 }
    requires rests { system.old.turns.is_begun ≡ false }
    requires some { 1 ≤ most }
    requires few { most ≤ 1000000 }
    requires holds { IsSystem system.old }
    requires stands { IsInMachine (H.machine machine.old).memory system.old }
    requires screens { AreScreens (L.lines lines.old) system.old.config.terminals screens.old.items }
    ensures makes { MakesTyped most result (record { keys = K.keys keyboard.old; keys' = K.keys keyboard.new; errors = E.printed errors.old; errors' = E.printed errors.new }) (O.printed out.old) (O.printed out.new) (H.machine machine.old) system.old (L.lines lines.old) (H.machine machine.new) system.new (L.lines lines.new) }
    ensures holds { IsSystem system.new }
{
    let mut count = Count {
        lines: 0,
        is_cut: false,
    };
    let mut is_cut = false;
    for made in 0..most {
        let typed = read_round(alloc, made + 1, &mut count, keyboard, errors, out);
        let events = typed.events.as_slice();
        let typing = typed.typing;
        if typing != Typing::GoesOn {
            if events.is_empty() {
                return Went { is_cut, typing };
            }
            is_cut = make_next(system, screens, machine, lines, events, is_cut, out);
            return Went { is_cut, typing };
        }
        is_cut = make_next(system, screens, machine, lines, events, is_cut, out);
    }
    Went {
        is_cut,
        typing: Typing::GoesOn,
    }
}

/// Brings power up as `run` does. Makes at most `most` rounds, each with the events of the lines that are typed for it, and puts
/// what its terminals were shown on `out`. Brings power down as `run` does. An empty line ends a round's lines. Where no more
/// lines come, the keyboard fails, or memory runs out for a line, the round is the last one in which an event is said, if one is.
/// Lines that say no event are reported on `errors` at once, and change nothing. All memory but that of events is taken before
/// the first line. After a fault no line got a put, no drive a set, and no key was asked for.
pub fn live<H: Hardware, K: Keyboard<O>, E: Sink, O: Sink, L: Lines>(
    alloc: Global,
    config: Config,
    images: &[Vec<u8>],
    most: u32,
    machine: &mut H,
    lines: &mut L,
    drives: &mut Vec<Box<dyn Drive>>,
    keyboard: &mut K,
    errors: &mut E,
    out: &mut O,
) -> Result<Lived, PowerFault>
    requires accepted { IsConfig config }
    requires images { length images.now ≡ length config.guests }
    requires some { 1 ≤ most }
    requires few { most ≤ 1000000 }
    requires pages { length (H.machine machine.old).memory ≡ 512 * 32768 }
    requires drives { vec_len drives.old ≡ 16 }
    ensures lives { LivesRun MissesArePaid config (map (λ b. b.items) images.now) most result (record { machine = H.machine machine.old; machine' = H.machine machine.new; lines = L.lines lines.old; lines' = L.lines lines.new; drives = map (λ d. kept d) drives.old.items; drives' = map (λ d. kept d) drives.new.items }) (record { keys = K.keys keyboard.old; keys' = K.keys keyboard.new; errors = E.printed errors.old; errors' = E.printed errors.new }) (O.printed out.old) (O.printed out.new) }
    ensures few { IfOk result (λ l. steps_in l.ran.counts ≤ 3200000000000) }
    ensures drives_len { vec_len drives.new ≡ vec_len drives.old }
{
    let mut screens = screens_of(alloc, config.terminals.as_slice(), lines)?;
    let mut system = System::power_up(alloc, config, images, machine, drives)?;
    let went = make_typed(
        alloc,
        &mut system,
        &mut screens,
        most,
        machine,
        lines,
        keyboard,
        errors,
        out,
    );
    let rounds = system.rounds();
    system.power_down(machine, lines, drives);
    typed_law();
    Ok(Lived {
        ran: Ran {
            counts: system.counts(),
            failed: system.failed(),
        },
        rounds,
        is_cut: went.is_cut,
        typing: went.typing,
    })
}
