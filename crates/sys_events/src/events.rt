ghost use Rattle.std.specs.Prelude.{◌<◌, ◌≤◌, ℕ, List, length};
ghost use Rattle.sys_events.specs.Happens.{Does, DoesAnywhere, Happen, Happens, KeepsButReset, break_at, line_starts_at, typed_line_at};
ghost use Rattle.sys_guests.specs.Kernel.{IsKernel, kernel_state, scene};
ghost use Rattle.sys_guests.specs.Present.{KeepsAll};
ghost use Rattle.sys_objects.specs.Condition.{IsConfig};
ghost use Rattle.sys_state.specs.FirstTouches.{event_starts, touches_of_events};

use crate::answering::say;
use crate::commands::command;
use crate::consoles::{terminal_at, terminal_named};
use crate::guests::type_to;
use sys_guests::Kernel;
use sys_script::{Event, Typed};
use vax_hw::Hardware;
use vv_io::Lines;

/// A break at the terminal of a place: its console goes back to the server, which says so.
fn disconnect<L: Lines>(kernel: &mut Kernel, lines: &mut L, terminal: u8)
    requires there { terminal < length kernel.old.config.terminals }
    requires accepted { IsConfig kernel.old.config }
    ensures does { (round : ℕ) → DoesAnywhere (break_at kernel.old.config round terminal) kernel.old (L.lines lines.old) kernel.new (L.lines lines.new) }
    ensures present { KeepsAll (λ ts. ts) kernel.old.guests.items kernel.new.guests.items }
{
    kernel.server.at[terminal as usize] = None;
    let row = terminal_at(kernel.config.terminals.as_slice(), terminal);
    say(&mut kernel.marks, lines, row.line, b"SERVER");
}

/// A line at the terminal of a place: it is typed to the terminal's guest, and without one it is a command.
fn take_line<H: Hardware, L: Lines>(
    machine: &mut H,
    lines: &mut L,
    kernel: &mut Kernel,
    round: u32,
    terminal: u8,
    text: &[u8],
)
    requires holds { IsKernel (H.machine machine.old).memory kernel.old }
    requires there { terminal < length kernel.old.config.terminals }
    requires short { length text.now ≤ 1000 }
    ensures does { Does (typed_line_at kernel.old.config round terminal text.now)
        (scene (H.machine machine.old) kernel.old (L.lines lines.old))
        (scene (H.machine machine.new) kernel.new (L.lines lines.new)) }
    ensures present { (volumes : List (List (List ℕ))) → KeepsButReset
        (line_starts_at kernel.old.config (kernel_state (H.machine machine.old).memory kernel.old volumes) terminal
        text.now) (H.machine machine.new) kernel.old kernel.new }
{
    match kernel.server.at[terminal as usize] {
        Some(guest) => type_to(kernel, guest, text),
        None => command(machine, lines, kernel, round, terminal, text),
    }
}

/// An event of a round happens.
fn happen_one<H: Hardware, L: Lines>(
    machine: &mut H,
    lines: &mut L,
    kernel: &mut Kernel,
    round: u32,
    event: &Event,
)
    requires { IsKernel (H.machine machine.old).memory kernel.old }
    ensures happens { Happens round event.now (scene (H.machine machine.old) kernel.old (L.lines lines.old))
        (scene (H.machine machine.new) kernel.new (L.lines lines.new)) }
    ensures present { (volumes : List (List (List ℕ))) → KeepsButReset
        (event_starts kernel.old.config (kernel_state (H.machine machine.old).memory kernel.old volumes) event.now)
        (H.machine machine.new) kernel.old kernel.new }
{
    let place = terminal_named(kernel.config.terminals.as_slice(), &event.terminal);
    if let Some(terminal) = place {
        match &event.what {
            Typed::Break => disconnect(kernel, lines, terminal),
            Typed::Line(text) => {
                take_line(machine, lines, kernel, round, terminal, text.bytes());
            }
        }
    }
}

/// The events of a round happen, one after another.
pub fn happen<H: Hardware, L: Lines>(
    machine: &mut H,
    lines: &mut L,
    kernel: &mut Kernel,
    round: u32,
    events: &[Event],
)
    requires { IsKernel (H.machine machine.old).memory kernel.old }
    ensures happen { Happen round events.now (scene (H.machine machine.old) kernel.old (L.lines lines.old))
        (scene (H.machine machine.new) kernel.new (L.lines lines.new)) }
    ensures present { (volumes : List (List (List ℕ))) → KeepsAll
        (touches_of_events kernel.old.config round (kernel_state (H.machine machine.old).memory kernel.old volumes)
        events.now) kernel.old.guests.items kernel.new.guests.items }
{
    for event in events {
        happen_one(machine, lines, kernel, round, event);
    }
}
