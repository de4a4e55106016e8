ghost use Rattle.std.specs.Prelude.{◌<◌, vec_len, length};
ghost use Rattle.sys_events.specs.Happens.{Does, DoesAnywhere, DoesUnseen, KeepsButReset, guest_halted, guest_typed, guests_obeyed};
ghost use Rattle.sys_events.specs.Seats.{Names};
ghost use Rattle.sys_guests.specs.Kernel.{IsKernel, scene};
ghost use Rattle.sys_guests.specs.Present.{KeepsAll};
ghost use Rattle.sys_objects.specs.Condition.{IsConfig};
ghost use Rattle.sys_server.specs.declared.command.Verdict.TheVariants.{Granted};
ghost use Rattle.sys_state.specs.FirstTouches.{started_by};

use crate::consoles::console_of;
use crate::shows::show_objects;
use sys_devices::show_each;
use sys_guests::{Kernel, start_at, stop_at, type_at};
use sys_server::Command;
use vax_hw::Hardware;
use vv_io::Lines;

/// A line is typed to a guest.
pub fn type_to(kernel: &mut Kernel, guest: u8, text: &[u8])
    requires there { guest < vec_len kernel.old.guests }
    ensures does { DoesUnseen (guest_typed guest text.now) kernel.old kernel.new }
    ensures present { KeepsAll (λ ts. ts) kernel.old.guests.items kernel.new.guests.items }
{
    type_at(&mut kernel.guests, guest, text);
}

/// A guest is stopped, and its console is shown that, byte by byte.
fn halt<L: Lines>(kernel: &mut Kernel, lines: &mut L, guest: u8)
    requires there { guest < vec_len kernel.old.guests }
    requires accepted { IsConfig kernel.old.config }
    ensures does { DoesAnywhere (guest_halted kernel.old.config guest) kernel.old (L.lines lines.old) kernel.new (L.lines lines.new) }
    ensures present { KeepsAll (λ ts. ts) kernel.old.guests.items kernel.new.guests.items }
{
    stop_at(&mut kernel.port, &mut kernel.guests, guest);
    let terminals = kernel.config.terminals.as_slice();
    let console = console_of(terminals, &kernel.server.at, guest);
    show_each(&mut kernel.marks, lines, console, kernel.port.bytes());
}

/// What a granted command at the terminal of a place does to guests, and what is shown before its reply.
pub fn act<H: Hardware, L: Lines>(
    machine: &mut H,
    lines: &mut L,
    kernel: &mut Kernel,
    terminal: u8,
    command: &Command,
)
    requires holds { IsKernel (H.machine machine.old).memory kernel.old }
    requires there { terminal < length kernel.old.config.terminals }
    requires names { Names kernel.old.config command.now }
    ensures does { Does (guests_obeyed kernel.old.config terminal command.now)
        (scene (H.machine machine.old) kernel.old (L.lines lines.old))
        (scene (H.machine machine.new) kernel.new (L.lines lines.new)) }
    ensures present { KeepsButReset (started_by (Granted command.now)) (H.machine machine.new) kernel.old kernel.new }
{
    match *command {
        Command::Start(guest) => start_at(machine, &mut kernel.guests, guest),
        Command::Halt(guest) => halt(kernel, lines, guest),
        Command::Show => show_objects(
            &mut kernel.marks,
            lines,
            &kernel.config,
            &kernel.guests,
            terminal,
        ),
        Command::Connect(_) => {}
        Command::MountAt(_, _, _) => {}
        Command::Dismount(_, _) => {}
    }
}
