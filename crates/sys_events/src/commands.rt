ghost use Rattle.std.specs.Prelude.{◌≡◌, ◌<◌, ◌≤◌, ℕ, List, length};
ghost use Rattle.sys_events.specs.Happens.{Does, KeepsButReset, asked_at, verdict_carried_out};
ghost use Rattle.sys_events.specs.Seats.{Names, VerdictNames, took};
ghost use Rattle.sys_guests.specs.Kernel.{IsKernel, kernel_state, scene};
ghost use Rattle.sys_server.specs.Apply.{HasPlaces, MayApply, taken};
ghost use Rattle.sys_server.specs.Verdict.{verdict_of};
ghost use Rattle.sys_server.specs.declared.command.Verdict.TheVariants.{Granted};
ghost use Rattle.sys_state.specs.FirstTouches.{started_by};
ghost use Rattle.sys_state.specs.State.{server_of};

use crate::answering::{answer, put_audit};
use crate::guests::act;
use sys_guests::Kernel;
use sys_server::{Command, Verdict, apply, verdict};
use vax_hw::Hardware;
use vv_io::Lines;

/// A granted command at the terminal of a place is carried out, up to its reply. Answers the other terminal whose
/// console was taken, if one was.
fn obey<H: Hardware, L: Lines>(
    machine: &mut H,
    lines: &mut L,
    kernel: &mut Kernel,
    terminal: u8,
    command: &Command,
) -> Option<u8>
    requires holds { IsKernel (H.machine machine.old).memory kernel.old }
    requires there { terminal < length kernel.old.config.terminals }
    requires places { HasPlaces command.now }
    requires names { Names kernel.old.config command.now }
    ensures does { Does (verdict_carried_out kernel.old.config terminal (Granted command.now))
        (scene (H.machine machine.old) kernel.old (L.lines lines.old))
        (scene (H.machine machine.new) kernel.new (L.lines lines.new)) }
    ensures taken { result ≡ taken kernel.old.server terminal command.now }
    ensures present { KeepsButReset (started_by (Granted command.now)) (H.machine machine.new) kernel.old kernel.new }
{
    let taken = apply(&mut kernel.server, terminal, command);
    act(machine, lines, kernel, terminal, command);
    taken
}

/// A verdict at the terminal of a place is carried out, up to its reply. Answers the other terminal whose console was
/// taken, if one was.
fn carry_out<H: Hardware, L: Lines>(
    machine: &mut H,
    lines: &mut L,
    kernel: &mut Kernel,
    terminal: u8,
    verdict: &Verdict,
) -> Option<u8>
    requires holds { IsKernel (H.machine machine.old).memory kernel.old }
    requires there { terminal < length kernel.old.config.terminals }
    requires places { MayApply verdict.now }
    requires names { VerdictNames kernel.old.config verdict.now }
    ensures does { Does (verdict_carried_out kernel.old.config terminal verdict.now)
        (scene (H.machine machine.old) kernel.old (L.lines lines.old))
        (scene (H.machine machine.new) kernel.new (L.lines lines.new)) }
    ensures took { result ≡ took kernel.old.server terminal verdict.now }
    ensures present { KeepsButReset (started_by verdict.now) (H.machine machine.new) kernel.old kernel.new }
{
    match verdict {
        Verdict::Granted(command) => obey(machine, lines, kernel, terminal, command),
        Verdict::BadCommand => None,
        Verdict::NoSuchObject => None,
        Verdict::Denied(_) => None,
    }
}

/// A command at the terminal of a place: it is carried out, replied to, and audited.
pub fn command<H: Hardware, L: Lines>(
    machine: &mut H,
    lines: &mut L,
    kernel: &mut Kernel,
    round: u32,
    terminal: u8,
    text: &[u8],
)
    requires holds { IsKernel (H.machine machine.old).memory kernel.old }
    requires there { terminal < length kernel.old.config.terminals }
    requires short { length text.now ≤ 1000 }
    ensures does { Does (asked_at kernel.old.config round terminal text.now)
        (scene (H.machine machine.old) kernel.old (L.lines lines.old))
        (scene (H.machine machine.new) kernel.new (L.lines lines.new)) }
    ensures present { (volumes : List (List (List ℕ))) → KeepsButReset
        (started_by (verdict_of kernel.old.config (server_of
        (kernel_state (H.machine machine.old).memory kernel.old volumes)) terminal text.now))
        (H.machine machine.new) kernel.old kernel.new }
{
    let verdict = verdict(&kernel.config, &kernel.server, terminal, text);
    let taken = carry_out(machine, lines, kernel, terminal, &verdict);
    let marks = &mut kernel.marks;
    answer(marks, lines, &kernel.config, terminal, &verdict, taken);
    put_audit(
        marks,
        lines,
        &kernel.config,
        round,
        terminal,
        text,
        &verdict,
    );
}
