ghost use Rattle.std.specs.Prelude.{◌≡◌, ◌<◌, [], ◌∷◌, All, filter, if◌then◌else◌, length, map, slice_get};
ghost use Rattle.vv_class.specs.Class.{does_flow};
ghost use Rattle.sys_events.specs.Saying.{ShowsTexts, guest_line, one_put, runs, show_lines};
ghost use Rattle.sys_devices.specs.Shows.{Shows};
ghost use Rattle.sys_objects.specs.Condition.{IsTerminal};
ghost use Rattle.sys_state.specs.State.{bytes_on};
ghost use Rattle.sys_server.specs.Replies.{guest_lines, printer_line, volume_line};

use crate::consoles::terminal_at;
use crate::texts::{guest_text, printer_text, volume_text};
use sys_devices::{Marks, show_whole};
use sys_objects::{Config, GuestRow, PrinterRow, Terminal, VolumeRow};
use vm_guest::Guest;
use vv_base::Text;
use vv_class::flows;
use vv_io::Lines;

/// Puts a text on a line.
fn put_text<L: Lines>(marks: &mut Marks, lines: &mut L, line: u8, text: &Text<512>)
    requires { line < 32 }
    ensures { Shows marks.old marks.new (L.lines lines.old) (L.lines lines.new) (λ k. bytes_on k (one_put line text.now)) }
{
    show_whole(marks, lines, line, text.bytes());
}

fn is_running(guest: &Guest) -> bool
    ensures { result ≡ runs guest.now }
{
    guest.state().halt.is_none()
}

/// Puts SHOW's line of a guest, if the class sees it.
fn show_guest<L: Lines>(
    marks: &mut Marks,
    lines: &mut L,
    terminal: &Terminal,
    row: &GuestRow,
    guest: &Guest,
)
    requires { terminal.now.line < 32 }
    ensures { ShowsTexts marks.old marks.new (L.lines lines.old) (L.lines lines.new) terminal.now.line (guest_line terminal.now.class row.now (runs guest.now)) }
{
    if flows(&row.class, &terminal.class) {
        put_text(
            marks,
            lines,
            terminal.line,
            &guest_text(row, is_running(guest)),
        );
    }
}

/// Puts SHOW's lines of the guests that the terminal sees.
fn show_guests<L: Lines>(
    marks: &mut Marks,
    lines: &mut L,
    terminal: &Terminal,
    rows: &[GuestRow],
    guests: &[Guest],
)
    requires there { terminal.now.line < 32 }
    requires beside { length guests.now ≡ length rows.now }
    ensures { ShowsTexts marks.old marks.new (L.lines lines.old) (L.lines lines.new) terminal.now.line
        (guest_lines terminal.now.class rows.now (map runs guests.now)) }
{
    for (place, row) in rows.iter().enumerate() {
        show_guest(marks, lines, terminal, row, &guests[place]);
    }
}

/// Puts SHOW's line of a volume, if the terminal sees it.
fn show_volume<L: Lines>(marks: &mut Marks, lines: &mut L, terminal: &Terminal, row: &VolumeRow)
    requires { terminal.now.line < 32 }
    ensures { ShowsTexts marks.old marks.new (L.lines lines.old) (L.lines lines.new) terminal.now.line
        (if does_flow row.now.class terminal.now.class then volume_line row.now ∷ [] else []) }
{
    if flows(&row.class, &terminal.class) {
        put_text(marks, lines, terminal.line, &volume_text(row));
    }
}

/// Puts SHOW's lines of the volumes that the terminal sees.
fn show_volumes<L: Lines>(marks: &mut Marks, lines: &mut L, terminal: &Terminal, rows: &[VolumeRow])
    requires { terminal.now.line < 32 }
    ensures { ShowsTexts marks.old marks.new (L.lines lines.old) (L.lines lines.new) terminal.now.line
        (map volume_line (filter (λ v. does_flow v.class terminal.now.class) rows.now)) }
{
    for row in rows {
        show_volume(marks, lines, terminal, row);
    }
}

/// Puts SHOW's line of a printer, if the terminal sees it.
fn show_printer<L: Lines>(marks: &mut Marks, lines: &mut L, terminal: &Terminal, row: &PrinterRow)
    requires { terminal.now.line < 32 }
    ensures { ShowsTexts marks.old marks.new (L.lines lines.old) (L.lines lines.new) terminal.now.line
        (if does_flow row.now.class terminal.now.class then printer_line row.now ∷ [] else []) }
{
    if flows(&row.class, &terminal.class) {
        put_text(marks, lines, terminal.line, &printer_text(row));
    }
}

/// Puts SHOW's lines of the printers that the terminal sees.
fn show_printers<L: Lines>(
    marks: &mut Marks,
    lines: &mut L,
    terminal: &Terminal,
    rows: &[PrinterRow],
)
    requires { terminal.now.line < 32 }
    ensures { ShowsTexts marks.old marks.new (L.lines lines.old) (L.lines lines.new) terminal.now.line
        (map printer_line (filter (λ p. does_flow p.class terminal.now.class) rows.now)) }
{
    for row in rows {
        show_printer(marks, lines, terminal, row);
    }
}

/// Puts SHOW's lines: the objects that the terminal of a place sees, one put each.
pub fn show_objects<L: Lines>(
    marks: &mut Marks,
    lines: &mut L,
    config: &Config,
    guests: &[Guest],
    terminal: u8,
)
    requires there { terminal < length config.now.terminals }
    requires terminals { All IsTerminal config.now.terminals }
    requires beside { length guests.now ≡ length config.now.guests }
    ensures { Shows marks.old marks.new (L.lines lines.old) (L.lines lines.new)
        (λ k. bytes_on k (show_lines config.now guests.now (slice_get config.now.terminals terminal))) }
{
    let terminal = terminal_at(config.terminals.as_slice(), terminal);
    show_guests(marks, lines, terminal, config.guests.as_slice(), guests);
    show_volumes(marks, lines, terminal, config.volumes.as_slice());
    show_printers(marks, lines, terminal, config.printers.as_slice());
}
