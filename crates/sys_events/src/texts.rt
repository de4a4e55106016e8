ghost use Rattle.std.specs.Prelude.{◌≡◌, ◌≤◌, length};
ghost use Rattle.sys_events.specs.Saying.{guest_text};
ghost use Rattle.sys_server.specs.Replies.{with_line_end, object_text, printer_line, running_text, volume_line};

use sys_objects::{GuestRow, PrinterRow, VolumeRow};
use vv_base::{Name, Text};
use vv_class::{AccessClass, write_class};

/// An object with its name and class.
fn object_text(kind: &[u8], name: &Name, class: &AccessClass) -> Text<512>
    requires { length kind.now ≤ 7 }
    ensures value { result ≡ object_text kind.now name.now class.now }
    ensures room { length result ≤ 417 }
{
    let mut text = Text::new();
    text.append(kind);
    text.append(b" ");
    text.append(name.bytes());
    text.append(b" ");
    text.append(write_class(class).bytes());
    text
}

fn running_text(runs: bool) -> &'static [u8]
    ensures value { result.now ≡ running_text runs }
    ensures len { length result.now ≤ 8 }
{
    if runs { b" RUNNING" } else { b" STOPPED" }
}

/// SHOW's line of a guest.
pub fn guest_text(row: &GuestRow, runs: bool) -> Text<512>
    ensures { result ≡ guest_text row.now runs }
{
    let mut text = object_text(b"VM", &row.name, &row.class);
    text.append(running_text(runs));
    text.append(b"\r\n");
    text
}

/// SHOW's line of a volume.
pub fn volume_text(row: &VolumeRow) -> Text<512>
    ensures { result ≡ volume_line row.now }
{
    let mut text = object_text(b"VOLUME", &row.name, &row.class);
    text.append(b"\r\n");
    text
}

/// SHOW's line of a printer.
pub fn printer_text(row: &PrinterRow) -> Text<512>
    ensures { result ≡ printer_line row.now }
{
    let mut text = object_text(b"PRINTER", &row.name, &row.class);
    text.append(b"\r\n");
    text
}

/// A text of the server, with its end.
pub fn with_line_end(bytes: &[u8]) -> Text<512>
    requires { length bytes.now ≤ 100 }
    ensures { result ≡ with_line_end bytes.now }
{
    let mut text = Text::new();
    text.append(bytes);
    text.append(b"\r\n");
    text
}
