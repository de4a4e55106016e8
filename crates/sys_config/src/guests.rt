ghost use Rattle.std.specs.Prelude.{◌≡◌, ◌≤◌, length, codes, option_map, unwrap_or};
ghost use Rattle.toml.specs.View.{view, table_view};
ghost use Rattle.sys_config.specs.Reads.{if_any, integer_in};
ghost use Rattle.sys_config.specs.Guests.{object_in, mounts_in, no_mounts, modify_in, modify_of, own_quantum, image_at, keys_of_guest, bare_guest_of};
ghost use Rattle.sys_config.specs.Reads.{are_known as are_known_of};

use crate::entries::{class_at, name_at};
use crate::lists::Reader;
use crate::mounts::mounts_in;
use crate::named::{Named, place_by};
use crate::numbers::top_level;
use crate::reads::{are_known, flag_at, if_any, number_at, number_in, text_at, value_at};
use crate::{GuestRow, Mount, PrinterRow, Terminal, VolumeRow};
use toml::{Table, Value};
use vv_base::{FileName, file_name, object_name};

/// The place of the object whose name a text is, or the number of the objects.
fn object_in<R: Named>(value: &Value, rows: &[R]) -> Option<u8>
    requires { length rows.now ≤ 32 }
    ensures { result ≡ object_in R.name_of rows.now (view value.now) }
{
    match value.as_str() {
        Some(text) => match object_name(text.as_bytes()) {
            Some(name) => Some(place_by(rows, name.bytes())),
            None => None,
        },
        None => None,
    }
}

/// The line of a dump.
fn dump_in(value: &Value) -> Option<u8>
    ensures { result ≡ integer_in 0 31 (view value.now) }
{
    match number_in(value, 0, 31) {
        Some(line) => Some(line as u8),
        None => None,
    }
}

fn modify_in(text: &[u8]) -> Option<bool>
    ensures { result ≡ modify_in text.now }
{
    if text == b"set".as_slice() {
        Some(false)
    } else if text == b"fault".as_slice() {
        Some(true)
    } else {
        None
    }
}

fn modify_of(value: &Value) -> Option<bool>
    ensures { result ≡ modify_of (view value.now) }
{
    match value.as_str() {
        Some(text) => modify_in(text.as_bytes()),
        None => None,
    }
}

/// What is mounted: nothing where nothing is said.
fn mounts_at(table: &Table, volumes: &[VolumeRow]) -> Option<[Option<Mount>; 4]>
    requires { length volumes.now ≤ 16 }
    ensures { result ≡ option_map (λ mounts. unwrap_or mounts no_mounts) (if_any (mounts_in volumes.now) (codes "mount") (table_view table.now)) }
{
    let mounts = if_any(value_at(table, "mount"), |value| mounts_in(value, volumes))?;
    Some(mounts.unwrap_or([None; 4]))
}

fn own_quantum(table: &Table, quantum: Option<u32>) -> Option<u32>
    ensures { result ≡ own_quantum quantum (table_view table.now) }
{
    match quantum {
        Some(q) => Some(q),
        None => number_at(table, "quantum", 1, 100_000),
    }
}

fn image_at(table: &Table) -> Option<FileName>
    ensures { result ≡ image_at (table_view table.now) }
{
    match text_at(table, "image") {
        Some(text) => file_name(text.as_bytes()),
        None => None,
    }
}

/// The keys that a guest may have; `quantum` is first, and in version 2 alone.
const KEYS: [&str; 13] = [
    "quantum",
    "name",
    "class",
    "pages",
    "image",
    "load",
    "start",
    "autostart",
    "console",
    "printer",
    "dump",
    "modify",
    "mount",
];

fn are_known_keys(table: &Table, quantum: Option<u32>) -> bool
    ensures { result ≡ are_known_of (keys_of_guest quantum) (table_view table.now) }
{
    match quantum {
        Some(_) => are_known(table, &KEYS[1..]),
        None => are_known(table, &KEYS),
    }
}

/// The keys that every guest has.
#[tactic(auto, unfolding(crate::specs::Guests::bare_guest_of))]
fn bare_guest(table: &Table, top: u8, quantum: Option<u32>) -> Option<GuestRow>
    ensures { result ≡ bare_guest_of top quantum (table_view table.now) }
{
    let name = name_at(table, "name")?;
    let class = class_at(table, top)?;
    let pages = number_at(table, "pages", 64, 2048)?;
    let image = image_at(table)?;
    let load = number_at(table, "load", 0, 4_294_967_295)?;
    let start = number_at(table, "start", 0, 4_294_967_295)?;
    let autostart = flag_at(table, "autostart")?;
    let quantum = own_quantum(table, quantum)?;
    Some(GuestRow {
        name,
        class,
        pages,
        image,
        load,
        start,
        autostart,
        console: None,
        printer: None,
        dump: None,
        mounts: [None; 4],
        modify_faults: false,
        quantum,
    })
}

/// How guests are read, that name these objects.
#[derive(Clone, Copy)]
pub struct Guests<'a> {
    /// The quantum of all of them, in version 1.
    pub quantum: Option<u32>,
    pub terminals: &'a [Terminal],
    pub volumes: &'a [VolumeRow],
    pub printers: &'a [PrinterRow],
}

impl<'a> Reader<GuestRow> for Guests<'a> {
    ghost use Rattle.sys_config.specs.Guests.{guest_row_in};
    ghost use Rattle.sys_config.specs.Top.{top_level};

    ghost can_read = { λ o. (length o.terminals.now ≤ 32) × (length o.volumes.now ≤ 16) × (length o.printers.now ≤ 32) };

    ghost row_of = { λ o. guest_row_in (top_level o.quantum) o.quantum o.terminals.now o.volumes.now o.printers.now };

    #[tactic(auto, unfolding(crate::specs::Guests::guest_row_in))]
    fn read(&self, table: &Table) -> Option<GuestRow> {
        if !are_known_keys(table, self.quantum) {
            return None;
        }
        let mut guest = bare_guest(table, top_level(self.quantum), self.quantum)?;
        let console = value_at(table, "console");
        guest.console = if_any(console, |value| object_in(value, self.terminals))?;
        let printer = value_at(table, "printer");
        guest.printer = if_any(printer, |value| object_in(value, self.printers))?;
        guest.dump = if_any(value_at(table, "dump"), dump_in)?;
        let modify = value_at(table, "modify");
        guest.modify_faults = if_any(modify, modify_of)?.unwrap_or(false);
        guest.mounts = mounts_at(table, self.volumes)?;
        Some(guest)
    }
}
