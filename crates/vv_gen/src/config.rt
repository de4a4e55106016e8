ghost use Rattle.std.specs.Prelude.{◌≡◌, ◌≤◌, ◌<◌, ◌+◌, ◌∷◌, IfOk, length, map};
ghost use Rattle.vv_gen.specs.Config.{all_guests, generated_class, generated_config, generated_guest, generated_printer, generated_terminal, generated_volume, shared_volume, top_class, with_digit};

use std::alloc::Global;
use sys_objects::{Audit, Config, GuestRow, Mount, PrinterRow, Rows, Terminal, VolumeRow};
use vv_base::{NoMemory, Text};
use vv_class::AccessClass;

/// How many guests there are.
pub const GUESTS: u8 = 8;

/// The blocks of each volume.
pub const BLOCKS: u32 = 8;

/// A name with a digit after it.
pub fn numbered<const N: usize>(name: &[u8], digit: u8) -> Text<N>
    requires fits { length name.now + 1 ≤ N }
    requires digit { digit ≤ 9 }
    ensures { result ≡ with_digit name.now digit }
{
    let mut text = Text::new();
    text.append(name);
    text.append_byte(b'0' + digit);
    text
}

/// The class of what belongs to a guest.
fn class_of(g: u8) -> AccessClass
    ensures { result ≡ generated_class g }
{
    AccessClass {
        secrecy: g % 4,
        secrecy_cats: 1 << (g % 3),
        integrity: 0,
        integrity_cats: 0,
    }
}

fn terminal_of(g: u8) -> Terminal
    requires { g < 8 }
    ensures { result ≡ generated_terminal g }
{
    Terminal {
        name: numbered(b"T", g),
        line: g,
        class: class_of(g),
    }
}

/// The volume that all guests read.
fn shared_volume() -> VolumeRow
    ensures { result ≡ shared_volume }
{
    VolumeRow {
        name: numbered(b"V", 0),
        drive: 0,
        blocks: BLOCKS,
        class: AccessClass {
            secrecy: 0,
            secrecy_cats: 0,
            integrity: 0,
            integrity_cats: 0,
        },
    }
}

fn volume_of(g: u8) -> VolumeRow
    requires { g < 8 }
    ensures { result ≡ generated_volume g }
{
    VolumeRow {
        name: numbered(b"W", g),
        drive: 1 + g,
        blocks: BLOCKS,
        class: class_of(g),
    }
}

fn printer_of(g: u8) -> PrinterRow
    requires { g < 8 }
    ensures { result ≡ generated_printer g }
{
    PrinterRow {
        name: numbered(b"P", g),
        line: 8 + g,
        class: class_of(g),
    }
}

fn mount(volume: u8, write: bool) -> Option<Mount>
    ensures { result ≡ Some (record { volume = volume; write = write }) }
{
    Some(Mount { volume, write })
}

fn guest_of(g: u8) -> GuestRow
    requires { g < 8 }
    ensures { result ≡ generated_guest g }
{
    GuestRow {
        name: numbered(b"G", g),
        class: class_of(g),
        pages: 128,
        image: numbered(b"IMAGE", g),
        load: 0x200,
        start: 0x200,
        autostart: true,
        console: Some(g),
        printer: Some(g),
        dump: Some(16 + g),
        mounts: [mount(0, false), mount(1 + g, true), None, None],
        modify_faults: false,
        quantum: 5_000,
    }
}

#[tactic(auto, using(crate::proofs::Ranges::eight_guests))]
fn terminals(alloc: Global) -> Result<Vec<Terminal>, NoMemory>
    ensures { IfOk result (λ v. v.items ≡ map generated_terminal all_guests) }
{
    let mut rows = Vec::new(alloc);
    for g in 0..GUESTS {
        rows.push(terminal_of(g))?;
    }
    Ok(rows)
}

/// The volume of all guests, and after it one of each guest.
#[tactic(auto, using(crate::proofs::Ranges::eight_guests))]
fn volumes(alloc: Global) -> Result<Vec<VolumeRow>, NoMemory>
    ensures { IfOk result (λ v. v.items ≡ shared_volume ∷ map generated_volume all_guests) }
{
    let mut rows = Vec::new(alloc);
    rows.push(shared_volume())?;
    for g in 0..GUESTS {
        rows.push(volume_of(g))?;
    }
    Ok(rows)
}

#[tactic(auto, using(crate::proofs::Ranges::eight_guests))]
fn printers(alloc: Global) -> Result<Vec<PrinterRow>, NoMemory>
    ensures { IfOk result (λ v. v.items ≡ map generated_printer all_guests) }
{
    let mut rows = Vec::new(alloc);
    for g in 0..GUESTS {
        rows.push(printer_of(g))?;
    }
    Ok(rows)
}

#[tactic(auto, using(crate::proofs::Ranges::eight_guests))]
fn guests(alloc: Global) -> Result<Vec<GuestRow>, NoMemory>
    ensures { IfOk result (λ v. v.items ≡ map generated_guest all_guests) }
{
    let mut rows = Vec::new(alloc);
    for g in 0..GUESTS {
        rows.push(guest_of(g))?;
    }
    Ok(rows)
}

fn audit() -> Audit
    ensures { result ≡ record { line = 24; class = top_class } }
{
    Audit {
        line: 24,
        class: AccessClass {
            secrecy: 15,
            secrecy_cats: 7,
            integrity: 0,
            integrity_cats: 0,
        },
    }
}

/// The configuration with this slice.
#[tactic(auto, unfolding(crate::specs::Config::generated_config))]
pub fn configuration(alloc: Global, slice: u32) -> Result<Config, NoMemory>
    ensures { IfOk result (λ c. c ≡ generated_config slice) }
{
    Ok(Config {
        slice,
        audit: Some(audit()),
        terminals: Rows::new(terminals(alloc)?),
        volumes: Rows::new(volumes(alloc)?),
        printers: Rows::new(printers(alloc)?),
        guests: Rows::new(guests(alloc)?),
    })
}
