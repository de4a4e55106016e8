ghost use Rattle.std.specs.Prelude.{◌≡◌, ◌≤◌, length, map, filter, IfOk};
ghost use Rattle.vv_class.specs.Class.{does_flow};
ghost use Rattle.sys_purge.specs.Purge.{rank, console_place, printer_place, mount_place, renumbered, kept_audit, purge_config};

use std::alloc::Global;
use sys_objects::{Audit, Config, GuestRow, Mount, PrinterRow, Rows, Terminal, VolumeRow};
use vv_base::NoMemory;
use vv_class::{AccessClass, flows};

/// An object with a class, which can be copied.
trait Row: Drop {
    ghost use Rattle.vv_class.specs.declared.class.AccessClass.{AccessClass};

    ghost class_of: { Self → AccessClass };

    fn class(&self) -> AccessClass
        ensures { result ≡ class_of self.now };

    fn copied(&self) -> Self
        ensures { result ≡ self.now };
}

impl Row for Terminal {
    ghost class_of = { λ t. t.class };

    fn class(&self) -> AccessClass {
        self.class
    }

    fn copied(&self) -> Self {
        Terminal {
            name: self.name.copied(),
            line: self.line,
            class: self.class,
        }
    }
}

impl Row for VolumeRow {
    ghost class_of = { λ v. v.class };

    fn class(&self) -> AccessClass {
        self.class
    }

    fn copied(&self) -> Self {
        VolumeRow {
            name: self.name.copied(),
            drive: self.drive,
            blocks: self.blocks,
            class: self.class,
        }
    }
}

impl Row for PrinterRow {
    ghost class_of = { λ p. p.class };

    fn class(&self) -> AccessClass {
        self.class
    }

    fn copied(&self) -> Self {
        PrinterRow {
            name: self.name.copied(),
            line: self.line,
            class: self.class,
        }
    }
}

/// The rows that flow into a class.
fn kept<R: Row>(alloc: Global, rows: &[R], to: &AccessClass) -> Result<Vec<R>, NoMemory>
    ensures { IfOk result (λ kept. kept.items ≡ filter (λ row. does_flow (R.class_of row) to.now) rows.now) }
{
    let mut kept = Vec::new(alloc);
    for row in rows {
        if flows(&row.class(), to) {
            kept.push(row.copied())?;
        }
    }
    Ok(kept)
}

/// How many rows flow into a class.
fn count<R: Row>(rows: &[R], to: &AccessClass) -> usize
    ensures within { result ≤ length rows.now }
    ensures value { result ≡ length (filter (λ row. does_flow (R.class_of row) to.now) rows.now) }
{
    let mut count: usize = 0;
    for row in rows {
        if flows(&row.class(), to) {
            count += 1;
        }
    }
    count
}

/// The place among the rows that are kept.
fn rank<R: Row>(rows: &[R], to: &AccessClass, place: u8) -> u8
    ensures { result ≡ rank (λ row. does_flow (R.class_of row) to.now) rows.now place }
{
    let before = usize::from(place).min(rows.len());
    count(&rows[..before], to) as u8
}

fn console_place(terminals: &[Terminal], to: &AccessClass, place: Option<u8>) -> Option<u8>
    ensures { result ≡ console_place to.now terminals.now place }
{
    Some(rank(terminals, to, place?))
}

fn printer_place(printers: &[PrinterRow], to: &AccessClass, place: Option<u8>) -> Option<u8>
    ensures { result ≡ printer_place to.now printers.now place }
{
    let place = place?;
    let printer = printers.get(usize::from(place))?;
    if flows(&printer.class, to) {
        Some(rank(printers, to, place))
    } else {
        None
    }
}

fn mount_place(volumes: &[VolumeRow], to: &AccessClass, mount: Option<Mount>) -> Option<Mount>
    ensures { result ≡ mount_place to.now volumes.now mount }
{
    let mount = mount?;
    Some(Mount {
        volume: rank(volumes, to, mount.volume),
        write: mount.write,
    })
}

fn mount_places(
    volumes: &[VolumeRow],
    to: &AccessClass,
    mounts: [Option<Mount>; 4],
) -> [Option<Mount>; 4]
    ensures { result ≡ map (mount_place to.now volumes.now) mounts }
{
    let mut places = mounts;
    for mount in places.iter_mut() {
        *mount = mount_place(volumes, to, *mount);
    }
    places
}

fn renumbered(c: &Config, to: &AccessClass, g: &GuestRow) -> GuestRow
    ensures { result ≡ renumbered to.now c.now g.now }
{
    GuestRow {
        name: g.name.copied(),
        class: g.class,
        pages: g.pages,
        image: g.image.copied(),
        load: g.load,
        start: g.start,
        autostart: g.autostart,
        console: console_place(c.terminals.as_slice(), to, g.console),
        printer: printer_place(c.printers.as_slice(), to, g.printer),
        dump: g.dump,
        mounts: mount_places(c.volumes.as_slice(), to, g.mounts),
        modify_faults: g.modify_faults,
        quantum: g.quantum,
    }
}

fn kept_guests(alloc: Global, c: &Config, to: &AccessClass) -> Result<Vec<GuestRow>, NoMemory>
    ensures { IfOk result (λ kept. kept.items ≡ map (renumbered to.now c.now) (filter (λ g. does_flow g.class to.now) c.now.guests)) }
{
    let guests = c.guests.as_slice();
    let mut kept = Vec::new(alloc);
    for g in guests {
        if flows(&g.class, to) {
            kept.push(renumbered(c, to, g))?;
        }
    }
    Ok(kept)
}

fn kept_audit(audit: Option<Audit>, to: &AccessClass) -> Option<Audit>
    ensures { result ≡ kept_audit to.now audit }
{
    let audit = audit?;
    if flows(&audit.class, to) {
        Some(audit)
    } else {
        None
    }
}

/// The configuration without all that doesn't flow into a class, its places renumbered to those of what is kept.
pub fn purge_config(alloc: Global, c: &Config, to: &AccessClass) -> Result<Config, NoMemory>
    ensures { IfOk result (λ kept. kept ≡ purge_config c.now to.now) }
{
    let terminals = kept(alloc, c.terminals.as_slice(), to)?;
    let volumes = kept(alloc, c.volumes.as_slice(), to)?;
    let printers = kept(alloc, c.printers.as_slice(), to)?;
    let guests = kept_guests(alloc, c, to)?;
    Ok(Config {
        slice: c.slice,
        audit: kept_audit(c.audit, to),
        terminals: Rows::new(terminals),
        volumes: Rows::new(volumes),
        printers: Rows::new(printers),
        guests: Rows::new(guests),
    })
}
