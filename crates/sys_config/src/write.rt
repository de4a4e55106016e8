ghost use Rattle.std.specs.Prelude.{◌≡◌, ◌<◌, ◌≤◌, true, IsUtf8, IfOk, IfSome, OnOk, All, Ok, Some, option_map, pos, length, slice_get, string_bytes};
ghost use Rattle.toml.specs.Data.{string};
ghost use Rattle.toml.specs.View.{view, table_view, array_view};
ghost use Rattle.vv_base.specs.Names.{is_object_name, is_file_name};
ghost use Rattle.vv_class.specs.Class.{IsClass};
ghost use Rattle.vv_class.specs.Text.{class_text};
ghost use Rattle.sys_objects.specs.Condition.{IsConfig, IsTerminal, IsVolume, IsPrinter, IsAudit, IsGuest, NamesObjects};
ghost use Rattle.sys_config.specs.Config.{config_of};
ghost use Rattle.sys_config.specs.Written.{version_of, with_member, with_any, written_line, written_terminal, written_volume, written_printer, written_audit, name_there, object_value, written_mount, mount_items, modify_text, fixed_keys, audit_value, written_guest, items_by, lists, written_config};

use crate::named::Named;
use crate::{Audit, Config, GuestRow, Mount, PrinterRow, Terminal, VolumeRow};
use std::alloc::Global;
use toml::ser::Error;
use toml::value::Array;
use toml::{Table, Value};
use vv_base::{FileName, Name, NoMemory};
use vv_class::{AccessClass, write_class};

/// Puts a value at a key.
fn put(alloc: Global, table: &mut Table, key: &str, value: Value) -> Result<(), NoMemory>
    ensures { OnOk result (table_view table.new ≡ with_member key.now (view value) (table_view table.old)) }
{
    let key = String::from_str(alloc, key)?;
    match table.insert(key, value) {
        Ok(_) => Ok(()),
        Err(_) => Err(NoMemory),
    }
}

/// Puts a value at a key, if there is one.
fn put_if_any(
    alloc: Global,
    table: &mut Table,
    key: &str,
    value: Option<Value>,
) -> Result<(), NoMemory>
    ensures { OnOk result (table_view table.new ≡ with_any key.now (option_map view value) (table_view table.old)) }
{
    match value {
        Some(value) => put(alloc, table, key, value),
        None => Ok(()),
    }
}

/// A text as a value.
fn text_value(alloc: Global, text: &[u8]) -> Result<Value, NoMemory>
    requires { IsUtf8 text.now }
    ensures { IfOk result (λ v. view v ≡ string text.now) }
{
    match std::str::from_utf8(text) {
        Ok(text) => Ok(Value::string(alloc, text)?),
        Err(_) => unreachable!(),
    }
}

#[tactic(auto, using(crate::proofs::Ascii::class_utf8))]
fn class_value(alloc: Global, class: &AccessClass) -> Result<Value, NoMemory>
    requires { IsClass class.now }
    ensures { IfOk result (λ v. view v ≡ string (class_text class.now)) }
{
    let text = write_class(class);
    text_value(alloc, text.bytes())
}

#[tactic(auto, using(crate::proofs::Ascii::name_utf8))]
fn name_value(alloc: Global, name: &Name) -> Result<Value, NoMemory>
    requires { is_object_name name.now ≡ true }
    ensures { IfOk result (λ v. view v ≡ string name.now) }
{
    text_value(alloc, name.bytes())
}

#[tactic(auto, using(crate::proofs::Ascii::file_utf8))]
fn image_value(alloc: Global, image: &FileName) -> Result<Value, NoMemory>
    requires { is_file_name image.now ≡ true }
    ensures { IfOk result (λ v. view v ≡ string image.now) }
{
    text_value(alloc, image.bytes())
}

#[tactic(auto, unfolding(crate::specs::Written::written_line))]
fn line_table(alloc: Global, name: &Name, line: u8, class: &AccessClass) -> Result<Table, NoMemory>
    requires named { is_object_name name.now ≡ true }
    requires class { IsClass class.now }
    ensures { IfOk result (λ t. table_view t ≡ written_line name.now line class.now) }
{
    let mut table = Table::new(alloc);
    put(alloc, &mut table, "class", class_value(alloc, class)?)?;
    put(alloc, &mut table, "line", Value::from(line))?;
    put(alloc, &mut table, "name", name_value(alloc, name)?)?;
    Ok(table)
}

/// How rows are printed as tables.
pub trait Writer<R> {
    ghost use Rattle.toml.specs.Data.{Members};

    /// What the rules ask of a row.
    ghost can_write: { Self → R → Type 0 };

    ghost written_of: { Self → R → Members };

    fn table(&self, alloc: Global, row: &R) -> Result<Table, NoMemory>
        requires { can_write self.now row.now }
        ensures { IfOk result (λ t. table_view t ≡ written_of self.now row.now) };
}

/// Of rows that name no others.
#[derive(Clone, Copy)]
struct Alone;

impl Writer<Terminal> for Alone {
    ghost can_write = { λ writer. IsTerminal };

    ghost written_of = { λ writer. written_terminal };

    fn table(&self, alloc: Global, row: &Terminal) -> Result<Table, NoMemory> {
        line_table(alloc, &row.name, row.line, &row.class)
    }
}

impl Writer<PrinterRow> for Alone {
    ghost can_write = { λ writer. IsPrinter };

    ghost written_of = { λ writer. written_printer };

    fn table(&self, alloc: Global, row: &PrinterRow) -> Result<Table, NoMemory> {
        line_table(alloc, &row.name, row.line, &row.class)
    }
}

impl Writer<VolumeRow> for Alone {
    ghost can_write = { λ writer. IsVolume };

    ghost written_of = { λ writer. written_volume };

    #[tactic(auto, unfolding(crate::specs::Written::written_volume))]
    fn table(&self, alloc: Global, row: &VolumeRow) -> Result<Table, NoMemory> {
        let mut table = Table::new(alloc);
        put(alloc, &mut table, "blocks", Value::from(row.blocks))?;
        put(alloc, &mut table, "class", class_value(alloc, &row.class)?)?;
        put(alloc, &mut table, "drive", Value::from(row.drive))?;
        put(alloc, &mut table, "name", name_value(alloc, &row.name)?)?;
        Ok(table)
    }
}

fn tables<R, W: Writer<R>>(alloc: Global, writer: &W, rows: &[R]) -> Result<Array, NoMemory>
    requires { All (W.can_write writer.now) rows.now }
    ensures { IfOk result (λ v. array_view v ≡ items_by (W.written_of writer.now) rows.now) }
{
    let mut values = Vec::new(alloc);
    for row in rows {
        let table = writer.table(alloc, row)?;
        values.push(Value::from(table))?;
    }
    Ok(values)
}

#[tactic(auto, unfolding(crate::specs::Written::written_audit))]
fn audit_of(alloc: Global, audit: &Audit) -> Result<Table, NoMemory>
    requires { IsAudit audit.now }
    ensures { IfOk result (λ t. table_view t ≡ written_audit audit.now) }
{
    let mut table = Table::new(alloc);
    put(
        alloc,
        &mut table,
        "class",
        class_value(alloc, &audit.class)?,
    )?;
    put(alloc, &mut table, "line", Value::from(audit.line))?;
    Ok(table)
}

/// The name of the object at a place.
fn name_there<R: Named>(alloc: Global, rows: &[R], place: u8) -> Result<Value, NoMemory>
    requires there { place < length rows.now }
    requires named { All (λ r. is_object_name (R.name_of r) ≡ true) rows.now }
    ensures { IfOk result (λ v. view v ≡ string (name_there R.name_of (slice_get rows.now place))) }
{
    name_value(alloc, rows[usize::from(place)].name())
}

fn object_value<R: Named>(
    alloc: Global,
    rows: &[R],
    place: Option<u8>,
) -> Result<Option<Value>, NoMemory>
    requires there { IfSome place (λ k. k < length rows.now) }
    requires named { All (λ r. is_object_name (R.name_of r) ≡ true) rows.now }
    ensures { IfOk result (λ v. option_map view v ≡ object_value R.name_of rows.now place) }
{
    match place {
        Some(place) => Ok(Some(name_there(alloc, rows, place)?)),
        None => Ok(None),
    }
}

#[tactic(auto, unfolding(crate::specs::Written::written_mount), using(crate::proofs::HaveNames::volumes_named))]
fn mount_table(
    alloc: Global,
    volumes: &[VolumeRow],
    unit: u8,
    mount: &Mount,
) -> Result<Table, NoMemory>
    requires there { mount.now.volume < length volumes.now }
    requires rows { All IsVolume volumes.now }
    ensures { IfOk result (λ t. table_view t ≡ written_mount volumes.now unit mount.now) }
{
    let mut table = Table::new(alloc);
    put(alloc, &mut table, "unit", Value::from(unit))?;
    let volume = name_there(alloc, volumes, mount.volume)?;
    put(alloc, &mut table, "volume", volume)?;
    put(alloc, &mut table, "write", Value::from(mount.write))?;
    Ok(table)
}

fn mount_values(
    alloc: Global,
    volumes: &[VolumeRow],
    mounts: &[Option<Mount>],
) -> Result<Array, NoMemory>
    requires units { length mounts.now ≤ 4 }
    requires there { All (λ m. IfSome m (λ n. n.volume < length volumes.now)) mounts.now }
    requires rows { All IsVolume volumes.now }
    ensures { IfOk result (λ v. array_view v ≡ mount_items volumes.now 0 mounts.now) }
{
    let mut values = Vec::new(alloc);
    for unit in 0..mounts.len() {
        let Some(mount) = mounts[unit] else {
            continue;
        };
        let table = mount_table(alloc, volumes, unit as u8, &mount)?;
        values.push(Value::from(table))?;
    }
    Ok(values)
}

fn modify_value(alloc: Global, modify_faults: bool) -> Result<Value, NoMemory>
    ensures { IfOk result (λ v. view v ≡ string (modify_text modify_faults)) }
{
    let text = if modify_faults { "fault" } else { "set" };
    Ok(Value::string(alloc, text)?)
}

/// The keys that every guest is printed with.
fn fixed_keys(alloc: Global, c: &Config, g: &GuestRow) -> Result<Table, NoMemory>
    requires config { IsConfig c.now }
    requires guest { IsGuest g.now }
    requires numbers { NamesObjects c.now g.now }
    ensures { IfOk result (λ t. table_view t ≡ fixed_keys c.now g.now) }
{
    let mounts = mount_values(alloc, c.volumes.as_slice(), &g.mounts)?;
    let mut table = Table::new(alloc);
    put(alloc, &mut table, "autostart", Value::from(g.autostart))?;
    put(alloc, &mut table, "class", class_value(alloc, &g.class)?)?;
    put(alloc, &mut table, "image", image_value(alloc, &g.image)?)?;
    put(alloc, &mut table, "load", Value::from(g.load))?;
    put(
        alloc,
        &mut table,
        "modify",
        modify_value(alloc, g.modify_faults)?,
    )?;
    put(alloc, &mut table, "mount", Value::from(mounts))?;
    put(alloc, &mut table, "name", name_value(alloc, &g.name)?)?;
    put(alloc, &mut table, "pages", Value::from(g.pages))?;
    put(alloc, &mut table, "quantum", Value::from(g.quantum))?;
    put(alloc, &mut table, "start", Value::from(g.start))?;
    Ok(table)
}

/// Of guests, which name objects of this configuration.
#[derive(Clone, Copy)]
struct Within<'a>(&'a Config);

impl<'a> Writer<GuestRow> for Within<'a> {
    ghost can_write = { λ writer g. IsConfig writer.0.now × IsGuest g × NamesObjects writer.0.now g };

    ghost written_of = { λ writer. written_guest writer.0.now };

    #[tactic(auto, unfolding(crate::specs::Written::written_guest), using(crate::proofs::HaveNames::named))]
    fn table(&self, alloc: Global, row: &GuestRow) -> Result<Table, NoMemory> {
        let mut table = fixed_keys(alloc, self.0, row)?;
        let console = object_value(alloc, self.0.terminals.as_slice(), row.console)?;
        put_if_any(alloc, &mut table, "console", console)?;
        let dump = row.dump.map(|line| Value::from(line));
        put_if_any(alloc, &mut table, "dump", dump)?;
        let printer = object_value(alloc, self.0.printers.as_slice(), row.printer)?;
        put_if_any(alloc, &mut table, "printer", printer)?;
        Ok(table)
    }
}

fn audit_value(alloc: Global, audit: &Option<Audit>) -> Result<Option<Value>, NoMemory>
    requires { IfSome audit.now IsAudit }
    ensures { IfOk result (λ v. option_map view v ≡ audit_value audit.now) }
{
    match audit {
        Some(audit) => Ok(Some(Value::from(audit_of(alloc, audit)?))),
        None => Ok(None),
    }
}

#[tactic(auto, unfolding(crate::specs::Written::lists), using(crate::proofs::HaveNames::guests_stand))]
fn lists(alloc: Global, c: &Config) -> Result<Table, NoMemory>
    requires { IsConfig c.now }
    ensures { IfOk result (λ t. table_view t ≡ lists c.now) }
{
    let guests = tables(alloc, &Within(c), c.guests.as_slice())?;
    let printers = tables(alloc, &Alone, c.printers.as_slice())?;
    let terminals = tables(alloc, &Alone, c.terminals.as_slice())?;
    let volumes = tables(alloc, &Alone, c.volumes.as_slice())?;
    let mut table = Table::new(alloc);
    put(alloc, &mut table, "guest", Value::from(guests))?;
    put(alloc, &mut table, "printer", Value::from(printers))?;
    put(alloc, &mut table, "slice", Value::from(c.slice))?;
    put(alloc, &mut table, "terminal", Value::from(terminals))?;
    put(alloc, &mut table, "version", Value::from(2u8))?;
    put(alloc, &mut table, "volume", Value::from(volumes))?;
    Ok(table)
}

#[tactic(auto, unfolding(crate::specs::Written::written_config))]
fn config_table(alloc: Global, c: &Config) -> Result<Table, NoMemory>
    requires { IsConfig c.now }
    ensures { IfOk result (λ t. table_view t ≡ written_config c.now) }
{
    let mut table = lists(alloc, c)?;
    put_if_any(alloc, &mut table, "audit", audit_value(alloc, &c.audit)?)?;
    Ok(table)
}

// A string is UTF-8.
fn is_text(text: &String)
    ensures { IsUtf8 (string_bytes text.now) }
{
    let _bytes = text.as_str();
}

/// A text of version 2 that stands for the configuration. It fails only where memory runs out.
#[tactic(auto, using(crate::proofs::Shallow::is_dateless))]
pub fn migrate_text(alloc: Global, c: &Config) -> Result<Vec<u8>, NoMemory>
    requires { IsConfig c.now }
    ensures same { IfOk result (λ b. config_of b.items ≡ Ok c.now) }
    ensures version { IfOk result (λ b. version_of b.items ≡ Some (pos 2)) }
{
    let table = config_table(alloc, c)?;
    match toml::table_to_string(alloc, &table) {
        Ok(text) => {
            is_text(&text);
            Ok(text.into_bytes())
        }
        Err(Error::OutOfMemory) => Err(NoMemory),
        Err(Error::DateInvalid) => unreachable!(),
    }
}
