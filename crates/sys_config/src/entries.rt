ghost use Rattle.std.specs.Prelude.{◌≡◌, option_and_then};
ghost use Rattle.toml.specs.View.{table_view};
ghost use Rattle.vv_class.specs.Text.{class_in};
ghost use Rattle.sys_config.specs.Entries.{low_enough, name_at, class_at, line_number_at, named_line_of, audit_row_in};

use crate::lists::Reader;
use crate::reads::{are_known, number_at, text_at};
use crate::{Audit, PrinterRow, Terminal, VolumeRow};
use toml::Table;
use vv_base::{Name, object_name};
use vv_class::{AccessClass, read_class};

fn class_in(top: u8, text: &[u8]) -> Option<AccessClass>
    ensures { result ≡ option_and_then (low_enough top) (class_in text.now) }
{
    match read_class(text) {
        Ok(class) => {
            if class.secrecy <= top && class.integrity <= top {
                Some(class)
            } else {
                None
            }
        }
        Err(_) => None,
    }
}

/// The name at a key.
pub fn name_at(table: &Table, key: &str) -> Option<Name>
    ensures { result ≡ name_at key.now (table_view table.now) }
{
    match text_at(table, key) {
        Some(text) => object_name(text.as_bytes()),
        None => None,
    }
}

/// The class of an entry, with levels up to `top`.
pub fn class_at(table: &Table, top: u8) -> Option<AccessClass>
    ensures { result ≡ class_at top (table_view table.now) }
{
    match text_at(table, "class") {
        Some(text) => class_in(top, text.as_bytes()),
        None => None,
    }
}

fn line_at(table: &Table, key: &str) -> Option<u8>
    ensures { result ≡ line_number_at key.now (table_view table.now) }
{
    match number_at(table, key, 0, 31) {
        Some(line) => Some(line as u8),
        None => None,
    }
}

/// What a terminal and a printer have.
#[derive(Drop)]
pub struct NamedLine {
    pub name: Name,
    pub line: u8,
    pub class: AccessClass,
}

#[tactic(auto, unfolding(crate::specs::Entries::named_line_of))]
fn named_line(table: &Table, top: u8) -> Option<NamedLine>
    ensures { result ≡ named_line_of top (table_view table.now) }
{
    if !are_known(table, &["name", "line", "class"]) {
        return None;
    }
    let name = name_at(table, "name")?;
    let line = line_at(table, "line")?;
    let class = class_at(table, top)?;
    Some(NamedLine { name, line, class })
}

/// How entries are read that name no others: with levels up to this one.
#[derive(Clone, Copy)]
pub struct UpTo(pub u8);

impl Reader<Terminal> for UpTo {
    ghost use Rattle.sys_config.specs.Entries.{terminal_row_in};

    ghost can_read = { λ reader. Unit {0} };

    ghost row_of = { λ reader. terminal_row_in reader.0 };

    fn read(&self, table: &Table) -> Option<Terminal> {
        let NamedLine { name, line, class } = named_line(table, self.0)?;
        Some(Terminal { name, line, class })
    }
}

impl Reader<PrinterRow> for UpTo {
    ghost use Rattle.sys_config.specs.Entries.{printer_row_in};

    ghost can_read = { λ reader. Unit {0} };

    ghost row_of = { λ reader. printer_row_in reader.0 };

    fn read(&self, table: &Table) -> Option<PrinterRow> {
        let NamedLine { name, line, class } = named_line(table, self.0)?;
        Some(PrinterRow { name, line, class })
    }
}

impl Reader<VolumeRow> for UpTo {
    ghost use Rattle.sys_config.specs.Entries.{volume_row_in};

    ghost can_read = { λ reader. Unit {0} };

    ghost row_of = { λ reader. volume_row_in reader.0 };

    #[tactic(auto, unfolding(crate::specs::Entries::volume_row_in))]
    fn read(&self, table: &Table) -> Option<VolumeRow> {
        if !are_known(table, &["name", "drive", "blocks", "class"]) {
            return None;
        }
        let name = name_at(table, "name")?;
        let drive = number_at(table, "drive", 0, 15)? as u8;
        let blocks = number_at(table, "blocks", 1, 2048)?;
        let class = class_at(table, self.0)?;
        Some(VolumeRow {
            name,
            drive,
            blocks,
            class,
        })
    }
}

/// The audit.
#[tactic(auto, unfolding(crate::specs::Entries::audit_row_in))]
pub fn audit(table: &Table, top: u8) -> Option<Audit>
    ensures { result ≡ audit_row_in top (table_view table.now) }
{
    if !are_known(table, &["line", "class"]) {
        return None;
    }
    let line = line_at(table, "line")?;
    let class = class_at(table, top)?;
    Some(Audit { line, class })
}
