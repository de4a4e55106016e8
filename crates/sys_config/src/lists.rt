ghost use Rattle.std.specs.Prelude.{◌≡◌, ◌≤◌, [], length, IfOk};
ghost use Rattle.toml.specs.View.{view, table_view, items_view};
ghost use Rattle.sys_objects.specs.Faults.{IsConfigAnswer};
ghost use Rattle.sys_config.specs.Answers.{entry_from_table, entries_from};

use crate::ConfigError;
use std::alloc::Global;
use sys_objects::fault;
use toml::{Table, Value};

/// How the entries of a list are read.
pub trait Reader<R> {
    ghost use Rattle.std.specs.Prelude.{Option};
    ghost use Rattle.toml.specs.Data.{Members};

    /// What is asked of the objects that entries may name.
    ghost can_read: { Self → Type 0 };

    ghost row_of: { Self → Members → Option R };

    fn read(&self, table: &Table) -> Option<R>
        requires { can_read self.now }
        ensures { result ≡ row_of self.now (table_view table.now) };
}

fn entry<R, E: Reader<R>>(reader: &E, value: &Value) -> Option<R>
    requires { E.can_read reader.now }
    ensures { result ≡ entry_from_table (E.row_of reader.now) (view value.now) }
{
    match value.as_table() {
        Some(table) => reader.read(table),
        None => None,
    }
}

/// The entries of a list, in their order.
pub fn rows<R: Drop, E: Reader<R>>(
    alloc: Global,
    reader: &E,
    values: &[Value],
    rule: u8,
) -> Result<Vec<R>, ConfigError>
    requires few { length values.now ≤ 32 }
    requires can_read { E.can_read reader.now }
    ensures count { IfOk result (λ v. length v.items ≡ length values.now) }
    ensures value { IsConfigAnswer (λ v. v.items) result (entries_from rule (E.row_of reader.now) [] (items_view values.now)) }
{
    let mut rows = Vec::new(alloc);
    for value in values {
        match entry(reader, value) {
            Some(row) => rows.push(row)?,
            None => return Err(fault(rule, rows.len() as u32)),
        }
    }
    Ok(rows)
}
