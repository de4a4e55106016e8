ghost use Rattle.std.specs.Prelude.{◌≡◌, ◌≤◌, option_map, IfSome, length};
ghost use Rattle.toml.specs.Text.{are_tables};
ghost use Rattle.toml.specs.View.{view, table_view, items_view, array_view};
ghost use Rattle.sys_config.specs.Top.{audit_table, top_of_two, top_of_one, top_of, tables_in, tables_at};

use crate::reads::{are_known, integer_at, value_at};
use toml::value::Array;
use toml::{Table, Value};

/// The numbers at the top, in whatever range.
#[derive(Clone, Copy, Debug, PartialEq, Eq)]
pub struct Top {
    pub version: i64,
    pub quantum: Option<i64>,
    pub slice: i64,
}

/// The keys at the top; `quantum` is first, and in version 1 alone.
const KEYS: [&str; 8] = [
    "quantum", "version", "slice", "audit", "terminal", "volume", "printer", "guest",
];

#[tactic(auto, unfolding(crate::specs::Top::top_of_two))]
fn top_of_two(version: i64, table: &Table) -> Option<Top>
    ensures { result ≡ top_of_two version (table_view table.now) }
{
    if !are_known(table, &KEYS[1..]) {
        return None;
    }
    let slice = integer_at(table, "slice")?;
    Some(Top {
        version,
        quantum: None,
        slice,
    })
}

#[tactic(auto, unfolding(crate::specs::Top::top_of_one))]
fn top_of_one(version: i64, table: &Table) -> Option<Top>
    ensures { result ≡ top_of_one version (table_view table.now) }
{
    if !are_known(table, &KEYS) {
        return None;
    }
    let quantum = integer_at(table, "quantum")?;
    let slice = integer_at(table, "slice")?;
    Some(Top {
        version,
        quantum: Some(quantum),
        slice,
    })
}

/// The keys at the top.
#[tactic(auto, unfolding(crate::specs::Top::top_of))]
pub fn top_of(table: &Table) -> Option<Top>
    ensures { result ≡ top_of (table_view table.now) }
{
    let version = integer_at(table, "version")?;
    if version == 2 {
        top_of_two(version, table)
    } else {
        top_of_one(version, table)
    }
}

#[tactic(auto, using(crate::proofs::ItemLaws::lists))]
fn are_tables(values: &[Value]) -> bool
    ensures { result ≡ are_tables (items_view values.now) }
{
    for value in values {
        if !value.is_table() {
            return false;
        }
    }
    true
}

#[tactic(auto, using(crate::proofs::ItemLaws::lists))]
fn tables_in(value: &Value, most: usize) -> Option<&Array>
    ensures value { option_map (λ v. array_view v.now) result ≡ tables_in most (view value.now) }
    ensures most { IfSome result (λ v. length v.now.items ≤ most) }
{
    let values = value.as_array()?;
    if are_tables(values) && values.len() <= most {
        Some(values)
    } else {
        None
    }
}

/// The tables of a list, at most `most`; none where the key is absent.
#[tactic(auto, unfolding(crate::specs::Top::tables_at))]
pub fn tables_at<'a>(table: &'a Table, key: &str, most: usize) -> Option<&'a [Value]>
    ensures value { option_map (λ v. items_view v.now) result ≡ tables_at key.now most (table_view table.now) }
    ensures most { IfSome result (λ v. length v.now ≤ most) }
{
    match value_at(table, key) {
        Some(value) => match tables_in(value, most) {
            Some(values) => Some(values.as_slice()),
            None => None,
        },
        None => Some(&[]),
    }
}

/// The table of the audit, if it is there.
pub fn audit_table(table: &Table) -> Option<Option<&Table>>
    ensures { option_map (λ o. option_map (λ m. table_view m.now) o) result ≡ audit_table (table_view table.now) }
{
    match value_at(table, "audit") {
        Some(value) => value.as_table().map(Some),
        None => Some(None),
    }
}
