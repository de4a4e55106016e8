ghost use Rattle.std.specs.Prelude.{◌≡◌, ◌||◌, IfOk, bytes_eq, find, map, not, option_map, string_bytes};
ghost use Rattle.std.specs.List.{list_any};
ghost use Rattle.std.specs.BTreeMap.{keys as entry_keys};
ghost use Rattle.std.specs.Option.{option_copied};
ghost use Rattle.toml.specs.Data.{get_member};
ghost use Rattle.toml.specs.View.{items_view, table_view, view};
ghost use Rattle.sys_objects.specs.Faults.{by_rule};
ghost use Rattle.sys_config.specs.Config.{document_of};
ghost use Rattle.vv_edge.specs.Broken.{
  broken_key,
  table_counted,
  first_bad_key,
  first_unknown,
  has_version_two,
  is_class,
  is_fit,
  is_modify,
  integer_text,
  is_ranged,
  key_in,
  key_of,
  key_text,
  lists_of,
  member_fits,
  misfit,
  more_by,
  named_key,
  needed_by,
  rows_seen,
  table_of,
  tables_under,
  text_in,
  value_text,
};

use crate::learning::shown_front;
use std::alloc::Global;
use sys_config::{ConfigError, document};
use sys_objects::ConfigFault;
use toml::{Table, Value};
use vv_base::{NoMemory, Text, decimal, file_name, object_name};
use vv_class::read_class;
use vvmm_files::Status;

/// What the value at a key is to be.
#[derive(Clone, Copy)]
pub enum Form {
    Name,
    Class,
    File,
    Truth,
    Modify,
    /// An integer in a range.
    Whole(u32, u32),
    Number,
    Table,
    Open,
}

/// A key, and what its value is to be.
type Row = (&'static str, Form);

/// Of terminals and printers.
const LINE: [Row; 3] = [
    ("name", Form::Name),
    ("line", Form::Whole(0, 31)),
    ("class", Form::Class),
];

const VOLUME: [Row; 4] = [
    ("name", Form::Name),
    ("drive", Form::Whole(0, 15)),
    ("blocks", Form::Whole(1, 2048)),
    ("class", Form::Class),
];

/// Of guests; the first in version 2 alone.
const GUEST: [Row; 8] = [
    ("quantum", Form::Whole(1, 100_000)),
    ("name", Form::Name),
    ("class", Form::Class),
    ("pages", Form::Whole(64, 2048)),
    ("image", Form::File),
    ("load", Form::Whole(0, 4_294_967_295)),
    ("start", Form::Whole(0, 4_294_967_295)),
    ("autostart", Form::Truth),
];

/// What guests may have besides.
const GUEST_MORE: [Row; 5] = [
    ("console", Form::Name),
    ("printer", Form::Name),
    ("dump", Form::Whole(0, 31)),
    ("modify", Form::Modify),
    ("mount", Form::Open),
];

const AUDIT: [Row; 2] = [("line", Form::Whole(0, 31)), ("class", Form::Class)];

/// Of the top; the first in version 1 alone.
const TOP: [Row; 3] = [
    ("quantum", Form::Number),
    ("version", Form::Number),
    ("slice", Form::Number),
];

/// What the top may have besides.
const TOP_MORE: [Row; 5] = [
    ("audit", Form::Table),
    ("terminal", Form::Open),
    ("volume", Form::Open),
    ("printer", Form::Open),
    ("guest", Form::Open),
];

/// The bytes of a text; none where the value is no text.
fn text_in(value: &Value) -> &[u8]
    ensures { result.now ≡ text_in (view value.now) }
{
    match value.as_str() {
        Some(text) => text.as_bytes(),
        None => &[],
    }
}

fn is_class(text: &[u8], top: u8) -> bool
    ensures { result ≡ is_class top text.now }
{
    match read_class(text) {
        Ok(class) => class.secrecy <= top && class.integrity <= top,
        Err(_) => false,
    }
}

fn is_modify(text: &[u8]) -> bool
    ensures { result ≡ is_modify text.now }
{
    text == b"set".as_slice() || text == b"fault".as_slice()
}

fn is_ranged(value: &Value, low: u32, high: u32) -> bool
    ensures { result ≡ is_ranged low high (view value.now) }
{
    match value.as_integer() {
        Some(n) => i64::from(low) <= n && n <= i64::from(high),
        None => false,
    }
}

/// Whether a value is as it is to be, with levels up to `top`.
fn is_fit(value: &Value, form: Form, top: u8) -> bool
    ensures { result ≡ is_fit top form (view value.now) }
{
    match form {
        Form::Name => object_name(text_in(value)).is_some(),
        Form::Class => is_class(text_in(value), top),
        Form::File => file_name(text_in(value)).is_some(),
        Form::Truth => value.as_bool().is_some(),
        Form::Modify => is_modify(text_in(value)),
        Form::Whole(low, high) => is_ranged(value, low, high),
        Form::Number => value.as_integer().is_some(),
        Form::Table => value.as_table().is_some(),
        Form::Open => true,
    }
}

/// The value at a key.
fn value_at<'a>(table: &'a Table, key: &str) -> Option<&'a Value>
    ensures { option_map (λ v. view v.now) result ≡ get_member key.now (table_view table.now) }
{
    table.get(key)
}

/// Whether what is at a row's key is as it is to be.
fn member_fits(table: &Table, row: &Row, is_needed: bool, top: u8) -> bool
    ensures { result ≡ member_fits is_needed top row.now.1 (get_member row.now.0.now (table_view table.now)) }
{
    match value_at(table, row.0) {
        Some(value) => is_fit(value, row.1, top),
        None => !is_needed,
    }
}

/// The first key whose value isn't as it is to be.
fn first_bad_key(table: &Table, rows: &[Row], is_needed: bool, top: u8) -> Option<&'static str>
    ensures { option_map (λ k. k.now) result ≡ first_bad_key is_needed top (table_view table.now) (rows_seen rows.now) }
{
    for row in rows {
        if !member_fits(table, row, is_needed, top) {
            return Some(row.0);
        }
    }
    None
}

fn is_known(key: &str, rows: &[Row]) -> bool
    ensures { result ≡ list_any (λ row. bytes_eq key.now row.0.now) rows.now }
{
    rows.iter().any(|row| key == row.0)
}

fn is_unknown(key: &str, needed: &[Row], more: &[Row]) -> bool
    ensures { result ≡ not (list_any (λ row. bytes_eq key.now row.0.now) needed.now || list_any (λ row. bytes_eq key.now row.0.now) more.now) }
{
    !(is_known(key, needed) || is_known(key, more))
}

fn find_unknown<'a>(table: &'a Table, needed: &[Row], more: &[Row]) -> Option<&'a String>
    ensures { option_copied result ≡ find (λ k. not (list_any (λ row. bytes_eq (string_bytes k) row.0.now) needed.now || list_any (λ row. bytes_eq (string_bytes k) row.0.now) more.now)) (entry_keys table.now) }
{
    table
        .keys()
        .find(|key| is_unknown(key.as_str(), needed, more))
}

/// The first key of a table that no row has.
fn first_unknown<'a>(table: &'a Table, needed: &[Row], more: &[Row]) -> Option<&'a str>
    ensures { option_map (λ k. k.now) result ≡ first_unknown (rows_seen needed.now) (rows_seen more.now) (table_view table.now) }
{
    match find_unknown(table, needed, more) {
        Some(key) => Some(key.as_str()),
        None => None,
    }
}

/// The first key of a table that is unknown, or else that misfits.
fn misfit<'a>(table: &'a Table, needed: &[Row], more: &[Row], top: u8) -> Option<&'a str>
    ensures { option_map (λ k. k.now) result ≡ misfit top (rows_seen needed.now) (rows_seen more.now) (table_view table.now) }
{
    if let Some(key) = first_unknown(table, needed, more) {
        return Some(key);
    }
    if let Some(key) = first_bad_key(table, needed, true, top) {
        return Some(key);
    }
    first_bad_key(table, more, false, top)
}

/// The keys that a rule's tables must have.
fn needed_by(rule: u8, is_two: bool) -> &'static [Row]
    ensures { rows_seen result.now ≡ needed_by is_two rule }
{
    match rule {
        1 if is_two => &TOP[1..],
        1 => &TOP,
        7 => &VOLUME,
        9 if is_two => &GUEST,
        9 => &GUEST[1..],
        10 => &AUDIT,
        _ => &LINE,
    }
}

/// The keys that they may have besides.
fn more_by(rule: u8) -> &'static [Row]
    ensures { rows_seen result.now ≡ more_by rule }
{
    match rule {
        1 => &TOP_MORE,
        9 => &GUEST_MORE,
        _ => &[],
    }
}

/// The lists of tables among which a rule's places are counted.
fn lists_of(rule: u8) -> &'static [&'static str]
    ensures { map (λ k. k.now) result.now ≡ lists_of rule }
{
    match rule {
        6 => &["terminal"],
        7 | 13 => &["volume"],
        8 => &["printer"],
        11 | 17 => &["terminal", "volume", "printer", "guest"],
        12 => &["terminal", "printer"],
        _ => &["guest"],
    }
}

/// The key that a rule names.
fn named_key(rule: u8, place: u32) -> &'static str
    ensures { result.now ≡ named_key rule place }
{
    match rule {
        2 => "version",
        3 => "quantum",
        4 => "slice",
        5 if place == 0 => "terminal",
        5 if place == 1 => "volume",
        5 if place == 2 => "printer",
        5 => "guest",
        9 | 16 => "mount",
        11 => "name",
        12 => "line",
        13 => "drive",
        14 => "printer",
        15 => "console",
        17 => "class",
        18 => "pages",
        _ => "",
    }
}

/// The key of a table that breaks a rule.
fn key_of<'a>(table: &'a Table, fault: &ConfigFault, is_two: bool) -> &'a str
    ensures { result.now ≡ key_of is_two fault.now (table_view table.now) }
{
    let named = named_key(fault.rule, fault.place);
    if fault.rule != 1 && (fault.rule < 6 || fault.rule > 10) {
        return named;
    }
    let top = if is_two { 255 } else { 15 };
    let needed = needed_by(fault.rule, is_two);
    match misfit(table, needed, more_by(fault.rule), top) {
        Some(key) => key,
        None => named,
    }
}

/// The tables of a list.
fn tables_under<'a>(document: &'a Table, key: &str) -> &'a [Value]
    ensures { items_view result.now ≡ tables_under key.now (table_view document.now) }
{
    match value_at(document, key) {
        Some(value) => match value.as_array() {
            Some(values) => values.as_slice(),
            None => &[],
        },
        None => &[],
    }
}

/// The table at a place of lists that are counted through.
fn table_counted<'a>(document: &'a Table, lists: &[&str], place: u32) -> Option<&'a Table>
    ensures { option_map (λ t. table_view t.now) result ≡ table_counted (map (λ k. k.now) lists.now) place (table_view document.now) }
{
    let mut left = place as usize;
    for list in lists {
        let values = tables_under(document, list);
        match values.get(left) {
            Some(value) => return value.as_table(),
            None => left = left.saturating_sub(values.len()),
        }
    }
    None
}

/// The table that breaks a rule.
fn table_of<'a>(document: &'a Table, fault: &ConfigFault) -> Option<&'a Table>
    ensures { option_map (λ t. table_view t.now) result ≡ table_of fault.now (table_view document.now) }
{
    match fault.rule {
        0..=5 => Some(document),
        10 => match value_at(document, "audit") {
            Some(value) => value.as_table(),
            None => None,
        },
        rule => table_counted(document, lists_of(rule), fault.place),
    }
}

fn has_version_two(document: &Table) -> bool
    ensures { result ≡ has_version_two (table_view document.now) }
{
    match value_at(document, "version") {
        Some(value) => value.as_integer() == Some(2),
        None => false,
    }
}

fn integer_text(n: i64) -> Text<24>
    ensures { result ≡ integer_text n }
{
    let mut text = Text::new();
    if n < 0 {
        text.append(b"-");
    }
    text.append(decimal(n.unsigned_abs()).bytes());
    text
}

/// What is said of a value after its key.
fn value_text(value: Option<&Value>) -> Text<88>
    ensures { result ≡ value_text (option_map (λ v. view v.now) value.entry) }
{
    let mut text = Text::new();
    let Some(value) = value else {
        text.append(b" is missing");
        return text;
    };
    match value {
        Value::String(string) => {
            text.append(b" = \"");
            text.append(shown_front(string.as_bytes()).bytes());
            text.append(b"\"");
        }
        Value::Integer(n) => {
            text.append(b" = ");
            text.append(integer_text(*n).bytes());
        }
        Value::Boolean(true) => text.append(b" = true"),
        Value::Boolean(false) => text.append(b" = false"),
        Value::Float(_) => text.append(b" is a float"),
        Value::Datetime(_) => text.append(b" is a date"),
        Value::Array(_) => text.append(b" is an array"),
        Value::Table(_) => text.append(b" is a table"),
    }
    text
}

/// A key and its value.
fn key_text(table: &Table, key: &str) -> Text<168>
    ensures { result ≡ key_text (table_view table.now) key.now }
{
    let mut text = Text::new();
    if key.is_empty() {
        return text;
    }
    text.append(shown_front(key.as_bytes()).bytes());
    text.append(value_text(value_at(table, key)).bytes());
    text
}

/// The key that breaks a rule in the table that a configuration is.
fn key_in(document: &Table, fault: &ConfigFault) -> Text<168>
    ensures { result ≡ key_in (table_view document.now) fault.now }
{
    match table_of(document, fault) {
        Some(table) => key_text(table, key_of(table, fault, has_version_two(document))),
        None => Text::new(),
    }
}

/// The key and the value by which a configuration breaks a rule, where they are known.
pub fn broken_key(alloc: Global, config: &[u8], status: &Status) -> Result<Text<168>, NoMemory>
    ensures { IfOk result (λ text. text ≡ broken_key (by_rule 0 0 (document_of config.now)) status.now) }
{
    let Status::Config(fault) = status else {
        return Ok(Text::new());
    };
    match document(alloc, config) {
        Ok(document) => Ok(key_in(&document, fault)),
        Err(ConfigError::Fault(_)) => Ok(Text::new()),
        Err(ConfigError::NoMemory) => Err(NoMemory),
    }
}
