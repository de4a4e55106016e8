ghost use Rattle.std.specs.Prelude.{◌≡◌, ◌≤◌, Option, MatchOption, option_map, IfSome, map, bytes_eq, string_bytes};
ghost use Rattle.std.specs.Fn.{FnOnceReturnsAt};
ghost use Rattle.std.specs.List.{list_all, list_any};
ghost use Rattle.std.specs.BTreeMap.{keys as entry_keys};
ghost use Rattle.toml.specs.Data.{get_member};
ghost use Rattle.toml.specs.View.{view, table_view};
ghost use Rattle.sys_config.specs.Reads.{in_range, integer_in, integer_at, bounded_integer_at, text_at, flag_at, are_known};

use toml::{Table, Value};

/// The value at a key.
pub fn value_at<'a>(table: &'a Table, key: &str) -> Option<&'a Value>
    ensures { option_map (λ v. view v.now) result ≡ get_member key.now (table_view table.now) }
{
    table.get(key)
}

/// What may be left out, as it is read: `None` exactly where it is there and isn't read.
pub fn if_any<T, R, F: FnOnce(&T) -> Option<R>>(given: Option<&T>, read: F) -> Option<Option<R>>
    requires { F.IsAlwaysCallable read }
    ensures { MatchOption given.entry (result ≡ Some None) (λ g. (r : Option R) × FnOnceReturnsAt F.FnOnce read g.now r × (result ≡ option_map Some r)) }
{
    let Some(value) = given else {
        return Some(None);
    };
    match read(value) {
        Some(one) => Some(Some(one)),
        None => None,
    }
}

/// The integer, if it is from `low` to `high`.
pub fn in_range(n: i64, low: u32, high: u32) -> Option<u32>
    ensures value { result ≡ in_range low high n }
    ensures most { IfSome result (λ n. n ≤ high) }
{
    if i64::from(low) <= n && n <= i64::from(high) {
        Some(n as u32)
    } else {
        None
    }
}

/// The value, if it is an integer from `low` to `high`.
pub fn number_in(value: &Value, low: u32, high: u32) -> Option<u32>
    ensures value { result ≡ integer_in low high (view value.now) }
    ensures most { IfSome result (λ n. n ≤ high) }
{
    match value.as_integer() {
        Some(n) => in_range(n, low, high),
        None => None,
    }
}

/// The integer at a key.
pub fn integer_at(table: &Table, key: &str) -> Option<i64>
    ensures { result ≡ integer_at key.now (table_view table.now) }
{
    match value_at(table, key) {
        Some(value) => value.as_integer(),
        None => None,
    }
}

/// The integer at a key, if one from `low` to `high` is there.
pub fn number_at(table: &Table, key: &str, low: u32, high: u32) -> Option<u32>
    ensures value { result ≡ bounded_integer_at key.now low high (table_view table.now) }
    ensures most { IfSome result (λ n. n ≤ high) }
{
    match value_at(table, key) {
        Some(value) => number_in(value, low, high),
        None => None,
    }
}

/// The text at a key.
pub fn text_at<'a>(table: &'a Table, key: &str) -> Option<&'a str>
    ensures { option_map (λ s. s.now) result ≡ text_at key.now (table_view table.now) }
{
    match value_at(table, key) {
        Some(value) => value.as_str(),
        None => None,
    }
}

/// The truth value at a key.
pub fn flag_at(table: &Table, key: &str) -> Option<bool>
    ensures { result ≡ flag_at key.now (table_view table.now) }
{
    match value_at(table, key) {
        Some(value) => value.as_bool(),
        None => None,
    }
}

fn is_known(key: &str, keys: &[&str]) -> bool
    ensures { result ≡ list_any (λ x. bytes_eq key.now x.now) keys.now }
{
    keys.iter().any(|known| key == *known)
}

fn each_is_known(table: &Table, keys: &[&str]) -> bool
    ensures { result ≡ list_all (λ k. list_any (λ x. bytes_eq (string_bytes k) x.now) keys.now) (entry_keys table.now) }
{
    table.keys().all(|key| is_known(key.as_str(), keys))
}

/// Whether each key of the table is one of these.
pub fn are_known(table: &Table, keys: &[&str]) -> bool
    ensures { result ≡ are_known (map (λ k. k.now) keys.now) (table_view table.now) }
{
    each_is_known(table, keys)
}
