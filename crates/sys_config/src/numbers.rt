ghost use Rattle.std.specs.Prelude.{◌≡◌, ◌≤◌, unwrap_or};
ghost use Rattle.toml.specs.View.{table_view};
ghost use Rattle.sys_objects.specs.Faults.{IsConfigAnswer};
ghost use Rattle.sys_config.specs.Top.{is_two, quantum_of, top_level, most_guests};
ghost use Rattle.sys_config.specs.Config.{numbers_of};

use crate::ConfigError;
use crate::reads::in_range;
use crate::top::top_of;
use sys_objects::fault;
use toml::Table;

/// The slice, and the quantum of a version 1 text.
#[derive(Clone, Copy, Debug, PartialEq, Eq)]
pub struct Limits {
    pub quantum: Option<u32>,
    pub slice: u32,
}

fn is_two(n: i64) -> Option<bool>
    ensures { result ≡ is_two n }
{
    if n == 2 {
        Some(true)
    } else if n == 1 {
        Some(false)
    } else {
        None
    }
}

fn quantum_of(two: bool, quantum: Option<i64>) -> Option<Option<u32>>
    ensures { result ≡ quantum_of two quantum }
{
    if two {
        return Some(None);
    }
    match quantum {
        Some(n) => match in_range(n, 1, 100_000) {
            Some(q) => Some(Some(q)),
            None => None,
        },
        None => None,
    }
}

fn most_slice(quantum: Option<u32>) -> u32
    ensures { result ≡ unwrap_or quantum 100000 }
{
    match quantum {
        Some(q) => q,
        None => 100_000,
    }
}

/// The highest level that a class may have.
pub fn top_level(quantum: Option<u32>) -> u8
    ensures { result ≡ top_level quantum }
{
    match quantum {
        Some(_) => 15,
        None => 255,
    }
}

/// How many guests there may be.
pub fn most_guests(quantum: Option<u32>) -> usize
    ensures most { result ≤ 16 }
    ensures value { result ≡ most_guests quantum }
{
    match quantum {
        Some(_) => 8,
        None => 16,
    }
}

/// The numbers at the top, by rules 1 to 4.
#[tactic(auto, unfolding(crate::specs::Config::numbers_of))]
pub fn read_numbers(table: &Table) -> Result<Limits, ConfigError>
    ensures { IsConfigAnswer (λ n. n) result (numbers_of (table_view table.now)) }
{
    let Some(top) = top_of(table) else {
        return Err(fault(1, 0));
    };
    let Some(two) = is_two(top.version) else {
        return Err(fault(2, 0));
    };
    let Some(quantum) = quantum_of(two, top.quantum) else {
        return Err(fault(3, 0));
    };
    let Some(slice) = in_range(top.slice, 1, most_slice(quantum)) else {
        return Err(fault(4, 0));
    };
    Ok(Limits { quantum, slice })
}
