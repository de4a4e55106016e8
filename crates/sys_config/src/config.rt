ghost use Rattle.std.specs.Prelude.{◌≡◌, ℕ, ◌<◌, List, Ok, option_map, IfOk};
ghost use Rattle.toml.specs.View.{table_view};
ghost use Rattle.sys_objects.specs.Faults.{IsConfigAnswer, by_rule};
ghost use Rattle.sys_objects.specs.Condition.{IsConfig};
ghost use Rattle.sys_objects.specs.Rules.{IsFew};
ghost use Rattle.sys_config.specs.Config.{document_of, rows_of, config_in, config_of};

use crate::entries::{UpTo, audit as audit_in};
use crate::guests::Guests;
use crate::lists::rows;
use crate::numbers::{Limits, most_guests, read_numbers, top_level};
use crate::reads::if_any;
use crate::top::{audit_table, tables_at};
use crate::{Audit, Config, ConfigError, Rows};
use std::alloc::Global;
use sys_objects::{fault, judge};
use toml::Table;

/// The objects, by rules 5 to 10.
#[tactic(auto, unfolding(crate::specs::Config::rows_of))]
fn read_rows(
    alloc: Global,
    limits: &Limits,
    audit: Option<&Table>,
    table: &Table,
) -> Result<Config, ConfigError>
    ensures few { IfOk result (λ c. IsFew c) }
    ensures value { IsConfigAnswer (λ c. c) result (rows_of limits.now (option_map (λ m. table_view m.now) audit.entry) (table_view table.now)) }
{
    let Some(terminals) = tables_at(table, "terminal", 32) else {
        return Err(fault(5, 0));
    };
    let Some(volumes) = tables_at(table, "volume", 16) else {
        return Err(fault(5, 1));
    };
    let Some(printers) = tables_at(table, "printer", 32) else {
        return Err(fault(5, 2));
    };
    let Some(guests) = tables_at(table, "guest", most_guests(limits.quantum)) else {
        return Err(fault(5, 3));
    };
    let top = top_level(limits.quantum);
    let terminals = rows(alloc, &UpTo(top), terminals, 6)?;
    let volumes = rows(alloc, &UpTo(top), volumes, 7)?;
    let printers = rows(alloc, &UpTo(top), printers, 8)?;
    let named = Guests {
        quantum: limits.quantum,
        terminals: terminals.as_slice(),
        volumes: volumes.as_slice(),
        printers: printers.as_slice(),
    };
    let guests = rows(alloc, &named, guests, 9)?;
    let Some(audit) = if_any(audit, |table| audit_in(table, top)) else {
        return Err(fault(10, 0));
    };
    Ok(Config {
        slice: limits.slice,
        audit,
        terminals: Rows::new(terminals),
        volumes: Rows::new(volumes),
        printers: Rows::new(printers),
        guests: Rows::new(guests),
    })
}

/// The configuration that a table stands for.
#[tactic(auto, unfolding(crate::specs::Config::config_in))]
fn of_table(alloc: Global, table: &Table) -> Result<Config, ConfigError>
    ensures { IsConfigAnswer (λ c. c) result (config_in (table_view table.now)) }
{
    let Some(audit) = audit_table(table) else {
        return Err(fault(1, 0));
    };
    let limits = read_numbers(table)?;
    let config = read_rows(alloc, &limits, audit, table)?;
    judge(alloc, &config)?;
    Ok(config)
}

/// The table that the bytes are, or that they break rule 0.
pub fn document(alloc: Global, b: &[u8]) -> Result<Table, ConfigError>
    ensures { IsConfigAnswer table_view result (by_rule 0 0 (document_of b.now)) }
{
    match toml::table_from_slice(alloc, b) {
        Ok(table) => Ok(table),
        Err(e) => {
            if e.is_memory() {
                Err(ConfigError::NoMemory)
            } else {
                Err(fault(0, 0))
            }
        }
    }
}

/// Reads a configuration: what `config_of` says of the bytes, or that memory ran out.
///
/// A `Fault` names the least rule that the bytes break, and the first place at which they break it.
#[tactic(auto, unfolding(crate::specs::Config::config_of))]
pub fn read_config(alloc: Global, b: &[u8]) -> Result<Config, ConfigError>
    ensures read { IsConfigAnswer (λ c. c) result (config_of b.now) }
    ensures accepted { IfOk result (λ c. IsConfig c) }
{
    let table = document(alloc, b)?;
    of_table(alloc, &table)
}

/// A configuration that a text stands for satisfies the condition on configurations.
pub fn config_laws()
    ensures { (b : List ℕ) (c : Config) → config_of b ≡ Ok c → IsConfig c }
{}
