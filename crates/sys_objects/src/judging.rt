ghost use Rattle.std.specs.Prelude.{◌<◌, ◌^◌, IfSome};
ghost use Rattle.sys_objects.specs.Faults.{IsConfigAnswer, unless_at};
ghost use Rattle.sys_objects.specs.Judged.{validated};
ghost use Rattle.sys_objects.specs.Rules.{IsFew};

use crate::errors::fault;
use crate::rules::{
    Audited, Connects, Mounts, NewDrive, NewName, Prints, bad_line, bad_pages, first_broken,
    objects,
};
use crate::{Config, ConfigError};
use std::alloc::Global;

/// A rule that looks for a first place at which it fails.
fn unless_at(rule: u8, place: Option<usize>) -> Result<(), ConfigError>
    requires { IfSome place (λ p. p < 2 ^ 32) }
    ensures { IsConfigAnswer (λ u. u) result (unless_at rule place) }
{
    match place {
        Some(place) => Err(fault(rule, place as u32)),
        None => Ok(()),
    }
}

/// The rules that speak of several entries, 11 to 18.
#[tactic(auto, unfolding(crate::specs::Judged::validated))]
pub fn judge(alloc: Global, c: &Config) -> Result<(), ConfigError>
    requires { IsFew c.now }
    ensures { IsConfigAnswer (λ u. u) result (validated c.now) }
{
    let objects = objects(alloc, c)?;
    let guests = c.guests.as_slice();
    unless_at(11, first_broken(&NewName, objects.as_slice()))?;
    unless_at(12, bad_line(alloc, c)?)?;
    unless_at(13, first_broken(&NewDrive, c.volumes.as_slice()))?;
    unless_at(14, first_broken(&Prints(c.printers.as_slice()), guests))?;
    unless_at(15, first_broken(&Connects(c.terminals.as_slice()), guests))?;
    unless_at(16, first_broken(&Mounts(c.volumes.as_slice()), guests))?;
    unless_at(17, first_broken(&Audited(c.audit), objects.as_slice()))?;
    unless_at(18, bad_pages(guests))
}
