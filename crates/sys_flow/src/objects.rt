ghost use Rattle.std.specs.Option.{option_map};
ghost use Rattle.std.specs.Prelude.{◌≡◌, ◌≤◌, [], length, slice_get};
ghost use Rattle.sys_flow.specs.Objects.{object_of};
ghost use Rattle.sys_flow.specs.Reach.{all_objects, audit_object};
ghost use Rattle.sys_flow.specs.Report.{name_of, object_name};
ghost use Rattle.sys_objects.specs.Condition.{IsConfig};

use sys_objects::Config;

/// An object by its place among those of its kind.
#[derive(Clone, Copy)]
pub enum Place {
    Terminal(usize),
    Volume(usize),
    Printer(usize),
    Guest(usize),
    Audit,
}

fn audit_at(c: &Config, k: usize) -> Option<Place>
    ensures { option_map object_of result ≡ slice_get (audit_object c.now.audit) k }
{
    match c.audit {
        Some(_) => { if k == 0 { Some(Place::Audit) } else { None } }
        None => None,
    }
}

/// The object of a number, from 0: terminals, volumes, printers, guests, and then the audit.
pub fn object_at(c: &Config, number: usize) -> Option<Place>
    ensures { option_map object_of result ≡ slice_get (all_objects c.now) number }
{
    let terminals = c.terminals.len();
    if number < terminals {
        return Some(Place::Terminal(number));
    }
    let volumes = c.volumes.len();
    if number - terminals < volumes {
        return Some(Place::Volume(number - terminals));
    }
    let printers = c.printers.len();
    if number - terminals - volumes < printers {
        return Some(Place::Printer(number - terminals - volumes));
    }
    let guests = c.guests.len();
    if number - terminals - volumes - printers < guests {
        return Some(Place::Guest(number - terminals - volumes - printers));
    }
    audit_at(c, number - terminals - volumes - printers - guests)
}

/// How many audits there are.
fn audits(c: &Config) -> u8
    ensures within { result ≤ 1 }
    ensures value { result ≡ length (audit_object c.now.audit) }
{
    match c.audit {
        Some(_) => 1,
        None => 0,
    }
}

/// How many objects there are: terminals, volumes, printers, guests, and the audit if there is one.
pub fn count(c: &Config) -> u8
    requires { IsConfig c.now }
    ensures few { result ≤ 97 }
    ensures value { result ≡ length (all_objects c.now) }
{
    let rows = c.terminals.len() + c.volumes.len() + c.printers.len() + c.guests.len();
    rows as u8 + audits(c)
}

fn name_in(c: &Config, place: Place) -> &[u8]
    ensures { result.now ≡ object_name c.now (object_of place) }
{
    match place {
        Place::Terminal(t) => match c.terminals.as_slice().get(t) {
            Some(row) => row.name.bytes(),
            None => &[],
        },
        Place::Volume(v) => match c.volumes.as_slice().get(v) {
            Some(row) => row.name.bytes(),
            None => &[],
        },
        Place::Printer(p) => match c.printers.as_slice().get(p) {
            Some(row) => row.name.bytes(),
            None => &[],
        },
        Place::Guest(g) => match c.guests.as_slice().get(g) {
            Some(row) => row.name.bytes(),
            None => &[],
        },
        Place::Audit => b"*",
    }
}

/// The name of the object of a number, `*` for the audit; empty where there is no such object.
pub fn name(c: &Config, number: u8) -> &[u8]
    ensures { result.now ≡ name_of c.now number }
{
    match object_at(c, usize::from(number)) {
        Some(place) => name_in(c, place),
        None => &[],
    }
}
