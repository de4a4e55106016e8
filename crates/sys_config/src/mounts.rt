ghost use Rattle.std.specs.Prelude.{◌≡◌, ◌≤◌, IfSome, length};
ghost use Rattle.toml.specs.View.{view, table_view, items_view};
ghost use Rattle.sys_config.specs.Guests.{volume_place, mount_of, mounted_at_unit, mounts_from, no_mounts, mounts_in};

use crate::entries::name_at;
use crate::named::place_by;
use crate::reads::{are_known, flag_at, number_at};
use crate::{Mount, VolumeRow};
use toml::{Table, Value};

/// A mount and its unit, 0 to 3.
#[derive(Clone, Copy, Debug, PartialEq, Eq)]
pub struct UnitMount {
    pub unit: u8,
    pub mount: Mount,
}

/// The place of the volume that has a name, or the number of volumes.
fn volume_place(volumes: &[VolumeRow], name: &[u8]) -> u8
    requires { length volumes.now ≤ 16 }
    ensures { result ≡ volume_place volumes.now name.now }
{
    place_by(volumes, name)
}

#[tactic(auto, unfolding(crate::specs::Guests::mount_of))]
fn mount(table: &Table, volumes: &[VolumeRow]) -> Option<UnitMount>
    requires { length volumes.now ≤ 16 }
    ensures value { result ≡ mount_of volumes.now (table_view table.now) }
    ensures unit { IfSome result (λ m. m.unit ≤ 3) }
{
    if !are_known(table, &["unit", "volume", "write"]) {
        return None;
    }
    let unit = number_at(table, "unit", 0, 3)? as u8;
    let name = name_at(table, "volume")?;
    let write = flag_at(table, "write")?;
    let volume = volume_place(volumes, name.bytes());
    Some(UnitMount {
        unit,
        mount: Mount { volume, write },
    })
}

/// The units with one more mount; `None` where its unit is taken.
fn placed(units: [Option<Mount>; 4], m: &UnitMount) -> Option<[Option<Mount>; 4]>
    requires { m.now.unit ≤ 3 }
    ensures { result ≡ mounted_at_unit units m.now }
{
    let unit = usize::from(m.unit);
    let mut units = units;
    if units[unit].is_some() {
        return None;
    }
    units[unit] = Some(m.mount);
    Some(units)
}

fn mounts_from(values: &[Value], volumes: &[VolumeRow]) -> Option<[Option<Mount>; 4]>
    requires { length volumes.now ≤ 16 }
    ensures { result ≡ mounts_from volumes.now no_mounts (items_view values.now) }
{
    let mut units = [None; 4];
    for value in values {
        let asked = match value.as_table() {
            Some(table) => match mount(table, volumes) {
                Some(asked) => asked,
                None => return None,
            },
            None => return None,
        };
        match placed(units, &asked) {
            Some(next) => units = next,
            None => return None,
        }
    }
    Some(units)
}

/// The mounts of a guest at their units.
pub fn mounts_in(value: &Value, volumes: &[VolumeRow]) -> Option<[Option<Mount>; 4]>
    requires { length volumes.now ≤ 16 }
    ensures { result ≡ mounts_in volumes.now (view value.now) }
{
    match value.as_array() {
        Some(values) => mounts_from(values, volumes),
        None => None,
    }
}
