ghost use Rattle.std.specs.Prelude.{◌≡◌, ◌∷◌, [], ◌≤◌, All, IfOk, None, Some, drop, length, replicate, take};
ghost use Rattle.sys_objects.specs.Rules.{is_mountable};
ghost use Rattle.sys_snap.specs.Reader.{mount_if, pair_in, units_in};
ghost use Rattle.sys_snap.specs.Reading.{each, field};
ghost use Rattle.sys_snap.specs.Reads.{Reads, ReadsSeen};

use crate::cursor::Cursor;
use crate::fault::SnapFault;
use sys_objects::{GuestRow, Mount, VolumeRow, same_class};
use vv_class::{AccessClass, flows};

/// The byte of a unit on which no volume is mounted.
const NO_VOLUME: u8 = 0xff;

fn is_mountable(class: &AccessClass, write: bool, volume: &VolumeRow) -> bool
    ensures { result ≡ is_mountable class.now write (Some volume.now) }
{
    flows(&volume.class, class) && (!write || same_class(&volume.class, class))
}

/// The mount, where a guest of this class may have it.
fn mount_if(volumes: &[VolumeRow], class: &AccessClass, mount: Mount) -> Option<Option<Mount>>
    ensures { result ≡ mount_if volumes.now class.now (Some mount) }
{
    match volumes.get(usize::from(mount.volume)) {
        Some(volume) if is_mountable(class, mount.write, volume) => Some(Some(mount)),
        _ => None,
    }
}

/// What is mounted by a pair of bytes; `None` where they stand for no mount that the guest may have.
fn pair_of(
    volumes: &[VolumeRow],
    class: &AccessClass,
    volume: u8,
    write: u8,
) -> Option<Option<Mount>>
    ensures { result ≡ pair_in volumes.now class.now (volume ∷ write ∷ []) }
{
    if volume == NO_VOLUME {
        return if write == 0 { Some(None) } else { None };
    }
    match write {
        0 => mount_if(
            volumes,
            class,
            Mount {
                volume,
                write: false,
            },
        ),
        1 => mount_if(
            volumes,
            class,
            Mount {
                volume,
                write: true,
            },
        ),
        _ => None,
    }
}

/// What is mounted on a unit, 2 bytes.
fn pair(
    r: &mut Cursor,
    volumes: &[VolumeRow],
    class: &AccessClass,
) -> Result<Option<Mount>, SnapFault>
    ensures { Reads (field 2 (pair_in volumes.now class.now)) r.old r.new result }
{
    let place = r.place();
    let [volume, write] = r.cut(2)? else {
        return Err(SnapFault { place });
    };
    match pair_of(volumes, class, *volume, *write) {
        Some(mount) => Ok(mount),
        None => Err(SnapFault { place }),
    }
}

/// What is mounted on a guest's four units.
fn units(
    r: &mut Cursor,
    volumes: &[VolumeRow],
    row: &GuestRow,
) -> Result<[Option<Mount>; 4], SnapFault>
    ensures { Reads (units_in volumes.now row.now) r.old r.new result }
{
    Ok([
        pair(r, volumes, &row.class)?,
        pair(r, volumes, &row.class)?,
        pair(r, volumes, &row.class)?,
        pair(r, volumes, &row.class)?,
    ])
}

/// By guest and unit what is mounted, 8 bytes for each guest.
pub fn read_mounts(
    r: &mut Cursor,
    volumes: &[VolumeRow],
    rows: &[GuestRow],
) -> Result<[[Option<Mount>; 4]; 16], SnapFault>
    requires { length rows.now ≤ 16 }
    ensures reads { ReadsSeen (λ mounts. take (length rows.now) mounts) (each (units_in volumes.now) rows.now) r.old r.new result }
    ensures len { IfOk result (λ mounts. length mounts ≡ 16) }
    ensures beyond { IfOk result (λ mounts. All (λ units. units ≡ replicate 4 None) (drop (length rows.now) mounts)) }
{
    let mut mounts = [[None; 4]; 16];
    for (i, row) in rows.iter().enumerate() {
        mounts[i] = units(r, volumes, row)?;
    }
    Ok(mounts)
}
