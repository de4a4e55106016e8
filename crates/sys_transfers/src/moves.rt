ghost use Rattle.std.specs.Prelude.{◌≡◌, ◌+◌, ◌*◌, ◌<◌, ◌≤◌, IfSome, length};
ghost use Rattle.sys_store.specs.Job.{job_text};
ghost use Rattle.sys_state.specs.Transfers.{to_print, to_read, to_write};
ghost use Rattle.sys_transfers.specs.Serves.{Carries, PrintsOf, guest_scene, packet_of};
ghost use Rattle.vm_guest.specs.Kept.{IsShadowedIn, guest_in};
ghost use Rattle.vm_state.specs.Outside.{bytes_at};

use crate::packets::{Request, is_outside};
use sys_objects::{GuestRow, Mount};
use sys_store::{Volumes, print_job};
use vax_hw::Hardware;
use vm_guest::Guest;
use vv_base::Text;

/// The statuses of a packet: it was moved; nothing is at the unit; what is there is mounted for reading; the volume has no such
/// block; a buffer isn't in memory.
const MOVED: u32 = 1;

const NO_UNIT: u32 = 3;

const READ_ONLY: u32 = 4;

const NO_BLOCK: u32 = 5;

const NO_MEMORY: u32 = 6;

/// The longest text that is printed, in bytes.
const MOST_PRINTED: u32 = 132;

/// Room for a block.
fn empty_block() -> [u8; 512]
    ensures { length result ≡ 512 }
{
    [0; 512]
}

/// Room for the longest text.
fn empty_text() -> [u8; 132] {
    [0; 132]
}

/// Reads a block into the guest's memory; answers the status.
pub fn read<H: Hardware>(
    machine: &mut H,
    guest: &mut Guest,
    volumes: &Volumes,
    unit: Option<Mount>,
    p: &Request,
) -> u32
    requires stands { IsShadowedIn (H.machine machine.old).memory guest.old }
    requires mounted { IfSome unit (λ x. x.volume < length volumes.now) }
    ensures { Carries (to_read (512 * guest.old.state.pages) volumes.now unit (packet_of p.now)) (packet_of p.now)
        (guest_scene volumes.now (H.machine machine.old) guest.old) result
        (guest_scene volumes.now (H.machine machine.new) guest.new) }
{
    let Some(mount) = unit else {
        return NO_UNIT;
    };
    let mut bytes = empty_block();
    if volumes
        .read_block(mount.volume, p.block, &mut bytes)
        .is_err()
    {
        return NO_BLOCK;
    }
    if is_outside(guest, p.buffer, 512) {
        return NO_MEMORY;
    }
    guest.store(machine, p.buffer, &bytes);
    MOVED
}

/// Writes a block from the guest's memory; answers the status.
pub fn write<H: Hardware>(
    machine: &H,
    guest: &Guest,
    volumes: &mut Volumes,
    unit: Option<Mount>,
    p: &Request,
) -> u32
    requires stands { IsShadowedIn (H.machine machine.now).memory guest.now }
    requires mounted { IfSome unit (λ x. x.volume < length volumes.old) }
    ensures { Carries (to_write (512 * guest.now.state.pages) volumes.old unit (packet_of p.now)) (packet_of p.now)
        (guest_scene volumes.old (H.machine machine.now) guest.now) result
        (guest_scene volumes.new (H.machine machine.now) guest.now) }
{
    let Some(mount) = unit else {
        return NO_UNIT;
    };
    if !mount.write {
        return READ_ONLY;
    }
    if !volumes.has_block(mount.volume, p.block) {
        return NO_BLOCK;
    }
    if is_outside(guest, p.buffer, 512) {
        return NO_MEMORY;
    }
    let mut bytes = empty_block();
    guest.fetch_into(machine, p.buffer, &mut bytes);
    let _ = volumes.write_block(mount.volume, p.block, &bytes);
    MOVED
}

/// The text of a guest that is printed.
fn job_of<H: Hardware>(machine: &H, guest: &Guest, row: &GuestRow, p: &Request) -> Text<640>
    requires stands { IsShadowedIn (H.machine machine.now).memory guest.now }
    requires short { p.now.size ≤ 132 }
    requires inside { p.now.buffer + p.now.size ≤ 512 * guest.now.state.pages }
    ensures { result ≡ job_text row.now.class row.now.name (bytes_at (guest_in (H.machine machine.now).memory guest.now) p.now.buffer p.now.size) }
{
    let mut text = empty_text();
    let part = &mut text[..p.size as usize];
    guest.fetch_into(machine, p.buffer, part);
    print_job(&row.class, &row.name, part)
}

/// Prints a text of the guest; answers the status, and the job where one is printed.
pub fn print<H: Hardware>(
    machine: &H,
    guest: &Guest,
    row: &GuestRow,
    p: &Request,
) -> (u32, Option<Text<640>>)
    requires stands { IsShadowedIn (H.machine machine.now).memory guest.now }
    ensures { PrintsOf row.now (packet_of p.now) (guest_in (H.machine machine.now).memory guest.now)
        (to_print (512 * guest.now.state.pages) (packet_of p.now)) result.0 result.1 }
{
    if MOST_PRINTED < p.size {
        return (NO_MEMORY, None);
    }
    if is_outside(guest, p.buffer, p.size) {
        return (NO_MEMORY, None);
    }
    (MOVED, Some(job_of(machine, guest, row, p)))
}
