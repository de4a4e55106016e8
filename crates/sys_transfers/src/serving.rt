ghost use Rattle.std.specs.Prelude.{◌≡◌, ◌+◌, ◌*◌, ◌%◌, ◌≤◌, [], ◌∷◌, None, slice_index_or};
ghost use Rattle.sys_state.specs.Guests.{answered};
ghost use Rattle.sys_transfers.specs.Serves.{CarriesAll, MountsNameVolumes, ServesOne, guest_scene, packet_of};
ghost use Rattle.vm_guest.specs.Kept.{Becomes, IsShadowedIn, guest_in};
ghost use Rattle.vm_simulation_laws.specs.Moves.{Drops};
ghost use Rattle.vm_state.specs.Packets.{status_place};
ghost use Rattle.vm_state.specs.Translation.{frame_at};

use crate::moves::{print, read, write};
use crate::packets::{Request, request_at};
use sys_objects::{GuestRow, Mount};
use sys_store::Volumes;
use vax_hw::Hardware;
use vm_guest::Guest;
use vv_base::{Text, put_u32};

/// The status of a packet whose function doesn't exist.
const NO_FUNCTION: u32 = 7;

/// Where a packet's status is, in bytes from its beginning.
const STATUS: u32 = 20;

/// What is at a unit.
fn mount_at(mounts: &[Option<Mount>; 4], unit: u32) -> Option<Mount>
    ensures { result ≡ slice_index_or mounts.now unit None }
{
    mounts.get(unit as usize).copied().flatten()
}

/// A packet is answered: its status is stored, and the interrupt of transfers is requested.
fn answer<H: Hardware>(machine: &mut H, guest: &mut Guest, at: u32, status: u32)
    requires stands { IsShadowedIn (H.machine machine.old).memory guest.old }
    requires inside { at + 24 ≤ 512 * guest.old.state.pages }
    ensures becomes { Becomes (answered at status (guest_in (H.machine machine.old).memory guest.old))
        (H.machine machine.old) guest.old (H.machine machine.new) guest.new }
    ensures drops { at % 4 ≡ 0 → Drops (frame_at (status_place at) ∷ []) guest.old.shadow guest.new.shadow }
{
    let mut bytes = [0; 4];
    put_u32(&mut bytes, 0, status);
    guest.store(machine, at + STATUS, &bytes);
    guest.post_kcall();
}

/// Makes the move that a packet asks for; answers the status, and the job that the guest's printer gets.
fn carry<H: Hardware>(
    machine: &mut H,
    guest: &mut Guest,
    row: &GuestRow,
    mounts: &[Option<Mount>; 4],
    volumes: &mut Volumes,
    p: &Request,
) -> (u32, Option<Text<640>>)
    requires stands { IsShadowedIn (H.machine machine.old).memory guest.old }
    requires mounted { MountsNameVolumes mounts.now volumes.old }
    ensures { CarriesAll row.now mounts.now (packet_of p.now)
        (guest_scene volumes.old (H.machine machine.old) guest.old) result
        (guest_scene volumes.new (H.machine machine.new) guest.new) }
{
    let mount = mount_at(mounts, p.unit);
    match p.function {
        1 => (read(machine, guest, volumes, mount, p), None),
        2 => (write(machine, guest, volumes, mount, p), None),
        3 => print(machine, guest, row, p),
        _ => (NO_FUNCTION, None),
    }
}

/// Serves the packet at a physical address of a guest, which is a multiple of 4 with its 24 bytes in memory: makes the move that
/// it asks for, stores its status and requests the interrupt. Answers the job that the guest's printer gets, if one is printed.
pub fn serve<H: Hardware>(
    machine: &mut H,
    guest: &mut Guest,
    row: &GuestRow,
    mounts: &[Option<Mount>; 4],
    volumes: &mut Volumes,
    at: u32,
) -> Option<Text<640>>
    requires stands { IsShadowedIn (H.machine machine.old).memory guest.old }
    requires inside { at + 24 ≤ 512 * guest.old.state.pages }
    requires mounted { MountsNameVolumes mounts.now volumes.old }
    ensures { ServesOne row.now mounts.now at (guest_scene volumes.old (H.machine machine.old) guest.old) result
        (guest_scene volumes.new (H.machine machine.new) guest.new) }
{
    let p = request_at(machine, guest, at);
    let (status, job) = carry(machine, guest, row, mounts, volumes, &p);
    answer(machine, guest, at, status);
    job
}
