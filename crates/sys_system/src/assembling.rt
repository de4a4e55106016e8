ghost use Rattle.std.specs.Prelude.{◌≡◌, ◌≤◌, ◌*◌, IfOk, None, length, map};
ghost use Rattle.sys_guests.specs.Layout.{guests_in};
ghost use Rattle.sys_guests.specs.Loads.{MemoryAlone, first_misfit};
ghost use Rattle.sys_guests.specs.Present.{HavePresent};
ghost use Rattle.sys_state.specs.FirstTouches.{none_touched};
ghost use Rattle.sys_objects.specs.Condition.{IsConfig};
ghost use Rattle.sys_system.specs.Held.{AreSystemParts, system_of};
ghost use Rattle.sys_snap.specs.Held.{HoldsMoment, snapshot_moment};
ghost use Rattle.sys_snap.specs.Snap.{IsMoment};
ghost use Rattle.sys_system.specs.Powers.{IsAt, IsPowered};
ghost use Rattle.sys_system.specs.Seats.{AreMounted, IsInitialServer};

use crate::consoles::connections;
use crate::given::volumes_of;
use crate::parts::Parts;
use crate::turns::Turns;
use std::alloc::Global;
use sys_guests::{Kernel, load_guests, place_guests};
use sys_objects::{Config, GuestRow, Mount};
use sys_server::ServerState;
use sys_snap::Snap;
use sys_store::Volumes;
use vax_hw::Hardware;
use vm_console::KeptPort;
use vm_guest::Counts;
use vv_base::NoMemory;

/// By guest and unit what is mounted at power-up; beyond the guests nothing is.
fn mounts_of(rows: &[GuestRow]) -> [[Option<Mount>; 4]; 16]
    requires { length rows.now ≤ 16 }
    ensures { AreMounted rows.now result }
{
    let mut mounts = [[None; 4]; 16];
    for (place, row) in rows.iter().enumerate() {
        mounts[place] = row.mounts;
    }
    mounts
}

/// What the server keeps at power-up.
fn server_of(config: &Config) -> ServerState
    requires { IsConfig config.now }
    ensures { IsInitialServer config.now result }
{
    let rows = config.guests.as_slice();
    ServerState {
        at: connections(rows, config.terminals.len()),
        mounts: mounts_of(rows),
        running: [false; 16],
    }
}

/// The parts of a system whose power comes on with these volumes: its guests are laid out in a machine of 32,768 pages, and
/// their images loaded. All memory is taken here.
pub fn assemble<H: Hardware>(
    alloc: Global,
    config: Config,
    images: &[Vec<u8>],
    machine: &mut H,
    volumes: Volumes,
) -> Result<Parts, NoMemory>
    requires accepted { IsConfig config }
    requires images { length images.now ≡ length config.guests }
    requires fit { first_misfit config.guests (map (λ b. b.items) images.now) ≡ None }
    requires sizes { map length volumes ≡ map (λ v. v.blocks) config.volumes }
    requires pages { length (H.machine machine.old).memory ≡ 512 * 32768 }
    ensures inside { IfOk result AreSystemParts }
    ensures powered { IfOk result (λ s. IsPowered config (map (λ b. b.items) images.now) volumes (H.machine machine.new) (system_of s)) }
    ensures present { IfOk result (λ s. HavePresent (system_of s).guests (map none_touched (guests_in (H.machine machine.new).memory (system_of s).guests))) }
    ensures alone { MemoryAlone (H.machine machine.old) (H.machine machine.new) }
{
    let rows = config.guests.as_slice();
    let port = KeptPort::new(alloc)?;
    let turns = Turns::none(alloc, rows.len())?;
    let guests = load_guests(alloc, rows, images, machine)?;
    let server = server_of(&config);
    Ok(Parts {
        kernel: Kernel {
            config,
            server,
            guests,
            marks: [false; 32],
            port,
        },
        volumes,
        turns,
        rounds: 0,
        counts: Counts::none(),
        drives: [false; 16],
    })
}

/// The parts of a system that goes on from a moment: its guests are laid out in a machine of 32,768 pages, with their memories.
/// All memory is taken here.
pub fn assemble_again<H: Hardware>(
    alloc: Global,
    snap: Snap,
    machine: &mut H,
) -> Result<Parts, NoMemory>
    requires held { HoldsMoment snap }
    requires moment { IsMoment (snapshot_moment snap) }
    requires pages { length (H.machine machine.old).memory ≡ 512 * 32768 }
    ensures inside { IfOk result AreSystemParts }
    ensures at { IfOk result (λ s. IsAt (snapshot_moment snap) (H.machine machine.new) (system_of s)) }
    ensures present { IfOk result (λ s. HavePresent (system_of s).guests (map none_touched (guests_in (H.machine machine.new).memory (system_of s).guests))) }
    ensures alone { MemoryAlone (H.machine machine.old) (H.machine machine.new) }
{
    let Snap {
        config,
        round,
        server,
        guests,
        volumes,
    } = snap;
    let rows = config.guests.as_slice();
    let port = KeptPort::new(alloc)?;
    let turns = Turns::none(alloc, rows.len())?;
    let volumes = volumes_of(alloc, config.volumes.as_slice(), &volumes)?;
    let guests = place_guests(alloc, rows, guests, machine)?;
    Ok(Parts {
        kernel: Kernel {
            config,
            server,
            guests,
            marks: [false; 32],
            port,
        },
        volumes,
        turns,
        rounds: round,
        counts: Counts::none(),
        drives: [false; 16],
    })
}
