ghost use Rattle.std.specs.Prelude.{◌≡◌, ◌++◌, ◌-◌, ◌≤◌, ◌^◌, IfOk, false, length, map, nat_le, replicate};
ghost use Rattle.sys_config.specs.Config.{config_of};
ghost use Rattle.sys_objects.specs.Condition.{IsConfig};
ghost use Rattle.sys_snap.specs.Held.{HoldsMoment, ReadsSnap, snapshot_guest, snapshot_moment};
ghost use Rattle.sys_snap.specs.Reader.{accepted_config, at_end, head_in, moment_in, state_in};
ghost use Rattle.sys_snap.specs.Reading.{field, four};
ghost use Rattle.sys_snap.specs.Reads.{Reads, ReadsOrLacks};
ghost use Rattle.sys_state.specs.State.{is_running};

use crate::cursor::{Cursor, long};
use crate::fault::{SnapError, SnapFault};
use crate::guests::{read_guests, read_volumes};
use crate::mounts::read_mounts;
use crate::seats::read_seats;
use crate::snap::{GuestSnap, Snap};
use std::alloc::Global;
use sys_config::read_config;
use sys_objects::{Config, ConfigError};
use sys_server::ServerState;

/// What each snapshot begins with.
const HEAD: [u8; 8] = *b"VVSNAP1\n";

/// The most bytes of a configuration's text.
const MOST_TEXT: u32 = 262_144;

/// The most rounds that were made.
const MOST_ROUNDS: u32 = 1_000_000;

fn head(r: &mut Cursor) -> Result<(), SnapFault>
    ensures { Reads (field 8 head_in) r.old r.new result }
{
    let place = r.place();
    if r.cut(8)? != HEAD.as_slice() {
        return Err(SnapFault { place });
    }
    Ok(())
}

fn text_length(r: &mut Cursor) -> Result<u32, SnapFault>
    ensures { Reads (four (λ n. nat_le n 262144)) r.old r.new result }
{
    let place = r.place();
    let length = long(r)?;
    if length > MOST_TEXT {
        return Err(SnapFault { place });
    }
    Ok(length)
}

fn round(r: &mut Cursor) -> Result<u32, SnapFault>
    ensures { Reads (four (λ n. nat_le n 1000000)) r.old r.new result }
{
    let place = r.place();
    let round = long(r)?;
    if round > MOST_ROUNDS {
        return Err(SnapFault { place });
    }
    Ok(round)
}

/// The configuration that a text of `length` bytes stands for.
fn configuration(alloc: Global, r: &mut Cursor, length: u32) -> Result<Config, SnapError>
    ensures reads { ReadsOrLacks (λ c. c) (field length (λ text. accepted_config (config_of text))) r.old r.new result }
    ensures is { IfOk result (λ c. IsConfig c) }
{
    let place = r.place();
    let text = r.cut(length)?;
    match read_config(alloc, text) {
        Ok(config) => Ok(config),
        Err(ConfigError::Fault(_)) => Err(SnapError::Fault(SnapFault { place })),
        Err(ConfigError::NoMemory) => Err(SnapError::NoMemory),
    }
}

/// No byte is left.
fn end(r: &mut Cursor) -> Result<(), SnapFault>
    ensures { Reads at_end r.old r.new result }
{
    if r.left() > 0 {
        return Err(SnapFault { place: r.place() });
    }
    Ok(())
}

fn is_running(guest: &GuestSnap) -> bool
    ensures { result ≡ is_running (snapshot_guest guest.now) }
{
    guest.state.halt.is_none()
}

/// By guest whether it runs.
fn running(guests: &[GuestSnap]) -> [bool; 16]
    requires { length guests.now ≤ 16 }
    ensures { result ≡ map (λ g. is_running (snapshot_guest g)) guests.now ++ replicate (16 - length guests.now) false }
{
    let mut running = [false; 16];
    for (i, guest) in guests.iter().enumerate() {
        running[i] = is_running(guest);
    }
    running
}

/// The state after `round` rounds.
#[tactic(auto, unfolding(crate::specs::Reader::state_in))]
fn read_state(alloc: Global, r: &mut Cursor, config: Config, round: u32) -> Result<Snap, SnapError>
    requires { IsConfig config }
    ensures reads { ReadsOrLacks (λ s. (snapshot_moment s).state) (state_in config) r.old r.new result }
    ensures config { IfOk result (λ s. s.config ≡ config) }
    ensures round { IfOk result (λ s. s.round ≡ round) }
    ensures holds { IfOk result (λ s. HoldsMoment s) }
{
    let at = read_seats(r, &config)?;
    let mounts = read_mounts(r, config.volumes.as_slice(), config.guests.as_slice())?;
    let guests = read_guests(alloc, r, config.guests.as_slice())?;
    let volumes = read_volumes(alloc, r, config.volumes.as_slice())?;
    let running = running(guests.as_slice());
    Ok(Snap {
        config,
        round,
        server: ServerState {
            at,
            mounts,
            running,
        },
        guests,
        volumes,
    })
}

#[tactic(auto, unfolding(crate::specs::Reader::moment_in))]
fn read_moment(alloc: Global, r: &mut Cursor) -> Result<Snap, SnapError>
    ensures reads { ReadsOrLacks snapshot_moment moment_in r.old r.new result }
    ensures holds { IfOk result (λ s. HoldsMoment s) }
{
    head(r)?;
    let length = text_length(r)?;
    let config = configuration(alloc, r, length)?;
    let round = round(r)?;
    let snap = read_state(alloc, r, config, round)?;
    end(r)?;
    Ok(snap)
}

/// Reads a snapshot of at most 2^31 bytes. `Fault` comes exactly where the bytes are none: with the place at which the first
/// field begins that is cut or not allowed after those before it, or at which bytes are left over. `NoMemory` comes where memory
/// ran out before that was decided.
pub fn read_snap(alloc: Global, b: &[u8]) -> Result<Snap, SnapError>
    requires short { length b.now ≤ 2 ^ 31 }
    ensures reads { ReadsSnap b.now result }
{
    read_moment(alloc, &mut Cursor::new(b))
}
