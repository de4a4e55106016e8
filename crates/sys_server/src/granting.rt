ghost use Rattle.std.specs.Prelude.{◌≡◌, ◌<◌, IfSome, Some, None, map, position, slice_set, length};
ghost use Rattle.sys_server.specs.Apply.{HasPlaces, applied, freed, taken};
ghost use Rattle.sys_objects.specs.Places.{is_at};

use crate::{Command, ServerState};

fn is_guest(place: Option<u8>, g: u8) -> bool
    ensures { result ≡ is_at g place }
{
    place == Some(g)
}

fn freed(place: Option<u8>, g: u8) -> Option<u8>
    ensures { result ≡ freed g place }
{
    if is_guest(place, g) { None } else { place }
}

/// Each terminal that had the guest is with the server again.
fn free(at: &mut [Option<u8>; 32], g: u8)
    ensures { at.new ≡ map (freed g) at.old }
{
    for t in 0..32usize {
        at[t] = freed(at[t], g);
    }
}

fn first_terminal(at: &[Option<u8>; 32], g: u8) -> Option<usize>
    ensures value { result ≡ position (is_at g) at.now }
    ensures within { IfSome result (λ t. t < length at.now) }
{
    at.iter().position(|place| is_guest(*place, g))
}

/// The first terminal that has the guest.
fn terminal_of(at: &[Option<u8>; 32], g: u8) -> Option<u8>
    ensures { result ≡ position (is_at g) at.now }
{
    match first_terminal(at, g) {
        Some(terminal) => Some(terminal as u8),
        None => None,
    }
}

/// The guest's console moves to the terminal. The other terminal that had it, if one did.
fn connect(at: &mut [Option<u8>; 32], terminal: u8, g: u8) -> Option<u8>
    requires { terminal < 32 }
    ensures at { at.new ≡ slice_set (map (freed g) at.old) terminal (Some g) }
    ensures taken { result ≡ position (is_at g) (slice_set at.old terminal None) }
{
    at[usize::from(terminal)] = None;
    let taken = terminal_of(at, g);
    free(at, g);
    at[usize::from(terminal)] = Some(g);
    taken
}

/// The state after a granted command at a terminal, 0 to 31, and the other terminal whose console was taken, if one was.
#[tactic(auto, unfolding(crate::specs::Apply::applied, crate::specs::Apply::taken))]
pub fn apply(s: &mut ServerState, terminal: u8, cmd: &Command) -> Option<u8>
    requires terminal { terminal < 32 }
    requires places { HasPlaces cmd.now }
    ensures state { s.new ≡ applied s.old terminal cmd.now }
    ensures taken { result ≡ taken s.old terminal cmd.now }
{
    match *cmd {
        Command::Connect(g) => return connect(&mut s.at, terminal, g),
        Command::Start(g) => s.running[usize::from(g)] = true,
        Command::Halt(g) => s.running[usize::from(g)] = false,
        Command::MountAt(g, unit, mount) => {
            s.mounts[usize::from(g)][usize::from(unit)] = Some(mount);
        }
        Command::Dismount(g, unit) => s.mounts[usize::from(g)][usize::from(unit)] = None,
        Command::Show => {}
    }
    None
}
