ghost use Rattle.std.specs.Prelude.{◌≡◌, ◌<◌, ◌≤◌, Some, length, slice_get};
ghost use Rattle.sys_state.specs.Consoles.{console_of};
ghost use Rattle.sys_state.specs.Events.{is_named};
ghost use Rattle.sys_state.specs.Places.{place_of};
ghost use Rattle.sys_objects.specs.Places.{is_at};

use sys_objects::Terminal;
use vv_base::Name;

/// Whether it is this place.
pub fn is_at(place: Option<u8>, k: u8) -> bool
    ensures { result ≡ is_at k place }
{
    place == Some(k)
}

/// The line of the terminal that is connected to a guest.
pub fn console_of(terminals: &[Terminal], connected: &[Option<u8>], guest: u8) -> Option<u8>
    requires { length terminals.now ≤ length connected.now }
    ensures { result ≡ console_of terminals.now connected.now guest }
{
    for (k, terminal) in terminals.iter().enumerate() {
        if is_at(connected[k], guest) {
            return Some(terminal.line);
        }
    }
    None
}

/// The terminal at a place.
pub fn terminal_at(terminals: &[Terminal], place: u8) -> &Terminal
    requires { place < length terminals.now }
    ensures { slice_get terminals.now place ≡ Some result.now }
{
    &terminals[place as usize]
}

fn is_named(terminal: &Terminal, name: &Name) -> bool
    ensures { result ≡ is_named name.now terminal.now }
{
    terminal.name.bytes() == name.bytes()
}

/// The place of the terminal of a name.
pub fn terminal_named(terminals: &[Terminal], name: &Name) -> Option<u8>
    requires { length terminals.now ≤ 32 }
    ensures { result ≡ place_of (is_named name.now) terminals.now }
{
    for (place, terminal) in terminals.iter().enumerate() {
        if is_named(terminal, name) {
            return Some(place as u8);
        }
    }
    None
}
