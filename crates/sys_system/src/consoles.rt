ghost use Rattle.std.specs.Prelude.{◌≡◌, ◌≤◌, length};
ghost use Rattle.sys_system.specs.Seats.{AreSeated};
ghost use Rattle.sys_state.specs.Places.{place_of};
ghost use Rattle.sys_objects.specs.Places.{is_at};

use sys_events::is_at;
use sys_objects::GuestRow;

/// The guest whose console is a terminal at power-up.
fn first_guest(rows: &[GuestRow], terminal: u8) -> Option<u8>
    requires { length rows.now ≤ 16 }
    ensures { result ≡ place_of (λ row. is_at terminal row.console) rows.now }
{
    for (place, row) in rows.iter().enumerate() {
        if is_at(row.console, terminal) {
            return Some(place as u8);
        }
    }
    None
}

/// By terminal, the guest whose console it is at power-up; beyond the terminals there is none.
pub fn connections(rows: &[GuestRow], terminals: usize) -> [Option<u8>; 32]
    requires guests { length rows.now ≤ 16 }
    requires terminals { terminals ≤ 32 }
    ensures { AreSeated rows.now terminals result }
{
    let mut at = [None; 32];
    for terminal in 0..terminals {
        at[terminal] = first_guest(rows, terminal as u8);
    }
    at
}
