ghost use Rattle.std.specs.Prelude.{◌≡◌};
ghost use Rattle.vm_console.specs.Appends.{Appends};
ghost use Rattle.vm_state.specs.State.{pc_of, state_of};
ghost use Rattle.vm_state.specs.Stops.{stop_text};

use vm_console::{Port, show_all};
use vm_state::{GuestState, StopCode};
use vv_base::{Text, hex};

/// `?CC PPPPPPPP`, CR and LF: a code and a PC.
fn stop_message(code: StopCode, pc: u32) -> Text<16>
    ensures { result ≡ stop_text code pc }
{
    let mut text = Text::new();
    let _ = text.push(b'?');
    let _ = text.push_all(hex(u64::from(code.number()), 2).bytes());
    let _ = text.push(b' ');
    let _ = text.push_all(hex(u64::from(pc), 8).bytes());
    let _ = text.push(b'\r');
    let _ = text.push(b'\n');
    text
}

/// Shows that a guest stopped with a code: `?CC PPPPPPPP`, CR and LF, with its PC.
pub fn show_stop<T: Port>(g: &GuestState, port: &mut T, code: StopCode)
    ensures { Appends T.may port.old port.new (stop_text code (pc_of (state_of g.now))) }
{
    show_all(port, stop_message(code, g.r[15]).bytes());
}
