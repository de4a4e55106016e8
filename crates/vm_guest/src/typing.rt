ghost use Rattle.std.specs.Prelude.{◌≡◌, ◌++◌, ◌∷◌, []};
ghost use Rattle.vm_state.specs.Outside.{all_typed};

use vm_console::Console;

/// Types bytes at a console, as far as they fit.
fn type_all(console: &mut Console, text: &[u8])
    ensures { console.new ≡ all_typed text.now console.old }
{
    for byte in text {
        let _ = console.type_byte(*byte);
    }
}

/// Types a line at a console, with a carriage return after it, as far as it fits.
pub fn type_line(console: &mut Console, text: &[u8])
    ensures { console.new ≡ all_typed (text.now ++ 13 ∷ []) console.old }
{
    type_all(console, text);
    let _ = console.type_byte(b'\r');
}
