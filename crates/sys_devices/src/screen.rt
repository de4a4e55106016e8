ghost use Rattle.std.specs.Prelude.{◌≡◌, ◌<◌, [], ◌∷◌, All, IfOk, is_err, slice_index_or};
ghost use Rattle.sys_devices.specs.Screens.{AreSameScreens, AreScreens, AreWithin, Echoes, IsLineKnown, IsSameScreen, IsScreenWithin, new_on};
ghost use Rattle.vv_io.specs.Lines.{unseen};

use crate::piece::{put_end, put_piece};
use std::alloc::Global;
use sys_objects::Terminal;
use vv_base::{Name, NoMemory};
use vv_io::{Lines, Sink, SinkFault};

/// A terminal as an operator sees it.
#[derive(Drop)]
pub struct Screen {
    pub name: Name,
    pub line: u8,
    /// How many bytes of what its line has shown were seen.
    pub seen: u64,
}

/// The screens of these terminals, from what their lines have shown on.
pub fn screens_of<L: Lines>(
    alloc: Global,
    terminals: &[Terminal],
    lines: &L,
) -> Result<Vec<Screen>, NoMemory>
    requires { All (λ t. t.line < 32) terminals.now }
    ensures { IfOk result (λ screens. AreScreens (L.lines lines.now) terminals.now screens.items) }
{
    let mut screens = Vec::new(alloc);
    for terminal in terminals {
        screens.push(Screen {
            name: terminal.name.copied(),
            line: terminal.line,
            seen: lines.shown_len_of(terminal.line),
        })?;
    }
    Ok(screens)
}

/// Puts what a screen's line was shown since it was last seen.
fn echo_one<O: Sink, L: Lines>(
    screen: &mut Screen,
    lines: &mut L,
    out: &mut O,
) -> Result<(), SinkFault>
    requires { screen.old.line < 32 }
    ensures echoes { Echoes (is_err result) (L.lines lines.old) (screen.old ∷ []) (O.printed out.old) (O.printed out.new) }
    ensures same { IsSameScreen screen.old screen.new }
    ensures seen { IfOk result (λ _. IsLineKnown (slice_index_or (L.lines lines.old) screen.old.line unseen) → new_on (L.lines lines.old) screen.new ≡ []) }
    ensures within { IsScreenWithin (L.lines lines.old) screen.old → IsScreenWithin (L.lines lines.old) screen.new }
    ensures stays { L.lines lines.new ≡ L.lines lines.old }
{
    let line = screen.line;
    let end = lines.shown_len_of(line);
    let mut piece = [0; 512];
    let mut is_begun = false;
    while screen.seen < end {
        let count = lines.read_back_from(line, screen.seen, &mut piece);
        if count == 0 {
            break;
        }
        screen.seen = screen.seen.saturating_add(count as u64);
        is_begun = put_piece(out, &screen.name, is_begun, &piece[..count])?;
    }
    put_end(out, is_begun)
}

/// Puts what the lines of all screens were shown since they were last seen, screen by screen. The first fault of the sink ends it.
pub fn echo<O: Sink, L: Lines>(
    screens: &mut Vec<Screen>,
    lines: &mut L,
    out: &mut O,
) -> Result<(), SinkFault>
    requires { All (λ screen. screen.line < 32) screens.old.items }
    ensures echoes { Echoes (is_err result) (L.lines lines.old) screens.old.items (O.printed out.old) (O.printed out.new) }
    ensures same { AreSameScreens screens.old.items screens.new.items }
    ensures seen { IfOk result (λ _. All (λ screen. IsLineKnown
        (slice_index_or (L.lines lines.old) screen.line unseen) → new_on (L.lines lines.old) screen ≡ [])
        screens.new.items) }
    ensures within { AreWithin (L.lines lines.old) screens.old.items → AreWithin (L.lines lines.old) screens.new.items }
    ensures stays { L.lines lines.new ≡ L.lines lines.old }
{
    for screen in screens.iter_mut() {
        echo_one(screen, lines, out)?;
    }
    Ok(())
}
