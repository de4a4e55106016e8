ghost use Rattle.std.specs.Prelude.{◌≡◌, ◌<◌, IfSome, Some};
ghost use Rattle.sys_devices.specs.Shows.{Shows, only_on};
ghost use Rattle.sys_state.specs.Places.{place_of};

use vv_io::Lines;

/// Which of the 32 lines have failed.
pub type Marks = [bool; 32];

/// The first line that is marked.
pub fn first_marked(marks: &Marks) -> Option<u8>
    ensures { result ≡ place_of (λ b. b) marks.now }
{
    for (line, is_marked) in marks.iter().enumerate() {
        if *is_marked {
            return Some(line as u8);
        }
    }
    None
}

/// Puts bytes on a line, all in one put, if it isn't marked and there are some; a fault marks it.
pub fn show_whole<L: Lines>(marks: &mut Marks, lines: &mut L, line: u8, bytes: &[u8])
    requires { line < 32 }
    ensures { Shows marks.old marks.new (L.lines lines.old) (L.lines lines.new) (only_on (Some line) bytes.now) }
{
    let k = line as usize;
    if !marks[k] && !bytes.is_empty() {
        marks[k] = lines.put_on(line, bytes).is_err();
    }
}

/// Puts each byte by itself on a line, if there is one and it isn't marked; a fault marks it.
pub fn show_each<L: Lines>(marks: &mut Marks, lines: &mut L, place: Option<u8>, bytes: &[u8])
    requires { IfSome place (λ line. line < 32) }
    ensures { Shows marks.old marks.new (L.lines lines.old) (L.lines lines.new) (only_on place bytes.now) }
{
    if let Some(line) = place {
        for byte in bytes {
            show_whole(marks, lines, line, &[*byte]);
        }
    }
}
