ghost use Rattle.std.specs.Prelude.{◌≡◌, ◌<◌, ◌≤◌, ◌+◌, ◌++◌, ◌∷◌, codes, length};
ghost use Rattle.vv_base.specs.Digits.{hex_text};
ghost use Rattle.sys_state.specs.Dump.{register_line, row_line, is_shown};

use vv_base::{Name, Text, decimal, hex};

/// Appends a blank and the two digits of a byte.
fn append_byte(text: &mut Text<64>, b: u8)
    requires { length text.old + 3 ≤ 64 }
    ensures { text.new ≡ text.old ++ 32 ∷ hex_text 2 b }
{
    text.append(b" ");
    text.append(hex(u64::from(b), 2).bytes());
}

/// The line of a guest's name.
pub fn name_text(name: &Name) -> Text<64>
    ensures value { result ≡ codes "VM " ++ name.now }
    ensures room { length result ≤ 62 }
{
    let mut text = Text::new();
    text.append(b"VM ");
    text.append(name.bytes());
    text
}

/// The line of a register.
#[tactic(auto, unfolding(sys_state::specs::Dump::register_line))]
pub fn register_text(number: usize, v: u32) -> Text<64>
    ensures value { result ≡ register_line number v }
    ensures room { length result ≤ 62 }
{
    let mut text = Text::new();
    text.append(b"R");
    text.append(decimal(number as u64).bytes());
    text.append(b" ");
    text.append(hex(u64::from(v), 8).bytes());
    text
}

/// The line of a PSL.
pub fn psl_text(psl: u32) -> Text<64>
    ensures value { result ≡ codes "PSL " ++ hex_text 8 psl }
    ensures room { length result ≤ 62 }
{
    let mut text = Text::new();
    text.append(b"PSL ");
    text.append(hex(u64::from(psl), 8).bytes());
    text
}

/// The line of a row of memory at an address.
#[tactic(auto, unfolding(sys_state::specs::Dump::row_line))]
pub fn row_text(at: u32, row: &[u8; 16]) -> Text<64>
    ensures value { result ≡ row_line at row.now }
    ensures room { length result ≤ 62 }
{
    let mut text = Text::new();
    text.append(hex(u64::from(at), 8).bytes());
    for b in row {
        append_byte(&mut text, *b);
    }
    text
}

/// Whether a row has a byte that isn't zero.
pub fn is_shown(row: &[u8; 16]) -> bool
    ensures { result ≡ is_shown row.now }
{
    row.iter().any(|b| *b != 0)
}
