ghost use Rattle.std.specs.Prelude.{◌≡◌, option_map};
ghost use Rattle.vasm_text.specs.Mnemonics.{has_name, mnemonic_of, opcode_of};
ghost use Rattle.vasm_text.specs.Table.{AreNames};

use crate::table::NAMES;

/// The name of an opcode in a table.
fn name_at(names: &[&'static str], opcode: u8) -> Option<&'static str>
    requires { AreNames names.now }
    ensures { option_map (λ name. name.now) result ≡ mnemonic_of opcode }
{
    let name = names[usize::from(opcode)];
    if name.is_empty() { None } else { Some(name) }
}

/// The name of the instruction that an opcode begins; None exactly where there is none. The name of FD
/// is that of WAIT.
pub fn mnemonic(opcode: u8) -> Option<&'static str>
    ensures { option_map (λ name. name.now) result ≡ mnemonic_of opcode }
{
    name_at(&NAMES, opcode)
}

/// Whether an opcode's instruction has the name.
fn is_named(opcode: u8, name: &[u8]) -> bool
    ensures { result ≡ has_name name.now (mnemonic_of opcode) }
{
    match mnemonic(opcode) {
        Some(known) => known.as_bytes() == name,
        None => false,
    }
}

/// The opcode of the instruction that has a name; None exactly where there is none.
pub fn opcode(name: &[u8]) -> Option<u8>
    ensures { result ≡ opcode_of name.now }
{
    for n in 0..256u16 {
        let opcode = n as u8;
        if is_named(opcode, name) {
            return Some(opcode);
        }
    }
    None
}
