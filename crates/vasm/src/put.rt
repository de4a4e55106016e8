ghost use Rattle.std.specs.Prelude.{◌≡◌, ◌<◌, ◌++◌, [], ◌∷◌, IfSome, OnOk};
ghost use Rattle.vax_table.specs.Spelling.{bytes_of};
ghost use Rattle.vax_table.specs.Spelled.{spelled, spelled_specifier, with_index_byte};
ghost use Rattle.vax_decode.specs.Encoding.{IsInRange};
ghost use Rattle.vasm_text.specs.Asm.{opcode_bytes};

use vax_table::{Access, Form, Spec, value_size};
use vv_base::NoMemory;

/// Appends a byte.
fn put(bytes: &mut Vec<u8>, byte: u8) -> Result<(), NoMemory>
    ensures { OnOk result (bytes.new.items ≡ bytes.old.items ++ byte ∷ []) }
{
    bytes.push(byte)?;
    Ok(())
}

/// Appends the low bytes of a number, the lowest first.
pub(crate) fn put_number(bytes: &mut Vec<u8>, size: u8, value: u64) -> Result<(), NoMemory>
    ensures { OnOk result (bytes.new.items ≡ bytes.old.items ++ bytes_of size value) }
{
    let mut rest = value;
    for _left in (0..size).rev() {
        put(bytes, (rest % 256) as u8)?;
        rest /= 256;
    }
    Ok(())
}

/// Appends a specifier without its index.
#[tactic(auto, unfolding(vax_table::specs::Spelled::spelled_specifier))]
fn put_specifier(bytes: &mut Vec<u8>, form: Form, spec: &Spec) -> Result<(), NoMemory>
    requires mode { spec.now.mode < 16 }
    requires reg { spec.now.reg < 16 }
    requires literal { spec.now.mode ≡ 0 → spec.now.value < 64 }
    ensures { OnOk result (bytes.new.items ≡ bytes.old.items ++ spelled_specifier form spec.now) }
{
    if spec.mode == 0 {
        return put(bytes, spec.value as u8);
    }
    put(bytes, 16 * spec.mode + spec.reg)?;
    put_number(bytes, value_size(form, spec), spec.value)
}

/// Appends an index, if there is one.
fn put_index(bytes: &mut Vec<u8>, index: Option<u8>) -> Result<(), NoMemory>
    requires { IfSome index (λ x. x < 15) }
    ensures { OnOk result (bytes.new.items ≡ bytes.old.items ++ with_index_byte index []) }
{
    match index {
        Some(x) => put(bytes, 0x40 + x),
        None => Ok(()),
    }
}

/// Appends an operand of the form.
#[tactic(auto, unfolding(vax_table::specs::Spelled::spelled))]
pub(crate) fn put_operand(bytes: &mut Vec<u8>, form: Form, spec: &Spec) -> Result<(), NoMemory>
    requires { IsInRange form spec.now }
    ensures { OnOk result (bytes.new.items ≡ bytes.old.items ++ spelled form spec.now) }
{
    if form.access == Access::Branch {
        return put_number(bytes, form.width.bytes(), spec.value);
    }
    put_index(bytes, spec.index)?;
    put_specifier(bytes, form, spec)
}

/// Appends an opcode.
pub(crate) fn put_opcode(bytes: &mut Vec<u8>, opcode: u8) -> Result<(), NoMemory>
    ensures { OnOk result (bytes.new.items ≡ bytes.old.items ++ opcode_bytes opcode) }
{
    put(bytes, opcode)?;
    if opcode == 0xFD {
        return put(bytes, 1);
    }
    Ok(())
}
