use std::alloc::Global;
use std::marker::Model;
use vv_base::NoMemory;

/// The text of a typed line, at most 1,000 bytes from hexadecimal 20 to 7E, seen as the list of its bytes.
/// It keeps them in memory of their own length.
#[derive(Drop)]
pub struct LineText {
    bytes: Vec<u8>,
}

impl Model for LineText {
    ghost use Rattle.std.specs.Prelude.{List, ℕ, IsTrue};
    ghost use Rattle.sys_script.specs.Texts.{is_text};

    ghost Value = { List ℕ };

    ghost view = { λ text. text.bytes.items };

    ghost invariant = { λ text. IsTrue (is_text text.bytes.items) };
}

impl LineText {
    ghost use Rattle.std.specs.Prelude.{◌≡◌, IfOk, IsTrue};
    ghost use Rattle.sys_script.specs.Texts.{is_text};

    /// The text of these bytes.
    pub fn new(alloc: Global, bytes: &[u8]) -> Result<LineText, NoMemory>
        requires { IsTrue (is_text bytes.now) }
        ensures { IfOk result (λ text. text ≡ bytes.now) }
    {
        Ok(LineText {
            bytes: Vec::from_slice(alloc, bytes)?,
        })
    }

    /// The bytes.
    pub fn bytes(&self) -> &[u8]
        ensures value { result.now ≡ self.now }
        ensures text { IsTrue (is_text result.now) }
    {
        &self.bytes
    }
}
