ghost use Rattle.std.specs.Prelude.{◌≡◌, ◌+◌, ◌<◌, ◌≤◌, ◌↔◌, [], ◌∷◌, ◌++◌, length, IsOk, OnOk, OnErr};

use crate::Full;
use arrayvec::ArrayVec;
use std::marker::Model;

/// A text of at most `N` bytes, seen as the list of its bytes. It takes no memory of its own.
#[derive(Drop)]
pub struct Text<const N: usize> {
    bytes: ArrayVec<u8, N>,
}

impl<const N: usize> Model for Text<N> {
    ghost use Rattle.std.specs.Prelude.{List, ℕ};

    ghost Value = { List ℕ };

    ghost view = { λ text. text.bytes.items };
}

/// The name of a guest, terminal, volume or printer.
pub type Name = Text<8>;

/// The name of a file.
pub type FileName = Text<64>;

impl<const N: usize> Text<N> {
    /// The empty text.
    pub fn new() -> Self
        ensures { result ≡ [] }
    {
        Text {
            bytes: ArrayVec::new(),
        }
    }

    /// The text of bytes that fit.
    pub fn from_bytes(bytes: &[u8]) -> Self
        requires { length bytes.now ≤ N }
        ensures { result ≡ bytes.now }
    {
        let mut text = Text::new();
        text.append(bytes);
        text
    }

    /// A copy of the text.
    pub fn copied(&self) -> Self
        ensures { result ≡ self.now }
    {
        Text::from_bytes(self.bytes())
    }

    /// The bytes, at most `N`.
    pub fn bytes(&self) -> &[u8]
        ensures value { result.now ≡ self.now }
        ensures len { length result.now ≤ N }
    {
        self.bytes.as_slice()
    }

    /// Appends a byte; `Full` exactly where `N` bytes are there already, and then the text is unchanged.
    pub fn push(&mut self, b: u8) -> Result<(), Full>
        ensures fits { IsOk result ↔ (length self.old < N) }
        ensures ok { OnOk result (self.new ≡ self.old ++ b ∷ []) }
        ensures err { OnErr result (self.new ≡ self.old) }
    {
        match self.bytes.try_push(b) {
            Ok(()) => Ok(()),
            Err(_) => Err(Full),
        }
    }

    /// Appends all of the bytes; `Full` exactly where they don't fit, and then the text is unchanged.
    pub fn push_all(&mut self, bytes: &[u8]) -> Result<(), Full>
        ensures fits { IsOk result ↔ (length self.old + length bytes.now ≤ N) }
        ensures ok { OnOk result (self.new ≡ self.old ++ bytes.now) }
        ensures err { OnErr result (self.new ≡ self.old) }
    {
        match self.bytes.try_extend_from_slice(bytes) {
            Ok(()) => Ok(()),
            Err(_) => Err(Full),
        }
    }

    /// Appends a byte that fits.
    pub fn append_byte(&mut self, b: u8)
        requires { length self.old + 1 ≤ N }
        ensures written { self.new ≡ self.old ++ b ∷ [] }
        ensures len { length self.new ≡ length self.old + 1 }
    {
        self.bytes.push(b);
    }

    /// Appends bytes that fit.
    pub fn append(&mut self, bytes: &[u8])
        requires { length self.old + length bytes.now ≤ N }
        ensures written { self.new ≡ self.old ++ bytes.now }
        ensures len { length self.new ≡ length self.old + length bytes.now }
    {
        let _ = self.push_all(bytes);
    }
}
