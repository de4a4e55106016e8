ghost use Rattle.std.specs.Prelude.{◌≡◌};

use crate::Prot;

/// A page table entry.
#[derive(Clone, Copy, Debug, PartialEq, Eq)]
pub struct Pte(pub u32);

impl Pte {
    ghost use Rattle.vax_arch.specs.Fields.{is_valid, protection_of, is_modified, frame_of};

    /// Whether the entry is valid, bit 31.
    pub fn valid(&self) -> bool
        ensures { result ≡ is_valid self.now.0 }
    {
        self.0 / 0x8000_0000 == 1
    }

    /// The protection code, bits 30:27.
    pub fn prot(&self) -> Prot
        ensures { result ≡ protection_of self.now.0 }
    {
        Prot((self.0 / 0x800_0000 % 16) as u8)
    }

    /// Whether the page was modified, bit 26.
    pub fn modified(&self) -> bool
        ensures { result ≡ is_modified self.now.0 }
    {
        self.0 / 0x400_0000 % 2 == 1
    }

    /// The page frame number, bits 20:0, in pages of 512 bytes.
    pub fn frame(&self) -> u32
        ensures { result ≡ frame_of self.now.0 }
    {
        self.0 % 0x20_0000
    }
}
