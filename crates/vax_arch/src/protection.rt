ghost use Rattle.std.specs.Prelude.{◌≡◌, ℕ, ◌<◌};
ghost use Rattle.vax_arch.specs.Protection.{may_of};
ghost use Rattle.vax_arch.specs.Ring.{compressed_of, open_of, Compresses, SharesExecutive};

use crate::{Intent, Mode};
use std::marker::Model;

/// A protection code, 0 to 15. Contracts see it as its number.
#[derive(Clone, Copy, Debug, PartialEq, Eq)]
pub struct Prot(pub u8);

impl Model for Prot {
    ghost use Rattle.std.specs.Prelude.{ℕ, ◌<◌};

    ghost Value = { ℕ };

    ghost view = { λ p. p.0 };

    ghost invariant = { λ p. p.0 < 16 };

    ghost inverse = { λ code. record { 0 = code } };
}

/// How many modes, from kernel on, may write and read under a code.
#[derive(Clone, Copy)]
struct Limits {
    write: u8,
    read: u8,
}

static LIMITS: [Limits; 16] = [
    Limits { write: 0, read: 0 },
    Limits { write: 0, read: 0 },
    Limits { write: 1, read: 1 },
    Limits { write: 0, read: 1 },
    Limits { write: 4, read: 4 },
    Limits { write: 2, read: 2 },
    Limits { write: 1, read: 2 },
    Limits { write: 0, read: 2 },
    Limits { write: 3, read: 3 },
    Limits { write: 2, read: 3 },
    Limits { write: 1, read: 3 },
    Limits { write: 0, read: 3 },
    Limits { write: 3, read: 4 },
    Limits { write: 2, read: 4 },
    Limits { write: 1, read: 4 },
    Limits { write: 0, read: 4 },
];

/// Whether a code allows a mode to read or write, by the manual's table.
pub fn may(p: Prot, m: Mode, i: Intent) -> bool
    ensures { result ≡ may_of p m i }
{
    let limits = LIMITS[usize::from(p.0)];
    let limit = match i {
        Intent::Read => limits.read,
        Intent::Write => limits.write,
    };
    m.number() < limit
}

/// The code that a real entry has in place of a guest's code, by ring compression.
pub fn compress(p: Prot) -> Prot
    ensures { result ≡ compressed_of p }
{
    match p.0 {
        2 | 6 => Prot(5),
        3 => Prot(7),
        10 => Prot(9),
        14 => Prot(13),
        _ => p,
    }
}

/// Whether a code allows a mode of the virtual machine to read or write: as `may`, and executive has
/// all that kernel has.
pub fn ring_may(p: Prot, m: Mode, i: Intent) -> bool
    ensures { result ≡ open_of p m i }
{
    may(p, m, i) || m == Mode::Executive && may(p, Mode::Kernel, i)
}

/// The law of ring compression, which its contract states: no virtual mode runs in real kernel mode;
/// a compressed code is a code, and it allows a real mode exactly what the guest's code allows the
/// virtual mode.
pub fn compression_law()
    ensures modes { SharesExecutive }
    ensures code { (code : ℕ) → code < 16 → compressed_of code < 16 }
    ensures rights { Compresses }
{}
