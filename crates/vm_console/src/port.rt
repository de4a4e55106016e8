ghost use Rattle.std.specs.Prelude.{[], ◌∷◌};
ghost use Rattle.vm_console.specs.Appends.{Appends};

/// Where a console's bytes go.
pub trait Port {
    ghost use Rattle.std.specs.Prelude.{ℕ, List};

    /// Which lists of bytes the port may have been given since the start.
    ghost may: { Self → List ℕ → Type 0 };

    /// Shows a byte.
    fn show(&mut self, byte: u8)
        ensures { Appends may self.old self.new (byte ∷ []) };
}

/// A port that drops its bytes: it may have been given any list.
#[derive(Clone, Copy, Debug)]
pub struct NullPort;

impl Port for NullPort {
    ghost may = { λ _ _. Unit {0} };

    fn show(&mut self, _byte: u8) {}
}

/// Shows each byte in turn.
pub fn show_all<T: Port>(port: &mut T, bytes: &[u8])
    ensures { Appends T.may port.old port.new bytes.now }
{
    for byte in bytes {
        port.show(*byte);
    }
}
