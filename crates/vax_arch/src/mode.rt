ghost use Rattle.std.specs.Prelude.{◌≡◌};

/// An access mode, from the most privileged one to the least.
#[derive(Clone, Copy, Debug, PartialEq, Eq)]
pub enum Mode {
    Kernel,
    Executive,
    Supervisor,
    User,
}

/// What a reference is for.
#[derive(Clone, Copy, Debug, PartialEq, Eq)]
pub enum Intent {
    Read,
    Write,
}

impl Mode {
    ghost use Rattle.vax_arch.specs.Fields.{mode_of, mode_number};

    /// The mode that the low two bits of a number stand for: 0 kernel, 1 executive, 2 supervisor,
    /// 3 user.
    pub fn from_number(number: u32) -> Mode
        ensures { result ≡ mode_of number }
    {
        match number % 4 {
            0 => Mode::Kernel,
            1 => Mode::Executive,
            2 => Mode::Supervisor,
            _ => Mode::User,
        }
    }

    /// The mode's number: 0 for kernel to 3 for user.
    pub fn number(self) -> u8
        ensures { result ≡ mode_number self }
    {
        self as u8
    }
}
