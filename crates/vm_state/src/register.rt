ghost use Rattle.std.specs.Prelude.{◌≡◌};
ghost use Rattle.vm_state.specs.Registers.{register_of, register_row};

/// A value that a processor register doesn't allow, or a register that can't be read or written so.
#[derive(Clone, Copy, Debug, PartialEq, Eq)]
pub struct ReservedOperand;

/// A processor register by its name in the manual; KCALL, MEMSIZE and UPTIME are the profile's.
#[derive(Clone, Copy, Debug, PartialEq, Eq)]
pub enum Register {
    Ksp,
    Esp,
    Ssp,
    Usp,
    Isp,
    P0br,
    P0lr,
    P1br,
    P1lr,
    Sbr,
    Slr,
    Pcbb,
    Scbb,
    Ipl,
    Astlvl,
    Sirr,
    Sisr,
    Iccs,
    Nicr,
    Icr,
    Rxcs,
    Rxdb,
    Txcs,
    Txdb,
    Mapen,
    Tbia,
    Tbis,
    Sid,
    Kcall,
    Memsize,
    Uptime,
}

/// All registers.
static REGISTERS: [Register; 31] = [
    Register::Ksp,
    Register::Esp,
    Register::Ssp,
    Register::Usp,
    Register::Isp,
    Register::P0br,
    Register::P0lr,
    Register::P1br,
    Register::P1lr,
    Register::Sbr,
    Register::Slr,
    Register::Pcbb,
    Register::Scbb,
    Register::Ipl,
    Register::Astlvl,
    Register::Sirr,
    Register::Sisr,
    Register::Iccs,
    Register::Nicr,
    Register::Icr,
    Register::Rxcs,
    Register::Rxdb,
    Register::Txcs,
    Register::Txdb,
    Register::Mapen,
    Register::Tbia,
    Register::Tbis,
    Register::Sid,
    Register::Kcall,
    Register::Memsize,
    Register::Uptime,
];

impl Register {
    /// Its number.
    fn number(self) -> u32
        ensures { result ≡ (register_row self).number }
    {
        match self {
            Register::Ksp => 0,
            Register::Esp => 1,
            Register::Ssp => 2,
            Register::Usp => 3,
            Register::Isp => 4,
            Register::P0br => 8,
            Register::P0lr => 9,
            Register::P1br => 10,
            Register::P1lr => 11,
            Register::Sbr => 12,
            Register::Slr => 13,
            Register::Pcbb => 16,
            Register::Scbb => 17,
            Register::Ipl => 18,
            Register::Astlvl => 19,
            Register::Sirr => 20,
            Register::Sisr => 21,
            Register::Iccs => 24,
            Register::Nicr => 25,
            Register::Icr => 26,
            Register::Rxcs => 32,
            Register::Rxdb => 33,
            Register::Txcs => 34,
            Register::Txdb => 35,
            Register::Mapen => 56,
            Register::Tbia => 57,
            Register::Tbis => 58,
            Register::Sid => 62,
            Register::Kcall => 200,
            Register::Memsize => 201,
            Register::Uptime => 202,
        }
    }

    /// The register of a number; `None` exactly where there is none.
    #[tactic(auto, unfolding(crate::specs::Registers::register_of))]
    pub fn from_number(number: u32) -> Option<Register>
        ensures { result ≡ register_of number }
    {
        REGISTERS
            .iter()
            .copied()
            .find(|register| register.number() == number)
    }
}

/// What a write to a processor register asks for beside the register itself: nothing, a byte to show on the console,
/// real tables for new table registers, or a packet to queue.
#[derive(Clone, Copy, Debug, PartialEq, Eq)]
pub enum RegisterEffect {
    Done,
    Show(u8),
    Remap,
    Kcall(u32),
}
