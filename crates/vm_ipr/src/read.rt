ghost use Rattle.std.specs.Prelude.{◌≡◌, ◌≤◌, ◌*◌, ℕ, IsNone, is_ok, is_some};
ghost use Rattle.vm_state.specs.Registers.{after_read, read, register_row};
ghost use Rattle.vm_state.specs.State.{HasPlace, State, state_of};
ghost use Rattle.vm_ipr.specs.Outcomes.{ReadsRegister};

use vm_state::{GuestState, Register, ReservedOperand, pointer};

/// What the system's identification register gives (profile).
const SID: u32 = 0x5600_0001;

/// Reads a register; `None` exactly where it is write-only.
fn read(g: &mut GuestState, register: Register) -> Option<u32>
    requires { g.old.pages ≤ 65536 }
    ensures value { result ≡ (register_row register).value (512 * g.old.pages) (state_of g.old) }
    ensures state { state_of g.new ≡ after_read register (state_of g.old) }
    ensures place { HasPlace g.old.pages g.old.base g.old.start g.new }
    ensures none { IsNone result → g.new ≡ g.old }
{
    Some(match register {
        Register::Ksp => pointer(g, 0),
        Register::Esp => pointer(g, 1),
        Register::Ssp => pointer(g, 2),
        Register::Usp => pointer(g, 3),
        Register::Isp => pointer(g, 4),
        Register::P0br => g.p0br,
        Register::P0lr => g.p0lr,
        Register::P1br => g.p1br,
        Register::P1lr => g.p1lr,
        Register::Sbr => g.sbr,
        Register::Slr => g.slr,
        Register::Pcbb => g.pcbb,
        Register::Scbb => g.scbb,
        Register::Ipl => u32::from(g.psl.ipl()),
        Register::Astlvl => u32::from(g.astlvl),
        Register::Sisr => u32::from(g.sisr),
        Register::Iccs => g.clock.read_iccs(),
        Register::Icr => g.clock.read_icr(),
        Register::Rxcs => g.console.read_rxcs(),
        Register::Rxdb => g.console.read_rxdb(),
        Register::Txcs => g.console.read_txcs(),
        Register::Mapen => u32::from(g.mapen),
        Register::Sid => SID,
        Register::Memsize => 512 * g.pages,
        Register::Uptime => g.steps,
        _ => {
            return None;
        }
    })
}

/// Reads a processor register by its number, as MFPR does. `ReservedOperand` comes exactly where there is no register of the
/// number or it is write-only; the guest is then unchanged, as it is by every read but that of RXDB, which takes the console's
/// first waiting byte.
#[tactic(auto, unfolding(vm_state::specs::Registers::read))]
pub fn mfpr(g: &mut GuestState, number: u32) -> Result<u32, ReservedOperand>
    requires { g.old.pages ≤ 65536 }
    ensures reads { ReadsRegister g.old g.new number result }
    ensures place { HasPlace g.old.pages g.old.base g.old.start g.new }
{
    let Some(register) = Register::from_number(number) else {
        return Err(ReservedOperand);
    };
    match read(g, register) {
        Some(v) => Ok(v),
        None => Err(ReservedOperand),
    }
}

/// Whether reading a register gives a value, which no state of the guest decides.
fn gives_value(register: Register) -> bool
    ensures { (size : ℕ) (u : State) → result ≡ is_some ((register_row register).value size u) }
{
    !matches!(
        register,
        Register::Sirr
            | Register::Nicr
            | Register::Txdb
            | Register::Tbia
            | Register::Tbis
            | Register::Kcall
    )
}

/// Whether MFPR reads a register of this number: that there is one, and that it isn't write-only. Nothing is read.
#[tactic(auto, unfolding(vm_state::specs::Registers::read))]
pub fn is_readable(number: u32) -> bool
    ensures { (size : ℕ) (u : State) → result ≡ is_ok (read size u number) }
{
    match Register::from_number(number) {
        Some(register) => gives_value(register),
        None => false,
    }
}
