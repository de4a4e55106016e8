ghost use Rattle.std.specs.Prelude.{◌≡◌, ◌<◌, true};
ghost use Rattle.vm_state.specs.Registers.{allows, register_row, with_ipl, with_request};
ghost use Rattle.vm_state.specs.State.{HasPlace, state_of};
ghost use Rattle.vm_ipr.specs.Outcomes.{WritesRegister};

use vax_arch::Psl;
use vm_state::{GuestState, Register, RegisterEffect, ReservedOperand, set_pointer};

/// Whether a register may be written, and allows the value.
fn allows(register: Register, v: u32) -> bool
    ensures { result ≡ allows register v }
{
    match register {
        Register::P0br => v % 4 == 0 && v / 0x4000_0000 == 2,
        Register::P1br | Register::Sbr | Register::Pcbb => v % 4 == 0,
        Register::P0lr | Register::Slr => v <= 8192,
        Register::P1lr => 2_088_960 <= v && v <= 2_097_152,
        Register::Scbb => v % 512 == 0,
        Register::Astlvl => v <= 4,
        Register::Sirr => v <= 15,
        Register::Sisr => v % 2 == 0 && v < 0x1_0000,
        Register::Mapen => v <= 1,
        Register::Icr | Register::Rxdb | Register::Sid | Register::Memsize | Register::Uptime => {
            false
        }
        _ => true,
    }
}

/// What a write asks for beside the register.
fn effect_of(register: Register, v: u32) -> RegisterEffect
    ensures { result ≡ (register_row register).effect v }
{
    match register {
        Register::P0br
        | Register::P0lr
        | Register::P1br
        | Register::P1lr
        | Register::Sbr
        | Register::Slr
        | Register::Mapen => RegisterEffect::Remap,
        Register::Txdb => RegisterEffect::Show((v % 256) as u8),
        Register::Kcall => RegisterEffect::Kcall(v),
        _ => RegisterEffect::Done,
    }
}

/// Another IPL, 0 to 31.
fn with_ipl(psl: Psl, level: u32) -> Psl
    requires { level < 32 }
    ensures { result.0 ≡ with_ipl psl.0 level }
{
    Psl(psl.0 / 0x20_0000 * 0x20_0000 + 0x1_0000 * level + psl.0 % 0x1_0000)
}

/// With the request of a software level, 1 to 15; level 0 requests nothing.
#[tactic(auto, using(crate::proofs::Rooms::room))]
fn with_request(level: u32, sisr: u16) -> u16
    requires { level < 16 }
    ensures { result ≡ with_request level sisr }
{
    let bit = 2u16.pow(level);
    if level == 0 || sisr / bit % 2 == 1 {
        sisr
    } else {
        sisr + bit
    }
}

/// Writes an allowed value to a register.
fn write(g: &mut GuestState, register: Register, v: u32)
    requires { allows register v ≡ true }
    ensures state { state_of g.new ≡ (register_row register).after_write v (state_of g.old) }
    ensures place { HasPlace g.old.pages g.old.base g.old.start g.new }
{
    match register {
        Register::Ksp => set_pointer(g, 0, v),
        Register::Esp => set_pointer(g, 1, v),
        Register::Ssp => set_pointer(g, 2, v),
        Register::Usp => set_pointer(g, 3, v),
        Register::Isp => set_pointer(g, 4, v),
        Register::P0br => g.p0br = v,
        Register::P0lr => g.p0lr = v,
        Register::P1br => g.p1br = v,
        Register::P1lr => g.p1lr = v,
        Register::Sbr => g.sbr = v,
        Register::Slr => g.slr = v,
        Register::Pcbb => g.pcbb = v,
        Register::Scbb => g.scbb = v,
        Register::Ipl => g.psl = with_ipl(g.psl, v % 32),
        Register::Astlvl => g.astlvl = v as u8,
        Register::Sirr => g.sisr = with_request(v, g.sisr),
        Register::Sisr => g.sisr = v as u16,
        Register::Iccs => g.clock.write_iccs(v),
        Register::Nicr => g.clock.write_nicr(v),
        Register::Rxcs => g.console.write_rxcs(v),
        Register::Txcs => g.console.write_txcs(v),
        Register::Txdb => g.console.sent(),
        Register::Mapen => g.mapen = v == 1,
        _ => {}
    }
}

/// Writes a processor register by its number, as MTPR does. `ReservedOperand` comes exactly where there is no register of the
/// number, where it is read-only, or where it doesn't allow the value; the guest is then unchanged. Otherwise the effect is
/// `Show` with the low byte exactly for TXDB, `Kcall` with the value exactly for KCALL, which queues nothing itself, `Remap`
/// exactly for the registers of page tables and MAPEN, and `Done` for all others.
#[tactic(auto, unfolding(vm_state::specs::Registers::written))]
pub fn mtpr(g: &mut GuestState, number: u32, v: u32) -> Result<RegisterEffect, ReservedOperand>
    ensures writes { WritesRegister g.old g.new number v result }
    ensures place { HasPlace g.old.pages g.old.base g.old.start g.new }
{
    let Some(register) = Register::from_number(number) else {
        return Err(ReservedOperand);
    };
    if !allows(register, v) {
        return Err(ReservedOperand);
    }
    write(g, register, v);
    Ok(effect_of(register, v))
}
