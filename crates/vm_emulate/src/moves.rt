ghost use Rattle.std.specs.Prelude.{[], ◌≡◌, ◌*◌};
ghost use Rattle.vm_console.specs.Appends.{Appends};
ghost use Rattle.vm_emulate.specs.Emulated.{Senses, shown_by};
ghost use Rattle.vm_emulate.specs.Moved.{IsStatusSet, MovesToRegister};
ghost use Rattle.vm_shadow.specs.Shadowed.{Keeps};
ghost use Rattle.vm_shadow.specs.StandsFor.{StandsFor};
ghost use Rattle.vm_state.specs.Packets.{accepted, after_accept};
ghost use Rattle.vm_state.specs.Partition.{guest_of};
ghost use Rattle.vm_state.specs.Sensitive.{move_to_register, with_codes};
ghost use Rattle.vm_state.specs.State.{HasPlace, state_of};

use crate::Emulated;
use crate::halts::registers_after;
use vax_alu::alu;
use vax_arch::Psl;
use vax_hw::Hardware;
use vax_table::{AluOp, Trapped};
use vm_console::Port;
use vm_ipr::mtpr;
use vm_kcall::{Accept, accept};
use vm_shadow::Shadow;
use vm_state::{Exc, GuestState, RegisterEffect, ReservedOperand};
use vv_base::Width;

/// Sets the codes of a longword that was moved.
pub fn set_codes(g: &mut GuestState, v: u32)
    ensures state { state_of g.new ≡ with_codes v (state_of g.old) }
    ensures place { HasPlace g.old.pages g.old.base g.old.start g.new }
{
    let codes = alu(AluOp::Move, v, 0, Width::Long, (g.psl.0 % 256) as u8);
    g.psl = Psl(g.psl.0 / 256 * 256 + u32::from(codes.psw));
}

/// Writes the register that MTPR names, and goes after it with the codes of the value. A refused write changes nothing.
fn write_register(g: &mut GuestState, t: &Trapped) -> Result<RegisterEffect, ReservedOperand>
    ensures is { MovesToRegister g.old t.now result g.new }
    ensures place { HasPlace g.old.pages g.old.base g.old.start g.new }
{
    let before = g.r;
    g.r = registers_after(t);
    match mtpr(g, t.b, t.a) {
        Ok(effect) => {
            set_codes(g, t.a);
            Ok(effect)
        }
        Err(refused) => {
            g.r = before;
            Err(refused)
        }
    }
}

/// Where a packet's status is, in bytes, and the status of one that finds the queue full.
const STATUS: u32 = 20;

const BUSY: u32 = 2;

/// Queues a packet. One that finds the queue full gets its status at once.
fn hand_over<H: Hardware>(
    machine: &mut H,
    s: &mut Shadow,
    g: &mut GuestState,
    packet: u32,
) -> Accept
    requires keeps { Keeps [] [] (H.machine machine.old).memory s.old }
    requires pages { s.old.pages ≡ g.old.pages }
    ensures result { result ≡ accepted (512 * g.old.pages) (state_of g.old) packet }
    ensures state { state_of g.new ≡ after_accept result packet (state_of g.old) }
    ensures place { HasPlace g.old.pages g.old.base g.old.start g.new }
    ensures status { IsStatusSet result packet (H.machine machine.old) s.old (H.machine machine.new) s.new }
{
    match accept(g, packet) {
        Accept::Queued => Accept::Queued,
        Accept::Busy => {
            s.store_long(machine, packet + STATUS, BUSY);
            Accept::Busy
        }
        Accept::BadPacket => Accept::BadPacket,
    }
}

/// MTPR: writes a register, and does what that asks for besides.
pub fn move_to_register<H: Hardware, T: Port>(
    machine: &mut H,
    s: &mut Shadow,
    g: &mut GuestState,
    port: &mut T,
    t: &Trapped,
) -> Emulated
    requires { StandsFor (H.machine machine.old).memory s.old g.old }
    ensures senses { Senses (move_to_register (guest_of (H.machine machine.old).memory g.old) t.now)
        (H.machine machine.old) s.old g.old result (H.machine machine.new) s.new g.new }
    ensures shown { Appends T.may port.old port.new (shown_by result (move_to_register (guest_of (H.machine machine.old).memory g.old) t.now)) }
{
    let registers = g.r;
    let psl = g.psl;
    let Ok(effect) = write_register(g, t) else {
        return Emulated::Fault(Exc::ReservedOperand);
    };
    match effect {
        RegisterEffect::Done => Emulated::Done,
        RegisterEffect::Remap => {
            s.switch(machine, g);
            Emulated::Done
        }
        RegisterEffect::Show(byte) => {
            port.show(byte);
            Emulated::Done
        }
        RegisterEffect::Kcall(packet) => match hand_over(machine, s, g, packet) {
            Accept::Queued => Emulated::Done,
            Accept::Busy => Emulated::Done,
            Accept::BadPacket => {
                g.r = registers;
                g.psl = psl;
                Emulated::Fault(Exc::ReservedOperand)
            }
        },
    }
}
