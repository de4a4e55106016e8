ghost use Rattle.vm_console.specs.Appends.{Appends};
ghost use Rattle.vm_emulate.specs.Emulated.{Emulates, shown_of};
ghost use Rattle.vm_shadow.specs.StandsFor.{StandsFor};
ghost use Rattle.vm_state.specs.Partition.{guest_of};

use crate::Emulated;
use crate::changes::change_mode;
use crate::fetches::move_from_register;
use crate::halts::{halt, wait};
use crate::loads::load_context;
use crate::moves::move_to_register;
use crate::probing::probe;
use crate::returns::return_from;
use crate::saves::save_context;
use vax_arch::Intent;
use vax_hw::Hardware;
use vax_table::{Sens, Trapped};
use vm_console::Port;
use vm_shadow::Shadow;
use vm_state::GuestState;

/// Emulates the instruction that trapped, with the operands, the next PC and the registers of its trap. `Done` and `Stopped`
/// complete it; after `SetModify` it begins again; after `Fault` nothing of the guest changed, and the caller initiates it;
/// `PastMemory` stopped the guest; `Filled` comes for a PROBE that the machine can do now.
pub fn emulate<H: Hardware, T: Port>(
    machine: &mut H,
    s: &mut Shadow,
    g: &mut GuestState,
    port: &mut T,
    t: &Trapped,
) -> Emulated
    requires { StandsFor (H.machine machine.old).memory s.old g.old }
    ensures emulates { Emulates t.now (H.machine machine.old) s.old g.old result (H.machine machine.new) s.new g.new }
    ensures shown { Appends T.may port.old port.new (shown_of (guest_of (H.machine machine.old).memory g.old) t.now result) }
{
    match t.op {
        Sens::Halt => halt(g, t),
        Sens::Wait => wait(g, t),
        Sens::Chm(to) => change_mode(machine, s, g, t, to),
        Sens::Rei => return_from(machine, g, t),
        Sens::Mtpr => move_to_register(machine, s, g, port, t),
        Sens::Mfpr => move_from_register(machine, s, g, t),
        Sens::Ldpctx => load_context(machine, s, g, t),
        Sens::Svpctx => save_context(machine, s, g, t),
        Sens::Prober => probe(machine, s, g, t, Intent::Read),
        Sens::Probew => probe(machine, s, g, t, Intent::Write),
    }
}
