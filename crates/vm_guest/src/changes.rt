ghost use Rattle.std.specs.Prelude.{◌*◌};
ghost use Rattle.vm_guest.specs.Kept.{Becomes, KeepsPresent};
ghost use Rattle.vm_shadow.specs.StandsFor.{StandsFor};
ghost use Rattle.vm_state.specs.Allowed.{AreAllowed};
ghost use Rattle.vm_state.specs.Partition.{guest_of};
ghost use Rattle.vm_state.specs.Start.{started};
ghost use Rattle.vm_state.specs.State.{HasPlace, state_of};
ghost use Rattle.vm_state.specs.Touches.{touching_reset};

use vax_hw::Hardware;
use vm_shadow::Shadow;
use vm_state::GuestState;

/// A guest has other registers, and its shadow page tables switch to them.
pub fn put_state<H: Hardware>(
    machine: &mut H,
    s: &mut Shadow,
    g: &mut GuestState,
    state: GuestState,
)
    requires stands { StandsFor (H.machine machine.old).memory s.old g.old }
    requires allowed { AreAllowed (512 * state.pages) (state_of state) }
    requires place { HasPlace g.old.pages g.old.base g.old.start state }
    ensures { Becomes (record (guest_of (H.machine machine.old).memory g.old) { state = state_of state })
        (H.machine machine.old) (record { state = g.old; shadow = s.old }) (H.machine machine.new)
        (record { state = g.new; shadow = s.new }) }
{
    *g = state;
    s.switch(machine, g);
}

/// A guest starts, and its shadow page tables switch to its registers.
pub fn restart<H: Hardware>(machine: &mut H, s: &mut Shadow, g: &mut GuestState)
    requires stands { StandsFor (H.machine machine.old).memory s.old g.old }
    ensures becomes { Becomes (record (guest_of (H.machine machine.old).memory g.old)
        { state = started g.old.start g.old.modify_faults }) (H.machine machine.old)
        (record { state = g.old; shadow = s.old }) (H.machine machine.new) (record { state = g.new; shadow = s.new }) }
    ensures present { KeepsPresent (touching_reset (record (guest_of (H.machine machine.old).memory g.old)
        { state = started g.old.start g.old.modify_faults })) (record { state = g.old; shadow = s.old })
        (record { state = g.new; shadow = s.new }) }
{
    g.reset();
    s.switch(machine, g);
}
