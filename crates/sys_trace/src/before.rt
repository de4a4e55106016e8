ghost use Rattle.sys_trace.specs.Held.{IsBefore};
ghost use Rattle.vm_guest.specs.Kept.{IsShadowedIn, guest_in};

use crate::reading::spelled;
use vasm_dis::Line;
use vax_arch::Psl;
use vax_hw::Hardware;
use vm_guest::Guest;

/// A guest before a step: its registers, and the instruction at its PC.
#[derive(Drop)]
pub struct Before {
    pub r: [u32; 16],
    pub psl: Psl,
    pub text: Line,
}

impl Before {
    /// What a guest is now.
    pub fn of<H: Hardware>(machine: &H, guest: &Guest) -> Before
        requires { IsShadowedIn (H.machine machine.now).memory guest.now }
        ensures { IsBefore (guest_in (H.machine machine.now).memory guest.now) result }
    {
        let state = guest.state();
        Before {
            r: state.r,
            psl: state.psl,
            text: spelled(machine, guest),
        }
    }
}
