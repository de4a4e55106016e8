ghost use Rattle.std.specs.Prelude.{◌≡◌, ◌≤◌, ◌<◌, ◌+◌, ◌*◌, length};
ghost use Rattle.vm_exception.specs.Attempted.{Attempts};
ghost use Rattle.vm_exception.specs.Initiated.{IsProper};
ghost use Rattle.vm_shadow.specs.StandsFor.{StandsFor};
ghost use Rattle.vm_state.specs.Pushes.{pointer_after};

use crate::entry::{
    begin, is_bad_vector, longwords, new_mode, new_stack, uses_interrupt_stack, vector_offset,
};
use crate::pushes::{Walked, walk_pushes};
use crate::writes::push;
use vax_hw::Hardware;
use vm_shadow::Shadow;
use vm_state::{Exc, GuestState, StopCode, StopReason, pointer};

/// The outcome of an attempt to initiate: the guest is at the handler; or its stack has trouble; or it is to stop with a
/// code.
#[derive(Clone, Copy, Debug, PartialEq, Eq)]
pub enum Attempt {
    Arrives,
    StackFaulty { is_interrupt_stack: bool },
    Halts(StopCode),
}

/// The stack pointer after these longwords are pushed.
fn pointer_after(sp: u32, longs: &[u32]) -> u32
    requires { length longs.now ≤ 4 }
    ensures { result ≡ pointer_after sp longs.now }
{
    let mut at = sp;
    for _ in longs {
        at = at.wrapping_sub(4);
    }
    at
}

/// Takes an exception on the stack that its vector names, if that has no trouble.
pub fn take<H: Hardware>(machine: &mut H, s: &mut Shadow, g: &mut GuestState, e: Exc) -> Attempt
    requires stands { StandsFor (H.machine machine.old).memory s.old g.old }
    requires proper { IsProper e }
    ensures { Attempts e (H.machine machine.old) s.old g.old result (H.machine machine.new) s.new g.new }
{
    let _all = machine.pages();
    let at = u64::from(g.scbb) + u64::from(vector_offset(e));
    if 512 * u64::from(g.pages) < at + 4 {
        return Attempt::Halts(StopCode(StopReason::PastMemory));
    }
    let vector = machine.read_long(512 * g.base + at as u32);
    if is_bad_vector(e, vector) {
        return Attempt::Halts(StopCode(StopReason::BadVector));
    }
    let sp = pointer(g, new_stack(g, e, vector));
    let longs = longwords(g, e);
    match walk_pushes(machine, g, new_mode(g, e), sp, &longs) {
        Walked::Homes(homes) => {
            push(machine, s, g.base, &homes);
            begin(g, e, vector, pointer_after(sp, &longs));
            Attempt::Arrives
        }
        Walked::Faulty(_) => Attempt::StackFaulty {
            is_interrupt_stack: uses_interrupt_stack(g, e, vector),
        },
        Walked::PastMemory => Attempt::Halts(StopCode(StopReason::PastMemory)),
    }
}
