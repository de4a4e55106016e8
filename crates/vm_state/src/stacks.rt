ghost use Rattle.std.specs.Prelude.{◌≡◌, ◌<◌};
ghost use Rattle.vm_state.specs.Registers.{with_pointer};
ghost use Rattle.vm_state.specs.State.{HasPlace, pointer_of, stack_in, state_of};

use crate::GuestState;
use vax_arch::Psl;

/// The number of the stack in use: its mode's, or 4 for the interrupt stack.
pub fn stack_in(psl: Psl) -> usize
    ensures { result ≡ stack_in psl.0 }
{
    if psl.on_interrupt_stack() {
        4
    } else {
        usize::from(psl.current().number())
    }
}

/// Sets a stack's pointer, which is R14 where the stack is in use.
pub fn set_pointer(g: &mut GuestState, stack: usize, v: u32)
    requires { stack < 5 }
    ensures state { state_of g.new ≡ with_pointer stack v (state_of g.old) }
    ensures place { HasPlace g.old.pages g.old.base g.old.start g.new }
{
    if stack == stack_in(g.psl) {
        g.r[14] = v;
    } else {
        g.stacks[stack] = v;
    }
}

/// A stack's pointer.
pub fn pointer(g: &GuestState, stack: usize) -> u32
    requires { stack < 5 }
    ensures { result ≡ pointer_of (state_of g.now) stack }
{
    if stack == stack_in(g.psl) {
        g.r[14]
    } else {
        g.stacks[stack]
    }
}
