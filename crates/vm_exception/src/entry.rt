ghost use Rattle.std.specs.Prelude.{◌≡◌, ◌<◌};
ghost use Rattle.vm_exception.specs.Initiated.{IsProper};
ghost use Rattle.vm_state.specs.Initiate.{begun_at, is_bad_vector, longwords, more_privileged, new_ipl, new_mode, new_previous, new_psl, new_stack, uses_interrupt_stack, vector_offset};
ghost use Rattle.vm_state.specs.State.{HasPlace, state_of};

use arrayvec::ArrayVec;
use vax_arch::{Mode, Psl};
use vm_state::{Exc, GuestState, stack_in};

/// The number of the interrupt stack.
const INTERRUPT_STACK: usize = 4;

/// Where the vector of an exception is in the system control block, in bytes.
pub fn vector_offset(e: Exc) -> u32
    requires { IsProper e }
    ensures is { result ≡ vector_offset e }
    ensures small { result < 512 }
{
    match e {
        Exc::KernelStack => 0x08,
        Exc::ReservedInstruction => 0x10,
        Exc::Customer => 0x14,
        Exc::ReservedOperand => 0x18,
        Exc::ReservedAddressing => 0x1C,
        Exc::Memory(fault) => { if fault.not_valid { 0x24 } else { 0x20 } }
        Exc::Breakpoint => 0x2C,
        Exc::Arithmetic(_) => 0x34,
        Exc::ModifyFault { .. } => 0x3C,
        Exc::Chm { to, .. } => 0x40 + 4 * u32::from(to.number()),
        Exc::Interrupt { vector, .. } => vector,
    }
}

/// The longwords that are pushed, in their order: PSL, PC and what the exception has besides.
pub fn longwords(g: &GuestState, e: Exc) -> ArrayVec<u32, 4>
    ensures is { result.items ≡ longwords (state_of g.now) e }
{
    let mut longs = ArrayVec::new();
    longs.push(g.psl.0);
    longs.push(g.r[15]);
    match e {
        Exc::Memory(fault) => {
            longs.push(fault.va);
            longs.push(u32::from(fault.param));
        }
        Exc::Arithmetic(kind) => longs.push(u32::from(kind)),
        Exc::ModifyFault { va } => {
            longs.push(va);
            longs.push(4);
        }
        Exc::Chm { code, .. } => longs.push(code),
        _ => {}
    }
    longs
}

/// The more privileged of two modes.
fn more_privileged(a: Mode, b: Mode) -> Mode
    ensures { result ≡ more_privileged a b }
{
    if a.number() <= b.number() { a } else { b }
}

/// The mode in which an exception is handled.
pub fn new_mode(g: &GuestState, e: Exc) -> Mode
    ensures { result ≡ new_mode (state_of g.now) e }
{
    match e {
        Exc::Chm { to, .. } => more_privileged(to, g.psl.current()),
        _ => Mode::Kernel,
    }
}

/// The previous mode that its handler sees.
fn new_previous(g: &GuestState, e: Exc) -> Mode
    ensures { result ≡ new_previous (state_of g.now) e }
{
    match e {
        Exc::Interrupt { .. } => Mode::Kernel,
        _ => g.psl.current(),
    }
}

/// Whether the low bits of a vector are none that it can have.
pub fn is_bad_vector(e: Exc, vector: u32) -> bool
    ensures { result ≡ is_bad_vector e vector }
{
    match e {
        Exc::Chm { .. } => vector % 4 != 0,
        _ => 2 <= vector % 4,
    }
}

/// Whether the interrupt stack is used.
pub fn uses_interrupt_stack(g: &GuestState, e: Exc, vector: u32) -> bool
    ensures { result ≡ uses_interrupt_stack (state_of g.now) e vector }
{
    e == Exc::KernelStack || vector % 4 == 1 || g.psl.on_interrupt_stack()
}

/// The number of the stack that is used.
pub fn new_stack(g: &GuestState, e: Exc, vector: u32) -> usize
    ensures is { result ≡ new_stack (state_of g.now) e vector }
    ensures small { result < 5 }
{
    if uses_interrupt_stack(g, e, vector) {
        INTERRUPT_STACK
    } else {
        usize::from(new_mode(g, e).number())
    }
}

/// The interrupt priority level of the handler.
fn new_ipl(g: &GuestState, e: Exc, vector: u32) -> u8
    requires { IsProper e }
    ensures is { result ≡ new_ipl (state_of g.now) e vector }
    ensures small { result < 32 }
{
    match e {
        Exc::Interrupt { level, .. } => level,
        Exc::KernelStack => 31,
        _ if vector % 4 == 1 => 31,
        _ => g.psl.ipl(),
    }
}

/// The PSL of the handler.
fn new_psl(g: &GuestState, e: Exc, vector: u32) -> Psl
    requires { IsProper e }
    ensures { result.0 ≡ new_psl (state_of g.now) e vector }
{
    let stack = u32::from(uses_interrupt_stack(g, e, vector));
    let mode = u32::from(new_mode(g, e).number());
    let previous = u32::from(new_previous(g, e).number());
    Psl(
        0x400_0000 * stack
            + 0x100_0000 * mode
            + 0x40_0000 * previous
            + 0x1_0000 * u32::from(new_ipl(g, e, vector)),
    )
}

/// Goes on at a vector with a stack pointer: the old pointer is kept, and waiting ends.
pub fn begin(g: &mut GuestState, e: Exc, vector: u32, sp: u32)
    requires { IsProper e }
    ensures state { state_of g.new ≡ begun_at (state_of g.old) e vector sp }
    ensures place { HasPlace g.old.pages g.old.base g.old.start g.new }
{
    let psl = new_psl(g, e, vector);
    g.stacks[stack_in(g.psl)] = g.r[14];
    g.r[14] = sp;
    g.r[15] = vector / 4 * 4;
    g.psl = psl;
    g.waiting = false;
}
