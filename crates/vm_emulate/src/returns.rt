ghost use Rattle.std.specs.Prelude.{◌≡◌, ◌≤◌, ◌+◌, ◌*◌, ◌%◌, length};
ghost use Rattle.vax_arch.specs.WalkLaws.{AreAligned};
ghost use Rattle.vax_table.specs.Interaction.{outcome};
ghost use Rattle.vm_emulate.specs.Emulated.{SensesAlone};
ghost use Rattle.vm_emulate.specs.Readings.{ArePopped, popped_of};
ghost use Rattle.vm_state.specs.Contexts.{two_popped};
ghost use Rattle.vm_state.specs.Partition.{guest_of};
ghost use Rattle.vm_state.specs.Sensitive.{requests_after, return_from, returned_to};
ghost use Rattle.vm_state.specs.State.{HasPlace, state_of, tables_of};
ghost use Rattle.vm_state.specs.Translation.{space_of};

use crate::Emulated;
use crate::halts::{go_after, stop_past_memory};
use crate::reading::{Unread, long_in, read_walked};
use vax_arch::{Intent, Psl, rei_allowed};
use vax_hw::Hardware;
use vax_table::Trapped;
use vm_state::{Exc, GuestState, Walk, stack_in};
use vm_walk::walk;

/// A PC and a PSL that are popped.
#[derive(Clone, Copy, Debug, PartialEq, Eq)]
pub struct Popped {
    pub pc: u32,
    pub psl: u32,
}

/// The PC and the PSL on a stack that has both in one page.
fn read_popped_in_page<H: Hardware>(machine: &H, g: &GuestState, sp: u32) -> Result<Popped, Unread>
    requires partition { 512 * (g.now.base + g.now.pages) ≤ length (H.machine machine.now).memory }
    requires tables { AreAligned (tables_of g.now) }
    requires page { sp % 512 ≤ 504 }
    ensures { ArePopped (guest_of (H.machine machine.now).memory g.now)
        (outcome (space_of (guest_of (H.machine machine.now).memory g.now)) (two_popped sp)) result }
{
    let _all = machine.pages();
    match walk(machine, g, sp, g.psl.current(), Intent::Read) {
        Walk::Frame { pa, .. } => {
            let pc = long_in(machine, g, pa);
            let psl = long_in(machine, g, pa + 4);
            Ok(Popped { pc, psl })
        }
        Walk::Fault(fault) => Err(Unread::Faulty(fault)),
        Walk::Beyond => Err(Unread::PastMemory),
    }
}

/// The PC and the PSL on a stack.
pub fn read_popped<H: Hardware>(machine: &H, g: &GuestState, sp: u32) -> Result<Popped, Unread>
    requires partition { 512 * (g.now.base + g.now.pages) ≤ length (H.machine machine.now).memory }
    requires tables { AreAligned (tables_of g.now) }
    ensures { ArePopped (guest_of (H.machine machine.now).memory g.now)
        (outcome (space_of (guest_of (H.machine machine.now).memory g.now)) (two_popped sp)) result }
{
    if sp % 512 <= 504 {
        return read_popped_in_page(machine, g, sp);
    }
    let pc = read_walked(machine, g, sp)?;
    let psl = read_walked(machine, g, sp.wrapping_add(4))?;
    Ok(Popped { pc, psl })
}

/// The software level that asks for an asynchronous system trap.
const AST_REQUEST: u16 = 4;

/// The requests of a guest that returns to a mode: a mode that is at least ASTLVL requests software level 2.
fn requests_after(g: &GuestState, psl: Psl) -> u16
    ensures { result ≡ requests_after (state_of g.now) psl.0 }
{
    let asks = g.astlvl <= psl.current().number() && !psl.on_interrupt_stack();
    if asks && g.sisr / AST_REQUEST % 2 == 0 {
        g.sisr + AST_REQUEST
    } else {
        g.sisr
    }
}

/// Goes on with a PC and a PSL that were popped: the pointer after them is kept, and R14 is the new stack's.
fn return_to(g: &mut GuestState, popped: Popped)
    ensures state { state_of g.new ≡ returned_to (state_of g.old) (popped_of popped) }
    ensures place { HasPlace g.old.pages g.old.base g.old.start g.new }
{
    let psl = Psl(popped.psl);
    g.sisr = requests_after(g, psl);
    g.stacks[stack_in(g.psl)] = g.r[14].wrapping_add(8);
    g.r[14] = g.stacks[stack_in(psl)];
    g.r[15] = popped.pc;
    g.psl = psl;
}

/// REI: PC and PSL are popped.
pub fn return_from<H: Hardware>(machine: &H, g: &mut GuestState, t: &Trapped) -> Emulated
    requires partition { 512 * (g.old.base + g.old.pages) ≤ length (H.machine machine.now).memory }
    requires tables { AreAligned (tables_of g.old) }
    ensures { SensesAlone (return_from (guest_of (H.machine machine.now).memory g.old) t.now) (H.machine machine.now) g.old result g.new }
{
    match read_popped(machine, g, t.regs[14]) {
        Ok(popped) if rei_allowed(g.psl, Psl(popped.psl)) => {
            go_after(g, t);
            return_to(g, popped);
            Emulated::Done
        }
        Ok(_) => Emulated::Fault(Exc::ReservedOperand),
        Err(Unread::Faulty(fault)) => Emulated::Fault(Exc::Memory(fault)),
        Err(Unread::PastMemory) => stop_past_memory(g),
    }
}
