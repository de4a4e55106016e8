ghost use Rattle.std.specs.Prelude.{[], ◌∷◌, ◌++◌, ◌≡◌, ◌≤◌, ◌+◌, ◌*◌, ◌/◌, ◌%◌, ◌^◌, ℕ, List, false, length, slice_index};
ghost use Rattle.vax_arch.specs.Walk.{is_past};
ghost use Rattle.vm_emulate.specs.Emulated.{Senses};
ghost use Rattle.vm_emulate.specs.Loaded.{IsBlock, has_reserved_bit, refuses_register, with_process};
ghost use Rattle.vm_shadow.specs.StandsFor.{StandsFor};
ghost use Rattle.vm_state.specs.Contexts.{block_size, control_block_long, is_block_past, is_block_reserved, loaded, loads_context, longs_in_block, off_interrupt_stack};
ghost use Rattle.vm_state.specs.Partition.{guest_of};
ghost use Rattle.vm_state.specs.State.{Guest, HasPlace, state_of};

use crate::Emulated;
use crate::halts::stop_past_memory;
use vax_arch::{Mode, Psl};
use vax_hw::Hardware;
use vax_table::Trapped;
use vm_exception::{Walked, push, walk_pushes};
use vm_shadow::Shadow;
use vm_state::{Exc, GuestState, pointer};

/// The bytes of a process control block, and where in it registers are.
const BLOCK_SIZE: u64 = 96;

const STACKS: u32 = 0;

const GENERAL: u32 = 16;

const PC: u32 = 72;

const PSL: u32 = 76;

const P0BR: u32 = 80;

const P0_LENGTH: u32 = 84;

const P1BR: u32 = 88;

const P1_LENGTH: u32 = 92;

/// The bit of the PSL that says that the interrupt stack is in use.
const INTERRUPT_STACK: u32 = 0x0400_0000;

/// The bytes of PC and PSL.
const PUSHED: u32 = 8;

/// A process control block. The longword of a length has more than the length.
#[derive(Clone, Copy, Debug, PartialEq, Eq)]
pub struct Block {
    /// KSP, ESP, SSP and USP.
    stacks: [u32; 4],
    /// R0 to R13.
    general: [u32; 14],
    pc: u32,
    psl: u32,
    p0br: u32,
    /// P0LR in bits 21:0, and ASTLVL in bits 26:24.
    p0_length: u32,
    p1br: u32,
    /// P1LR in bits 21:0; bit 31 is ignored.
    p1_length: u32,
}

impl Block {
    /// The length of P0, in pages.
    fn p0lr(&self) -> u32
        ensures { result ≡ self.now.p0_length % 2 ^ 22 }
    {
        self.p0_length % 0x40_0000
    }

    /// The length of P1, in pages.
    fn p1lr(&self) -> u32
        ensures { result ≡ self.now.p1_length % 2 ^ 22 }
    {
        self.p1_length % 0x40_0000
    }

    /// The level of asynchronous system traps, 0 to 7.
    fn astlvl(&self) -> u8
        ensures { result ≡ self.now.p0_length / 2 ^ 24 % 8 }
    {
        (self.p0_length / 0x100_0000 % 8) as u8
    }

    /// Whether a register refuses what it would be loaded with.
    fn refuses_register(&self) -> bool
        ensures { result ≡ refuses_register self.now }
    {
        !(self.p0br % 4 == 0 && self.p0br / 0x4000_0000 == 2)
            || self.p0lr() > 8192
            || self.p1br % 4 != 0
            || !(2_088_960 <= self.p1lr() && self.p1lr() <= 2_097_152)
            || self.astlvl() > 4
    }

    /// Whether a reserved bit beside a length is set.
    fn has_reserved_bit(&self) -> bool
        ensures { result ≡ has_reserved_bit self.now }
    {
        self.p0_length / 0x800_0000 != 0
            || self.p0_length / 0x40_0000 % 4 != 0
            || self.p1_length / 0x40_0000 % 0x200 != 0
    }

    /// Whether loading it is a reserved operand.
    fn is_reserved(&self) -> bool
        ensures { (g : Guest) → IsBlock g self.now → result ≡ is_block_reserved g }
    {
        self.refuses_register() || self.has_reserved_bit()
    }
}

/// The registers that LDPCTX loads.
#[derive(Clone, Copy, Debug, PartialEq, Eq)]
pub struct Process {
    r: [u32; 16],
    psl: Psl,
    stacks: [u32; 5],
    p0br: u32,
    p0lr: u32,
    p1br: u32,
    p1lr: u32,
    astlvl: u8,
}

/// Whether the block at PCBB isn't all in memory.
pub fn is_block_past(g: &GuestState) -> bool
    ensures { result ≡ is_past (512 * g.now.pages) g.now.pcbb block_size }
{
    let pcbb = g.pcbb;
    512 * u64::from(g.pages) < u64::from(pcbb) + BLOCK_SIZE
}

/// The longword of the block at an offset in bytes.
fn long_in_block<H: Hardware>(machine: &H, g: &GuestState, offset: u32) -> u32
    requires partition { 512 * (g.now.base + g.now.pages) ≤ length (H.machine machine.now).memory }
    requires inside { g.now.pcbb + offset + 4 ≤ 512 * g.now.pages }
    ensures { result ≡ control_block_long (guest_of (H.machine machine.now).memory g.now) offset }
{
    let _all = machine.pages();
    machine.read_long(512 * g.base + (g.pcbb + offset))
}

/// Longwords of the block from an offset in bytes on.
fn longs_in_block<H: Hardware, const N: usize>(machine: &H, g: &GuestState, offset: u32) -> [u32; N]
    requires partition { 512 * (g.now.base + g.now.pages) ≤ length (H.machine machine.now).memory }
    requires inside { g.now.pcbb + offset + 4 * N ≤ 512 * g.now.pages }
    ensures { result ≡ longs_in_block (guest_of (H.machine machine.now).memory g.now) N offset }
{
    let _all = machine.pages();
    let mut longs = [0; N];
    let mut at = offset;
    for k in 0..N {
        longs[k] = long_in_block(machine, g, at);
        at += 4;
    }
    longs
}

/// The block at PCBB.
fn block_of<H: Hardware>(machine: &H, g: &GuestState) -> Block
    requires partition { 512 * (g.now.base + g.now.pages) ≤ length (H.machine machine.now).memory }
    requires inside { is_block_past (guest_of (H.machine machine.now).memory g.now) ≡ false }
    ensures { IsBlock (guest_of (H.machine machine.now).memory g.now) result }
{
    Block {
        stacks: longs_in_block(machine, g, STACKS),
        general: longs_in_block(machine, g, GENERAL),
        pc: long_in_block(machine, g, PC),
        psl: long_in_block(machine, g, PSL),
        p0br: long_in_block(machine, g, P0BR),
        p0_length: long_in_block(machine, g, P0_LENGTH),
        p1br: long_in_block(machine, g, P1BR),
        p1_length: long_in_block(machine, g, P1_LENGTH),
    }
}

/// The PSL off the interrupt stack.
fn off_interrupt_stack(psl: Psl) -> Psl
    ensures { result.0 ≡ off_interrupt_stack psl.0 }
{
    if psl.on_interrupt_stack() {
        Psl(psl.0 - INTERRUPT_STACK)
    } else {
        psl
    }
}

/// R0 to R13 of a block, KSP, and the next PC.
fn loaded_registers(block: &Block, next_pc: u32) -> [u32; 16]
    ensures { result ≡ block.now.general ++ slice_index block.now.stacks 0 ∷ next_pc ∷ [] }
{
    let mut r = [0; 16];
    r[..14].copy_from_slice(&block.general);
    r[14] = block.stacks[0];
    r[15] = next_pc;
    r
}

/// The pointers of a block's stacks, and ISP.
fn loaded_stacks(block: &Block, isp: u32) -> [u32; 5]
    ensures { result ≡ block.now.stacks ++ isp ∷ [] }
{
    let mut stacks = [isp; 5];
    stacks[..4].copy_from_slice(&block.stacks);
    stacks
}

/// The registers that a block loads, before its push. Where the interrupt stack is in use, its pointer is kept.
fn process_in(g: &GuestState, block: &Block, next_pc: u32) -> Process
    ensures { (memory : List ℕ) → IsBlock (guest_of memory g.now) block.now → with_process result (state_of g.now) ≡ loaded (guest_of memory g.now) next_pc }
{
    Process {
        r: loaded_registers(block, next_pc),
        psl: off_interrupt_stack(g.psl),
        stacks: loaded_stacks(block, pointer(g, 4)),
        p0br: block.p0br,
        p0lr: block.p0lr(),
        p1br: block.p1br,
        p1lr: block.p1lr(),
        astlvl: block.astlvl(),
    }
}

/// The registers that a block would replace.
fn process_of(g: &GuestState) -> Process
    ensures { with_process result (state_of g.now) ≡ state_of g.now }
{
    Process {
        r: g.r,
        psl: g.psl,
        stacks: g.stacks,
        p0br: g.p0br,
        p0lr: g.p0lr,
        p1br: g.p1br,
        p1lr: g.p1lr,
        astlvl: g.astlvl,
    }
}

/// Gives a guest a process's registers.
fn set_process(g: &mut GuestState, process: &Process)
    ensures state { state_of g.new ≡ with_process process.now (state_of g.old) }
    ensures place { HasPlace g.old.pages g.old.base g.old.start g.new }
{
    g.r = process.r;
    g.psl = process.psl;
    g.stacks = process.stacks;
    g.p0br = process.p0br;
    g.p0lr = process.p0lr;
    g.p1br = process.p1br;
    g.p1lr = process.p1lr;
    g.astlvl = process.astlvl;
}

/// Loads a block, and pushes its PC and PSL on its kernel stack under its tables. Trouble of that loads nothing.
fn load<H: Hardware>(
    machine: &mut H,
    s: &mut Shadow,
    g: &mut GuestState,
    t: &Trapped,
    block: &Block,
) -> Emulated
    requires stands { StandsFor (H.machine machine.old).memory s.old g.old }
    requires block { IsBlock (guest_of (H.machine machine.old).memory g.old) block.now }
    requires inside { is_block_past (guest_of (H.machine machine.old).memory g.old) ≡ false }
    requires allowed { is_block_reserved (guest_of (H.machine machine.old).memory g.old) ≡ false }
    ensures { Senses (loads_context (guest_of (H.machine machine.old).memory g.old) t.now.next_pc)
        (H.machine machine.old) s.old g.old result (H.machine machine.new) s.new g.new }
{
    let before = process_of(g);
    let process = process_in(g, block, t.next_pc);
    set_process(g, &process);
    match walk_pushes(machine, g, Mode::Kernel, g.r[14], &[block.psl, block.pc]) {
        Walked::Homes(homes) => {
            push(machine, s, g.base, &homes);
            g.r[14] = g.r[14].wrapping_sub(PUSHED);
            s.switch(machine, g);
            Emulated::Done
        }
        Walked::Faulty(_) => {
            set_process(g, &before);
            Emulated::Fault(Exc::KernelStack)
        }
        Walked::PastMemory => {
            set_process(g, &before);
            stop_past_memory(g)
        }
    }
}

/// LDPCTX: a process is loaded from the block at PCBB, and its PC and PSL are pushed for REI.
pub fn load_context<H: Hardware>(
    machine: &mut H,
    s: &mut Shadow,
    g: &mut GuestState,
    t: &Trapped,
) -> Emulated
    requires { StandsFor (H.machine machine.old).memory s.old g.old }
    ensures { Senses (loads_context (guest_of (H.machine machine.old).memory g.old) t.now.next_pc)
        (H.machine machine.old) s.old g.old result (H.machine machine.new) s.new g.new }
{
    if is_block_past(g) {
        return stop_past_memory(g);
    }
    let block = block_of(machine, g);
    if block.is_reserved() {
        return Emulated::Fault(Exc::ReservedOperand);
    }
    load(machine, s, g, t, &block)
}
