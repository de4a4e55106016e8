ghost use Rattle.std.specs.Prelude.{◌≡◌, ◌≤◌, ◌+◌, Some};

use crate::stops::{StopCode, StopReason};
use arrayvec::ArrayVec;
use vax_arch::Psl;
use vm_clock::Clock;
use vm_console::Console;

/// The PSL of a guest that starts: kernel mode, on the interrupt stack, at IPL 31.
const START_PSL: u32 = 0x041F_0000;

/// The greatest length of P1: it is empty.
const EMPTY_P1: u32 = 0x0020_0000;

/// The level of asynchronous system traps at which none is delivered.
const NO_AST: u8 = 4;

/// What the kernel keeps of a guest beside its memory.
#[derive(Drop)]
pub struct GuestState {
    /// R0 to R15.
    pub r: [u32; 16],
    pub psl: Psl,
    /// KSP, ESP, SSP, USP and ISP; in place of the one in use R14 counts.
    pub stacks: [u32; 5],
    pub p0br: u32,
    pub p0lr: u32,
    pub p1br: u32,
    pub p1lr: u32,
    pub sbr: u32,
    pub slr: u32,
    pub pcbb: u32,
    pub scbb: u32,
    pub astlvl: u8,
    pub sisr: u16,
    pub mapen: bool,
    pub clock: Clock,
    pub console: Console,
    /// A transfer's interrupt is requested.
    pub kcall_due: bool,
    /// The physical addresses of the packets that wait for their transfers.
    pub queue: ArrayVec<u32, 8>,
    pub waiting: bool,
    /// The code with which it stopped.
    pub halt: Option<StopCode>,
    /// Its steps since it started, but those in which it was stopped, modulo 2^32.
    pub steps: u32,
    /// Its memory in pages of 512 bytes, the first of them in the machine, and the address at which it starts.
    pub pages: u32,
    pub base: u32,
    pub start: u32,
    pub modify_faults: bool,
}

impl GuestState {
    ghost use Rattle.vm_state.specs.State.{HasPlace, state_of};
    ghost use Rattle.vm_state.specs.Start.{started, stopped_at_first};

    /// A guest that was never started, of 64 to 2,048 pages from a page of the machine on.
    pub fn new(pages: u32, base: u32, start: u32, modify_faults: bool) -> GuestState
        requires some { 64 ≤ pages }
        requires few { pages ≤ 2048 }
        requires inside { base + pages ≤ 32768 }
        ensures state { state_of result ≡ stopped_at_first start modify_faults }
        ensures place { HasPlace pages base start result }
    {
        let mut guest = GuestState::started(pages, base, start, modify_faults);
        guest.halt = Some(StopCode(StopReason::NeverStarted));
        guest
    }

    /// The guest runs from its start address on, as one that starts.
    pub fn reset(&mut self)
        ensures state { state_of self.new ≡ started self.old.start self.old.modify_faults }
        ensures place { HasPlace self.old.pages self.old.base self.old.start self.new }
    {
        *self = GuestState::started(self.pages, self.base, self.start, self.modify_faults);
    }

    fn started(pages: u32, base: u32, start: u32, modify_faults: bool) -> GuestState
        ensures state { state_of result ≡ started start modify_faults }
        ensures place { HasPlace pages base start result }
    {
        GuestState {
            r: start_registers(start),
            psl: Psl(START_PSL),
            stacks: [0; 5],
            p0br: 0,
            p0lr: 0,
            p1br: 0,
            p1lr: EMPTY_P1,
            sbr: 0,
            slr: 0,
            pcbb: 0,
            scbb: 0,
            astlvl: NO_AST,
            sisr: 0,
            mapen: false,
            clock: Clock::new(),
            console: Console::new(),
            kcall_due: false,
            queue: ArrayVec::new(),
            waiting: false,
            halt: None,
            steps: 0,
            pages,
            base,
            start,
            modify_faults,
        }
    }
}

ghost use Rattle.vm_state.specs.Start.{start_registers};

/// R0 to R14 are 0, and PC is the start address.
fn start_registers(start: u32) -> [u32; 16]
    ensures { result ≡ start_registers start }
{
    let mut r = [0; 16];
    r[15] = start;
    r
}
