ghost use Rattle.std.specs.Prelude.{◌≡◌, ◌≤◌, ◌<◌, ◌+◌, ◌-◌, ◌*◌, ◌%◌, ◌++◌, length};
ghost use Rattle.sys_trace.specs.TraceLine.{instruction_spelled, or_mark, readable};
ghost use Rattle.vasm_text.specs.Front.{front_text};
ghost use Rattle.vm_guest.specs.Kept.{IsShadowedIn, guest_in};
ghost use Rattle.vm_state.specs.Outside.{bytes_at};
ghost use Rattle.vm_state.specs.State.{pc_of, state_of};

use vasm_dis::{Line, front};
use vax_arch::Intent;
use vax_hw::Hardware;
use vm_guest::Guest;
use vm_state::{GuestState, Walk};
use vm_walk::walk;
use vv_base::Text;

/// The most bytes that an instruction has.
const MOST: u32 = 21;

/// The bytes of one instruction at most.
type Bytes = Text<21>;

/// Appends `count` bytes of a guest's memory from a physical address on.
fn append<H: Hardware>(machine: &H, guest: &Guest, pa: u32, count: u32, bytes: &mut Bytes)
    requires stands { IsShadowedIn (H.machine machine.now).memory guest.now }
    requires inside { pa + count ≤ 512 * guest.now.state.pages }
    requires room { length bytes.old + count ≤ 21 }
    ensures { bytes.new ≡ bytes.old ++ bytes_at (guest_in (H.machine machine.now).memory guest.now) pa count }
{
    let mut part = [0; 21];
    let part = &mut part[..count as usize];
    guest.fetch_into(machine, pa, part);
    let _ = bytes.push_all(part);
}

/// How many bytes from an address on lie in its page, `most` at most.
fn in_page(va: u32, most: u32) -> u32
    requires { 1 ≤ most }
    ensures some { 1 ≤ result }
    ensures most { result ≤ most }
    ensures within { va % 512 + result ≤ 512 }
{
    most.min(512 - va % 512)
}

/// A guest's PC.
fn pc(state: &GuestState) -> u32
    ensures { result ≡ pc_of (state_of state.now) }
{
    state.r[15]
}

/// The bytes that a guest can read from its PC on, up to the first that it can't, and as many as an instruction has at most.
fn readable<H: Hardware>(machine: &H, guest: &Guest) -> Bytes
    requires { IsShadowedIn (H.machine machine.now).memory guest.now }
    ensures { result ≡ readable 21 (guest_in (H.machine machine.now).memory guest.now) (pc_of (guest_in (H.machine machine.now).memory guest.now).state) }
{
    let state = guest.state();
    let first = pc(state);
    let mut bytes = Text::new();
    let mut left = MOST;
    while left > 0 {
        let va = first.wrapping_add(MOST - left);
        match walk(machine, state, va, state.psl.current(), Intent::Read) {
            Walk::Frame { pa, .. } => {
                let count = in_page(va, left);
                append(machine, guest, pa, count, &mut bytes);
                left -= count;
            }
            Walk::Fault(_) => return bytes,
            Walk::Beyond => return bytes,
        }
    }
    bytes
}

/// The text of what is at the front of bytes; none where there are no bytes.
fn front_of(bytes: &[u8]) -> Line
    ensures { result ≡ front_text bytes.now }
{
    if bytes.is_empty() {
        return Text::new();
    }
    front(bytes).0
}

/// A text, or a mark in the place of none.
fn or_mark(text: Line) -> Line
    ensures { result ≡ or_mark text }
{
    if !text.bytes().is_empty() {
        return text;
    }
    let mut mark = Text::new();
    mark.append_byte(b'-');
    mark
}

/// What is at a guest's PC, as the disassembler spells it; a mark where nothing can be read.
#[tactic(auto, unfolding(crate::specs::TraceLine::instruction_spelled))]
pub fn spelled<H: Hardware>(machine: &H, guest: &Guest) -> Line
    requires { IsShadowedIn (H.machine machine.now).memory guest.now }
    ensures { result ≡ instruction_spelled (guest_in (H.machine machine.now).memory guest.now) }
{
    or_mark(front_of(readable(machine, guest).bytes()))
}
