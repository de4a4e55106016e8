ghost use Rattle.std.specs.Prelude.{◌≡◌, ◌≤◌, ◌+◌, ◌*◌, ◌⊎◌, [], IfOk, OnErr, true, length};
ghost use Rattle.vm_console.specs.Appends.{Appends};
ghost use Rattle.vm_exception.specs.Noted.{note_of};
ghost use Rattle.vm_guest.specs.Kept.{Becomes, IsNew, IsResumed, IsShadowedIn, KeepsPresent, TakesState, frames_from, guest_in};
ghost use Rattle.vm_simulation_laws.specs.Moves.{Drops};
ghost use Rattle.vm_simulation_laws.specs.Paid.{Pays};
ghost use Rattle.vm_state.specs.Allowed.{AreAllowed};
ghost use Rattle.vm_state.specs.Outside.{bytes_at, commanded_to_stop, stop_message, with_bytes, with_line};
ghost use Rattle.vm_state.specs.Start.{started};
ghost use Rattle.vm_state.specs.State.{HasPlace, state_of};
ghost use Rattle.vm_state.specs.Touches.{touching_reset, touching_steps, touching_write};
ghost use Rattle.vm_stepping.specs.Advances.{Advances};

use crate::bytes::{fetch_all, store_all};
use crate::changes::{put_state, restart};
use crate::typing::type_line;
use arrayvec::ArrayVec;
use std::alloc::Global;
use std::marker::Model;
use vax_hw::Hardware;
use vm_console::Port;
use vm_exception::show_stop;
use vm_shadow::Shadow;
use vm_state::{GuestState, StopCode, StopReason};
use vm_stepping::{Counts, Once, advance, advance_once};
use vv_base::NoMemory;

/// A guest on its private virtual VAX: what the kernel keeps of it, with its shadow page tables in the machine.
#[derive(Drop)]
pub struct Guest {
    state: GuestState,
    shadow: Shadow,
}

impl Model for Guest {
    ghost use Rattle.vm_guest.specs.Kept.{Kept};

    ghost Value = { Kept };

    ghost view = { λ g. record { state = g.state; shadow = g.shadow } };
}

impl Guest {
    /// A guest that was never started, of 64 to 2,048 pages from the machine's page `base` on, with its real tables in the 580
    /// pages from `tables` on. All its memory is taken here; `NoMemory` leaves the machine as it was.
    pub fn new<H: Hardware>(
        alloc: Global,
        machine: &mut H,
        pages: u32,
        base: u32,
        tables: u32,
        start: u32,
        modify_faults: bool,
    ) -> Result<Guest, NoMemory>
        requires some { 64 ≤ pages }
        requires few { pages ≤ 2048 }
        requires low { base + pages ≤ 32768 }
        requires partition { 512 * (base + pages) ≤ length (H.machine machine.old).memory }
        requires room { 512 * (tables + 580) ≤ length (H.machine machine.old).memory }
        requires apart { (base + pages ≤ tables) ⊎ (tables + 580 ≤ base) }
        ensures ok { IfOk result (λ k. IsNew pages base tables start modify_faults (H.machine machine.old) (H.machine machine.new) k) }
        ensures err { OnErr result (H.machine machine.new ≡ H.machine machine.old) }
    {
        let state = GuestState::new(pages, base, start, modify_faults);
        Guest::of_state(alloc, machine, state, tables)
    }

    /// A guest with these registers and the memory that the machine has at its place, of at most 2,048 pages, with its real
    /// tables in the 580 pages from `tables` on. All its memory is taken here; `NoMemory` leaves the machine as it was.
    pub fn of_state<H: Hardware>(
        alloc: Global,
        machine: &mut H,
        state: GuestState,
        tables: u32,
    ) -> Result<Guest, NoMemory>
        requires few { state.pages ≤ 2048 }
        requires partition { 512 * (state.base + state.pages) ≤ length (H.machine machine.old).memory }
        requires room { 512 * (tables + 580) ≤ length (H.machine machine.old).memory }
        requires apart { (state.base + state.pages ≤ tables) ⊎ (tables + 580 ≤ state.base) }
        requires allowed { AreAllowed (512 * state.pages) (state_of state) }
        ensures ok { IfOk result (λ k. IsResumed state tables (H.machine machine.old) (H.machine machine.new) k) }
        ensures err { OnErr result (H.machine machine.new ≡ H.machine machine.old) }
    {
        let shadow = Shadow::new(alloc, machine, &state, tables)?;
        Ok(Guest { state, shadow })
    }

    /// Its registers.
    pub fn state(&self) -> &GuestState
        ensures { result.now ≡ self.now.state }
    {
        &self.state
    }

    /// It has other registers, each with a value that it may have, and the memory that it has.
    pub fn set_state<H: Hardware>(&mut self, machine: &mut H, state: GuestState)
        requires stands { IsShadowedIn (H.machine machine.old).memory self.old }
        requires allowed { AreAllowed (512 * state.pages) (state_of state) }
        requires place { HasPlace self.old.state.pages self.old.state.base self.old.state.start state }
        ensures { Becomes (record (guest_in (H.machine machine.old).memory self.old) { state = state_of state })
            (H.machine machine.old) self.old (H.machine machine.new) self.new }
    {
        put_state(machine, &mut self.shadow, &mut self.state, state);
    }

    /// It runs from its start address on, as one that starts. Its memory stays; packets that wait are dropped.
    pub fn start<H: Hardware>(&mut self, machine: &mut H)
        requires { IsShadowedIn (H.machine machine.old).memory self.old }
        ensures becomes { Becomes (record (guest_in (H.machine machine.old).memory self.old)
            { state = started self.old.state.start self.old.state.modify_faults }) (H.machine machine.old) self.old
            (H.machine machine.new) self.new }
        ensures present { KeepsPresent (touching_reset (record (guest_in (H.machine machine.old).memory self.old)
            { state = started self.old.state.start self.old.state.modify_faults })) self.old self.new }
    {
        restart(machine, &mut self.shadow, &mut self.state);
    }

    /// Stops it by a command, if it runs, and shows that.
    pub fn stop<T: Port>(&mut self, port: &mut T)
        ensures turns { TakesState (commanded_to_stop (state_of self.old.state)) self.old self.new }
        ensures shown { Appends T.may port.old port.new (stop_message (state_of self.old.state)) }
    {
        match self.state.halt {
            None => {
                let code = StopCode(StopReason::Commanded);
                show_stop(&self.state, port, code);
                self.state.halt = Some(code);
            }
            Some(_) => {}
        }
    }

    /// It takes exactly `steps` steps, and its port is shown what they show. Answers how many of each kind. The machine misses no
    /// more pages than these steps touch for the first time.
    pub fn advance<H: Hardware, T: Port>(
        &mut self,
        machine: &mut H,
        port: &mut T,
        steps: u32,
    ) -> Counts
        requires { IsShadowedIn (H.machine machine.old).memory self.old }
        ensures advances { Advances T.may steps port.old port.new (H.machine machine.old) self.old.shadow self.old.state
            (H.machine machine.new) self.new.shadow self.new.state result }
        ensures pays { Pays (touching_steps steps (guest_in (H.machine machine.old).memory self.old))
            (H.machine machine.old) self.old.shadow (H.machine machine.new) self.new.shadow }
    {
        advance(machine, &mut self.shadow, &mut self.state, port, steps)
    }

    /// It takes one step as `advance` does; the step's note is answered besides.
    pub fn step<H: Hardware, T: Port>(&mut self, machine: &mut H, port: &mut T) -> Once
        requires { IsShadowedIn (H.machine machine.old).memory self.old }
        ensures advances { Advances T.may 1 port.old port.new (H.machine machine.old) self.old.shadow self.old.state
            (H.machine machine.new) self.new.shadow self.new.state result.counts }
        ensures pays { Pays (touching_steps 1 (guest_in (H.machine machine.old).memory self.old))
            (H.machine machine.old) self.old.shadow (H.machine machine.new) self.new.shadow }
        ensures note { result.note ≡ note_of (guest_in (H.machine machine.old).memory self.old) }
    {
        advance_once(machine, &mut self.shadow, &mut self.state, port)
    }

    /// A line is typed at its console, with a carriage return after it, as far as it fits.
    pub fn type_line(&mut self, text: &[u8])
        ensures { TakesState (with_line text.now (state_of self.old.state)) self.old self.new }
    {
        type_line(&mut self.state.console, text);
    }

    /// Writes bytes of its memory from a physical address on.
    pub fn store<H: Hardware>(&mut self, machine: &mut H, pa: u32, bytes: &[u8])
        requires stands { IsShadowedIn (H.machine machine.old).memory self.old }
        requires inside { pa + length bytes.now ≤ 512 * self.old.state.pages }
        ensures becomes { Becomes (with_bytes pa bytes.now (guest_in (H.machine machine.old).memory self.old))
            (H.machine machine.old) self.old (H.machine machine.new) self.new }
        ensures drops { Drops (frames_from pa bytes.now) self.old.shadow self.new.shadow }
        ensures present { KeepsPresent (touching_write (guest_in (H.machine machine.old).memory self.old) (frames_from pa bytes.now)) self.old self.new }
    {
        store_all(machine, &mut self.shadow, &self.state, pa, bytes);
    }

    /// Reads bytes of its memory from a physical address on.
    pub fn fetch_into<H: Hardware>(&self, machine: &H, pa: u32, bytes: &mut [u8])
        requires stands { IsShadowedIn (H.machine machine.now).memory self.now }
        requires inside { pa + length bytes.old ≤ 512 * self.now.state.pages }
        ensures { bytes.new ≡ bytes_at (guest_in (H.machine machine.now).memory self.now) pa (length bytes.old) }
    {
        fetch_all(machine, &self.state, pa, bytes);
    }

    /// Takes the packets that wait, in order; none waits any more.
    pub fn take_queue(&mut self) -> ArrayVec<u32, 8>
        ensures packets { result.items ≡ self.old.state.queue.items }
        ensures turns { TakesState (record (state_of self.old.state) { queue = [] }) self.old self.new }
    {
        std::mem::replace(&mut self.state.queue, ArrayVec::new())
    }

    /// Requests the interrupt of transfers.
    pub fn post_kcall(&mut self)
        ensures { TakesState (record (state_of self.old.state) { kcall_due = true }) self.old self.new }
    {
        self.state.kcall_due = true;
    }
}
