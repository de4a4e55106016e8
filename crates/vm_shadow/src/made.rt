ghost use Rattle.std.specs.Prelude.{◌≡◌, ◌≤◌, ◌<◌, ◌+◌, ◌*◌, ◌⊎◌, IfOk, OnErr, length};
ghost use Rattle.vm_shadow.specs.Calls.{Clears, Maps};
ghost use Rattle.vm_shadow.specs.StandsFor.{MakesTables, Serves, real_psl, world_of};
ghost use Rattle.vm_state.specs.Allowed.{AreAllowed};
ghost use Rattle.vm_state.specs.State.{state_of};

use crate::Shadow;
use crate::marks::Marks;
use crate::records::{GROUPS, Records};
use crate::scans::{ALL_ENTRIES, EMPTY, entry_place};
use crate::switches::context_of;
use std::alloc::Global;
use vax_arch::{Mode, Psl};
use vax_hw::{Hardware, World};
use vm_slots::Slots;
use vm_state::GuestState;
use vv_base::NoMemory;

/// A real entry that maps a page for real kernel mode alone: valid, with the code KW.
const KERNEL_ONLY: u32 = 0x9000_0000;

/// The first base of a real P0 table, and the bytes from one slot's to the next.
const PROCESS_TABLES: u32 = 0x8040_0000;

const SLOT_BYTES: u32 = 0x1_0000;

/// Maps the process tables, by the last system entries.
#[tactic(auto, using(crate::proofs::Making::maps_none))]
fn map_tables<H: Hardware>(machine: &mut H, at: u32)
    requires room { 512 * (at + 580) ≤ length (H.machine machine.old).memory }
    ensures { Maps at 512 (H.machine machine.old) (H.machine machine.new) }
{
    let _all = machine.pages();
    for j in 0..512 {
        machine.write_long(512 * at + 4 * (8192 + j), KERNEL_ONLY + (at + 68 + j));
    }
}

/// Empties all entries that are filled on demand.
#[tactic(auto, using(crate::proofs::Making::clears_none))]
fn clear_entries<H: Hardware>(machine: &mut H, at: u32)
    requires room { 512 * (at + 580) ≤ length (H.machine machine.old).memory }
    ensures { Clears at 73728 (H.machine machine.old) (H.machine machine.new) }
{
    let _all = machine.pages();
    for n in 0..ALL_ENTRIES {
        machine.write_long(entry_place(at, n), EMPTY);
    }
}

/// The real PSL under which a guest runs with a PSL.
fn real_psl(psl: Psl) -> Psl
    ensures { result.0 ≡ real_psl psl.0 }
{
    Psl(
        0x2000_0000
            + u32::from(ring(psl.current())) * 0x100_0000
            + u32::from(ring(psl.previous())) * 0x40_0000
            + psl.0 % 256,
    )
}

ghost use Rattle.vax_arch.specs.Fields.{mode_number};
ghost use Rattle.vax_arch.specs.Ring.{ring_of};

/// The number of the real mode in which a virtual mode runs.
fn ring(m: Mode) -> u8
    ensures is { result ≡ mode_number (ring_of m) }
    ensures small { result ≤ 3 }
{
    match m {
        Mode::Kernel | Mode::Executive => 1,
        Mode::Supervisor => 2,
        Mode::User => 3,
    }
}

impl Shadow {
    /// Shadow page tables for a guest, in 580 pages of the machine from `tables` on; no entry is filled. All memory is taken
    /// here, before the machine is written.
    pub fn new<H: Hardware>(
        alloc: Global,
        machine: &mut H,
        g: &GuestState,
        tables: u32,
    ) -> Result<Shadow, NoMemory>
        requires partition { 512 * (g.now.base + g.now.pages) ≤ length (H.machine machine.old).memory }
        requires room { 512 * (tables + 580) ≤ length (H.machine machine.old).memory }
        requires apart { (g.now.base + g.now.pages ≤ tables) ⊎ (tables + 580 ≤ g.now.base) }
        requires few { g.now.pages ≤ 2048 }
        requires allowed { AreAllowed (512 * g.now.pages) (state_of g.now) }
        ensures ok { IfOk result (λ s. MakesTables g.now tables (H.machine machine.old) (H.machine machine.new) s) }
        ensures err { OnErr result (H.machine machine.new ≡ H.machine machine.old) }
    {
        let reads = Records::new(alloc, g.pages)?;
        let consulted = vec![in alloc; false; g.pages as usize]?;
        let writable = Marks::new(alloc, GROUPS / 64 * g.pages)?;
        let context = context_of(g);
        let mut held = Slots::new();
        let taken = held.take(&context);
        let _all = machine.pages();
        map_tables(machine, tables);
        clear_entries(machine, tables);
        Ok(Shadow {
            pages: g.pages,
            base: g.base,
            at: tables,
            context,
            sbr: g.sbr,
            slr: g.slr,
            slot: taken.slot,
            held,
            reads,
            consulted,
            writable,
        })
    }

    /// What to load into the machine for the guest: its registers, the real PSL, and the real tables with its context's
    /// slot.
    pub fn world(&self, g: &GuestState) -> World
        requires at { self.now.at ≤ 65536 }
        requires slot { self.now.slot < 4 }
        requires serves { Serves g.now self.now }
        ensures { result ≡ world_of self.now g.now }
    {
        let tables = PROCESS_TABLES + SLOT_BYTES * u32::from(self.slot);
        World {
            r: g.r,
            psl: real_psl(g.psl),
            vmpsl: g.psl,
            p0br: tables,
            p0lr: 8192,
            p1br: tables + 0x8000 - 4 * 2_088_960,
            p1lr: 2_088_960,
            sbr: 512 * self.at,
            slr: 8704,
        }
    }
}
