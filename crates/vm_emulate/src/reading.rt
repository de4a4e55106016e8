ghost use Rattle.std.specs.Prelude.{◌≡◌, ◌≤◌, ◌<◌, ◌+◌, ◌*◌, ◌%◌, length, slice_index};
ghost use Rattle.vv_base.specs.Bytes.{long_at};
ghost use Rattle.vax_arch.specs.WalkLaws.{AreAligned};
ghost use Rattle.vax_arch.specs.declared.mode.Intent.TheVariants.{Read};
ghost use Rattle.vax_table.specs.Interaction.{number_at};
ghost use Rattle.vm_emulate.specs.Readings.{AnswersReading, IsByte};
ghost use Rattle.vm_state.specs.Partition.{guest_of, partition_of};
ghost use Rattle.vm_state.specs.State.{tables_of};
ghost use Rattle.vm_state.specs.Translation.{space_of};

use vax_arch::Intent;
use vax_hw::Hardware;
use vm_state::{GuestState, MemFault, Walk};
use vm_walk::walk;

/// Why a byte can't be read, or be written: a fault, or a place beyond memory.
#[derive(Clone, Copy, Debug, PartialEq, Eq)]
pub enum Unread {
    Faulty(MemFault),
    PastMemory,
}

/// The byte at a physical place of the guest.
fn byte_in<H: Hardware>(machine: &H, g: &GuestState, pa: u32) -> u8
    requires partition { 512 * (g.now.base + g.now.pages) ≤ length (H.machine machine.now).memory }
    requires inside { pa < 512 * g.now.pages }
    ensures { result ≡ slice_index (partition_of (H.machine machine.now).memory g.now) pa }
{
    let _all = machine.pages();
    let place = 512 * g.base + pa;
    machine.read_long(place - place % 4).to_le_bytes()[(place % 4) as usize]
}

/// The longword at a physical place of the guest.
#[tactic(auto, using(vm_state::proofs::Parts::part_long))]
pub fn long_in<H: Hardware>(machine: &H, g: &GuestState, pa: u32) -> u32
    requires partition { 512 * (g.now.base + g.now.pages) ≤ length (H.machine machine.now).memory }
    requires inside { pa + 4 ≤ 512 * g.now.pages }
    ensures { result ≡ long_at (partition_of (H.machine machine.now).memory g.now) pa }
{
    let _all = machine.pages();
    machine.read_long(512 * g.base + pa)
}

/// The byte at an address, read in the guest's mode.
fn read_byte<H: Hardware>(machine: &H, g: &GuestState, va: u32) -> Result<u8, Unread>
    requires partition { 512 * (g.now.base + g.now.pages) ≤ length (H.machine machine.now).memory }
    requires tables { AreAligned (tables_of g.now) }
    ensures { IsByte (guest_of (H.machine machine.now).memory g.now) va result }
{
    match walk(machine, g, va, g.psl.current(), Intent::Read) {
        Walk::Frame { pa, .. } => Ok(byte_in(machine, g, pa)),
        Walk::Fault(fault) => Err(Unread::Faulty(fault)),
        Walk::Beyond => Err(Unread::PastMemory),
    }
}

/// The longword at an address, all of which lies in one page, read in the guest's mode.
fn read_in_page<H: Hardware>(machine: &H, g: &GuestState, va: u32) -> Result<u32, Unread>
    requires partition { 512 * (g.now.base + g.now.pages) ≤ length (H.machine machine.now).memory }
    requires tables { AreAligned (tables_of g.now) }
    requires page { va % 512 ≤ 508 }
    ensures { AnswersReading (guest_of (H.machine machine.now).memory g.now)
        (number_at (space_of (guest_of (H.machine machine.now).memory g.now)) Read 4 va) result }
{
    match walk(machine, g, va, g.psl.current(), Intent::Read) {
        Walk::Frame { pa, .. } => Ok(long_in(machine, g, pa)),
        Walk::Fault(fault) => Err(Unread::Faulty(fault)),
        Walk::Beyond => Err(Unread::PastMemory),
    }
}

/// The longword at an address, each of its bytes by its own walk, read in the guest's mode.
fn read_by_bytes<H: Hardware>(machine: &H, g: &GuestState, va: u32) -> Result<u32, Unread>
    requires partition { 512 * (g.now.base + g.now.pages) ≤ length (H.machine machine.now).memory }
    requires tables { AreAligned (tables_of g.now) }
    ensures { AnswersReading (guest_of (H.machine machine.now).memory g.now)
        (number_at (space_of (guest_of (H.machine machine.now).memory g.now)) Read 4 va) result }
{
    let first = read_byte(machine, g, va)?;
    let second = read_byte(machine, g, va.wrapping_add(1))?;
    let third = read_byte(machine, g, va.wrapping_add(2))?;
    let fourth = read_byte(machine, g, va.wrapping_add(3))?;
    Ok(u32::from_le_bytes([first, second, third, fourth]))
}

/// The longword at an address, read in the guest's mode.
pub fn read_walked<H: Hardware>(machine: &H, g: &GuestState, va: u32) -> Result<u32, Unread>
    requires partition { 512 * (g.now.base + g.now.pages) ≤ length (H.machine machine.now).memory }
    requires tables { AreAligned (tables_of g.now) }
    ensures { AnswersReading (guest_of (H.machine machine.now).memory g.now)
        (number_at (space_of (guest_of (H.machine machine.now).memory g.now)) Read 4 va) result }
{
    if va % 512 <= 508 {
        read_in_page(machine, g, va)
    } else {
        read_by_bytes(machine, g, va)
    }
}
