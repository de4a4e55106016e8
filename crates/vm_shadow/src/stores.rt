ghost use Rattle.std.specs.Prelude.{◌≡◌, ◌≤◌, ◌<◌, ◌+◌, ◌*◌, ◌%◌, ◌-◌, length, slice_set};
ghost use Rattle.vax_arch.specs.Walk.{page_of, with_modify};
ghost use Rattle.vm_shadow.specs.Shadowed.{Fits, Remembers, own};
ghost use Rattle.vm_shadow.specs.StandsFor.{Marks, StandsFor, Stores};
ghost use Rattle.vm_state.specs.Translation.{long_stored};

use crate::Shadow;
use crate::scans::MODIFY;
use vax_arch::{Lookup, Pte};
use vax_hw::Hardware;
use vm_state::GuestState;
use vm_walk::look_up;

/// Writes a byte of the machine's memory.
fn write_byte<H: Hardware>(machine: &mut H, at: u32, byte: u8)
    requires { at - at % 4 + 4 ≤ length (H.machine machine.old).memory }
    ensures { H.machine machine.new ≡ record (H.machine machine.old) { memory = slice_set (H.machine machine.old).memory at byte } }
{
    let place = at - at % 4;
    let mut bytes = machine.read_long(place).to_le_bytes();
    bytes[(at % 4) as usize] = byte;
    machine.write_long(place, u32::from_le_bytes(bytes));
}

/// An entry with its modify bit set.
fn with_modify(entry: Pte) -> u32
    ensures { result ≡ with_modify entry.0 }
{
    if entry.modified() {
        entry.0
    } else {
        entry.0 + MODIFY
    }
}

impl Shadow {
    /// Writes a byte of the guest's memory, at a physical address of the guest, for the kernel; what was read from that frame
    /// is dropped.
    pub fn store_byte<H: Hardware>(&mut self, machine: &mut H, pa: u32, byte: u8)
        requires fits { Fits (H.machine machine.old).memory self.old }
        requires remembers { Remembers self.old }
        requires inside { pa < 512 * self.old.pages }
        ensures { Stores pa (slice_set (own (H.machine machine.old).memory self.old) pa byte) (H.machine machine.old) self.old (H.machine machine.new) self.new }
    {
        let _all = machine.pages();
        self.note_write(machine, pa / 512);
        write_byte(machine, 512 * self.base + pa, byte);
    }

    /// Writes a longword of the guest's memory, at a physical address that is a multiple of 4, for the kernel; what was read
    /// from that frame is dropped.
    pub fn store_long<H: Hardware>(&mut self, machine: &mut H, pa: u32, long: u32)
        requires fits { Fits (H.machine machine.old).memory self.old }
        requires remembers { Remembers self.old }
        requires aligned { pa % 4 ≡ 0 }
        requires inside { pa + 4 ≤ 512 * self.old.pages }
        ensures { Stores pa (long_stored pa long (own (H.machine machine.old).memory self.old)) (H.machine machine.old) self.old (H.machine machine.new) self.new }
    {
        let _all = machine.pages();
        self.note_write(machine, pa / 512);
        machine.write_long(512 * self.base + pa, long);
    }

    /// Sets the modify bit of the entry of an address's page, in the guest's table; where the page has none, nothing
    /// changes.
    pub fn mark_modified<H: Hardware>(&mut self, machine: &mut H, g: &GuestState, va: u32)
        requires { StandsFor (H.machine machine.old).memory self.old g.now }
        ensures { Marks (page_of va) g.now (H.machine machine.old) self.old (H.machine machine.new) self.new }
    {
        let _all = machine.pages();
        if let Lookup::Found { place, .. } = look_up(machine, g, va / 512) {
            let entry = Pte(machine.read_long(512 * g.base + place));
            self.store_long(machine, place, with_modify(entry));
        }
    }
}
