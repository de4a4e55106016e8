ghost use Rattle.std.specs.Prelude.{◌≡◌, ◌+◌, ◌-◌, ◌*◌, ◌%◌, ◌≤◌, ◌<◌, length, slice_index};
ghost use Rattle.vm_guest.specs.Stores.{StoresBytes};
ghost use Rattle.vm_shadow.specs.StandsFor.{StandsFor};
ghost use Rattle.vm_state.specs.Outside.{bytes_at};
ghost use Rattle.vm_state.specs.Partition.{guest_of};

use vax_hw::Hardware;
use vm_shadow::Shadow;
use vm_state::GuestState;

/// The byte at a place of the machine's memory.
fn read_byte<H: Hardware>(machine: &H, at: u32) -> u8
    requires { at - at % 4 + 4 ≤ length (H.machine machine.now).memory }
    ensures { result ≡ slice_index (H.machine machine.now).memory at }
{
    let bytes = machine.read_long(at - at % 4).to_le_bytes();
    bytes[(at % 4) as usize]
}

/// Writes bytes of a guest's memory from a physical address on; what was read from their frames is dropped.
pub fn store_all<H: Hardware>(
    machine: &mut H,
    s: &mut Shadow,
    g: &GuestState,
    pa: u32,
    bytes: &[u8],
)
    requires stands { StandsFor (H.machine machine.old).memory s.old g.now }
    requires inside { pa + length bytes.now ≤ 512 * g.now.pages }
    ensures { StoresBytes pa bytes.now (H.machine machine.old) s.old g.now (H.machine machine.new) s.new }
{
    let mut place = pa;
    for byte in bytes {
        s.store_byte(machine, place, *byte);
        place += 1;
    }
}

/// Reads bytes of a guest's memory from a physical address on.
pub fn fetch_all<H: Hardware>(machine: &H, g: &GuestState, pa: u32, bytes: &mut [u8])
    requires memory { 512 * (g.now.base + g.now.pages) ≤ length (H.machine machine.now).memory }
    requires inside { pa + length bytes.old ≤ 512 * g.now.pages }
    ensures { bytes.new ≡ bytes_at (guest_of (H.machine machine.now).memory g.now) pa (length bytes.old) }
{
    let _all = machine.pages();
    let start = 512 * g.base + pa;
    for k in 0..bytes.len() {
        bytes[k] = read_byte(machine, start + k as u32);
    }
}
