ghost use Rattle.std.specs.Prelude.{◌≡◌, ◌≤◌, ◌<◌, ◌+◌, ◌*◌, ◌^◌, length};
ghost use Rattle.vv_base.specs.Bytes.{long_at};
ghost use Rattle.vax_arch.specs.Walk.{is_past};
ghost use Rattle.vm_state.specs.Partition.{partition_of};

use vax_hw::Hardware;
use vm_state::GuestState;

/// Whether `bytes` bytes from a physical place on aren't all in the guest's memory.
pub fn is_past(g: &GuestState, place: u64, bytes: u64) -> bool
    requires small { place < 2 ^ 60 }
    requires few { bytes ≤ 512 }
    ensures { result ≡ is_past (512 * g.now.pages) place bytes }
{
    512 * u64::from(g.pages) < place + bytes
}

/// The longword at a physical place of the guest's memory. A machine has at most 65,536 pages, so that each of its places
/// is a `u32`.
#[tactic(auto, using(vm_state::proofs::Parts::part_long))]
pub fn read_long<H: Hardware>(machine: &H, g: &GuestState, place: u32) -> u32
    requires partition { 512 * (g.now.base + g.now.pages) ≤ length (H.machine machine.now).memory }
    requires inside { place + 4 ≤ 512 * g.now.pages }
    ensures { result ≡ long_at (partition_of (H.machine machine.now).memory g.now) place }
{
    let _all = machine.pages();
    machine.read_long(512 * g.base + place)
}
