ghost use Rattle.std.specs.Prelude.{◌≡◌, ◌≤◌, ◌<◌, ◌+◌, ◌*◌, length};
ghost use Rattle.vv_base.specs.Bytes.{long_at};
ghost use Rattle.vm_shadow.specs.Layout.{entry_place};
ghost use Rattle.vm_shadow.specs.Shadowed.{is_read_from};
ghost use Rattle.vm_shadow.specs.Calls.{closed_at, is_dropped, maps_open};

use crate::Source;
use vax_hw::Hardware;

/// A real entry that isn't filled: it isn't valid, and its code is UW.
pub const EMPTY: u32 = 0x2000_0000;

/// The modify bit of an entry.
pub const MODIFY: u32 = 0x0400_0000;

/// The real entries that are filled on demand.
pub const ALL_ENTRIES: u32 = 73_728;

/// Those of them that are system entries.
const SYSTEM: u32 = 8192;

/// The place in the machine of a real entry, by its number.
pub fn entry_place(at: u32, n: u32) -> u32
    requires low { at ≤ 65536 }
    requires number { n < 73728 }
    ensures { result ≡ entry_place at n }
{
    if n < SYSTEM {
        512 * at + 4 * n
    } else {
        512 * (at + 68) + 4 * (n - SYSTEM)
    }
}

/// Which entries a scan drops.
#[derive(Clone, Copy, Debug, PartialEq, Eq)]
pub enum Dropped {
    /// Those that were read from a frame of the guest.
    ReadFrom(u32),
    All,
}

/// Whether an entry was read from a frame of the guest.
pub fn is_read_from(source: Option<Source>, frame: u32) -> bool
    ensures { result ≡ is_read_from frame source }
{
    match source {
        None | Some(Source::Direct) => false,
        Some(Source::System { entry }) => entry == frame,
        Some(Source::Process { entry, table }) => entry == frame || table == frame,
    }
}

impl Dropped {
    /// Whether an entry is dropped that was read so.
    pub fn takes(self, source: Option<Source>) -> bool
        ensures { result ≡ is_dropped self source }
    {
        match self {
            Dropped::ReadFrom(frame) => is_read_from(source, frame),
            Dropped::All => source.is_some(),
        }
    }
}

/// Whether a real entry maps a frame that a source has, with its modify bit set.
fn maps_open(entry: u32, base: u32, source: Source) -> bool
    ensures { result ≡ maps_open base source entry }
{
    entry / MODIFY % 2 == 1
        && is_read_from(Some(source), (entry % 0x0020_0000).saturating_sub(base))
}

/// Clears the modify bit of the real entry at a place, if it maps a frame that a source has.
pub fn close_entry<H: Hardware>(machine: &mut H, place: u32, base: u32, source: Source)
    requires { place + 4 ≤ length (H.machine machine.old).memory }
    ensures { H.machine machine.new ≡ closed_at (maps_open base source (long_at (H.machine machine.old).memory place)) (H.machine machine.old) place }
{
    let entry = machine.read_long(place);
    if maps_open(entry, base, source) {
        machine.write_long(place, entry - MODIFY);
    }
}
