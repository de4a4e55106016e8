ghost use Rattle.std.specs.Prelude.{◌≡◌, ◌+◌, ◌*◌, ◌≤◌, ◌<◌};
ghost use Rattle.sys_state.specs.Transfers.{packet_at};
ghost use Rattle.sys_transfers.specs.Serves.{packet_of};
ghost use Rattle.vax_arch.specs.Walk.{is_past};
ghost use Rattle.vm_guest.specs.Kept.{IsShadowedIn, guest_in};

use vax_hw::Hardware;
use vm_guest::Guest;
use vv_base::get_u32;

/// A packet's longwords but for the last, which is the status.
#[derive(Clone, Copy, Debug, PartialEq, Eq)]
pub struct Request {
    pub function: u32,
    pub unit: u32,
    pub block: u32,
    pub buffer: u32,
    pub size: u32,
}

/// The packet at a physical address of a guest.
pub fn request_at<H: Hardware>(machine: &H, guest: &Guest, at: u32) -> Request
    requires stands { IsShadowedIn (H.machine machine.now).memory guest.now }
    requires inside { at + 24 ≤ 512 * guest.now.state.pages }
    ensures { packet_of result ≡ packet_at (guest_in (H.machine machine.now).memory guest.now).memory at }
{
    let mut bytes = [0; 20];
    guest.fetch_into(machine, at, &mut bytes);
    Request {
        function: get_u32(&bytes, 0),
        unit: get_u32(&bytes, 4),
        block: get_u32(&bytes, 8),
        buffer: get_u32(&bytes, 12),
        size: get_u32(&bytes, 16),
    }
}

/// Whether `bytes` bytes from a physical address on aren't all in a guest's memory.
pub fn is_outside(guest: &Guest, at: u32, bytes: u32) -> bool
    ensures { result ≡ is_past (512 * guest.now.state.pages) at bytes }
{
    512 * u64::from(guest.state().pages) < u64::from(at) + u64::from(bytes)
}
