//! The queue of packets by which a guest asks for transfers.
#![tactic(auto)]

ghost use Rattle.std.specs.Prelude.{◌≡◌, ◌*◌, ◌%◌, ◌==◌, ◌||◌, not};
ghost use Rattle.vax_arch.specs.Walk.{is_past};
ghost use Rattle.vm_state.specs.Packets.{accepted, after_accept};
ghost use Rattle.vm_state.specs.State.{HasPlace, state_of};

pub use vm_state::Accept;
use vm_state::GuestState;

/// The bytes of a packet.
const PACKET: u64 = 24;

/// Whether the address can be a packet's: a multiple of 4, with all its bytes in the guest's memory.
fn is_packet(g: &GuestState, packet: u32) -> bool
    ensures { result ≡ not (not (packet % 4 == 0) || is_past (512 * g.now.pages) packet 24) }
{
    let size = 512 * u64::from(g.pages);
    packet % 4 == 0 && u64::from(packet) + PACKET <= size
}

/// Queues the packet at a physical address of the guest. `BadPacket` comes exactly where the address isn't a multiple of 4 or
/// the packet's 24 bytes aren't all in the guest's memory; else `Busy` exactly where 8 are queued. Both change nothing.
#[tactic(auto, unfolding(vm_state::specs::Packets::accepted))]
pub fn accept(g: &mut GuestState, packet: u32) -> Accept
    ensures is { result ≡ accepted (512 * g.old.pages) (state_of g.old) packet }
    ensures state { state_of g.new ≡ after_accept result packet (state_of g.old) }
    ensures place { HasPlace g.old.pages g.old.base g.old.start g.new }
{
    if !is_packet(g, packet) {
        return Accept::BadPacket;
    }
    if g.queue.is_full() {
        return Accept::Busy;
    }
    g.queue.push(packet);
    Accept::Queued
}
