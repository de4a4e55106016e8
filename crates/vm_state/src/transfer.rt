/// The answer to the address of a packet by which a guest asks for a transfer: it is queued, the queue is full, or no packet can
/// be there.
#[derive(Clone, Copy, Debug, PartialEq, Eq)]
pub enum Accept {
    Queued,
    Busy,
    BadPacket,
}
