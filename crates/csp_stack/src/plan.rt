//! What a turn of a router is.

use csp_base::Seat;
use csp_deck::QueueId;
use csp_rdp::Job;

/// What a turn is, from its operation to the answer.
#[derive(Clone, Copy)]
pub enum Plan {
    /// There is no work; also between two turns.
    Rest,
    /// The first buffer of the trash goes back to the pool.
    Give,
    /// The packet that is to go out is pushed to this queue, with so many bytes of payload.
    Push(QueueId, u32),
    /// A packet is taken from the inbox.
    Hear,
    /// An item is taken from the application of this number.
    Serve(u8),
    /// The answer that came to be owed first is pushed to the application of this number.
    Reply(u8),
    /// An application is told that the connection on this slot is not open any more.
    Tell(Seat),
    /// The packet that the connection on a slot is to deliver is pushed.
    Deliver(Seat),
    /// A buffer is taken for this packet of the connection on a slot.
    Make(Seat, Job),
}
