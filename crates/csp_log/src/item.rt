//! What goes through a queue.

use crate::{BoxedFrame, Note};
use csp_buffer::Buffer;

/// An item of a queue.
pub enum Item {
    /// A packet. Its mark says which interface it came in on, which slot it is of, or which address
    /// is its next hop, by the queue.
    Packet { mark: u8, buffer: Buffer },
    /// A frame of a link.
    Frame(BoxedFrame),
    /// A request or an answer between an application and its router.
    Note(Note),
}
