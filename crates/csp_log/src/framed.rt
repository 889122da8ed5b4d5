//! The frame and the mark of the packet that a turn moved, read from a log without a copy.

ghost use Rattle.std.specs.Prelude.{◌≡◌, ℕ, List};
ghost use Rattle.csp_base.specs.declared.traces.Trace.{Trace};
ghost use Rattle.csp_buffer.specs.Trails.{trace_of};
ghost use Rattle.csp_log.specs.Framing.{piece_of, framed_by, marked_by};
ghost use Rattle.csp_log.specs.Rows.{frame_of, op_of, answer_of};

use crate::QueueId;
use crate::row::{Deed, ItemHead};
use csp_base::Trace;
use csp_buffer::Trail;

/// What is told of a frame.
#[derive(Clone, Copy)]
pub struct Piece {
    /// Its identifier on a CAN link.
    pub can: Option<u32>,
    /// How many bytes it has.
    pub len: usize,
    /// The trace of the packet that it carries, or carries a part of.
    pub trace: Trace,
}

/// The frame that a turn moved between its party and a queue.
#[derive(Clone, Copy)]
pub enum Framed {
    /// This frame, into this queue.
    Pushed(QueueId, Piece),
    /// This frame, out of this queue.
    Popped(QueueId, Piece),
    /// No frame.
    NoFrame,
}

/// What is told of a frame with these bytes and this trail.
fn piece_with(can: Option<u32>, bytes: &[u8], trail: &Trail) -> Piece
    ensures { result ≡ piece_of (frame_of bytes.now (trace_of trail.now) can) }
{
    Piece {
        can,
        len: bytes.len(),
        trace: trail.trace(),
    }
}

/// The frame that a deed with these bytes and this trail moved.
pub(crate) fn read_framed(bytes: &[u8], trail: &Trail, deed: &Deed) -> Framed
    ensures { result ≡ framed_by (op_of bytes.now (trace_of trail.now) deed.now) (answer_of bytes.now (trace_of trail.now) deed.now) }
{
    match deed {
        Deed::Pushed(queue, ItemHead::Frame { can }) => {
            Framed::Pushed(*queue, piece_with(*can, bytes, trail))
        }
        Deed::Popped(queue, ItemHead::Frame { can }) => {
            Framed::Popped(*queue, piece_with(*can, bytes, trail))
        }
        _ => Framed::NoFrame,
    }
}

/// The mark of the packet that a deed moved, whatever its bytes and its trace are.
pub(crate) fn read_mark(deed: &Deed) -> Option<u8>
    ensures { (bytes : List ℕ) (trace : Trace) → result ≡ marked_by (op_of bytes trace deed.now) (answer_of bytes trace deed.now) }
{
    match deed {
        Deed::Pushed(_, ItemHead::Packet { mark, .. }) => Some(*mark),
        Deed::Popped(_, ItemHead::Packet { mark, .. }) => Some(*mark),
        _ => None,
    }
}
