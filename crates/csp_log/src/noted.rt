//! The note that a turn moved, read from a log.

ghost use Rattle.std.specs.Prelude.{◌≡◌, ℕ, List};
ghost use Rattle.csp_base.specs.declared.traces.Trace.{Trace};
ghost use Rattle.csp_log.specs.Rows.{op_of, answer_of};
ghost use Rattle.csp_log.specs.Idling.{is_still};
ghost use Rattle.csp_log.specs.Noting.{noted_by};

use crate::row::{Deed, ItemHead};
use crate::{Note, QueueId};

/// What note a turn moved between its party and a queue.
#[derive(Clone, Copy)]
pub enum Noted {
    /// This note, into this queue.
    Pushed(QueueId, Note),
    /// This note, out of this queue.
    Popped(QueueId, Note),
    /// No note.
    NoNote,
}

/// What note a deed moved, whatever its bytes and its trace are.
pub(crate) fn read_noted(deed: &Deed) -> Noted
    ensures { (bytes : List ℕ) (trace : Trace) → result ≡ noted_by (op_of bytes trace deed.now) (answer_of bytes trace deed.now) }
{
    match deed {
        Deed::Pushed(queue, ItemHead::Note(note)) => Noted::Pushed(*queue, *note),
        Deed::Popped(queue, ItemHead::Note(note)) => Noted::Popped(*queue, *note),
        _ => Noted::NoNote,
    }
}

/// Whether a deed moved neither a packet nor a note, whatever its bytes and its trace are.
pub(crate) fn is_still(deed: &Deed) -> bool
    ensures { (bytes : List ℕ) (trace : Trace) → result ≡ is_still (op_of bytes trace deed.now) (answer_of bytes trace deed.now) }
{
    match deed {
        Deed::Pushed(_, item) | Deed::Popped(_, item) => matches!(item, ItemHead::Frame { .. }),
        _ => true,
    }
}
