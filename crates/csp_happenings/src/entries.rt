//! Of which entries nothing is told.

ghost use Rattle.std.specs.Prelude.{◌≡◌, ◌<◌, true, length, slice_get, IfSome};
ghost use Rattle.csp_log.specs.Idling.{IsIdle};

use csp_log::{Log, Moved, Noted};

/// Whether the turn of the entry of this index moved neither a packet nor a note, and reported nothing.
#[inline(always)]
pub(crate) fn is_idle(log: &Log, index: u64) -> bool
    requires { index < length log.now.entries }
    ensures { result ≡ true → IfSome (slice_get log.now.entries index) IsIdle }
{
    matches!(log.noted(index), Noted::NoNote)
        && log.events(index).is_empty()
        && matches!(log.moved(index), Moved::NoPacket)
}
