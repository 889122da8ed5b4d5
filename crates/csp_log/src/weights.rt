//! What an entry of a log weighs: more where it shows many bytes.

ghost use Rattle.std.specs.Prelude.{◌≡◌, ℕ, ◌+◌, ◌*◌, ◌/◌, ◌≤◌, List, length};
ghost use Rattle.csp_base.specs.declared.traces.Trace.{Trace};
ghost use Rattle.csp_log.specs.Rows.{op_of, answer_of};
ghost use Rattle.csp_log.specs.Weights.{op_bytes, answer_bytes, item_share};

use crate::row::{Deed, ItemHead};
use csp_base::MAX_FRAME;

/// For each so many bytes that an entry shows it weighs one more: for a KISS frame of 256 bytes of payload twice,
/// once asked and once handed back, and one byte. So where no packet is larger each entry weighs one; and a
/// limit on what logs weigh bounds their memory, however large the packets are.
pub const WEIGHT_BYTES: usize = 1_063;

/// The most that one entry weighs: it shows one frame, twice at most.
pub const MAX_WEIGHT: usize = 1 + 2 * MAX_FRAME / WEIGHT_BYTES;

/// What the entry of a deed with so many bytes weighs besides one.
#[inline(always)]
pub(crate) fn surplus(deed: &Deed, bytes: usize) -> u64
    requires { bytes ≤ MAX_FRAME }
    ensures weight { (carried : List ℕ) (trace : Trace) → length carried ≡ bytes → result ≡ (op_bytes (op_of carried trace deed.now) + answer_bytes (answer_of carried trace deed.now)) / WEIGHT_BYTES }
    ensures most { result + 1 ≤ MAX_WEIGHT }
{
    (shown_bytes(deed, bytes) / WEIGHT_BYTES) as u64
}

/// How many bytes the operation and the answer of a deed with so many bytes show together: what comes back is
/// shown once more.
#[inline(always)]
fn shown_bytes(deed: &Deed, bytes: usize) -> usize
    requires { bytes ≤ MAX_FRAME }
    ensures shown { (carried : List ℕ) (trace : Trace) → length carried ≡ bytes → result ≡ op_bytes (op_of carried trace deed.now) + answer_bytes (answer_of carried trace deed.now) }
    ensures most { result ≤ 2 * MAX_FRAME }
{
    match deed {
        Deed::Rested | Deed::FoundNoBuffer | Deed::FoundEmpty(_) => 0,
        Deed::Took(_) | Deed::Gave(_) => bytes,
        Deed::FoundPoolFull(_) => bytes + bytes,
        Deed::Pushed(_, item) | Deed::Popped(_, item) => item_bytes(item, bytes),
        Deed::FoundFull(_, item) => item_bytes(item, bytes) + item_bytes(item, bytes),
    }
}

/// How many of so many bytes an item shows: a note shows none.
#[inline(always)]
fn item_bytes(item: &ItemHead, bytes: usize) -> usize
    ensures { result ≡ item_share item.now bytes }
{
    match item {
        ItemHead::Packet { .. } | ItemHead::Frame { .. } => bytes,
        ItemHead::Note(_) => 0,
    }
}
