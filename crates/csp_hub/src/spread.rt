//! What becomes of a frame that was popped: it goes to every end but its own.

ghost use Rattle.std.specs.Prelude.{◌≡◌, ◌+◌, ◌-◌, ◌*◌, ◌^◌, ◌<◌, ◌≤◌, true, length, map, take, drop, replicate, slice_set};
ghost use Rattle.std.specs.List.{list_all, remove};
ghost use Rattle.csp_hub.specs.Planning.{has_room};
ghost use Rattle.csp_hub.specs.Stocking.{copy_count, less, stock_after};
ghost use Rattle.csp_hub.specs.Telling.{copies_held, held_for_others};
ghost use Rattle.csp_link.specs.Copies.{damaged, flipped, held_copies, held_until};

use crate::end::HubEnd;
use crate::fates::Fate;
use csp_link::MAX_REPEATS;
use csp_log::{BoxedFrame, Spares};

/// Whether there is room at every end but that of this number.
pub fn have_room(ends: &[HubEnd], from: usize) -> bool
    requires { from < length ends.now }
    ensures { result ≡ list_all has_room (remove ends.now from) }
{
    all_have_room(&ends[..from]) && all_have_room(&ends[from + 1..])
}

/// Whether there is room at each of these ends.
fn all_have_room(ends: &[HubEnd]) -> bool
    ensures { result ≡ list_all has_room ends.now }
{
    ends.iter().all(|end| end.has_room())
}

/// Holds what a fate makes of a frame for every end but that of this number, from which it comes. Its own box goes back.
pub fn spread(
    ends: &mut [HubEnd],
    from: usize,
    fate: Fate,
    now: u64,
    frame: BoxedFrame,
    spares: &mut Spares,
)
    requires from { from < length ends.old }
    requires few { fate.repeats ≤ MAX_REPEATS }
    requires room { list_all has_room (remove ends.old from) ≡ true }
    requires early { now < 2 ^ 62 }
    requires stock { (length ends.old - 1) * copy_count fate ≤ spares.old.boxes }
    ensures held { ends.new ≡ held_for_others from (held_copies fate now frame) ends.old }
    ensures stock { spares.new ≡ stock_after (length ends.old - 1) fate spares.old }
{
    let frame = damaged(fate.flip, frame);
    let due = now + u64::from(fate.delay);
    let copies = fate.copies();
    hold_all(&mut ends[..from], copies, due, &frame, spares);
    hold_all(&mut ends[from + 1..], copies, due, &frame, spares);
    spares.keep(frame);
}

/// Holds copies of a frame for each of these ends.
fn hold_all(ends: &mut [HubEnd], copies: u8, due: u64, frame: &BoxedFrame, spares: &mut Spares)
    requires few { copies ≤ MAX_REPEATS + 1 }
    requires room { list_all has_room ends.old ≡ true }
    requires stock { length ends.old * copies ≤ spares.old.boxes }
    ensures held { ends.new ≡ map (copies_held (replicate copies (held_until due frame.now))) ends.old }
    ensures stock { spares.new ≡ less (length ends.old * copies) spares.old }
{
    for end in ends.iter_mut() {
        end.hear(copies, due, frame, spares);
    }
}

/// The frame with a bit changed, where one is.
fn damaged(bit: Option<u32>, frame: BoxedFrame) -> BoxedFrame
    ensures { result ≡ damaged bit frame }
{
    let mut frame = frame;
    if let Some(bit) = bit {
        flip(&mut frame, bit);
    }
    frame
}

/// Changes a bit of a frame, if it has it.
fn flip(frame: &mut BoxedFrame, bit: u32)
    ensures { frame.new ≡ flipped bit frame.old }
{
    let index = (bit / 8) as usize;
    if index < frame.frame().bytes.len() {
        let byte = frame.frame().bytes[index];
        frame.set_byte(index, byte ^ (128 >> (bit % 8)));
    }
}
