//! Frames that a link holds.

ghost use Rattle.std.specs.Prelude.{◌≡◌, ◌+◌, ◌^◌, ◌<◌, ◌≤◌, [], ◌∷◌, ◌++◌, length, slice_index_or, IfOk};
ghost use Rattle.std.specs.List.{insert, remove};
ghost use Rattle.std.specs.Option.{option_map};
ghost use Rattle.csp_link.specs.Copies.{flipped, damaged, held_copies};
ghost use Rattle.csp_link.specs.Holding.{first_due};
ghost use Rattle.csp_link.specs.Stocking.{stock_after};

use crate::MAX_REPEATS;
use crate::fates::Fate;
use csp_log::{BoxedFrame, Spares};
use std::alloc::{AllocError, Global};
use std::collections::VecDeque;
use std::marker::Model;

/// The most frames that a link holds for one end.
pub const LINK_HOLDS: usize = 64;

/// The most held frames with which another one is popped: it and its copies find room then.
pub const MOST_HELD: usize = LINK_HOLDS - 1 - MAX_REPEATS as usize;

/// A frame that a link holds.
#[derive(Drop)]
pub struct Held {
    /// From when on it may go on.
    pub due: u64,
    /// The frame.
    pub frame: BoxedFrame,
}

/// The frames that a link holds for one end, in the order of holding, with room for `LINK_HOLDS` and no more.
#[derive(Drop)]
pub struct HeldFrames {
    frames: VecDeque<Held>,
}

impl Model for HeldFrames {
    ghost use Rattle.std.specs.Prelude.{List, ◌≡◌, ◌≤◌, length};
    ghost use Rattle.std.specs.VecDeque.{deque_capacity};
    ghost use Rattle.csp_link.specs.declared.held.Held.{Held};
    ghost use Rattle.csp_link.specs.declared.held.TheConstants.{LINK_HOLDS};

    ghost Value = { List Held };

    ghost view = { λ h. h.frames.items };

    ghost invariant = { λ h. (length h.frames.items ≤ LINK_HOLDS) × (deque_capacity h.frames ≡ LINK_HOLDS) };
}

impl HeldFrames {
    /// No frame, with the room.
    ///
    /// # Errors
    /// Want of memory.
    pub fn open(alloc: Global) -> Result<HeldFrames, AllocError>
        ensures { IfOk result (λ h. h ≡ []) }
    {
        let frames = VecDeque::with_capacity(alloc, LINK_HOLDS)?;
        Ok(HeldFrames { frames })
    }

    /// How many there are.
    pub fn len(&self) -> usize
        ensures { result ≡ length self.now }
    {
        self.frames.len()
    }

    /// The place of the first that is due.
    #[tactic(auto, using(crate::proofs::Due::place_first_due))]
    pub fn first_due(&self, now: u64) -> Option<usize>
        ensures place { result ≡ option_map (λ p. p.0) (first_due now self.now) }
        ensures fits { length self.now ≤ LINK_HOLDS }
    {
        self.frames.iter().position(|held| held.due <= now)
    }

    /// Takes one out.
    pub fn take(&mut self, place: usize) -> Held
        requires { place < length self.old }
        ensures held { result ≡ slice_index_or self.old place result }
        ensures rest { self.new ≡ remove self.old place }
        ensures len { length self.new + 1 ≡ length self.old }
    {
        self.frames.remove(place).unwrap()
    }

    /// Puts one back into its place.
    pub fn put_back(&mut self, place: usize, held: Held)
        requires place { place ≤ length self.old }
        requires room { length self.old < LINK_HOLDS }
        ensures { self.new ≡ insert self.old place held }
    {
        self.frames.rotate_left(place);
        self.frames.push_front_reserved(held);
        self.frames.rotate_right(place);
    }

    /// Holds a frame besides.
    fn add(&mut self, due: u64, frame: BoxedFrame)
        requires room { length self.old < LINK_HOLDS }
        ensures { self.new ≡ self.old ++ record { due = due; frame = frame } ∷ [] }
    {
        self.frames.push_back_reserved(Held { due, frame });
    }

    /// Holds what a fate makes of a frame that was popped: nothing, or the frame and its copies.
    pub fn hold(&mut self, fate: Fate, now: u64, frame: BoxedFrame, spares: &mut Spares)
        requires few { fate.repeats ≤ MAX_REPEATS }
        requires room { length self.old ≤ MOST_HELD }
        requires early { now < 2 ^ 62 }
        requires stock { fate.repeats ≤ spares.old.boxes }
        ensures held { self.new ≡ self.old ++ held_copies fate now frame }
        ensures stock { spares.new ≡ stock_after fate spares.old }
        ensures least { spares.old.boxes ≤ spares.new.boxes + fate.repeats }
        ensures most { spares.new.boxes ≤ spares.old.boxes + 1 }
    {
        if fate.lost {
            spares.keep(frame);
            return;
        }
        let frame = damaged(fate.flip, frame);
        let due = now + u64::from(fate.delay);
        for _ in 0..fate.repeats {
            let copy = spares.copy(&frame);
            self.add(due, copy);
        }
        self.add(due, frame);
    }
}

/// The frame with a bit changed, where one is.
fn damaged(bit: Option<u32>, frame: BoxedFrame) -> BoxedFrame
    ensures { result ≡ damaged bit frame }
{
    let mut frame = frame;
    if let Some(bit) = bit {
        flip(&mut frame, bit);
    }
    frame
}

/// Changes a bit of a frame, if it has it.
fn flip(frame: &mut BoxedFrame, bit: u32)
    ensures { frame.new ≡ flipped bit frame.old }
{
    let index = (bit / 8) as usize;
    if index < frame.frame().bytes.len() {
        let byte = frame.frame().bytes[index];
        frame.set_byte(index, byte ^ (128 >> (bit % 8)));
    }
}
