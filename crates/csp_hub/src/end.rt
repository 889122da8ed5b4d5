//! An end of a hub.

ghost use Rattle.std.specs.Prelude.{◌≡◌, ◌+◌, ◌-◌, ◌^◌, ◌<◌, ◌≤◌, [], ◌∷◌, ◌++◌, Some, All, length, replicate, slice_index_or, IfOk, IfSome};
ghost use Rattle.std.specs.List.{insert, remove};
ghost use Rattle.std.specs.Option.{option_map};
ghost use Rattle.csp_hub.specs.Asking.{without};
ghost use Rattle.csp_hub.specs.PlainHub.{opening_end};
ghost use Rattle.csp_hub.specs.Planning.{has_room, is_idle};
ghost use Rattle.csp_hub.specs.Stocking.{less};
ghost use Rattle.csp_hub.specs.Telling.{fate_of_next, copies_held, kept, sent};
ghost use Rattle.csp_link.specs.Copies.{held_until};
ghost use Rattle.csp_link.specs.Fates.{most_copies, IsFault};
ghost use Rattle.csp_link.specs.Holding.{first_due};

use crate::fates::{Fate, Fates};
use crate::held::Held;
use csp_link::{Fault, LINK_HOLDS, MAX_REPEATS, MOST_HELD};
use csp_log::{BoxedFrame, Spares};
use std::alloc::{AllocError, Global};
use std::collections::VecDeque;
use std::marker::Model;

/// An end of a hub: what the plan says of the frames that come from it and the most copies that it adds to one, how many of
/// them were popped, and the frames that are held for it, in the order of holding, with room for `LINK_HOLDS` and no more.
#[derive(Drop)]
pub struct HubEnd {
    fates: Fates,
    copies: u8,
    popped: u64,
    held: VecDeque<Held>,
}

impl Model for HubEnd {
    ghost use Rattle.csp_hub.specs.PlainHub.{PlainEnd};

    ghost Value = { PlainEnd };

    ghost use Rattle.csp_hub.specs.Room.{IsEnd, plain_end};

    ghost view = { plain_end };

    ghost invariant = { IsEnd };
}

impl HubEnd {
    /// The end of this number, from which and to which nothing has gone yet.
    ///
    /// # Errors
    /// Want of memory.
    pub fn open(alloc: Global, number: u8, plan: &[Fault]) -> Result<HubEnd, AllocError>
        requires { All IsFault plan.now }
        ensures { IfOk result (λ e. e ≡ opening_end plan.now number) }
    {
        let fates = Fates::open(alloc, number, plan)?;
        Ok(HubEnd {
            copies: fates.most_copies(),
            fates,
            popped: 0,
            held: VecDeque::with_capacity(alloc, LINK_HOLDS)?,
        })
    }

    /// Whether a frame and all copies that a fault may add to it find room.
    pub fn has_room(&self) -> bool
        ensures { result ≡ has_room self.now }
    {
        self.held.len() <= MOST_HELD
    }

    /// Whether no frame is due to go on to it, and there is room.
    pub fn is_idle(&self, now: u64) -> bool
        ensures { result ≡ is_idle now self.now }
    {
        self.has_room() && self.first_due(now).is_none()
    }

    /// The most copies that the plan adds to a frame from it.
    pub fn copies(&self) -> u8
        ensures most { result ≡ most_copies self.now.fates }
        ensures few { result ≤ MAX_REPEATS }
    {
        self.copies
    }

    /// The place of the first held frame that is due.
    pub fn first_due(&self, now: u64) -> Option<usize>
        ensures place { result ≡ option_map (λ p. p.0) (first_due now self.now.held) }
        ensures fits { length self.now.held ≤ LINK_HOLDS }
    {
        self.held.iter().position(|held| held.is_due(now))
    }

    /// Takes the first held frame that is due out of its place.
    pub fn take_due(&mut self, now: u64) -> Option<(usize, Held)>
        ensures found { result ≡ first_due now self.old.held }
        ensures state { self.new ≡ without (first_due now self.old.held) self.old }
        ensures place { IfSome result (λ p. (p.0 ≤ length self.new.held) × (length self.new.held < LINK_HOLDS)) }
    {
        let place = self.first_due(now)?;
        let held = self.take(place);
        Some((place, held))
    }

    /// Takes one held frame out of its place.
    fn take(&mut self, place: usize) -> Held
        requires { place < length self.old.held }
        ensures held { result ≡ slice_index_or self.old.held place result }
        ensures rest { self.new ≡ record self.old { held = remove self.old.held place } }
        ensures len { length self.new.held + 1 ≡ length self.old.held }
    {
        self.held.remove(place).unwrap()
    }

    /// A frame that was to be pushed comes back into its place.
    pub fn keep(&mut self, place: usize, due: u64, frame: BoxedFrame)
        requires place { place ≤ length self.old.held }
        requires room { length self.old.held < LINK_HOLDS }
        ensures { self.new ≡ kept place due (Some frame) self.old }
    {
        self.held.rotate_left(place);
        self.held.push_front_reserved(Held { due, frame });
        self.held.rotate_right(place);
    }

    /// One more frame was popped from it: what happens to that one.
    pub fn send(&mut self) -> Fate
        requires { self.old.popped < 2 ^ 32 }
        ensures fate { result ≡ fate_of_next self.old }
        ensures few { result.repeats ≤ MAX_REPEATS }
        ensures most { result.repeats ≤ most_copies self.old.fates }
        ensures state { self.new ≡ sent self.old }
    {
        self.popped += 1;
        self.fates.of(self.popped)
    }

    /// Holds a frame for it besides.
    fn add(&mut self, due: u64, frame: BoxedFrame)
        requires room { length self.old.held < LINK_HOLDS }
        ensures { self.new ≡ copies_held (held_until due frame ∷ []) self.old }
    {
        self.held.push_back_reserved(Held { due, frame });
    }

    /// Holds copies of a frame for it, each due at this time.
    pub fn hear(&mut self, copies: u8, due: u64, frame: &BoxedFrame, spares: &mut Spares)
        requires few { copies ≤ MAX_REPEATS + 1 }
        requires room { length self.old.held ≤ MOST_HELD }
        requires stock { copies ≤ spares.old.boxes }
        ensures held { self.new ≡ copies_held (replicate copies (held_until due frame.now)) self.old }
        ensures stock { spares.new ≡ less copies spares.old }
    {
        for _ in 0..copies {
            let copy = spares.copy(frame);
            self.add(due, copy);
        }
    }
}
