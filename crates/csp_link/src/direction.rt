//! One direction of a link.

ghost use Rattle.std.specs.Prelude.{◌≡◌, ◌+◌, ◌^◌, ◌<◌, ◌≤◌, Some, All, length, IfOk};
ghost use Rattle.csp_link.specs.Fates.{most_copies, IsFault};
ghost use Rattle.csp_link.specs.PlainLink.{opening_direction};
ghost use Rattle.csp_link.specs.Room.{CanHear};
ghost use Rattle.csp_link.specs.Stocking.{taken_stock};
ghost use Rattle.csp_link.specs.Turns.{kept, looks, plan_in, taken, turn_in};
ghost use Rattle.csp_log.specs.Pictures.{shown_op};

use crate::doing::Doing;
use crate::fates::Fates;
use crate::held::{Held, HeldFrames};
use crate::{Fault, LINK_HOLDS, MOST_HELD, Way};
use csp_log::{BoxedFrame, Item, Op, Spares};
use std::alloc::{AllocError, Global};
use std::marker::Model;

/// What the plan says of the frames of a direction and the most copies that it adds to one, how many it has
/// popped, and those that it holds.
#[derive(Drop)]
pub struct Direction {
    fates: Fates,
    copies: u8,
    popped: u64,
    held: HeldFrames,
}

impl Model for Direction {
    ghost use Rattle.std.specs.Prelude.{◌≡◌};
    ghost use Rattle.csp_link.specs.Fates.{most_copies};
    ghost use Rattle.csp_link.specs.PlainLink.{PlainDirection};

    ghost Value = { PlainDirection };

    ghost view = { λ d. record { fates = d.fates; popped = d.popped; held = d.held } };

    ghost invariant = { λ d. d.copies ≡ most_copies d.fates };
}

impl Direction {
    /// One that has carried nothing yet.
    ///
    /// # Errors
    /// Want of memory.
    pub fn open(alloc: Global, plan: &[Fault], way: Way) -> Result<Direction, AllocError>
        requires { All IsFault plan.now }
        ensures { IfOk result (λ d. d ≡ opening_direction plan.now way) }
    {
        let fates = Fates::open(alloc, way.number(), plan)?;
        Ok(Direction {
            copies: fates.most_copies(),
            fates,
            popped: 0,
            held: HeldFrames::open(alloc)?,
        })
    }

    /// The operation of a turn, and what is to be kept in mind of it. A frame that is pushed leaves
    /// the direction.
    #[tactic(auto, using(crate::proofs::Due::due_inside, crate::proofs::Due::due_there, crate::proofs::Due::none_due))]
    #[inline(always)]
    pub fn ask(&mut self, way: Way, now: u64) -> (Op, Doing)
        ensures op { shown_op result.0 ≡ (turn_in way now self.old).asks }
        ensures doing { result.1 ≡ plan_in self.old now }
        ensures state { self.new ≡ (turn_in way now self.old).until }
        ensures hears { CanHear result.1 self.new.held }
    {
        if let Some(place) = self.held.first_due(now) {
            let Held { due, frame } = self.held.take(place);
            return (
                Op::Push(way.to_queue(), Item::Frame(frame)),
                Doing::Push { place, due },
            );
        }
        if self.held.len() <= MOST_HELD {
            (Op::Pop(way.from_queue()), Doing::Pop)
        } else {
            (Op::Nothing, Doing::Wait)
        }
    }

    /// Whether a turn looks for a frame: none is due, and there is room.
    #[tactic(auto, using(crate::proofs::Due::none_due))]
    pub fn looks(&self, now: u64) -> bool
        ensures { result ≡ looks (plan_in self.now now) }
    {
        self.held.len() <= MOST_HELD && self.held.first_due(now).is_none()
    }

    /// The most copies that the plan adds to a frame.
    pub fn copies(&self) -> u8
        ensures { result ≡ most_copies self.now.fates }
    {
        self.copies
    }

    /// A frame that was to be pushed comes back into its place.
    pub fn keep(&mut self, place: usize, due: u64, frame: BoxedFrame)
        requires place { place ≤ length self.old.held }
        requires room { length self.old.held < LINK_HOLDS }
        ensures { self.new ≡ kept place due (Some frame) self.old }
    {
        self.held.put_back(place, Held { due, frame });
    }

    /// A frame was popped: what the plan makes of it is held.
    pub fn take(&mut self, frame: BoxedFrame, now: u64, spares: &mut Spares)
        requires room { length self.old.held ≤ MOST_HELD }
        requires few { self.old.popped < 2 ^ 32 }
        requires early { now < 2 ^ 62 }
        requires stock { most_copies self.old.fates ≤ spares.old.boxes }
        ensures state { self.new ≡ taken now (Some frame) self.old }
        ensures stock { spares.new ≡ taken_stock (Some frame) self.old spares.old }
        ensures least { spares.old.boxes ≤ spares.new.boxes + most_copies self.old.fates }
        ensures most { spares.new.boxes ≤ spares.old.boxes + 1 }
    {
        self.popped += 1;
        let fate = self.fates.of(self.popped);
        self.held.hold(fate, now, frame, spares);
    }
}
