//! The deck of one turn of a party of a threaded run.

ghost use Rattle.std.proofs.Props.{props};
ghost use Rattle.std.specs.Prelude.{◌≡◌};
ghost use Rattle.csp_ends.specs.Ends.{AreOf, AreEnds};
ghost use Rattle.csp_ends.specs.Sides.{IsBacked-prop};

use crate::ends::Ends;
use crate::queues::Queues;
use crate::serving::{give, post, receive, take};
use crate::sides::{get, is_inbox, put};
use csp_buffer::Buffer;
use csp_deck::{Deck, Item, QueueId};
use std::sync::Wait;

/// What serves one turn of a party: the queues that threads share, and what the party has of them in hand.
///
/// An operation on a queue of which the party has no such end, as a push where it gets, is answered that nothing was
/// there, or no room, with nothing done; so is a push to the inbox of an item under a mark that isn't the party's.
#[derive(Drop)]
pub struct EndsDeck<'a, R: Wait> {
    /// What lets it wait.
    pub rt: &'a R,
    /// The queues of all nodes.
    pub queues: &'a Queues,
    /// What the party has in hand.
    pub ends: &'a mut Ends,
    /// It is of these queues.
    pub ghost of_it: { AreOf queues.now ends.now } by { Prim.hlevel props },
    /// It is what a party may have.
    pub ghost whole: { AreEnds ends.now } by { Prim.hlevel (props, IsBacked-prop) },
}

impl<'a, R: Wait> EndsDeck<'a, R> {
    /// The deck of a party that has this in hand, for one turn.
    pub fn new(rt: &'a R, queues: &'a Queues, ends: &'a mut Ends) -> EndsDeck<'a, R>
        requires of_it { AreOf queues.now ends.old }
        requires whole { AreEnds ends.old }
        ensures queues { result.queues.now ≡ queues.now }
        ensures ends { result.ends.now ≡ ends.old }
        ensures same { result.ends.ghost_name ≡ ends.entry.ghost_name }
    {
        EndsDeck { rt, queues, ends }
    }
}

impl<'a, R: Wait> Deck for EndsDeck<'a, R> {
    ghost use Rattle.csp_ends.specs.Ends.{region_of, rule_of};
    ghost use Rattle.csp_ends.specs.Serving.{Serves, WasEmpty, WasFull};

    ghost rule = { λ d. rule_of d.ends.now };

    ghost region = { λ d. region_of d.ends.now };

    ghost answers = { λ d o a e. Serves d.queues.now d.ends.now o a e.ends.now × (e.queues.now ≡ d.queues.now) × (e.ends.ghost_name ≡ d.ends.ghost_name) };

    ghost was_empty = { λ d e. WasEmpty d.ends.now e.ends.now };

    ghost was_full = { λ d e. WasFull d.queues.now d.ends.now e.ends.now };

    fn rest(&mut self) {}

    fn take(&mut self) -> Option<Buffer> {
        take(self.rt, self.queues, self.ends)
    }

    fn give(&mut self, buffer: Buffer) -> Result<(), Buffer> {
        give(self.rt, self.queues, self.ends, buffer)
    }

    fn push(&mut self, queue: QueueId, item: Item) -> Result<(), Item> {
        if is_inbox(queue) {
            post(self.rt, self.queues, self.ends, item)
        } else {
            put(self.rt, self.queues, self.ends, queue, item)
        }
    }

    fn pop(&mut self, queue: QueueId) -> Option<Item> {
        if is_inbox(queue) {
            receive(self.rt, self.queues, self.ends)
        } else {
            get(self.rt, self.queues, self.ends, queue)
        }
    }
}
