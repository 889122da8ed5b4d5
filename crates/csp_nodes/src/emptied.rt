//! A node whose queues were emptied: its pool, and the buffers that were taken back so far.

ghost use Rattle.std.specs.Prelude.{◌≡◌, ◌+◌, ◌<◌, ◌≤◌, ◌++◌, [], ◌∷◌, length, vec_len, vec_capacity};
ghost use Rattle.csp_lists.specs.PlainDeck.{buffer_numbers};
ghost use Rattle.csp_log.specs.declared.places.Place.TheVariants as place;
ghost use Rattle.csp_nodes.specs.Emptied.{IsComplete, with_gathered};

use csp_buffer::{Buffer, Memory};
use csp_deck::HeldBy;
use csp_lists::{Pool, weighs};
use std::marker::Model;

/// What is left of a node's lists once its queues are emptied. It must be spent by `end`.
pub struct Emptied {
    pub(crate) pool: Pool,
    pub(crate) gathered: Vec<Buffer>,
    pub(crate) memory: Memory,
}

impl Model for Emptied {
    ghost use Rattle.csp_nodes.specs.Emptied.{EmptiedAt};

    ghost Value = { EmptiedAt };

    ghost use Rattle.csp_nodes.specs.EmptiedParts.{emptied_at, IsOfOne};

    ghost view = { emptied_at };

    ghost invariant = { IsOfOne };
}

impl Emptied {
    /// Takes back one buffer.
    pub fn take(&mut self, buffer: Buffer)
        requires room { length self.old.emptied.gathered < self.old.emptied.pool.room }
        requires of_it { buffer.region ≡ self.old.region }
        ensures { self.new ≡ record self.old { emptied = with_gathered (buffer.picture.number ∷ []) self.old.emptied } }
    {
        self.gathered.push_reserved(buffer);
    }

    /// Notes for the node at this place which buffers the pool held, takes them back too, and gives
    /// the memory back: only with each buffer of the node once. It takes no memory.
    pub fn end(self, node: u8, held: &mut Vec<HeldBy>)
        requires held_room { vec_len held.old + 1 ≤ vec_capacity held.old }
        requires complete { IsComplete self.emptied }
        ensures held { held.new.items ≡ held.old.items ++ record { node = node; place = place.Pool; numbers = buffer_numbers self.emptied.pool.items } ∷ [] }
        ensures held_len { vec_len held.new ≡ vec_len held.old + 1 }
        ensures held_capacity { vec_capacity held.new ≡ vec_capacity held.old }
    {
        let Emptied {
            pool,
            mut gathered,
            memory,
        } = self;
        pool.close(node, held, &mut gathered);
        memory.close(gathered);
    }
}
