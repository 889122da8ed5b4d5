//! The pool of a deck.

ghost use Rattle.std.specs.Prelude.{◌≡◌, ◌+◌, ◌<◌, ◌≤◌, [], ◌∷◌, ◌++◌, length, vec_len, vec_capacity, nat_lt, IfSome, MatchOption, MatchResult};
ghost use Rattle.csp_buffer.specs.Memory.{AreAllOf};
ghost use Rattle.csp_lists.specs.Gathered.{pictures, numbers_back};
ghost use Rattle.csp_lists.specs.PlainDeck.{buffer_numbers};
ghost use Rattle.csp_lists.specs.PlainFifo.{with_items};
ghost use Rattle.csp_deck.specs.Step.{times};

use crate::fifo::Fifo;
use crate::numbers::holds;
use csp_arena::RegionToken;
use csp_buffer::Buffer;
use csp_deck::{HeldBy, Place};
use std::marker::Model;

/// The pool of a deck, also once its queues were taken back. Contracts see it as a bounded list.
///
/// It has room to note the numbers of its buffers from its opening on, and must be spent by `close`.
pub struct Pool {
    token: RegionToken,
    buffers: Fifo<Buffer>,
    numbers: Vec<u16>,
}

impl Model for Pool {
    ghost use Rattle.csp_lists.specs.PoolParts.{pool_seen, IsPool};
    ghost use Rattle.csp_lists.specs.Regioned.{PoolAt};

    ghost Value = { PoolAt };

    ghost view = { pool_seen };

    ghost invariant = { IsPool };
}

impl Pool {
    /// A full pool of these buffers of a region, whose numbers an empty list has just the room for. It takes no
    /// memory.
    pub(crate) fn full_of(region: RegionToken, buffers: Vec<Buffer>, numbers: Vec<u16>) -> Pool
        requires of_it { AreAllOf region.name buffers.items }
        requires empty { numbers.items ≡ [] }
        requires room { vec_capacity numbers ≡ vec_len buffers }
        ensures { result ≡ record { region = region.name; pool = record { room = length buffers.items; items = pictures buffers.items } } }
    {
        Pool {
            token: region,
            buffers: Fifo::full_of(buffers),
            numbers,
        }
    }

    /// Appends a buffer, or hands it back where the pool is full.
    pub(crate) fn push(&mut self, buffer: Buffer) -> Result<(), Buffer>
        requires { buffer.region ≡ self.old.region }
        ensures answer { MatchResult result
            (λ _. (length self.old.pool.items < self.old.pool.room) × (self.new.pool ≡ with_items self.old.pool (self.old.pool.items ++ buffer.picture ∷ [])))
            (λ b. (self.old.pool.room ≤ length self.old.pool.items) × (self.new.pool ≡ self.old.pool) × (b ≡ buffer)) }
        ensures region { self.new.region ≡ self.old.region }
    {
        self.buffers.push(buffer)
    }

    /// Takes the first buffer, if there is one.
    pub(crate) fn pop(&mut self) -> Option<Buffer>
        ensures answer { MatchOption result
            ((self.old.pool.items ≡ []) × (self.new.pool ≡ self.old.pool))
            (λ b. (self.old.pool.items ≡ b.picture ∷ self.new.pool.items) × (self.new.pool ≡ with_items self.old.pool self.new.pool.items)) }
        ensures of_it { IfSome result (λ b. b.region ≡ self.old.region) }
        ensures region { self.new.region ≡ self.old.region }
    {
        self.buffers.pop()
    }

    /// Whether the buffer of this number is in it.
    pub(crate) fn holds(&self, number: u16) -> bool
        ensures { result ≡ nat_lt 0 (times number (buffer_numbers self.now.pool.items)) }
    {
        holds(&self.buffers, number)
    }

    /// The buffers, the first first.
    pub(crate) fn into_vec(self) -> Vec<Buffer>
        ensures items { pictures result.items ≡ self.pool.items }
        ensures of_it { AreAllOf self.region result.items }
    {
        let Pool {
            token: _,
            buffers,
            numbers: _,
        } = self;
        buffers.into_vec()
    }

    /// Notes for `node` which buffers the pool held, appends them, the first first, and ends it. It
    /// takes no memory.
    pub fn close(self, node: u8, held: &mut Vec<HeldBy>, into: &mut Vec<Buffer>)
        requires held_room { vec_len held.old + 1 ≤ vec_capacity held.old }
        requires room { vec_len into.old + length self.pool.items ≤ vec_capacity into.old }
        ensures held { held.new.items ≡ held.old.items ++ record { node = node; place = Place.Pool; numbers = buffer_numbers self.pool.items } ∷ [] }
        ensures buffers { pictures into.new.items ≡ pictures into.old.items ++ self.pool.items }
        ensures of_it { AreAllOf self.region into.old.items → AreAllOf self.region into.new.items }
        ensures held_len { vec_len held.new ≡ vec_len held.old + 1 }
        ensures held_capacity { vec_capacity held.new ≡ vec_capacity held.old }
        ensures into_capacity { vec_capacity into.new ≡ vec_capacity into.old }
    {
        let Pool {
            token: _,
            buffers,
            mut numbers,
        } = self;
        pour_noted(buffers, &mut numbers, into);
        held.push_reserved(HeldBy {
            node,
            place: Place::Pool,
            numbers,
        });
    }
}

/// Notes the numbers of buffers and appends these, the first first. There is room for both.
fn pour_noted(mut from: Fifo<Buffer>, numbers: &mut Vec<u16>, into: &mut Vec<Buffer>)
    requires numbers_room { vec_len numbers.old + length from.items ≤ vec_capacity numbers.old }
    requires room { vec_len into.old + length from.items ≤ vec_capacity into.old }
    ensures numbers { numbers.new.items ≡ numbers.old.items ++ numbers_back from.items }
    ensures items { into.new.items ≡ into.old.items ++ from.items }
    ensures capacity { vec_capacity into.new ≡ vec_capacity into.old }
{
    while let Some(buffer) = from.pop() {
        numbers.push_reserved(buffer.number());
        into.push_reserved(buffer);
    }
    from.end();
}
