//! Buffers in order.

ghost use Rattle.std.specs.Prelude.{◌≡◌, ◌<◌, ◌≤◌, [], ◌∷◌, ◌++◌, length, nat_lt, IfOk, IfSome, MatchOption};
ghost use Rattle.csp_deck.specs.Keeping.{with_contents, numbers_of};
ghost use Rattle.csp_deck.specs.Step.{times};

use csp_arena::RegionToken;
use csp_buffer::Buffer;
use std::alloc::{AllocError, Global};
use std::collections::VecDeque;
use std::marker::Model;

/// Buffers of a region in order, with room for so many. It took its room at its opening, and is ended
/// when it is empty.
pub struct Pile {
    token: RegionToken,
    buffers: VecDeque<Buffer>,
    room: usize,
}

impl Model for Pile {
    ghost use Rattle.csp_deck.specs.Keeping.{PlainPile};

    ghost Value = { PlainPile };

    ghost use Rattle.csp_deck.specs.Kept.{plain_pile, IsPile};

    ghost view = { plain_pile };

    ghost invariant = { IsPile };
}

impl Pile {
    /// An empty one with room for so many buffers of this region.
    ///
    /// # Errors
    /// Want of memory.
    pub fn open(alloc: Global, region: RegionToken, room: usize) -> Result<Pile, AllocError>
        ensures { IfOk result (λ p. p ≡ record { region = region.name; room = room; contents = [] }) }
    {
        let buffers = VecDeque::with_capacity(alloc, room)?;
        Ok(Pile {
            token: region,
            room: buffers.capacity(),
            buffers,
        })
    }

    /// How many there are.
    pub fn len(&self) -> usize
        ensures count { result ≡ length self.now.contents }
        ensures fits { length self.now.contents ≤ self.now.room }
    {
        self.buffers.len()
    }

    /// Takes the first, if there is one.
    pub fn pop(&mut self) -> Option<Buffer>
        ensures pile { MatchOption result ((self.old.contents ≡ []) × (self.new ≡ self.old)) (λ b. (self.old.contents ≡ b.picture ∷ self.new.contents) × (self.new ≡ with_contents self.old self.new.contents)) }
        ensures of_it { IfSome result (λ b. b.region ≡ self.old.region) }
    {
        self.buffers.pop_front()
    }

    /// Appends a buffer.
    pub fn add(&mut self, buffer: Buffer)
        requires room { length self.old.contents < self.old.room }
        requires of_it { buffer.region ≡ self.old.region }
        ensures { self.new ≡ with_contents self.old (self.old.contents ++ buffer.picture ∷ []) }
    {
        self.buffers.push_back_reserved(buffer);
    }

    /// Makes a buffer the first.
    pub fn put_back(&mut self, buffer: Buffer)
        requires room { length self.old.contents < self.old.room }
        requires of_it { buffer.region ≡ self.old.region }
        ensures { self.new ≡ with_contents self.old (buffer.picture ∷ self.old.contents) }
    {
        self.buffers.push_front_reserved(buffer);
    }

    /// Whether the buffer of this number is one of them.
    pub fn holds(&self, number: u16) -> bool
        ensures { result ≡ nat_lt 0 (times number (numbers_of self.now.contents)) }
    {
        self.buffers.iter().any(|buffer| buffer.number() == number)
    }

    /// Ends an empty one.
    pub fn end(self)
        requires { self.contents ≡ [] }
    {
        let Pile {
            token: _,
            buffers,
            room: _,
        } = self;
        buffers.destroy_empty();
    }
}
