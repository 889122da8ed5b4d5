//! A node's memory, and the buffers that came back.

ghost use Rattle.std.specs.Prelude.{◌≡◌, ◌+◌, ◌<◌, ◌≤◌, ◌∷◌, [], IfOk, length, slice_range, vec_capacity};
ghost use Rattle.csp_buffer.specs.Memory.{fresh_all};
ghost use Rattle.csp_ending.specs.Ends.{PoolEnds};
ghost use Rattle.csp_ending.specs.Stores.{TakesBack, HasRoom, IsWhole, part};
ghost use Rattle.csp_ending.specs.Notes.{with_place};
ghost use Rattle.csp_log.specs.declared.places.Place.TheVariants as place;
ghost use Rattle.csp_pool.specs.PlainPool.{IsPassOf, numbers};

use crate::notes::Notes;
use csp_arena::RegionToken;
use csp_buffer::{Buffer, Memory};
use csp_deck::Place;
use csp_lists::weighs;
use csp_pool::{Pool, PoolPass};
use std::alloc::{AllocError, Global};
use std::marker::Model;
use std::sync::Wait;

/// The memory of a node's buffers, and those of its buffers that came back. It must be spent by `end`. Contracts see it
/// as a `PlainStore`.
pub struct Store {
    pub(crate) memory: Memory,
    pub(crate) back: Vec<Buffer>,
}

impl Model for Store {
    ghost use Rattle.csp_ending.specs.Parts.{plain_store, IsStore};
    ghost use Rattle.csp_ending.specs.Stores.{PlainStore};

    ghost Value = { PlainStore };

    ghost view = { plain_store };

    ghost invariant = { IsStore };
}

impl Store {
    /// So many cleared buffers, and their memory, with room for so many to come back.
    ///
    /// # Errors
    /// Want of memory.
    pub fn open(alloc: Global, count: u16, room: usize) -> Result<(Store, Vec<Buffer>), AllocError>
        requires { 0 < count }
        ensures store { IfOk result (λ p. (p.0.count ≡ count) × (p.0.numbers ≡ []) × (room ≤ p.0.room)) }
        ensures room { IfOk result (λ p. p.0.room ≡ room) }
        ensures buffers { IfOk result (λ p. p.1.items ≡ fresh_all (record { region = p.0.region; count = count })) }
    {
        let back = Vec::with_capacity(alloc, room)?;
        match Memory::open(alloc, count) {
            Ok((memory, buffers)) => Ok((Store { memory, back }, buffers)),
            Err(error) => {
                back.destroy_empty();
                Err(error)
            }
        }
    }

    /// The token of the region of its buffers.
    pub fn token(&self) -> RegionToken
        ensures { result.name ≡ self.now.region }
    {
        self.memory.token()
    }

    /// Takes one buffer back.
    pub fn take(&mut self, buffer: Buffer)
        requires room { HasRoom self.old 1 }
        requires of_it { buffer.region ≡ self.old.region }
        ensures { TakesBack self.old (buffer.picture.number ∷ []) self.new }
    {
        self.back.push_reserved(buffer);
    }

    /// Ends the pool of the node with its opening pass, into which all others were joined, and takes back what was left in
    /// it. Answers from which place on these buffers stand among those that are back, and before which.
    pub fn end_pool<R: Wait>(&mut self, rt: &R, pool: Pool, pass: PoolPass) -> (usize, usize)
        requires of_it { IsPassOf pool pass }
        requires opening { pass.hand.opens ≡ 1 }
        requires joined { pass.hand.out ≡ 0 }
        requires region { pass.hand.region ≡ self.old.region }
        requires room { HasRoom self.old pool.capacity }
        ensures { PoolEnds pass.hand result.0 result.1 self.old self.new }
    {
        let first = self.back.len();
        pool.close(rt, pass, &mut self.back);
        (first, self.back.len())
    }

    /// Notes that the pool held the buffers that stand from this place on, before the other, and gives the memory back, with
    /// each of its buffers once.
    pub fn end(self, first: usize, last: usize, numbers: Vec<u16>, node: u8, notes: &mut Notes)
        requires part { (first ≤ last) × (last ≤ length self.numbers) }
        requires numbers { numbers.items ≡ [] }
        requires numbers_room { self.count ≤ vec_capacity numbers }
        requires notes_room { 0 < notes.old.others }
        requires whole { IsWhole self }
        ensures notes { notes.new ≡ with_place notes.old node place.Pool (part first last self.numbers) notes.new.others }
        ensures rooms { notes.old.others ≡ notes.new.others + 1 }
    {
        weighs();
        let Store { memory, back } = self;
        let numbers = numbers_between(back.as_slice(), first, last, numbers);
        notes.add_place(node, Place::Pool, numbers);
        memory.close(back);
    }

    /// Gives the memory back, with each of its buffers once, and notes nothing.
    pub fn leave(self)
        requires { IsWhole self }
    {
        weighs();
        let Store { memory, back } = self;
        memory.close(back);
    }

    /// Gives the memory back with all its buffers, which are these.
    pub fn close(self, buffers: Vec<Buffer>)
        requires none { self.numbers ≡ [] }
        requires all { buffers.items ≡ fresh_all (record { region = self.region; count = self.count }) }
    {
        let Store { memory, back } = self;
        back.destroy_empty();
        memory.close(buffers);
    }
}

/// The numbers of the buffers from this place on, before the other.
fn numbers_between(buffers: &[Buffer], first: usize, last: usize, mut into: Vec<u16>) -> Vec<u16>
    requires part { (first ≤ last) × (last ≤ length buffers.now) }
    requires none { into.items ≡ [] }
    requires room { length buffers.now ≤ vec_capacity into }
    ensures { result.items ≡ numbers (slice_range buffers.now first last) }
{
    let rest = &buffers[first..last];
    for buffer in rest {
        into.push_reserved(buffer.number());
    }
    into
}
