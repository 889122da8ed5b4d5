//! The pool and its calls.

ghost use Rattle.std.specs.Prelude.{◌≡◌, ◌+◌, ◌≤◌, ◌++◌, List, length, MatchOption, MatchResult, vec_len, vec_capacity};
ghost use Rattle.crossbeam_queue.specs.Passes.{view, IsSamePass};
ghost use Rattle.csp_ring.specs.Passes.{IsPassOf as IsOfRing};
ghost use Rattle.csp_buffer.specs.Memory.{AreAllOf};
ghost use Rattle.csp_buffer.specs.PlainBuffer.{PlainBuffer};
ghost use Rattle.csp_pool.specs.Fairness.{Closes};
ghost use Rattle.csp_pool.specs.Hands.{IsAlone, DidNothing, KnowsAll, took, took_all, gave, found_empty, found_full, split_left, split_right, told_hand, report_of, news_of, both};
ghost use Rattle.csp_pool.specs.PlainPool.{IsPassOf, SamePool, numbers};

use crate::hand::{Hand, PoolPass};
use crate::rule::{Fairness, Gives, Joins, Left, News, Parts, Reports, Takes};
use csp_buffer::Buffer;
use csp_ring::{Pass, RuledRing};
use std::marker::Model;
use std::mem::ManuallyDrop;
use std::sync::Wait;

/// A pool of buffers that threads share. Contracts see its name and its capacity, which is the number of buffers that
/// it was opened with. It must be spent by `close`.
pub struct Pool {
    pub(crate) ring: RuledRing<Buffer, Hand, Fairness>,
}

impl Model for Pool {
    ghost use Rattle.csp_ring.specs.Passes.{ring_name, ring_capacity};
    ghost use Rattle.csp_pool.specs.PlainPool.{PlainPool};

    ghost Value = { PlainPool };

    ghost view = { λ p. record { name = ring_name p.ring; capacity = ring_capacity p.ring } };
}

impl Pool {
    /// How many buffers it has room for.
    pub fn capacity(&self) -> usize
        ensures { result ≡ self.now.capacity }
    {
        self.ring.capacity()
    }

    /// Takes the buffer that has been in the pool longest. `None` only where the pool was empty at a moment of this
    /// call; then the takes of all passes have reached the puts that this pass knew.
    pub fn take<R: Wait>(&self, rt: &R, pass: &mut PoolPass) -> Option<Buffer>
        requires pool { IsPassOf self.now pass.old }
        ensures pool { SamePool pass.old pass.new }
        ensures taken { MatchOption result
            (pass.new.hand ≡ found_empty pass.old.hand)
            (λ b. (pass.new.hand ≡ took pass.old.hand b.picture.number) × (b.region ≡ pass.old.hand.region)) }
    {
        self.ring.pop_as::<Takes, R>(rt, &mut pass.pass)
    }

    /// Puts a buffer back. It comes back only where the pool was full at a moment of this call; then the puts of all
    /// passes have reached the capacity and the takes that this pass knew.
    pub fn give<R: Wait>(&self, rt: &R, pass: &mut PoolPass, buffer: Buffer) -> Result<(), Buffer>
        requires pool { IsPassOf self.now pass.old }
        requires of_it { buffer.region ≡ pass.old.hand.region }
        ensures pool { SamePool pass.old pass.new }
        ensures given { MatchResult result
            (λ _. pass.new.hand ≡ gave pass.old.hand buffer.picture.number)
            (λ b. (b ≡ buffer) × (pass.new.hand ≡ found_full self.now.capacity pass.old.hand)) }
    {
        self.ring.push_as::<Gives, R>(rt, &mut pass.pass, buffer)
    }

    /// Splits a pass off from the opening pass. It has done nothing yet, and knows what the opening pass knows.
    pub fn split(&self, pass: &mut PoolPass) -> PoolPass
        requires pool { IsPassOf self.now pass.old }
        requires opening { pass.old.hand.opens ≡ 1 }
        ensures pool { SamePool pass.old pass.new × IsPassOf self.now result }
        ensures hands { (pass.new.hand ≡ split_left pass.old.hand) × (result.hand ≡ split_right pass.old.hand) }
    {
        PoolPass {
            pass: self.ring.split::<Parts>(&mut pass.pass),
        }
    }

    /// Joins a pass into the opening pass, which from then on stands for what both have done.
    pub fn join(&self, pass: &mut PoolPass, other: PoolPass)
        requires pool { IsPassOf self.now pass.old × IsPassOf self.now other }
        requires opening { pass.old.hand.opens ≡ 1 }
        ensures pool { SamePool pass.old pass.new }
        ensures hand { pass.new.hand ≡ both pass.old.hand other.hand }
    {
        let PoolPass { pass: inner } = other;
        self.ring.join::<Joins>(&mut pass.pass, inner);
    }

    /// `other` tells `pass`, the opening pass, what it has done since they last met, and hears what `pass` then knows
    /// of the puts and takes of all. No buffer changes hands.
    pub fn meet(&self, pass: &mut PoolPass, other: &mut PoolPass)
        requires pool { IsPassOf self.now pass.old × IsPassOf self.now other.old }
        ensures pool { SamePool pass.old pass.new × SamePool other.old other.new }
        ensures pass { pass.new.hand ≡ both pass.old.hand (report_of other.old.hand) }
        ensures other { other.new.hand ≡ both (told_hand other.old.hand) (news_of pass.new.hand) }
        ensures lists { DidNothing pass.old.hand pass.new.hand × DidNothing other.old.hand other.new.hand }
        ensures knows { KnowsAll pass.new.hand pass.old.hand × KnowsAll pass.new.hand other.old.hand × KnowsAll other.new.hand pass.new.hand }
    {
        let report = self.ring.split::<Reports>(&mut other.pass);
        self.ring.join::<Joins>(&mut pass.pass, report);
        let news = self.ring.split::<News>(&mut pass.pass);
        self.ring.join::<Joins>(&mut other.pass, news);
    }

    /// Ends the pool, and appends the buffers that were left in it. All passes were joined into `pass`, which opened
    /// it; `into` has room for as many buffers as the pool.
    pub fn close<R: Wait>(self, rt: &R, pass: PoolPass, into: &mut Vec<Buffer>)
        requires pool { IsPassOf self pass }
        requires opening { pass.hand.opens ≡ 1 }
        requires joined { pass.hand.out ≡ 0 }
        requires room { vec_len into.old + self.capacity ≤ vec_capacity into.old }
        ensures left { (left : List PlainBuffer) × (into.new.items ≡ into.old.items ++ left) × AreAllOf pass.hand.region left × Closes pass.hand (numbers left) }
        ensures capacity { vec_capacity into.new ≡ vec_capacity into.old }
    {
        let Pool { ring } = self;
        let PoolPass { pass: mut inner } = pass;
        let count = ring.len_as::<Left, R>(rt, &mut inner);
        drain(rt, &ring, &mut inner, count, into);
        match ring.pop_as::<Takes, R>(rt, &mut inner) {
            None => {}
            Some(_) => unreachable!(),
        }
        let _spent = unsafe { ManuallyDrop::new_unchecked(ring) };
    }
}

/// Takes what is left out of the ring, `count` buffers, once all passes were joined into this one.
fn drain<R: Wait>(
    rt: &R,
    ring: &RuledRing<Buffer, Hand, Fairness>,
    pass: &mut Pass<Buffer, Hand>,
    count: usize,
    into: &mut Vec<Buffer>,
)
    requires ring { IsOfRing ring.now pass.old }
    requires alone { IsAlone (view pass.old) }
    requires count { length (view pass.old).put ≡ length (view pass.old).taken + count }
    requires room { vec_len into.old + count ≤ vec_capacity into.old }
    ensures ring { IsSamePass pass.old pass.new }
    ensures left { (left : List PlainBuffer) × (into.new.items ≡ into.old.items ++ left) × AreAllOf (view pass.old).region left × (view pass.new ≡ took_all (view pass.old) (numbers left)) × (length left ≡ count) }
    ensures capacity { vec_capacity into.new ≡ vec_capacity into.old }
{
    for _ in 0..count {
        match ring.pop_as::<Takes, R>(rt, pass) {
            Some(buffer) => into.push_reserved(buffer),
            None => unreachable!(),
        }
    }
}
