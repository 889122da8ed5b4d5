//! The loops of a push and of a pop, from the first load on.

ghost use Rattle.std.specs.Prelude.{◌≡◌, ℕ, ◌+◌, ◌*◌, ◌-◌, ◌%◌, ◌^◌, ◌<◌, ◌≤◌, MatchOption, MatchResult};
ghost use Rattle.crossbeam_queue.specs.declared.array_queue.Stage.TheVariants.{SawTail, SawFree, SawHead, SawFull};
ghost use Rattle.crossbeam_queue.specs.Fifo.{Pushes, Pops, Held};
ghost use Rattle.crossbeam_queue.specs.Passes.{view, IsSamePass};
ghost use Rattle.crossbeam_queue.specs.Ring.{At};
ghost use Rattle.crossbeam_queue.specs.Stamps.{stamp};
ghost use Rattle.csp_ring.specs.Finds.{Finds};
ghost use Rattle.csp_ring.specs.Passes.{IsPassOf};

use crate::plays::{Claim, Fetch, Stamp};
use crate::protocol::{Finding, Outcome, Protocol};
use crate::shapes::{HEAD, RuledRing, STAMPS, TAIL};
use crossbeam_queue::Pass;
use crossbeam_utils::Backoff;
use std::alloc::Allocator;
use std::sync::Wait;

/// Stamps don't wrap. From this one on, after more than 2^62 pushes, a call waits for ever.
const LAST: u64 = 3 << 62;

impl<T, V, P: Protocol<T, V>, A: Allocator> RuledRing<T, V, P, A> {
    fn index_of(&self, at: u64) -> usize
        ensures value { (p : ℕ) → at ≡ stamp self.now.capacity p → (result ≡ p % self.now.capacity) × (result < self.now.capacity) }
        ensures below { result ≤ at }
    {
        (at & (self.lap - 1)) as usize
    }

    fn after(&self, at: u64, index: usize) -> u64
        requires { (at < 3 * 2 ^ 62) × (index ≤ at) }
        ensures { (p : ℕ) → at ≡ stamp self.now.capacity p → index ≡ p % self.now.capacity → result ≡ stamp self.now.capacity (p + 1) }
    {
        if index + 1 < self.capacity {
            at + 1
        } else {
            at - index as u64 + self.lap
        }
    }

    /// How many items lie between the two counts.
    pub(crate) fn between(&self, head: u64, tail: u64) -> usize
        requires { (h : ℕ) × (head ≡ stamp self.now.capacity h) }
        ensures { (h t : ℕ) → head ≡ stamp self.now.capacity h → tail ≡ stamp self.now.capacity t → h ≤ t → t ≤ h + self.now.capacity → result ≡ t - h }
    {
        let first = self.index_of(head);
        let end = self.index_of(tail);
        if first < end {
            end - first
        } else if first > end {
            self.capacity - first + end
        } else if tail == head {
            0
        } else {
            self.capacity
        }
    }

    /// Moves the tail, and lays the item into the slot. Or else gives the item back, with the tail as it is now.
    fn claim<M: Outcome<T, V>>(
        &self,
        pass: &mut Pass<T, V>,
        tail: u64,
        index: usize,
        item: T,
    ) -> Result<(), (u64, T)>
        requires ring { IsPassOf self.now pass.old }
        requires seen { At self.now.capacity SawFree tail pass.old.me × (index ≡ pass.old.me.0.at % self.now.capacity) × (tail < 3 * 2 ^ 62) × (index ≤ tail) }
        requires rule { Pushes P.holds self.now.capacity pass.old.id (view pass.old) item (M.then (view pass.old) item) }
        ensures ring { IsSamePass pass.old pass.new }
        ensures rule { MatchResult result (λ _. M.then (view pass.old) item (view pass.new)) (λ e. (e.1 ≡ item) × (view pass.new ≡ view pass.old) × At self.now.capacity SawTail e.0 pass.new.me) }
    {
        let words = &self.table.shared;
        let filled = Some(item);
        let next = self.after(tail, index);
        let was = words.compare_exchange_with::<Claim<T, V, M>>(pass, TAIL, tail, next, &filled);
        if was != tail {
            return Err((was, filled.unwrap()));
        }
        match words.exchange(pass, index, filled) {
            None => {}
            Some(_) => unreachable!(),
        }
        words.store::<Stamp<T, V>>(pass, STAMPS + index, tail + 1);
        Ok(())
    }

    /// Moves the head, and takes the item out of the slot. Or else gives the head as it is now.
    fn fetch<M: Outcome<T, V>>(
        &self,
        pass: &mut Pass<T, V>,
        head: u64,
        index: usize,
    ) -> Result<T, u64>
        requires ring { IsPassOf self.now pass.old }
        requires seen { At self.now.capacity SawFull head pass.old.me × (index ≡ pass.old.me.0.at % self.now.capacity) × (head < 3 * 2 ^ 62) × (index ≤ head) }
        requires rule { Pops P.holds pass.old.id (view pass.old) (M.then (view pass.old)) }
        ensures ring { IsSamePass pass.old pass.new }
        ensures rule { MatchResult result (λ x. M.then (view pass.old) x (view pass.new)) (λ e. (view pass.new ≡ view pass.old) × At self.now.capacity SawHead e pass.new.me) }
    {
        let words = &self.table.shared;
        let nothing: Option<T> = None;
        let next = self.after(head, index);
        let was = words.compare_exchange_with::<Fetch<T, V, M>>(pass, HEAD, head, next, &nothing);
        if was != head {
            match nothing {
                None => return Err(was),
                Some(_) => unreachable!(),
            }
        }
        let filled = words.exchange(pass, index, nothing);
        words.store::<Stamp<T, V>>(pass, STAMPS + index, head + self.lap);
        Ok(filled.unwrap())
    }

    /// The push, where `tail` was seen just now.
    pub(crate) fn push_from<M: Outcome<T, V> + Finding<T, V>, R: Wait>(
        &self,
        rt: &R,
        pass: &mut Pass<T, V>,
        mut tail: u64,
        mut item: T,
    ) -> Result<(), T>
        requires ring { IsPassOf self.now pass.old × At self.now.capacity SawTail tail pass.old.me }
        requires push { Pushes P.holds self.now.capacity pass.old.id (view pass.old) item (M.then (view pass.old) item) }
        requires full { Finds P.holds self.now.capacity pass.old.id (view pass.old) (M.found (view pass.old)) }
        ensures ring { IsSamePass pass.old pass.new }
        ensures rule { MatchResult result (λ _. M.then (view pass.old) item (view pass.new)) (λ x. (x ≡ item) × Held self.now.capacity (λ items. M.found (view pass.old) items (view pass.new))) }
    {
        let backoff = Backoff::new();
        for _ in rt.forever() {
            let index = self.index_of(tail);
            let stamp = self.stamp_at_tail(pass, index);
            if tail >= LAST {
                backoff.snooze();
                tail = self.tail(pass);
            } else if tail == stamp {
                match self.claim::<M>(pass, tail, index, item) {
                    Ok(()) => return Ok(()),
                    Err((now, back)) => {
                        tail = now;
                        item = back;
                        backoff.spin();
                    }
                }
            } else if tail >= self.lap && stamp == tail - self.lap + 1 {
                if self.head_if_full::<M>(pass) == tail - self.lap {
                    return Err(item);
                }
                backoff.spin();
                tail = self.tail(pass);
            } else {
                backoff.snooze();
                tail = self.tail(pass);
            }
        }
        unreachable!()
    }

    /// The pop, where `head` was seen just now.
    pub(crate) fn pop_from<M: Outcome<T, V> + Finding<T, V>, R: Wait>(
        &self,
        rt: &R,
        pass: &mut Pass<T, V>,
        mut head: u64,
    ) -> Option<T>
        requires ring { IsPassOf self.now pass.old × At self.now.capacity SawHead head pass.old.me }
        requires pop { Pops P.holds pass.old.id (view pass.old) (M.then (view pass.old)) }
        requires empty { Finds P.holds 0 pass.old.id (view pass.old) (M.found (view pass.old)) }
        ensures ring { IsSamePass pass.old pass.new }
        ensures rule { MatchOption result (Held 0 (λ items. M.found (view pass.old) items (view pass.new))) (λ x. M.then (view pass.old) x (view pass.new)) }
    {
        let backoff = Backoff::new();
        for _ in rt.forever() {
            let index = self.index_of(head);
            let stamp = self.stamp_at_head(pass, index);
            if head >= LAST {
                backoff.snooze();
                head = self.head(pass);
            } else if head + 1 == stamp {
                match self.fetch::<M>(pass, head, index) {
                    Ok(item) => return Some(item),
                    Err(now) => {
                        head = now;
                        backoff.spin();
                    }
                }
            } else if stamp == head {
                if self.tail_if_empty::<M>(pass) == head {
                    return None;
                }
                backoff.spin();
                head = self.head(pass);
            } else {
                backoff.snooze();
                head = self.head(pass);
            }
        }
        unreachable!()
    }
}
