//! The calls that keep a caller's rule. Each takes effect at one step.

ghost use Rattle.std.specs.Prelude.{◌≡◌, List, ◌≤◌, MatchOption, MatchResult};
ghost use Rattle.crossbeam_queue.specs.Fifo.{Pushes, Pops, Learns, Held};
ghost use Rattle.crossbeam_queue.specs.Passes.{view, IsSamePass};
ghost use Rattle.csp_ring.specs.Finds.{Finds};
ghost use Rattle.csp_ring.specs.Passes.{IsPassOf, ring_capacity};

use crate::protocol::{Finding, Lesson, Outcome, Protocol};
use crate::shapes::RuledRing;
use crossbeam_queue::Pass;
use std::alloc::Allocator;
use std::sync::Wait;

/// No ring has so many slots: no allocator has room for their stamps.
pub const MOST_SLOTS: usize = 1 << 60;

impl<T, V, P: Protocol<T, V>, A: Allocator> RuledRing<T, V, P, A> {
    /// How many items the ring has room for.
    pub fn capacity(&self) -> usize
        ensures { result ≡ ring_capacity self.now }
    {
        self.capacity
    }

    /// Appends an item at the back. It comes back only where the ring was full at one moment of the call; then that
    /// moment's finding has changed the view.
    pub fn push_as<M: Outcome<T, V> + Finding<T, V>, R: Wait>(
        &self,
        rt: &R,
        pass: &mut Pass<T, V>,
        item: T,
    ) -> Result<(), T>
        requires ring { IsPassOf self.now pass.old }
        requires push { Pushes P.holds (ring_capacity self.now) pass.old.id (view pass.old) item (M.then (view pass.old) item) }
        requires full { Finds P.holds (ring_capacity self.now) pass.old.id (view pass.old) (M.found (view pass.old)) }
        ensures ring { IsSamePass pass.old pass.new }
        ensures rule { MatchResult result (λ _. M.then (view pass.old) item (view pass.new)) (λ x. (x ≡ item) × Held (ring_capacity self.now) (λ items. M.found (view pass.old) items (view pass.new))) }
    {
        let tail = self.tail(pass);
        self.push_from::<M, R>(rt, pass, tail, item)
    }

    /// Takes the item at the front. `None` only where the ring was empty at one moment of the call; then that moment's
    /// finding has changed the view.
    pub fn pop_as<M: Outcome<T, V> + Finding<T, V>, R: Wait>(
        &self,
        rt: &R,
        pass: &mut Pass<T, V>,
    ) -> Option<T>
        requires ring { IsPassOf self.now pass.old }
        requires pop { Pops P.holds pass.old.id (view pass.old) (M.then (view pass.old)) }
        requires empty { Finds P.holds 0 pass.old.id (view pass.old) (M.found (view pass.old)) }
        ensures ring { IsSamePass pass.old pass.new }
        ensures rule { MatchOption result (Held 0 (λ items. M.found (view pass.old) items (view pass.new))) (λ x. M.then (view pass.old) x (view pass.new)) }
    {
        let head = self.head(pass);
        self.pop_from::<M, R>(rt, pass, head)
    }

    /// What the rule tells of the items of one moment of the call.
    pub fn learn_as<M: Lesson<T, V>>(&self, pass: &mut Pass<T, V>)
        requires ring { IsPassOf self.now pass.old }
        requires rule { Learns P.holds pass.old.id (view pass.old) (M.fact (view pass.old)) }
        ensures ring { IsSamePass pass.old pass.new × (view pass.new ≡ view pass.old) }
        ensures rule { (items : List T) × (M.fact (view pass.old) items) }
    {
        self.tail(pass);
        self.head_to_count::<M>(pass);
    }

    /// The number of items at one moment of the call, and what the rule tells of them.
    pub fn len_as<M: Lesson<T, V>, R: Wait>(&self, rt: &R, pass: &mut Pass<T, V>) -> usize
        requires ring { IsPassOf self.now pass.old }
        requires rule { Learns P.holds pass.old.id (view pass.old) (M.fact (view pass.old)) }
        ensures ring { IsSamePass pass.old pass.new × (view pass.new ≡ view pass.old) }
        ensures rule { (result ≤ ring_capacity self.now) × Held result (M.fact (view pass.old)) }
    {
        for _ in rt.forever() {
            let tail = self.tail(pass);
            let head = self.head_to_count::<M>(pass);
            if self.tail(pass) == tail {
                return self.between(head, tail);
            }
        }
        unreachable!()
    }
}
