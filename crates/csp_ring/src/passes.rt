//! How a ring is opened, and how its passes are split and joined.

ghost use Rattle.std.specs.Prelude.{◌≡◌, ◌<◌, [], ◌∷◌, IfOk};
ghost use Rattle.crossbeam_queue.specs.Fifo.{Forks, Merges};
ghost use Rattle.crossbeam_queue.specs.Passes.{view, IsSamePass};
ghost use Rattle.csp_ring.specs.Passes.{IsPassOf, ring_capacity};

use crate::plays::{Halves, Whole};
use crate::protocol::{Join, Protocol, Split};
use crate::ruled::MOST_SLOTS;
use crate::shapes::{RuledRing, STAMPS};
use atomic_table::Table;
use crossbeam_queue::Pass;
use std::alloc::{AllocError, Allocator};

impl<T, V, P: Protocol<T, V>, A: Allocator + Clone> RuledRing<T, V, P, A> {
    /// An empty ring with room for so many items, and its first pass. A capacity past `MOST_SLOTS` is an `AllocError`.
    pub fn open(
        alloc: A,
        capacity: usize,
    ) -> Result<(RuledRing<T, V, P, A>, Pass<T, V>), AllocError>
        requires capacity { 0 < capacity }
        requires rule { P.holds [] (P.first ∷ []) }
        ensures { IfOk result (λ q. (ring_capacity q.0 ≡ capacity) × IsPassOf q.0 q.1 × (q.1.id ≡ 0) × (view q.1 ≡ P.first)) }
    {
        if capacity >= MOST_SLOTS {
            return Err(AllocError);
        }
        let lap = (capacity as u64 + 1).next_power_of_two();
        let mut words = Vec::from_elem(alloc.clone()?, 0u64, capacity + STAMPS)?;
        let row = words.as_mut_slice();
        for i in 0..capacity {
            row[i + STAMPS] = i as u64;
        }
        let (table, pass) = Table::vacant(alloc, row, capacity, &())?;
        let ring = RuledRing {
            table,
            capacity,
            lap,
        };
        Ok((ring, pass))
    }
}

impl<T, V, P: Protocol<T, V>, A: Allocator> RuledRing<T, V, P, A> {
    /// Makes a second pass, by `M`: it has the right part of the view, and this one keeps the left part.
    pub fn split<M: Split<V>>(&self, pass: &mut Pass<T, V>) -> Pass<T, V>
        requires ring { IsPassOf self.now pass.old }
        requires rule { Forks P.holds pass.old.id (view pass.old) (M.left (view pass.old)) (M.right (view pass.old)) }
        ensures ring { IsSamePass pass.old pass.new × IsPassOf self.now result }
        ensures rule { (view pass.new ≡ M.left (view pass.old)) × (view result ≡ M.right (view pass.old)) }
    {
        self.table.shared.split_seat::<Halves<T, V, M>>(pass)
    }

    /// Takes another pass in, by `M`. The other is no more; its view is left spent.
    pub fn join<M: Join<V>>(&self, pass: &mut Pass<T, V>, other: Pass<T, V>)
        requires ring { IsPassOf self.now pass.old × IsPassOf self.now other }
        requires rule { Merges P.holds pass.old.id (view pass.old) other.id (view other) (M.both (view pass.old) (view other)) M.spent }
        ensures ring { IsSamePass pass.old pass.new }
        ensures rule { view pass.new ≡ M.both (view pass.old) (view other) }
    {
        self.table.shared.join_seat::<Whole<T, V, M>>(pass, other);
    }
}
