//! The loads of the two counts and of a slot's stamp.

ghost use Rattle.std.specs.Prelude.{◌≡◌, ◌%◌, ◌<◌};
ghost use mathlib.Core.Option.{none};
ghost use Rattle.atomic_table.specs.Table.{step};
ghost use Rattle.crossbeam_queue.specs.declared.array_queue.Stage.TheVariants.{SawTail, SawHead, SawOld};
ghost use Rattle.crossbeam_queue.specs.Fifo.{Learns};
ghost use Rattle.crossbeam_queue.specs.Passes.{view, IsSamePass};
ghost use Rattle.crossbeam_queue.specs.Ring.{saw_tail, saw_head, saw_free, saw_full, counted};
ghost use Rattle.csp_ring.specs.Finds.{Finds, found_empty, found_full};
ghost use Rattle.csp_ring.specs.Passes.{IsPassOf};

use crate::plays::{Count, Filled, FoundEmpty, FoundFull, Free, Head, Tail};
use crate::protocol::{Finding, Lesson, Protocol};
use crate::shapes::{HEAD, RuledRing, STAMPS, TAIL};
use crossbeam_queue::Pass;
use std::alloc::Allocator;

impl<T, V, P: Protocol<T, V>, A: Allocator> RuledRing<T, V, P, A> {
    pub(crate) fn tail(&self, pass: &mut Pass<T, V>) -> u64
        requires { IsPassOf self.now pass.old }
        ensures { IsSamePass pass.old pass.new × saw_tail (step self.now.capacity 0 0 0 none) pass.old.me result pass.new.me }
    {
        self.table.shared.load::<Tail<T, V>>(pass, TAIL)
    }

    pub(crate) fn head(&self, pass: &mut Pass<T, V>) -> u64
        requires { IsPassOf self.now pass.old }
        ensures { IsSamePass pass.old pass.new × saw_head (step self.now.capacity 0 0 0 none) pass.old.me result pass.new.me }
    {
        self.table.shared.load::<Head<T, V>>(pass, HEAD)
    }

    pub(crate) fn stamp_at_tail(&self, pass: &mut Pass<T, V>, index: usize) -> u64
        requires ring { IsPassOf self.now pass.old }
        requires seen { (pass.old.me.0.stage ≡ SawTail) × (index ≡ pass.old.me.0.at % self.now.capacity) × (index < self.now.capacity) }
        ensures { IsSamePass pass.old pass.new × saw_free (step self.now.capacity 0 0 0 none) pass.old.me result pass.new.me }
    {
        self.table.shared.load::<Free<T, V>>(pass, STAMPS + index)
    }

    pub(crate) fn stamp_at_head(&self, pass: &mut Pass<T, V>, index: usize) -> u64
        requires ring { IsPassOf self.now pass.old }
        requires seen { (pass.old.me.0.stage ≡ SawHead) × (index ≡ pass.old.me.0.at % self.now.capacity) × (index < self.now.capacity) }
        ensures { IsSamePass pass.old pass.new × saw_full (step self.now.capacity 0 0 0 none) pass.old.me result pass.new.me }
    {
        self.table.shared.load::<Filled<T, V>>(pass, STAMPS + index)
    }

    /// The count of pops. Where it is a lap behind the tail that was seen, the ring is full now, and the view has the finding.
    pub(crate) fn head_if_full<M: Finding<T, V>>(&self, pass: &mut Pass<T, V>) -> u64
        requires ring { IsPassOf self.now pass.old }
        requires seen { pass.old.me.0.stage ≡ SawOld }
        requires rule { Finds P.holds self.now.capacity pass.old.id (view pass.old) (M.found (view pass.old)) }
        ensures { IsSamePass pass.old pass.new × found_full M.found (step self.now.capacity 0 0 0 none) pass.old.me result pass.new.me }
    {
        self.table.shared.load::<FoundFull<T, V, M>>(pass, HEAD)
    }

    /// The count of pushes. Where it is the head that was seen, the ring is empty now, and the view has the finding.
    pub(crate) fn tail_if_empty<M: Finding<T, V>>(&self, pass: &mut Pass<T, V>) -> u64
        requires ring { IsPassOf self.now pass.old }
        requires seen { pass.old.me.0.stage ≡ SawHead }
        requires rule { Finds P.holds 0 pass.old.id (view pass.old) (M.found (view pass.old)) }
        ensures { IsSamePass pass.old pass.new × found_empty M.found (step self.now.capacity 0 0 0 none) pass.old.me result pass.new.me }
    {
        self.table.shared.load::<FoundEmpty<T, V, M>>(pass, TAIL)
    }

    pub(crate) fn head_to_count<M: Lesson<T, V>>(&self, pass: &mut Pass<T, V>) -> u64
        requires ring { IsPassOf self.now pass.old }
        requires seen { pass.old.me.0.stage ≡ SawTail }
        requires rule { Learns P.holds pass.old.id (view pass.old) (M.fact (view pass.old)) }
        ensures { IsSamePass pass.old pass.new × counted M.fact (step self.now.capacity 0 0 0 none) pass.old.me result pass.new.me }
    {
        self.table.shared.load::<Count<T, V, M>>(pass, HEAD)
    }
}
