//! What each step tells. No value of these types is made.

ghost use Rattle.crossbeam_queue.specs.Ring.{idle, saw_tail, saw_head, saw_free, saw_full, counted, claimed, fetched, gave};
ghost use Rattle.csp_ring.specs.Finds.{found_empty, found_full};

use crate::protocol::{Finding, Join, Lesson, Outcome, Split};
use crate::shapes::Doing;
use atomic_table::Play;
use std::marker::PhantomData;

/// The count of pushes was read.
pub struct Tail<T, V> {
    marker: PhantomData<(T, V)>,
}

impl<T, V> Play<Option<T>, Doing<T, V>> for Tail<T, V> {
    ghost then = { saw_tail };
}

/// The count of pops was read.
pub struct Head<T, V> {
    marker: PhantomData<(T, V)>,
}

impl<T, V> Play<Option<T>, Doing<T, V>> for Head<T, V> {
    ghost then = { saw_head };
}

/// A slot's stamp was read, to see whether it is free.
pub struct Free<T, V> {
    marker: PhantomData<(T, V)>,
}

impl<T, V> Play<Option<T>, Doing<T, V>> for Free<T, V> {
    ghost then = { saw_free };
}

/// A slot's stamp was read, to see whether it is filled.
pub struct Filled<T, V> {
    marker: PhantomData<(T, V)>,
}

impl<T, V> Play<Option<T>, Doing<T, V>> for Filled<T, V> {
    ghost then = { saw_full };
}

/// The count of pops was read, to see whether the ring is full.
pub struct FoundFull<T, V, M> {
    marker: PhantomData<(T, V, M)>,
}

impl<T, V, M: Finding<T, V>> Play<Option<T>, Doing<T, V>> for FoundFull<T, V, M> {
    ghost then = { found_full M.found };
}

/// The count of pushes was read, to see whether the ring is empty.
pub struct FoundEmpty<T, V, M> {
    marker: PhantomData<(T, V, M)>,
}

impl<T, V, M: Finding<T, V>> Play<Option<T>, Doing<T, V>> for FoundEmpty<T, V, M> {
    ghost then = { found_empty M.found };
}

/// The count of pops was read, to count the items.
pub struct Count<T, V, M> {
    marker: PhantomData<(T, V, M)>,
}

impl<T, V, M: Lesson<T, V>> Play<Option<T>, Doing<T, V>> for Count<T, V, M> {
    ghost then = { counted M.fact };
}

/// The count of pushes went up: a slot is the pass's to fill.
pub struct Claim<T, V, M> {
    marker: PhantomData<(T, V, M)>,
}

impl<T, V, M: Outcome<T, V>> Play<Option<T>, Doing<T, V>> for Claim<T, V, M> {
    ghost then = { claimed M.then };
}

/// The count of pops went up: a slot is the pass's to empty.
pub struct Fetch<T, V, M> {
    marker: PhantomData<(T, V, M)>,
}

impl<T, V, M: Outcome<T, V>> Play<Option<T>, Doing<T, V>> for Fetch<T, V, M> {
    ghost then = { fetched M.then };
}

/// The slot's new stamp was written, and the slot is nobody's again.
pub struct Stamp<T, V> {
    marker: PhantomData<(T, V)>,
}

impl<T, V> Play<Option<T>, Doing<T, V>> for Stamp<T, V> {
    ghost then = { λ s m r n. gave m n };
}

/// A pass became two.
pub struct Halves<T, V, M> {
    marker: PhantomData<(T, V, M)>,
}

impl<T, V, M: Split<V>> Split<Doing<T, V>> for Halves<T, V, M> {
    ghost left = { λ d. idle (M.left d.client) };

    ghost right = { λ d. idle (M.right d.client) };
}

/// A pass took another in.
pub struct Whole<T, V, M> {
    marker: PhantomData<(T, V, M)>,
}

impl<T, V, M: Join<V>> Join<Doing<T, V>> for Whole<T, V, M> {
    ghost both = { λ d e. idle (M.both d.client e.client) };

    ghost spent = { idle M.spent };
}
