//! What a ring is made of.

ghost use Rattle.std.specs.Prelude.{◌≡◌, ◌+◌};
ghost use Rattle.crossbeam_queue.specs.Stamps.{Laps};

use crate::protocol::Protocol;
use atomic_table::{Seat, Table, TableRule};
use crossbeam_queue::Pass;
use std::alloc::{Allocator, Global};
use std::marker::PhantomData;

/// Where the count of pushes stands in the table.
pub const TAIL: usize = 16;

/// Where the count of pops stands in the table, on another cache line.
pub const HEAD: usize = 32;

/// Where the slots' stamps begin.
pub const STAMPS: usize = 48;

/// Names what a seat at the table knows: its stage in a push or a pop, and the caller's view.
pub trait Sitting {
    type Known;
}

impl<S, D> Sitting for Seat<S, D> {
    type Known = D;
}

/// What a pass of a ring knows.
pub type Doing<T, V> = <Pass<T, V> as Sitting>::Known;

/// The table's rule: slots, stamps and counts go together, and the caller's rule holds of what lies between the counts.
pub struct Turns<T, V, P> {
    protocol: PhantomData<(T, V, P)>,
}

impl<T, V, P: Protocol<T, V>> TableRule<Option<T>, Doing<T, V>, ()> for Turns<T, V, P> {
    ghost use Rattle.crossbeam_queue.specs.Ring.{Ring, idle};

    ghost holds = { λ _. Ring P.holds };

    ghost first = { λ _. idle P.first };
}

/// A bounded queue of items T under the rule P, over passes that know a V each.
///
/// Contracts see that a pass is of this ring (`IsPassOf`), what it knows (`view`) and the `ring_capacity`.
#[derive(Drop)]
pub struct RuledRing<T, V, P: Protocol<T, V>, A: Allocator = Global> {
    pub(crate) table: Table<Option<T>, Doing<T, V>, (), Turns<T, V, P>, A>,
    pub(crate) capacity: usize,
    pub(crate) lap: u64,
    ghost sized: { (table.shared.table_id.words ≡ capacity + 48) × (table.shared.table_id.slots ≡ capacity) × Laps capacity lap },
}
