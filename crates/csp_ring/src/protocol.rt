//! How a caller states what it knows of a ring that other threads use too.

ghost use Rattle.std.specs.Prelude.{List};

pub use crossbeam_queue::protocol::{Join, Lesson, Outcome, Protocol, Split};

/// What a pop that finds the ring empty, or a push that finds it full, tells: of the view before, of the items that
/// the ring held at that moment, oldest first, and of the view after.
pub trait Finding<T, V> {
    ghost found: { V → List T → V → Type 0 };
}
