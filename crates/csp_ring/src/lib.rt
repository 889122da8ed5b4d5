//! A bounded queue that threads share under a rule, in which a look that finds it empty, or full, is a step of its own.
//!
//! The kit's `RuledArrayQueue` leaves a pass's view as it was where a pop answers `None` or a push `Err`. What its rule
//! tells of an empty queue then holds before any call too, as long as others may take; so a body that answers `None`
//! without looking meets every clause on it. Here such an answer comes with a *finding*: the load that sees the queue
//! empty, or full, changes the view, and the view can only change at a step that was made. So a caller can say what
//! a failure must have seen, and no body that doesn't look has it.
//!
//! Rules, outcomes, passes, splits and joins are those of `crossbeam_queue`, and so is the way in which stamps lie in
//! the words of an atomic table. All steps are sequentially consistent, and no lock is taken; a call may spin behind
//! a thread that stands still between two steps, and so takes a handle with `Wait`.
#![tactic(auto)]

mod looks;
mod passes;
mod plays;
pub mod protocol;
mod ruled;
mod shapes;
mod steps;

pub use crossbeam_queue::Pass;
pub use ruled::MOST_SLOTS;
pub use shapes::RuledRing;
