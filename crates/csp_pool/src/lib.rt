//! The pool of a node's packet buffers, which the threads of a run share.
//!
//! A pool is a ring of buffers under the rule that what was put into it is, as a multiset, what was taken from it and
//! what it holds. Whoever uses it has a pass, seen by contracts as a `Hand`: what the pass put and took, what it knows
//! of all puts and takes, and two *floors*, numbers which the puts and takes of all passes together must have reached,
//! since a call of the pass has seen the pool full, or empty. A call can answer that the pool was empty only by
//! raising the floor for takes to all the puts that its pass knew, and that it was full only by raising the floor for
//! puts; at the close the totals are compared with every floor.
#![tactic(auto)]

mod hand;
mod opening;
mod pool;
mod rule;

pub use hand::{Hand, PoolPass};
pub use pool::Pool;
pub use rule::Fairness;
