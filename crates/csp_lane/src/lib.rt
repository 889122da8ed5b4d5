//! A lane: a queue from one party to another that both use at the same time, over a queue without locks
//! whose rule proves the order of the items, why a call found nothing or no room, and that what an item
//! tells of another lane had come to pass there.
#![tactic(auto)]

mod cargo;
mod ends;
mod hand;
mod lane;
mod rule;

pub use ends::{Consumer, Producer};
pub use lane::Lane;
