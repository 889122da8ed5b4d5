//! The deck of plain lists: a node's pool and queues, with exact answers.
#![tactic(auto)]

mod fifo;
mod gathering;
mod laws;
mod list_deck;
mod numbers;
mod opening;
mod pool;
mod queue;
mod queues;
mod shape;

pub use laws::{conserves, counts_holders, gathers, keeps_shape, opens, weighs};
pub use list_deck::ListDeck;
pub use pool::Pool;
pub use shape::{INBOX_QUEUES, Shape};
