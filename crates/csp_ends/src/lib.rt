//! What a party of a threaded run has in hand, and the deck that serves its turns.
#![tactic(auto)]

mod deck;
mod ends;
mod homes;
mod laws;
mod queues;
mod serving;
mod sides;

pub use deck::EndsDeck;
pub use ends::{Ends, Home, InboxEnd, LaneEnd, Side};
pub use laws::turns_keep_ends;
pub use queues::{NodeQueues, Queues};
