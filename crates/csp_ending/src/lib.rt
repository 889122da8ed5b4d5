//! The end of the queues that threads share: what was left in each is noted, and its buffers come back to the memory of
//! their node.
#![tactic(auto)]

mod inbox;
mod lane;
mod notes;
mod slate;
mod store;

pub use inbox::{InboxRoom, end_inbox};
pub use lane::{LaneRoom, end_lane};
pub use notes::Notes;
pub use slate::Slate;
pub use store::Store;
