//! An inbox: packets for a router or bridge by their priority, from interfaces that use it at the same
//! time, over four queues without locks of one rule, which proves the order of each interface's packets and
//! why a call found nothing or no room.
#![tactic(auto)]

mod hand;
mod inbox;
mod one;
mod pass;
mod rule;

pub use inbox::Inbox;
pub use pass::InboxPass;
