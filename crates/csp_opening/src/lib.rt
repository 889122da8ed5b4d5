//! The opening of a scene's network: the memory and the queues of each node, its lanes, and its posts with what each has in hand.
#![tactic(auto)]

mod bases;
mod hands;
mod homes;
mod lanes;
mod lists;
mod mails;
mod next;
mod nodes;
mod opening;
mod parting;
mod posts;
mod sides;
mod unposted;

pub use nodes::{Node, leave_nodes, open_nodes};
pub use opening::open_fabric;
