//! The slots of a node's applications, the connections in them, and the ports that connections have on the node.
#![tactic(auto)]

mod circle;
mod conns;
mod slot;

pub use circle::OWN_PORTS;
pub use conns::{Conns, NoSlot, OpenError, place};
pub use slot::{Connection, Slot};
