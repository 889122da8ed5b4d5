//! An interface of a node: a party that sends the packets of its `Out` as the frames of its link, and
//! puts the packets that its link's frames carry into the inbox, one operation a turn.
#![tactic(auto)]

mod asking;
mod heeding;
mod iface;
mod packet;
mod party;
mod plan;
mod receiver;
mod sender;
mod stream;
mod telling;

pub use iface::Iface;
