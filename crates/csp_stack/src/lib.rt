//! The router of a node: one party that takes packets from the inbox and from the node's
//! applications, and decides by the rules of the CubeSat Space Protocol what becomes of each.
#![tactic(auto)]

mod at_port;
mod circle;
mod config;
mod counting;
mod facts;
mod inbox;
mod invitation;
mod making;
mod outgoing;
mod packet;
mod party;
mod plan;
mod porting;
mod readings;
mod sending;
mod services;
mod serving;
mod sources;
mod stack;
mod state;
mod turn;

pub use config::StackConfig;
pub use csp_service::IFACE_ROOM;
pub use outgoing::Outgoing;
pub use plan::Plan;
pub use sources::Source;
pub use stack::Stack;
pub use state::TRASH_ROOM;
