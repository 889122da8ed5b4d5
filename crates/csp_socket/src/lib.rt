//! The bound ports of a node: which application hears at which port, and what a packet must have to be heard there.
#![tactic(auto)]

mod sockets;

pub use sockets::{BINDABLE_PORTS, BindError, Sockets};
