//! The services of a node: what it answers at the ports that no application binds. A reply is a function of
//! the request, of what the node knows and of the time.
#![tactic(auto)]

mod answers;
mod clock;
mod facts;
mod memory;
mod requests;
mod service;
mod stats;

pub use answers::{REBOOT, SHUTDOWN, Served, ServiceError, answer};
pub use facts::{IFACE_ROOM, MEMORY, Names, Services};
pub use service::Service;
pub use stats::{Count, Stats};
