//! The reliable prefix, from the logs of a run alone: what an application took on a reliable connection is a beginning of what the
//! connection's peer sent. What each party's own log gives for that, and what follows for a consistent record.
#![tactic(auto)]

mod apps;
mod machines;
mod ports;
mod prefix;
mod routers;

pub use apps::applications_are_true;
pub use machines::{machines_receive, machines_send};
pub use ports::{keeps_receivers, keeps_senders};
pub use prefix::{opens_on_slots, takes_a_prefix};
pub use routers::routers_are_true;
