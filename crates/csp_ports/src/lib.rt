//! The ports of a node: the connections on its applications' slots, plain ones and reliable ones, the ports
//! that applications bound, and the answers that applications are owed.
#![tactic(auto)]

mod asking;
mod flows;
mod handing;
mod held;
mod laws;
mod owed;
mod ports;
mod request;
mod steps;
mod task;
mod tasks;
mod terms;
mod timers;

pub use flows::OwnFlows;
pub use handing::Invitation;
pub use held::MAX_HELD;
pub use laws::counts;
pub use owed::Owed;
pub use ports::Ports;
pub use request::Request;
pub use task::Task;
pub use terms::{SlotState, Terms, Wish};
