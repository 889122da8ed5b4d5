//! What can be taken out of the record of a run, to be read by other tools: the frames that an end put on its link. And what
//! of a scene was of no use in its run.
#![tactic(auto)]

mod ends;
mod faults;
mod frames;
mod idle;
mod nodes;
mod parties;
mod sockets;

pub use ends::{EndName, Form, end_named};
pub use frames::exported;
pub use idle::{UNUSED_VERSION, unused};
pub use sockets::PORTS;
