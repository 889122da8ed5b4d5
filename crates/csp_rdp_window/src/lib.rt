//! The two windows of a connection of the reliable transport, in true indices, which do not wrap: what
//! was sent and is not acknowledged, and what was received and is not delivered.
#![tactic(auto)]

mod pending;
mod places;
mod receive;
mod send;
mod shown;

pub use pending::{Mark, Pending, has_passed};
pub use receive::{Offer, RECEIVE_PLACES, RecvWindow};
pub use send::{SEND_PLACES, SendWindow};
