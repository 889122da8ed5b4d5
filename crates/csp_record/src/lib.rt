//! The record of a run: what each party did, what was left where, and how the run ended; and what it tells of
//! packets and connections.
#![tactic(auto)]

mod connections;
mod copies;
mod counts;
mod ends;
mod payloads;
mod record;
mod transmissions;

pub use connections::{Opening, openings};
pub use copies::stale;
pub use counts::passed;
pub use csp_log::{HeldBy, Left, Who};
pub use payloads::{Payload, Payloads, Traffic, Transfer, sent, took};
pub use record::{PartyLog, Record};
