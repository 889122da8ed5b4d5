//! A tally that hands out numbers, each to be used once or given back, and the lasting fact that one was used,
//! for contracts alone: none of these has bytes or takes a step at run time.
#![tactic(auto)]

mod name;
mod tally;

pub use name::TallyName;
pub use tally::{Tally, Ticket, Witness};
