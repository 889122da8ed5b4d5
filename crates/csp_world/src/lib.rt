//! The world of a simulation: the lists of its nodes and their parties, step by step, and its record.
#![tactic(auto)]

mod decks;
mod laws;
mod limits;
mod looking;
mod member;
mod moves;
mod room;
mod rounds;
mod schedule;
mod world;

pub use csp_record::{HeldBy, Left, PartyLog, Record, Who};
pub use decks::open_decks;
pub use laws::{holds_parts, is_consistent, reaches};
pub use limits::{MAX_ENTRIES, TURNS_PER_ROUND};
pub use schedule::{SimError, simulate};
pub use world::World;
