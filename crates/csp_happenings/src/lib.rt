//! What happened in a run, in the order of rounds and parties.
#![tactic(auto)]

mod entries;
mod fates;
mod gathering;
mod kinds;
mod links;
mod parcels;
mod taking;
mod telling;
mod transmissions;

pub use fates::Fate;
pub use gathering::happenings;
pub use kinds::{Happening, Kind, Parcel, What};
pub use taking::FrameCounts;
