//! One connection of the reliable transport: a machine that is handed packets, times and requests, and
//! says which packet it owes next. It knows neither links nor ports.
#![tactic(auto)]

mod answers;
mod conserving;
mod jobs;
mod laws;
mod placing;
mod rdp;
mod rows;

pub use answers::{Cause, Change, Result2, State};
pub use conserving::{conserves, keeps_whole};
pub use jobs::Job;
pub use laws::{keeps_count, keeps_region, keeps_rest, numbers};
pub use placing::sees_no_region;
pub use rdp::Rdp;
