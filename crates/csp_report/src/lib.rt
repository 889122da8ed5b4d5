//! The report of a run, line by line, from the scene and the record of its run.
#![tactic(auto)]

mod apps;
mod blobs;
mod conns;
mod events;
mod ifaces;
mod laws;
mod lines;
mod named;
mod parties;
mod places;
mod routers;
mod summing;
mod text;

pub use apps::word_of_refusal;
pub use blobs::{push_crc, word_of_bad_piece};
pub use laws::tells_prefix;
pub use lines::{begin_line, end_line, push_count, push_counted, push_word};
pub use routers::word_of;
pub use summing::summary;
pub use text::{VERSION, report};
