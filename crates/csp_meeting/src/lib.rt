//! The meeting of two parties of a threaded run, in which each lets the other know what it did. Nothing is put or got.
#![tactic(auto)]

mod homes;
mod lanes;
mod laws;
mod meeting;

pub use laws::{meetings_add_up, meetings_keep_ends};
pub use meeting::meet;
