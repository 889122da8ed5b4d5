//! The parties of a threaded run, each with its passes, its log and its stock; their turns, their rounds and their meetings.
#![tactic(auto)]

mod laws;
mod ledgers;
mod meeting;
mod post;
mod retired;

pub use laws::{turns_add_up, turns_keep_post, turns_leave_ends};
pub use ledgers::turns_keep_books;
pub use meeting::meet_all;
pub use post::{Post, ROUND_TURNS, are_finished};
pub use retired::Retired;
