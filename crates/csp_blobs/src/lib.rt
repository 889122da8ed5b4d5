//! Blobs of a run, from the logs of its record alone: what an application tells of blobs is what a collector makes of the payloads that
//! it took; and on a reliable connection these are a beginning of the blobs that its peer sent.
#![tactic(auto)]

mod asking;
mod laws;
mod sending;

pub use asking::{
    answers_no_more, blobs_come_whole, sends_what_comes, tells_of_blobs, waits_for_answers,
};
pub use laws::{applications_collect, collects_a_prefix_of_blobs};
pub use sending::{pushes_its_steps, sends_pieces};
