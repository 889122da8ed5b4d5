//! What a CRC and a reader of frames notice of damage, as laws: that one bit was turned over.
#![tactic(auto)]

mod checksums;
mod frames;

pub use checksums::tells_one_bit;
pub use frames::{notices_a_plain_bit, reads_a_frame};
