//! What a captured KISS stream holds, packet by packet, as text: a line for each frame, a line for each talk between two
//! ports of two nodes, and the number of frames.
#![tactic(auto)]

mod packets;
mod piece;
mod talks;
mod tap;
mod whole;
mod words;

pub use tap::Tap;
pub use whole::tapped;
