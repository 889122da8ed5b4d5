//! Blobs over packets, as the Simple Fragmentation Protocol has them: a blob cut into pieces, and pieces gathered
//! to blobs again.
#![tactic(auto)]

mod collector;
mod errors;
mod laws;
mod pieces;
mod trailer;

pub use collector::{Collector, SfpAnswer};
pub use errors::SfpError;
pub use laws::{collects_a_prefix, gathers_pieces, joins_data};
pub use pieces::{MAX_PIECE, MAX_SIZE, Pieces};
pub use trailer::{MAX_BLOB, TRAILER_LEN, trailer_bytes};
