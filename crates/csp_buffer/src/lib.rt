//! Packet buffers: each is a cell of its node's memory, has a number for life, is neither copied nor dropped, and is spent once.
#![tactic(auto)]

mod buffer;
mod errors;
mod memory;
mod shown;
mod trail;

pub use buffer::{Buffer, CELL_SIZE};
pub use errors::{Full, Short};
pub use memory::Memory;
pub use shown::Shown;
pub use trail::{BriefTrail, Trail};
