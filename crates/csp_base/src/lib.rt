//! The numbers of the CubeSat Space Protocol, version 1, and what every other crate shares:
//! limits, addresses, ports, priorities, sequence numbers and traces,
//! and the sources and sinks that bytes come from and go to.
#![tactic(auto)]

mod adapters;
mod address;
mod limits;
mod memory;
mod names;
mod ports;
mod priority;
mod seat;
mod sequence;
mod sink;
mod source;
mod traces;
mod turns;

pub use adapters::{ReadSource, WriteSink};
pub use address::{Addr, BROADCAST};
pub use limits::{ALL_SLOTS, MAX_APPS, MAX_BUFFERS, MAX_FRAME, MAX_PAYLOAD, SLOTS};
pub use memory::{MemSink, MemSource};
pub use names::Name;
pub use ports::{FIRST_OWN_PORT, Port};
pub use priority::Prio;
pub use seat::Seat;
pub use sequence::{Seq, ahead, between};
pub use sink::{Sink, write_whole};
pub use source::{Failed, ReadError, Source, read_up_to};
pub use traces::{Origin, Tag, Trace};
pub use turns::Turn;
