//! Messages of the management protocol of the CubeSat Space Protocol: a node is asked who it is, for a new
//! route, for what an interface counted, for its memory and for its clock. Requests are read and replies
//! are written; what they do is no matter of this crate.
#![tactic(auto)]

mod code;
mod errors;
mod reading;
mod replies;
mod request;

pub use code::Code;
pub use errors::CmpError;
pub use reading::{MAX_CHUNK, REQUEST, decode};
pub use replies::{
    COUNTS, CmpReply, DATE, DATE_ROOM, HOST_ROOM, MAX_REPLY, MODEL, MODEL_ROOM, REPLY, REVISION,
    REVISION_ROOM, TIME, TIME_ROOM, clock_reply, ident_reply, peek_reply, same_reply, stats_reply,
};
pub use request::{CmpRequest, NAME_LEN};
