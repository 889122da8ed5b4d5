//! The wire formats of the reliable transport: the head at the end of a payload, the options of a
//! connection's first packet, and the list of numbers in an extended acknowledgement. Each is read and
//! written, and what is read is just what is written.
#![tactic(auto)]

mod errors;
mod head;
mod numbers;
mod options;

pub use errors::{BadLength, OptionError, Short};
pub use head::{ACK, EAK, HEAD_LEN, RST, RdpHead, SYN};
pub use numbers::{MAX_KEPT, MAX_LISTED, eak_decode, eak_encode, is_malformed};
pub use options::{MAX_WINDOW, OPTIONS_LEN, Options};
