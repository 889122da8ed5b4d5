//! KISS frames: packets on a serial line, as this project's profile has them.
//!
//! A frame is FEND, a zero byte, the escaped header, payload and CRC-32C, and FEND. The CRC is of the payload, or on a
//! line where it covers the header of the four header bytes and the payload.
#![tactic(auto)]

mod checksum;
mod encoder;
mod event;
mod progress;
mod reader;
mod stage;

pub use encoder::encode;
pub use event::KissEvent;
pub use progress::{KissPacket, KissProgress};
pub use reader::KissReader;

/// Ends a frame and starts the next.
pub const FEND: u8 = 0xC0;

/// Begins the two bytes that stand for a FEND or a FESC of the packet.
pub const FESC: u8 = 0xDB;

/// After FESC: a FEND of the packet.
pub const TFEND: u8 = 0xDC;

/// After FESC: a FESC of the packet.
pub const TFESC: u8 = 0xDD;
