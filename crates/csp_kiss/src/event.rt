//! What the pieces of a stream are found to be.

ghost use Rattle.std.specs.Prelude.{◌≡◌};

use crate::progress::KissPacket;
use arrayvec::ArrayVec;
use csp_base::MAX_PAYLOAD;

/// What a reader answers at the end of a piece.
#[derive(Drop)]
pub enum KissEvent {
    /// A packet, whose CRC stands.
    Packet {
        /// The header word.
        header: u32,
        /// The payload without the CRC of the frame.
        payload: ArrayVec<u8, MAX_PAYLOAD>,
    },
    /// More bytes than a header, the greatest payload that the reader takes, and a CRC.
    TooLong,
    /// Fewer bytes than a header and a CRC.
    Short,
    /// The last four bytes are not the CRC-32C of what it covers.
    BadCrc {
        /// What the last four bytes say.
        found: u32,
        /// The CRC that belongs there.
        wanted: u32,
    },
}

impl KissEvent {
    ghost use Rattle.csp_kiss.specs.GoingOn.{packet_of};

    /// The packet that it brings. `None`: a piece is refused.
    pub fn packet(self) -> Option<KissPacket>
        ensures { result ≡ packet_of self }
    {
        match self {
            KissEvent::Packet { header, payload } => Some(KissPacket { header, payload }),
            KissEvent::TooLong | KissEvent::Short | KissEvent::BadCrc { .. } => None,
        }
    }
}
