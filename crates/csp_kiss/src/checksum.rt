//! The CRC of a frame.

ghost use Rattle.std.specs.Prelude.{◌≡◌};
ghost use Rattle.csp_crc.specs.Crc.{crc_of};
ghost use Rattle.csp_kiss.specs.Frame.{covered};

use csp_crc::{crc32c, crc32c_joined};

/// The CRC-32C in the frame of a packet, which covers the header or not.
pub(crate) fn checksum(cover: bool, header: u32, payload: &[u8]) -> u32
    ensures { result ≡ crc_of (covered cover header payload.now) }
{
    if cover {
        crc32c_joined(&header.to_be_bytes(), payload)
    } else {
        crc32c(payload)
    }
}
