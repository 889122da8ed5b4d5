//! CRC-32C (Castagnoli) as RFC 3720 has it for iSCSI: the reflected polynomial 0x82F63B78, the
//! register all ones at the start, and inverted at the end.
#![tactic(auto)]

ghost use Rattle.std.specs.Prelude.{◌≡◌, ◌++◌, IfOk, IfErr, MatchResult};
ghost use Rattle.csp_crc.specs.Check.{IsCause, payload_of};
ghost use Rattle.csp_crc.specs.Crc.{checked, crc_of};

mod register;
mod tables;

use register::after_bytes;
use thiserror::Error;

/// The CRC-32C of a message.
pub fn crc32c(bytes: &[u8]) -> u32
    ensures { result ≡ crc_of bytes.now }
{
    !after_bytes(u32::MAX, bytes)
}

/// The CRC-32C of a message that stands in two parts.
pub fn crc32c_joined(first: &[u8], rest: &[u8]) -> u32
    ensures { result ≡ crc_of (first.now ++ rest.now) }
{
    !after_bytes(after_bytes(u32::MAX, first), rest)
}

/// Why the CRC at the end of some bytes does not stand.
#[derive(Clone, Copy, Debug, Error)]
pub enum CrcError {
    /// There are fewer than the four bytes of a CRC.
    #[error("fewer bytes than a CRC has")]
    Short,
    /// The last four bytes are not the CRC of those before.
    #[error("the CRC is {found:08x} where {wanted:08x} belongs")]
    Wrong {
        /// What the last four bytes say.
        found: u32,
        /// The CRC of the bytes before them.
        wanted: u32,
    },
}

/// The bytes before the last four, where those four are their CRC-32C, the most significant first.
pub fn check(bytes: &[u8]) -> Result<&[u8], CrcError>
    ensures ok { IfOk result (λ payload. bytes.now ≡ checked payload.now) }
    ensures err { IfErr result (λ error. IsCause bytes.now error) }
    // The same as one test of the bytes: there is such a payload or there is none.
    ensures test { MatchResult result (λ payload. payload_of bytes.now ≡ Some payload.now) (λ _. payload_of bytes.now ≡ None) }
{
    let Some((payload, last)) = bytes.split_last_chunk::<4>() else {
        return Err(CrcError::Short);
    };
    let found = u32::from_be_bytes(*last);
    let wanted = crc32c(payload);
    if found == wanted {
        Ok(payload)
    } else {
        Err(CrcError::Wrong { found, wanted })
    }
}
