//! CRC-32C and checked payloads: `crc of BYTES`, `crc check BYTES`.

use csp_cases::Case;
use csp_crc::{CrcError, check, crc32c};

/// Tells the CRC of bytes, or what their check answers.
pub(super) fn answer(case: &mut Case) {
    let how = case.word();
    let bytes = case.bytes();
    match how {
        "of" => case.tell_word(crc32c(bytes.as_slice())),
        "check" => checked(case, bytes.as_slice()),
        _ => case.misread(),
    }
}

/// Tells what the check of bytes answers.
fn checked(case: &mut Case, bytes: &[u8]) {
    match check(bytes) {
        Ok(payload) => {
            case.tell("ok ");
            case.tell_bytes(payload);
        }
        Err(CrcError::Short) => case.tell("short"),
        Err(CrcError::Wrong { found, wanted }) => {
            write!(case, "wrong, found {found:08x} for {wanted:08x}");
        }
    }
}
