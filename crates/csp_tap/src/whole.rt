//! The text of a whole stream.

ghost use Rattle.std.specs.Prelude.{◌≡◌, Bool, [], OnOk, IfOk};
ghost use Rattle.csp_base.specs.declared.limits.TheConstants.{MAX_PAYLOAD};
ghost use Rattle.csp_kiss.specs.Stream.{events};
ghost use Rattle.csp_tap.specs.Fed.{HasFed};
ghost use Rattle.csp_tap.specs.Text.{tap_text};

use crate::tap::Tap;
use std::alloc::{AllocError, Global};

/// The text of a stream of frames whose CRC covers the header or not.
pub fn tapped(alloc: Global, cover: bool, stream: &[u8]) -> Result<Vec<u8>, AllocError>
    ensures { IfOk result (λ text. text.items ≡ tap_text (events cover MAX_PAYLOAD stream.now)) }
{
    let mut tap = Tap::open(alloc, cover)?;
    match tap.bytes(stream) {
        Ok(()) => tap.finish(),
        Err(error) => {
            tap.end();
            Err(error)
        }
    }
}
