//! What a reader makes of a frame, and of a frame of which one bit was turned over.

ghost use Rattle.csp_kiss.specs.Frame.{frame};
ghost use Rattle.csp_kiss.specs.Reading.{Reading};
ghost use Rattle.csp_noticed.specs.Flipping.{flipped};
ghost use Rattle.csp_noticed.specs.Made.{IsReadyFor, MakesJust, MakesWrong};
ghost use Rattle.csp_noticed.specs.Plain.{FlipsPlain};
ghost use Rattle.std.specs.Prelude.{◌≡◌, ℕ, ◌<◌, ◌≤◌, true, List};

use csp_kiss::KissEvent;

/// Of the frame of a packet, a reader on a link of the same kind makes just that packet.
pub fn reads_a_frame()
    ensures { (reading : Reading) (header : ℕ) (payload : List ℕ) → IsReadyFor reading header payload → MakesJust reading (frame reading.cover header payload) (KissEvent.Packet header (record { items = payload })) }
{}

/// Where one plain bit of the frame is turned over, on a link that covers its header, a reader makes just a wrong CRC of it.
pub fn notices_a_plain_bit()
    ensures noticed { (reading : Reading) (header : ℕ) (payload : List ℕ) (bit : ℕ) → IsReadyFor reading header payload → reading.cover ≡ true → FlipsPlain bit (frame true header payload) → 16 ≤ bit → MakesWrong reading (flipped bit (frame true header payload)) }
    // The byte after the first FEND, which holds the bits below 16, is skipped: there it makes the packet as it was, on every link.
    ensures skipped { (reading : Reading) (header : ℕ) (payload : List ℕ) (bit : ℕ) → IsReadyFor reading header payload → FlipsPlain bit (frame reading.cover header payload) → bit < 16 → MakesJust reading (flipped bit (frame reading.cover header payload)) (KissEvent.Packet header (record { items = payload })) }
{}
