//! The true index that a sequence number shows.

ghost use Rattle.std.specs.Prelude.{◌≡◌, ◌<◌, ◌^◌};
ghost use Rattle.csp_rdp_window.specs.Shown.{shown};

use csp_base::Seq;

/// The true index that `number` shows in a flow that starts at `start`, round the index `around`.
pub fn shown_index(number: Seq, start: Seq, around: u64) -> Option<u64>
    requires { around < 2 ^ 63 }
    ensures { result ≡ shown number.0 start.0 around }
{
    number.index_near(start, around)
}
