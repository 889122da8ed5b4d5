//! Which of the frames that it pops an interface takes.

ghost use Rattle.std.specs.Prelude.{◌≡◌, ◌^◌, ◌<◌, unwrap_or};
ghost use Rattle.csp_iface.specs.Heeding.{is_for};

use csp_base::{Addr, BROADCAST};
use csp_can::Identifier;
use csp_log::Frame;

/// Whether an interface that heeds this address takes a frame: one for that address or for every node. One that heeds
/// none takes each.
pub fn is_for(heeds: Option<Addr>, frame: &Frame) -> bool
    requires { unwrap_or frame.now.can 0 < 2 ^ 29 }
    ensures { result ≡ is_for heeds frame.now }
{
    match heeds {
        Some(addr) => {
            let dest = Identifier::decode(frame.can.unwrap_or(0)).dest.get();
            dest == addr.get() || dest == BROADCAST
        }
        None => true,
    }
}
