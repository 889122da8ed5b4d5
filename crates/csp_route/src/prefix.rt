//! Prefixes of addresses.

use csp_base::Addr;

/// The most bits that a mask has: those of an address.
pub const MAX_MASK: u8 = 5;

/// The first `mask` bits of an address, whose other bits are 0. Prefixes stand in the order of
/// their address, then of their mask.
#[derive(Clone, Copy, PartialEq, Eq, PartialOrd, Ord)]
pub struct Prefix {
    pub addr: Addr,
    pub mask: u8,
}

impl Prefix {
    ghost use Rattle.std.specs.Prelude.{◌≡◌, ◌≤◌, ◌↔◌, IsTrue};
    ghost use Rattle.csp_route.specs.Prefix.{prefix_of, Covers};

    /// The first `mask` bits of an address.
    pub fn of(addr: Addr, mask: u8) -> Prefix
        requires { mask ≤ MAX_MASK }
        ensures { result ≡ prefix_of addr mask }
    {
        let past = addr.get() % (1 << (MAX_MASK - mask));
        Prefix {
            addr: Addr::new(addr.get() - past).unwrap(),
            mask,
        }
    }
}
