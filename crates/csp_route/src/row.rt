//! Rows of the table.

use crate::{MAX_MASK, Prefix};
use csp_base::Addr;

/// A row: packets to the addresses that agree with `addr` in their first `mask` bits, at most 5,
/// leave by the interface with the number `iface`, to the next hop `via` or straight to their
/// destination.
#[derive(Clone, Copy, Debug)]
pub struct Row {
    pub addr: Addr,
    pub mask: u8,
    pub iface: u8,
    pub via: Option<Addr>,
}

impl Row {
    ghost use Rattle.std.specs.Prelude.{◌≡◌, ◌≤◌};
    ghost use Rattle.csp_route.specs.Routes.{key_of, kept_key};

    /// The prefix under which the row is kept.
    pub fn prefix(&self) -> Prefix
        requires { self.now.mask ≤ MAX_MASK }
        ensures { result ≡ key_of self.now }
    {
        Prefix::of(self.addr, self.mask)
    }

    /// Its address and mask as they stand: the prefix of a row whose address is masked.
    pub(crate) fn key(&self) -> Prefix
        ensures { result ≡ kept_key self.now }
    {
        Prefix {
            addr: self.addr,
            mask: self.mask,
        }
    }
}

impl Default for Row {
    /// A row of no use: it fills the places of a table that hold no row.
    fn default() -> Row {
        Row {
            addr: Addr::new(0).unwrap(),
            mask: 0,
            iface: 0,
            via: None,
        }
    }
}
