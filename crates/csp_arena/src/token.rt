//! A region's name, handed about for contracts alone.

ghost use Rattle.std.specs.Prelude.{◌≡◌};
ghost use Rattle.std.specs.Borrow.{ftrue};
ghost use Rattle.csp_arena.specs.Cells.{RegionName};

use crate::Region;
use std::marker::Model;

/// Names a region to contracts, as its `name`. It takes no memory and owns nothing, and its methods do
/// nothing at run time.
///
/// Who keeps buffers of one region alone, as a queue or a party of a node, keeps such a token: its
/// invariant says that each of its buffers is of the region with this name.
#[derive(Drop)]
pub struct RegionToken {
    pub ghost name: { RegionName },
}

impl Model for RegionToken {
    ghost also_owns = { λ _. ftrue };
}

// It owns nothing.
unsafe impl Send for RegionToken {}

impl RegionToken {
    /// The token of this region.
    pub fn of(region: &Region) -> RegionToken
        ensures { result.name ≡ region.now.name }
    {
        RegionToken {}
    }

    /// Another one of the same name.
    pub fn copy(&self) -> RegionToken
        ensures { result ≡ self.now }
    {
        RegionToken {}
    }
}
