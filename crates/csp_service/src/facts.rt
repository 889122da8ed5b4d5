//! What a node's services know and change.

ghost use Rattle.std.specs.Prelude.{◌≡◌, ◌+◌, ◌<◌, ◌^◌, IfOk};
ghost use Rattle.csp_service.specs.Counting.{counted};
ghost use Rattle.csp_service.specs.Facts.{new_services};

use crate::{Count, Stats};
use arrayvec::ArrayVec;
use csp_base::Name;
use csp_log::IFACES;
use std::alloc::{AllocError, Global};
use std::marker::Model;

/// The most interfaces of a node.
pub const IFACE_ROOM: usize = IFACES as usize;

/// The bytes of memory that a node's memory service has.
pub const MEMORY: usize = 1024;

/// The names of a node and of its interfaces, which no request changes.
#[derive(Drop)]
pub struct Names {
    /// The node's name.
    pub node: Name,
    /// The names of its interfaces, in the order of their numbers.
    pub ifaces: ArrayVec<Name, IFACE_ROOM>,
}

/// What the services of a node keep. Contracts see it as `PlainServices`.
#[derive(Drop)]
pub struct Services {
    /// What was counted of each interface, in the order of their numbers.
    pub(crate) stats: Vec<Stats>,
    /// The memory.
    pub(crate) memory: Vec<u8>,
    /// By how many milliseconds the clock is ahead of the time.
    pub(crate) clock: i64,
}

impl Model for Services {
    ghost use Rattle.std.specs.Prelude.{◌≡◌, length};
    ghost use Rattle.csp_service.specs.Facts.{PlainServices};
    ghost use Rattle.csp_service.specs.Kept.{AreKept};

    ghost Value = { PlainServices };

    ghost view = { λ s. record { stats = s.stats.items; memory = s.memory.items; clock = s.clock } };

    ghost invariant = { λ s. AreKept s.stats.items s.memory.items s.clock };
}

impl Services {
    /// The services of a node before it is asked anything: nothing is counted, the memory is zero, and the
    /// clock shows the time.
    ///
    /// # Errors
    /// Want of memory.
    pub fn open(alloc: Global) -> Result<Services, AllocError>
        ensures { IfOk result (λ s. s ≡ new_services) }
    {
        let stats = Vec::from_elem(alloc, Stats::new(), IFACE_ROOM)?;
        let memory = Vec::from_elem(alloc, 0u8, MEMORY)?;
        Ok(Services {
            stats,
            memory,
            clock: 0,
        })
    }

    /// Counts so many more of the interface of this number, where a node may have one. A count stops at the
    /// greatest number of 32 bits.
    pub fn count(&mut self, iface: u8, count: Count, by: u32)
        ensures { self.new ≡ record self.old { stats = counted self.old.stats iface count by } }
    {
        let place = usize::from(iface);
        if place < self.stats.len() {
            self.stats[place].raise(count, by);
        }
    }
}
