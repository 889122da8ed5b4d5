//! What a pass of one of an inbox's queues knows, for contracts alone.

use csp_arena::RegionToken;
use csp_base::Prio;
use csp_deck::ItemShown;
use std::collections::LinkedList;

/// That so many items were put under a mark. No value of it is made.
pub struct ToldPuts {
    /// The mark.
    pub mark: u8,
    /// How many.
    pub puts: u64,
}

/// What a pass is: one for all four queues. No value of it is made.
pub struct Role {
    /// The region of the inbox's buffers.
    pub token: RegionToken,
    /// The room of each queue.
    pub room: u16,
    /// The mark of what it puts.
    pub mark: u8,
    /// It may put.
    pub writes: bool,
    /// It may get: it is the opening pass.
    pub reads: bool,
    /// The marks of passes that were split off and are out.
    pub out: LinkedList<u8>,
}

/// What a pass did and knows of one priority. No value of it is made.
pub struct Mail {
    /// What it put, and what the passes put that it took in, under each mark the first first.
    pub kept: LinkedList<ItemShown>,
    /// What it got, the first first.
    pub got: LinkedList<ItemShown>,
    /// What it was told of puts.
    pub known: LinkedList<ToldPuts>,
    /// So many it was told to have been got.
    pub known_got: u64,
    /// All puts together have reached this number.
    pub puts_floor: u64,
}

/// What a pass of one queue knows. No value of it is made.
pub struct Hand {
    /// What the pass is.
    pub role: Role,
    /// The priority of the queue.
    pub prio: Prio,
    /// What it did and knows.
    pub mail: Mail,
}
