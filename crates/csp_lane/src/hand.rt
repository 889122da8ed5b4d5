//! What a pass of a lane's queue knows, for contracts alone.

use csp_arena::RegionToken;
use csp_deck::{Carries, ItemShown};
use std::collections::LinkedList;

/// What went one way, the first first. No value of it is made.
pub struct Course {
    /// The items.
    pub items: LinkedList<ItemShown>,
    /// Their marks: how many items of another lane the sender of each had got.
    pub marks: LinkedList<u64>,
}

/// What one pass may do and has done, and what it knows of the other. No value of it is made.
pub struct Hand {
    /// It may put.
    pub writes: bool,
    /// It may get.
    pub reads: bool,
    /// The region of the lane's buffers.
    pub token: RegionToken,
    /// What the lane carries.
    pub carries: Carries,
    /// The lane's room.
    pub room: u16,
    /// The tally of what is put.
    pub tally: u64,
    /// The tally of the other lane that the marks tell of.
    pub about: Option<u64>,
    /// What it put.
    pub put: Course,
    /// What it got.
    pub got: Course,
    /// How many items had been put into that other lane when it got each, as far as it looked.
    pub bounds: LinkedList<u64>,
    /// So many it knows to have been put.
    pub known_puts: u64,
    /// So many it knows to have been got.
    pub known_gets: u64,
}
