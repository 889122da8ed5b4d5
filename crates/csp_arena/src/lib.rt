//! Memory for the packet buffers of a node: one region, cut into cells of one size.
//! Each cell is owned by itself, is neither copied nor dropped, and comes back to its region.
//!
//! `Region::close` frees the region where each number is there once, two cells of one region have different numbers,
//! and writing one cell leaves the other's bytes: these are the clauses of `Region::close`, `apart` and
//! `Cell::bytes_mut`, over the cells that `Region::open` numbers from 0.
#![tactic(auto)]

mod cell;
mod region;
mod strip;
mod token;

pub use cell::{Cell, apart};
pub use region::Region;
pub use token::RegionToken;
