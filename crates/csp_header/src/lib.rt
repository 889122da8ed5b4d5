//! The header of a packet of the CubeSat Space Protocol, version 1: one number of 32 bits.
#![tactic(auto)]

mod flags;
mod parts;
mod word;

pub use flags::FlagSet;
pub use word::Header;
