//! Why bytes are not read.

use thiserror::Error;

/// The payload is shorter than a head.
#[derive(Clone, Copy, Debug, Error)]
#[error("the payload is shorter than a head")]
pub struct Short;

/// The bytes are no list of numbers: they are odd in number, or more than `2 * MAX_LISTED`.
#[derive(Clone, Copy, Debug, Error)]
#[error("the bytes are no list of numbers")]
pub struct BadLength;

/// Why bytes are no options of a connection.
#[derive(Clone, Copy, Debug, Error)]
pub enum OptionError {
    /// They are not as many as six numbers have.
    #[error("the options have another length")]
    BadLength,
    /// The number of this index, from 0, is out of its range, and none before it is.
    #[error("option {0} is out of its range")]
    BadOption(u8),
}
