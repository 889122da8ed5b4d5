//! Why bytes could not be added to a payload or cut from it.

use thiserror::Error;

/// The payload has no room for so many bytes more.
#[derive(Clone, Copy, Debug, Error)]
#[error("the payload has no room for so many bytes")]
pub struct Full;

/// The payload is shorter than what was to be cut off.
#[derive(Clone, Copy, Debug, Error)]
#[error("the payload has fewer bytes than that")]
pub struct Short;
