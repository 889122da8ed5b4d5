//! Names of nodes and interfaces.

use arrayvec::ArrayString;

/// A name of at most 11 bytes, which lie in the value itself.
pub type Name = ArrayString<11>;
