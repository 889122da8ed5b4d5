//! The routing table of a node: rows for prefixes of addresses, the longest of which decides, and
//! the text in which rows are written.
#![tactic(auto)]

mod error;
mod parts;
mod prefix;
mod row;
mod table;
mod text;
mod writing;

pub use error::{RouteError, RouteKind};
pub use prefix::{MAX_MASK, Prefix};
pub use row::Row;
pub use table::{Full, MAX_ROWS, Table};
