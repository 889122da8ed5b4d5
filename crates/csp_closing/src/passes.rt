//! The passes of a node's pool and inbox.

use csp_inbox::InboxPass;
use csp_pool::PoolPass;

/// The passes of a node's pool and inbox, into which those of all its parties come.
pub(crate) struct Passes {
    /// The pass of the pool.
    pub(crate) pool: PoolPass,
    /// The pass of the inbox.
    pub(crate) inbox: InboxPass,
}
