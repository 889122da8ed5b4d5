//! The queues of the nodes of a threaded run.

ghost use Rattle.std.specs.Prelude.{◌≡◌, IsSome, IsSomeAnd, Some, slice_get};
ghost use Rattle.csp_ends.specs.Ends.{PlainNodeQueues};

use csp_inbox::Inbox;
use csp_lane::Lane;
use csp_pool::Pool;
use std::marker::Model;

/// The queues of a node, which threads share: its pool, its inbox and its lanes. Each of them must be closed.
///
/// Contracts see them as `PlainNodeQueues`.
pub struct NodeQueues {
    /// The pool of its buffers.
    pub pool: Pool,
    /// The inbox of its router or bridge.
    pub inbox: Inbox,
    /// Its lanes, in the order of the wires of its scene.
    pub lanes: Vec<Lane>,
}

impl Model for NodeQueues {
    ghost use Rattle.csp_ends.specs.Ends.{PlainNodeQueues};

    ghost Value = { PlainNodeQueues };

    ghost view = { λ q. record { pool = q.pool; inbox = q.inbox; lanes = q.lanes.items } };
}

/// The queues of all nodes, which threads share. Contracts see them as a list of `PlainNodeQueues`.
pub struct Queues {
    /// Those of each node, in the order of the nodes.
    pub nodes: Vec<NodeQueues>,
}

impl Model for Queues {
    ghost use Rattle.std.specs.Prelude.{List};
    ghost use Rattle.csp_ends.specs.Ends.{PlainNodeQueues};

    ghost Value = { List PlainNodeQueues };

    ghost view = { λ q. q.nodes.items };
}

impl Queues {
    /// The queues of this node.
    pub(crate) fn node(&self, node: u8) -> &NodeQueues
        requires { IsSome (slice_get self.now node) }
        ensures { slice_get self.now node ≡ Some result.now }
    {
        &self.nodes[usize::from(node)]
    }

    /// This lane of this node.
    pub(crate) fn lane(&self, node: u8, lane: u8) -> &Lane
        requires { IsSomeAnd (slice_get self.now node) (λ q. IsSome (slice_get q.lanes lane)) }
        ensures { (q : PlainNodeQueues) × (slice_get self.now node ≡ Some q) × (slice_get q.lanes lane ≡ Some result.now) }
    {
        &self.node(node).lanes[usize::from(lane)]
    }
}
