//! The fabric of a network.

use csp_ending::{InboxRoom, LaneRoom, Notes, Store};
use csp_ends::Queues;
use csp_posts::Retired;
use csp_record::PartyLog;
use csp_topology::Wire;

/// The memory of a node's buffers, and what the end of its pool needs.
pub struct NodeStore {
    /// The memory, with room for all buffers that come back to it.
    pub store: Store,
    /// Room for the numbers of the buffers that the pool holds at the end.
    pub numbers: Vec<u16>,
    /// From this place on stand those buffers among the ones that came back, once the pool has ended.
    pub first: usize,
    /// Before this place they stand.
    pub last: usize,
}

/// Room for what is left in the inbox and the lanes of a node at the end.
pub struct NodeRooms {
    /// For each priority of the inbox.
    pub inbox: InboxRoom,
    /// For each lane, in the order of the wires.
    pub lanes: Vec<LaneRoom>,
}

/// All that a network has besides its parties. It must be closed, with them.
pub struct Fabric {
    /// The queues of each node.
    pub queues: Queues,
    /// The memory of each node.
    pub stores: Vec<NodeStore>,
    /// The room of each node.
    pub rooms: Vec<NodeRooms>,
    /// The lanes of each node, with the places of the parties that use them.
    pub wires: Vec<Vec<Wire>>,
    /// Room for the notes of a record on queues and places.
    pub notes: Notes,
    /// Room for its logs.
    pub logs: Vec<PartyLog>,
    /// Room for the parties once they take no turn any more.
    pub retired: Vec<Retired>,
}
