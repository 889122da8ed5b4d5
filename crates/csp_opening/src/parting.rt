//! Nodes taken apart: their queues, their memory, their rooms, and what their parties will have.

ghost use Rattle.std.specs.Prelude.{◌≡◌, ◌++◌, ◌∷◌, ◌+◌, ℕ, [], length, map};
ghost use Rattle.csp_opening.specs.Opened.{lead_in, queues_in};
ghost use Rattle.csp_opening.specs.Whole.{HavePartRoom, rooms_in, store_in};

use crate::bases::Base;
use crate::homes::Lead;
use crate::lanes::{Lanes, Pair};
use crate::mails::Mail;
use crate::nodes::Node;
use csp_ends::NodeQueues;
use csp_standing::{NodeRooms, NodeStore};
use std::collections::VecDeque;

/// The parts of nodes.
pub(crate) struct Parts {
    /// The queues of each.
    pub queues: Vec<NodeQueues>,
    /// The memory of each.
    pub stores: Vec<NodeStore>,
    /// The room of each.
    pub rooms: Vec<NodeRooms>,
    /// The passes that opened the pool and the inbox of each.
    pub leads: Vec<Lead>,
    /// The ends of the lanes of each.
    pub ends: Vec<Vec<Pair>>,
}

impl Parts {
    /// Appends the parts of nodes.
    pub(crate) fn add_all(&mut self, nodes: Vec<Node>)
        requires { HavePartRoom (length nodes.items) self.old }
        ensures queues { self.new.queues.items ≡ self.old.queues.items ++ map queues_in nodes.items }
        ensures stores { self.new.stores.items ≡ self.old.stores.items ++ map store_in nodes.items }
        ensures rooms { self.new.rooms.items ≡ self.old.rooms.items ++ map rooms_in nodes.items }
        ensures leads { self.new.leads.items ≡ self.old.leads.items ++ map lead_in nodes.items }
        ensures ends { self.new.ends.items ≡ self.old.ends.items ++ map (λ x. x.lanes.ends) nodes.items }
    {
        let mut nodes = VecDeque::from_vec(nodes);
        while let Some(node) = nodes.pop_front() {
            self.add(node);
        }
        nodes.destroy_empty();
    }

    /// Appends those of one.
    fn add(&mut self, node: Node)
        requires { HavePartRoom 1 self.old }
        ensures queues { self.new.queues.items ≡ self.old.queues.items ++ queues_in node ∷ [] }
        ensures stores { self.new.stores.items ≡ self.old.stores.items ++ store_in node ∷ [] }
        ensures rooms { self.new.rooms.items ≡ self.old.rooms.items ++ rooms_in node ∷ [] }
        ensures leads { self.new.leads.items ≡ self.old.leads.items ++ lead_in node ∷ [] }
        ensures ends { self.new.ends.items ≡ self.old.ends.items ++ node.lanes.ends ∷ [] }
        ensures room { (more : ℕ) → HavePartRoom (more + 1) self.old → HavePartRoom more self.new }
    {
        let Node {
            base,
            numbers,
            mail,
            lanes,
        } = node;
        let Base { store, pool, pass } = base;
        let Mail {
            inbox,
            pass: mail,
            room,
        } = mail;
        let Lanes { lanes, rooms, ends } = lanes;
        self.queues.push_reserved(NodeQueues { pool, inbox, lanes });
        self.stores.push_reserved(NodeStore {
            store,
            numbers,
            first: 0,
            last: 0,
        });
        self.rooms.push_reserved(NodeRooms {
            inbox: room,
            lanes: rooms,
        });
        self.leads.push_reserved(Lead {
            pool: pass,
            inbox: mail,
        });
        self.ends.push_reserved(ends);
    }
}
