//! Room for the lists that a fabric is made of.

ghost use Rattle.std.specs.Prelude.{◌≡◌, ◌<◌, ◌≤◌, [], length, IfOk};
ghost use Rattle.std.specs.List.{AllByRecursion};
ghost use Rattle.csp_opening.specs.Whole.{AreBlanks, AreLists, queue_count};

use crate::homes::Lead;
use crate::lanes::Pair;
use crate::sides::blank_sides;
use csp_ending::Notes;
use csp_ends::{Home, NodeQueues, Side};
use csp_lists::INBOX_QUEUES;
use csp_posts::{Post, Retired};
use csp_record::PartyLog;
use csp_standing::{NodeRooms, NodeStore};
use csp_topology::Wire;
use std::alloc::{AllocError, Global};

/// The lists of what may be let go, with their room.
#[derive(Drop)]
pub(crate) struct Blanks {
    /// The ends of lanes of each party.
    pub sides: Vec<Vec<Side>>,
    /// The passes of each party.
    pub homes: Vec<Option<Home>>,
    /// The passes that opened the pool and the inbox of each node.
    pub leads: Vec<Lead>,
    /// The ends of the lanes of each node.
    pub ends: Vec<Vec<Pair>>,
    /// For the notes of a record.
    pub notes: Notes,
    /// For its logs.
    pub logs: Vec<PartyLog>,
}

impl Blanks {
    /// The lists for so many parties and nodes, with the lanes of these wires.
    pub(crate) fn open(
        alloc: Global,
        parties: u16,
        wires: &[Vec<Wire>],
    ) -> Result<Blanks, AllocError>
        requires nodes { length wires.now < 256 }
        requires few { AllByRecursion (λ ws. length ws.items < 256) wires.now }
        ensures { IfOk result (AreBlanks parties (length wires.now) wires.now) }
    {
        let count = usize::from(parties);
        let nodes = wires.len();
        Ok(Blanks {
            sides: blank_sides(alloc, parties, wires)?,
            homes: Vec::with_capacity(alloc, count)?,
            leads: Vec::with_capacity(alloc, nodes)?,
            ends: Vec::with_capacity(alloc, nodes)?,
            notes: Notes::open(alloc, queues_in(wires), count + nodes)?,
            logs: Vec::with_capacity(alloc, count)?,
        })
    }
}

/// How many queues a record speaks of, where nodes have the lanes of these wires.
fn queues_in(wires: &[Vec<Wire>]) -> usize
    requires nodes { length wires.now < 256 }
    requires few { AllByRecursion (λ ws. length ws.items < 256) wires.now }
    ensures count { result ≡ queue_count wires.now }
    ensures few { result ≤ 66560 }
{
    let mut count = 0;
    for here in wires {
        count += here.len() + INBOX_QUEUES;
    }
    count
}

/// The lists of what must be spent, with their room. They must be spent by `leave`, or taken apart.
pub(crate) struct Lists {
    /// The posts.
    pub posts: Vec<Post>,
    /// The parties at the end.
    pub retired: Vec<Retired>,
    /// The queues of each node.
    pub queues: Vec<NodeQueues>,
    /// The memory of each node.
    pub stores: Vec<NodeStore>,
    /// The room of each node.
    pub rooms: Vec<NodeRooms>,
}

impl Lists {
    /// The lists for so many parties and nodes.
    pub(crate) fn open(alloc: Global, parties: usize, nodes: usize) -> Result<Lists, AllocError>
        ensures { IfOk result (AreLists parties nodes) }
    {
        let posts = Vec::with_capacity(alloc, parties);
        let retired = Vec::with_capacity(alloc, parties);
        let queues = Vec::with_capacity(alloc, nodes);
        let stores = Vec::with_capacity(alloc, nodes);
        let rooms = Vec::with_capacity(alloc, nodes);
        match (posts, retired, queues, stores, rooms) {
            (Ok(posts), Ok(retired), Ok(queues), Ok(stores), Ok(rooms)) => Ok(Lists {
                posts,
                retired,
                queues,
                stores,
                rooms,
            }),
            (posts, retired, queues, stores, rooms) => {
                leave(posts);
                leave(retired);
                leave(queues);
                leave(stores);
                leave(rooms);
                Err(AllocError)
            }
        }
    }

    /// Lets them go.
    pub(crate) fn leave(self)
        requires posts { self.posts.items ≡ [] }
        requires retired { self.retired.items ≡ [] }
        requires queues { self.queues.items ≡ [] }
        requires stores { self.stores.items ≡ [] }
        requires rooms { self.rooms.items ≡ [] }
    {
        let Lists {
            posts,
            retired,
            queues,
            stores,
            rooms,
        } = self;
        posts.destroy_empty();
        retired.destroy_empty();
        queues.destroy_empty();
        stores.destroy_empty();
        rooms.destroy_empty();
    }
}

/// Lets an empty list go, where there is one.
fn leave<T>(list: Result<Vec<T>, AllocError>)
    requires { IfOk list (λ l. l.items ≡ []) }
{
    if let Ok(list) = list {
        list.destroy_empty();
    }
}
