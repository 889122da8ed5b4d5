//! The queues of a node, what each of them carries, and who holds a buffer.

ghost use Rattle.std.specs.Prelude.{◌≡◌};
ghost use Rattle.csp_log.specs.Kinds.{carried_on};

use csp_base::{MAX_PAYLOAD, Prio};

/// The mark of a packet that has none: in the inbox and in an `Up` it comes from the node itself, in
/// an `Out` it goes to its own destination.
pub const UNMARKED: u8 = 255;

/// The most interfaces of a node.
pub const IFACES: u8 = 12;

/// The most bytes that an application sends in one packet: the rest of the payload is left for the
/// head of the reliable transport (5 bytes) and a checksum (4 bytes).
pub const MAX_DATA: usize = MAX_PAYLOAD - 9;

/// The room of an `Up`.
pub const UP_ROOM: u16 = 4;

/// The room of a `Down`.
pub const DOWN_ROOM: u16 = 16;

/// The room of an `Out`.
pub const OUT_ROOM: u16 = 16;

/// The room of a `Tx`, and of an `Rx`.
pub const LINK_ROOM: u16 = 64;

/// The most ends of a link.
pub const LINK_ENDS: usize = 8;

/// Where a link ends: at an interface of a node, by the node's place among the nodes and the number of
/// the interface there.
#[derive(Clone, Copy, Debug, Default)]
pub struct End {
    /// The place of the node.
    pub node: u8,
    /// The number of the interface.
    pub iface: u8,
}

/// Names a queue. The number is the application's, the interface's, or for a link that of its end.
#[derive(Clone, Copy, Default)]
pub enum QueueId {
    /// From interfaces and the node itself to the router or bridge: four queues, one for each priority.
    #[default]
    Inbox,
    /// From an application to the router.
    Up(u8),
    /// From the router to an application.
    Down(u8),
    /// From the router or bridge to an interface.
    Out(u8),
    /// From an interface to its link.
    Tx(u8),
    /// From a link to an interface.
    Rx(u8),
}

/// The kind of a link.
#[derive(Clone, Copy, Debug)]
pub enum LinkKind {
    /// Bytes in KISS frames, whose CRC covers the payload.
    Kiss,
    /// Bytes in KISS frames, whose CRC covers the header and the payload.
    KissHeader,
    /// Frames of a CAN bus.
    Can,
}

/// What a lane carries, a queue between two parties.
#[derive(Clone, Copy)]
pub enum Carries {
    /// Packets for a slot or without a mark, and an application's requests.
    Up,
    /// Packets of a slot, and the router's answers.
    Down,
    /// Packets marked with the address of the next hop, or with none.
    Out,
    /// Frames of a KISS link of either kind.
    Kiss,
    /// Frames of a CAN link.
    Can,
}

impl LinkKind {
    /// What the lanes of a link of this kind carry.
    pub fn carries(self) -> Carries
        ensures { result ≡ carried_on self }
    {
        match self {
            LinkKind::Kiss | LinkKind::KissHeader => Carries::Kiss,
            LinkKind::Can => Carries::Can,
        }
    }
}

/// What a queue carries.
#[derive(Clone, Copy)]
pub enum Rule {
    /// The inbox as a whole: packets marked with an interface, or with none.
    Inbox,
    /// One of the inbox's four queues: such packets of this priority.
    Priority(Prio),
    /// A lane.
    Lane(Carries),
}

/// Who holds a buffer. A bridge counts as the router of its node.
#[derive(Clone, Copy)]
pub enum Place {
    /// The node's pool.
    Pool,
    /// The inbox's queue of this priority.
    Inbox(Prio),
    /// This lane.
    Lane(QueueId),
    /// The router or bridge.
    Router,
    /// The interface of this number.
    Iface(u8),
    /// The application of this number.
    App(u8),
}
