//! Where a packet comes from, for the record alone.

/// Names one transmission: the `serial`-th, from 0, of an interface of a node.
#[derive(Clone, Copy)]
pub struct Origin {
    pub node: u8,
    pub iface: u8,
    pub serial: u64,
}

/// Names a flow, the `nth` connection of a node, and the true indices in it, which do not wrap, of a
/// packet's sequence number and of its acknowledgement number.
#[derive(Clone, Copy)]
pub struct Tag {
    pub node: u8,
    pub nth: u32,
    pub index: u64,
    pub ack: u64,
}

/// What the record knows of a packet: its last transmission, how many it had, and its flow.
#[derive(Clone, Copy)]
pub struct Trace {
    pub origin: Option<Origin>,
    pub hops: u64,
    pub tag: Option<Tag>,
}

impl Trace {
    ghost use Rattle.std.specs.Prelude.{◌≡◌};
    ghost use Rattle.csp_base.specs.Trace.{no_trace};

    /// The trace of a packet that was not transmitted yet and belongs to no flow.
    pub fn empty() -> Trace
        ensures { result ≡ no_trace }
    {
        Trace {
            origin: None,
            hops: 0,
            tag: None,
        }
    }
}
