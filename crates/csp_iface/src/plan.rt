//! What a turn of an interface is.

/// What a turn is, from its operation to the answer.
#[derive(Clone, Copy)]
pub enum IfacePlan {
    /// Between two turns.
    Rest,
    /// A buffer is given back.
    Return,
    /// An accepted packet is pushed to the inbox.
    Deliver,
    /// A whole packet takes a buffer.
    Take,
    /// The next frame of a transmission is pushed to the link.
    Transmit,
    /// The next packet to be sent is popped.
    Fetch,
    /// A frame is popped from the link.
    Receive,
}

/// The two sides of an interface, which take turns.
#[derive(Clone, Copy)]
pub enum Side {
    /// From the node to the link.
    Sending,
    /// From the link to the node.
    Receiving,
}

impl Side {
    ghost use Rattle.std.specs.Prelude.{◌≡◌};
    ghost use Rattle.csp_iface.specs.Asking.{other};

    /// The other one.
    pub fn other(self) -> Side
        ensures { result ≡ other self }
    {
        match self {
            Side::Sending => Side::Receiving,
            Side::Receiving => Side::Sending,
        }
    }
}
