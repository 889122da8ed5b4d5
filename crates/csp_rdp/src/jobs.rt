//! What a connection owes.

ghost use Rattle.std.specs.Prelude.{◌≡◌, ◌^◌, ◌<◌};

/// The packets that a connection may owe, in the order in which they are tried.
#[derive(Clone, Copy, PartialEq, Eq, Debug)]
pub enum Job {
    /// A reset, which acknowledges.
    Rst,
    /// The packet that opens the connection, or its answer.
    Syn,
    /// A packet is to be delivered.
    Deliver,
    /// An extended acknowledgement.
    Eak,
    /// A packet of the send window.
    Data,
    /// An acknowledgement without data.
    Ack,
}

/// What a connection owes, and since when.
#[derive(Clone, Copy)]
pub struct Owed {
    /// A reset.
    pub rst: bool,
    /// The packet that opens the connection, or its answer.
    pub syn: bool,
    /// When such a packet was last sent, if ever.
    pub syn_sent: Option<u64>,
    /// An extended acknowledgement.
    pub eak: bool,
    /// An acknowledgement, at once.
    pub ack: bool,
    /// How many packets were delivered since the last packet that acknowledged.
    pub delivered: u64,
    /// When the first of them was delivered, if any was.
    pub first: Option<u64>,
}

impl Owed {
    ghost use Rattle.csp_rdp.specs.Jobs.{one_more_delivered};
    ghost use Rattle.csp_rdp.specs.Machine.{nothing_owed, opening_owed};

    /// Nothing is owed.
    pub(crate) fn nothing() -> Owed
        ensures { result ≡ nothing_owed }
    {
        Owed {
            rst: false,
            syn: false,
            syn_sent: None,
            eak: false,
            ack: false,
            delivered: 0,
            first: None,
        }
    }

    /// What a new connection owes.
    pub(crate) fn opening() -> Owed
        ensures { result ≡ opening_owed }
    {
        Owed {
            syn: true,
            ..Owed::nothing()
        }
    }

    /// The same, once one more packet is delivered.
    pub(crate) fn counting(self, now: u64) -> Owed
        requires { self.delivered < 2 ^ 32 }
        ensures { result ≡ one_more_delivered now self }
    {
        Owed {
            delivered: self.delivered + 1,
            first: Some(self.first.unwrap_or(now)),
            ..self
        }
    }
}
