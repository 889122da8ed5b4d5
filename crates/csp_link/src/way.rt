//! The two directions of a link.

ghost use Rattle.std.specs.Prelude.{◌≡◌};
ghost use Rattle.csp_link.specs.Ways.{number, other};

use csp_log::QueueId;

/// A direction of a link.
#[derive(Clone, Copy)]
pub enum Way {
    /// From the first end to the second.
    Forth,
    /// From the second end to the first.
    Back,
}

impl Way {
    ghost use Rattle.csp_link.specs.Ways.{from_queue, to_queue};

    /// Its number, which is that of the end that its frames come from.
    pub fn number(self) -> u8
        ensures { result ≡ number self }
    {
        match self {
            Way::Forth => 0,
            Way::Back => 1,
        }
    }

    /// The other one.
    pub fn other(self) -> Way
        ensures { result ≡ other self }
    {
        match self {
            Way::Forth => Way::Back,
            Way::Back => Way::Forth,
        }
    }

    /// The queue that its frames come from.
    pub fn from_queue(self) -> QueueId
        ensures { result ≡ from_queue self }
    {
        QueueId::Tx(self.number())
    }

    /// The queue that its frames go to.
    pub fn to_queue(self) -> QueueId
        ensures { result ≡ to_queue self }
    {
        QueueId::Rx(self.other().number())
    }
}
