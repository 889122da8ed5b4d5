//! What a node counts of each of its interfaces.

ghost use Rattle.std.specs.Prelude.{◌≡◌, ◌+◌, ◌<◌};
ghost use Rattle.csp_service.specs.Counting.{no_stats, place_of, raised};

use csp_cmp::COUNTS;

/// What is counted, in the order of a reply.
#[derive(Clone, Copy)]
pub enum Count {
    /// Packets put into the interface's queue.
    Sent,
    /// Packets that came from it.
    Received,
    /// Packets for which its queue was full.
    SendErrors,
    /// Packets that came with a wrong checksum.
    ReceiveErrors,
    /// Nothing.
    Dropped,
    /// Packets that came and asked for what the node does not do.
    AuthErrors,
    /// Nothing.
    FrameErrors,
    /// Bytes of the payloads sent.
    SentBytes,
    /// Bytes of the payloads received.
    ReceivedBytes,
    /// Nothing.
    Interrupts,
}

impl Count {
    /// Its place in a reply, from 0.
    pub fn place(self) -> usize
        ensures value { result ≡ place_of self }
        ensures range { result < COUNTS }
    {
        match self {
            Count::Sent => 0,
            Count::Received => 1,
            Count::SendErrors => 2,
            Count::ReceiveErrors => 3,
            Count::Dropped => 4,
            Count::AuthErrors => 5,
            Count::FrameErrors => 6,
            Count::SentBytes => 7,
            Count::ReceivedBytes => 8,
            Count::Interrupts => 9,
        }
    }
}

/// The counts of one interface.
#[derive(Clone, Copy)]
pub struct Stats {
    pub counts: [u32; COUNTS],
}

impl Stats {
    /// Before anything is counted.
    pub fn new() -> Stats
        ensures { result ≡ no_stats }
    {
        Stats {
            counts: [0; COUNTS],
        }
    }

    /// Counts so many more. A count stops at the greatest number of 32 bits.
    pub fn raise(&mut self, count: Count, by: u32)
        ensures { self.new ≡ raised self.old count by }
    {
        let place = count.place();
        self.counts[place] = self.counts[place].saturating_add(by);
    }
}

impl Default for Stats {
    ghost is_default = { λ s. s ≡ no_stats };

    fn default() -> Stats {
        Stats::new()
    }
}
