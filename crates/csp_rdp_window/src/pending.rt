//! A packet of the send window.

ghost use Rattle.std.specs.Prelude.{◌≡◌};
ghost use Rattle.csp_rdp_window.specs.Times.{has_passed};

use csp_buffer::Buffer;

/// A packet of the send window, with its true index and its times.
pub struct Pending {
    pub index: u64,
    pub buffer: Buffer,
    /// Whether it is not acknowledged yet. What is not needed waits to be handed out.
    pub needed: bool,
    /// When it was last sent, if ever.
    pub sent: Option<u64>,
    /// Whether an extended acknowledgement made it due since then.
    pub due: bool,
    /// When an extended acknowledgement last made it due.
    pub asked: Option<u64>,
}

/// What befalls the packets of a window.
#[derive(Clone, Copy)]
pub enum Mark {
    /// All up to this index are acknowledged.
    Acknowledged(u64),
    /// That of this index is acknowledged.
    Listed(u64),
    /// None is needed any more.
    Abandoned,
    /// That of this index is sent.
    Sent {
        index: u64,
        time: u64,
    },
    /// Those before this index are missed by the receiver.
    Missed {
        newest: u64,
        time: u64,
        timeout: u32,
    },
}

impl Pending {
    ghost use Rattle.csp_rdp_window.specs.Sending.{is_due, marked};

    /// Whether it is to be sent: it was never sent, an extended acknowledgement made it due, or
    /// the packet timeout has passed since it was last sent.
    pub fn is_due(&self, now: u64, timeout: u32) -> bool
        ensures { result ≡ is_due now timeout self.now }
    {
        self.needed && (self.due || has_passed(self.sent, timeout, now))
    }

    /// What becomes of it.
    pub(crate) fn mark(&mut self, mark: Mark)
        ensures { self.new ≡ marked mark self.old }
    {
        match mark {
            Mark::Acknowledged(last) => self.needed = self.needed && last < self.index,
            Mark::Listed(index) => self.needed = self.needed && index != self.index,
            Mark::Abandoned => self.needed = false,
            Mark::Sent { index, time } => {
                if self.index == index {
                    self.sent = Some(time);
                    self.due = false;
                }
            }
            Mark::Missed {
                newest,
                time,
                timeout,
            } => {
                if self.needed && self.index < newest && has_passed(self.asked, timeout, time) {
                    self.due = true;
                    self.asked = Some(time);
                }
            }
        }
    }
}

/// Whether so long a time has passed at `now` since `since`, or there was no such moment.
pub fn has_passed(since: Option<u64>, timeout: u32, now: u64) -> bool
    ensures { result ≡ has_passed since timeout now }
{
    match since {
        Some(first) => now.saturating_sub(first) >= u64::from(timeout),
        None => true,
    }
}
