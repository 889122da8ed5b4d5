//! How far a script has come.

ghost use Rattle.std.specs.Prelude.{◌≡◌, ◌+◌, ◌-◌, ◌<◌, ◌^◌, Some, None, false, true, nat_le, nat_lt, unwrap_or, if◌then◌else◌};

/// How many steps are done, and how far the present one has come: since when it has turns of its own,
/// whether its note was pushed, and how many of its packets were.
#[derive(Drop, Clone, Copy)]
pub struct Progress {
    pub done: usize,
    pub since: Option<u64>,
    pub asked: bool,
    pub sent: u32,
}

impl Progress {
    /// The start of a script.
    pub fn start() -> Progress
        ensures { result ≡ record { done = 0; since = None; asked = false; sent = 0 } }
    {
        Progress {
            done: 0,
            since: None,
            asked: false,
            sent: 0,
        }
    }

    /// The present step has a turn of its own.
    pub fn note(&mut self, now: u64)
        ensures { self.new ≡ record self.old { since = Some (unwrap_or self.old.since now) } }
    {
        self.since = Some(self.since.unwrap_or(now));
    }

    /// The present step is done.
    pub fn advance(&mut self)
        requires { self.old.done + 1 < 2 ^ 64 }
        ensures { self.new ≡ record { done = self.old.done + 1; since = None; asked = false; sent = 0 } }
    {
        self.done += 1;
        self.since = None;
        self.asked = false;
        self.sent = 0;
    }

    /// Whether so many rounds have passed since the present step's first turn.
    pub fn has_passed(&self, rounds: u32, now: u64) -> bool
        ensures { result ≡ nat_le rounds (now - unwrap_or self.now.since now) }
    {
        u64::from(rounds) <= now.saturating_sub(self.since.unwrap_or(now))
    }

    /// Whether the present step, of so many packets, has more of them after the next.
    pub fn has_more(&self, packets: u32) -> bool
        ensures { result ≡ nat_lt (self.now.sent + 1) packets }
    {
        u64::from(self.sent) + 1 < u64::from(packets)
    }
}
