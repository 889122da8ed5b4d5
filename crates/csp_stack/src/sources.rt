//! Where a router's work comes from.

ghost use Rattle.std.specs.Prelude.{◌≡◌, ℕ, ◌+◌, ◌<◌, ◌≤◌};
ghost use Rattle.csp_stack.specs.Sources.{source_count, source_at, place_past};

use crate::facts::Facts;

/// A source of work.
#[derive(Clone, Copy)]
pub enum Source {
    /// The inbox.
    Inbox,
    /// The `Up` of the application of this number.
    App(u8),
    /// The jobs of the connections, and the answers owed to applications.
    Jobs,
}

/// How many sources there are.
pub fn count_sources(facts: &Facts) -> usize
    ensures { result ≡ source_count facts.now }
{
    usize::from(facts.apps) + 2
}

/// The source at a place of their order.
pub fn source_in(facts: &Facts, place: usize) -> Source
    ensures value { result ≡ source_at facts.now place }
    ensures there { (k : ℕ) → result ≡ Source.App k → k < facts.now.apps }
{
    if place == 0 {
        Source::Inbox
    } else if place <= usize::from(facts.apps) {
        Source::App((place - 1) as u8)
    } else {
        Source::Jobs
    }
}

/// The place past that of the inbox.
pub fn past_inbox(facts: &Facts) -> usize
    ensures { result ≡ place_past facts.now 0 }
{
    past(facts, 0)
}

/// The place past that of an application.
pub fn past_app(facts: &Facts, app: u8) -> usize
    ensures { result ≡ place_past facts.now (app + 1) }
{
    past(facts, usize::from(app) + 1)
}

/// The place past that of the jobs.
pub fn past_jobs(facts: &Facts) -> usize
    ensures { result ≡ place_past facts.now (facts.now.apps + 1) }
{
    past(facts, usize::from(facts.apps) + 1)
}

/// The place past this one, in a circle.
fn past(facts: &Facts, place: usize) -> usize
    requires { place ≤ 256 }
    ensures { result ≡ place_past facts.now place }
{
    if place + 1 == count_sources(facts) {
        0
    } else {
        place + 1
    }
}
