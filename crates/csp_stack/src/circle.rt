//! The queues that a router looks into, one after the other, while each of them is empty.

ghost use Rattle.std.specs.Prelude.{◌≡◌, [], All, IfSome, IsSome, IsTrue};
ghost use Rattle.csp_deck.specs.Circles.{LooksInto};
ghost use Rattle.csp_stack.specs.Circles.{IsIdle, Passes, at_cursor, look_of, router_of, router_steps};
ghost use Rattle.csp_stack.specs.Party.{IsSound, rules_of};

use crate::facts::Facts;
use crate::sources::{past_app, past_inbox};
use crate::state::State;
use crate::turn::find_work;
use crate::{Plan, Source};
use csp_deck::{Circle, MAX_CIRCLE, QueueId};

/// The queues that a router looks into until it is as it is now, where each is empty. None where it has anything
/// else to do before, or doesn't come round.
pub fn circle(facts: &Facts, state: &State, now: u64) -> Circle
    requires sound { IsSound facts.now state.now.state }
    ensures looks { LooksInto router_steps now (router_of facts.now state.now) result.items (router_of facts.now state.now) }
    ensures served { All (λ q. IsSome (rules_of facts.now q)) result.items }
{
    let mut circle = Circle::new();
    if is_idle(state, now) && goes_round(facts, state, now, &mut circle) {
        return circle;
    }
    Circle::new()
}

/// Whether nothing is awaited and nothing is to be done before a source is looked at.
fn is_idle(state: &State, now: u64) -> bool
    ensures { IsTrue result → IsIdle state.now.state now }
{
    matches!(state.doing, Plan::Rest) && state.is_still(now)
}

/// Lists the queues that a router looks into from its cursor on, where each is empty, until the cursor is where it
/// was. Answers whether it came so far.
fn goes_round(facts: &Facts, state: &State, now: u64, circle: &mut Circle) -> bool
    requires apps { state.now.state.ports.conns.apps ≡ facts.now.apps }
    requires idle { IsIdle state.now.state now }
    requires unwritten { circle.old.items ≡ [] }
    ensures looks { IsTrue result → LooksInto router_steps now (router_of facts.now state.now) circle.new.items (router_of facts.now state.now) }
    ensures served { All (λ q. IsSome (rules_of facts.now q)) circle.new.items }
{
    let mut cursor = state.cursor;
    for _ in 0..MAX_CIRCLE {
        let Some((queue, past)) = next_look(facts, state, cursor, now) else {
            return false;
        };
        circle.push(queue);
        cursor = past;
        if cursor == state.cursor {
            return true;
        }
    }
    false
}

/// The queue that a router without anything else to do looks into from this cursor on, and the cursor past it.
#[tactic(auto, using(crate::proofs::Circling::vain_look))]
fn next_look(facts: &Facts, state: &State, cursor: usize, now: u64) -> Option<(QueueId, usize)>
    requires apps { state.now.state.ports.conns.apps ≡ facts.now.apps }
    requires idle { IsIdle state.now.state now }
    ensures look { result ≡ look_of facts.now (at_cursor state.now.state cursor) now }
    ensures passes { IfSome result (Passes facts.now state.now now cursor) }
{
    match find_work(facts, state, cursor, now) {
        Some(Source::Inbox) => Some((QueueId::Inbox, past_inbox(facts))),
        Some(Source::App(app)) => Some((QueueId::Up(app), past_app(facts, app))),
        Some(Source::Jobs) | None => None,
    }
}
