//! How what a party has in hand of its own node serves its operations.

ghost use Rattle.std.specs.Prelude.{◌≡◌, ⊤, IfErr, IfSome, MatchOption, MatchResult};
ghost use Rattle.csp_deck.specs.Carried.{IsCarriedIn};
ghost use Rattle.csp_deck.specs.Regions.{IsItemOf};
ghost use Rattle.csp_deck.specs.Step.{IsCleared};
ghost use Rattle.csp_ends.specs.Ends.{AreOf, AreEnds, region_of, rule_of};
ghost use Rattle.csp_ends.specs.Moves.{room_for};
ghost use Rattle.csp_ends.specs.Serving.{Serves, FoundPoolEmpty, FoundPoolFull};
ghost use Rattle.csp_log.specs.Pictures.{shown_item};
ghost use Rattle.csp_log.specs.declared.shown.AnswerShown.{AnswerShown};
ghost use Rattle.csp_log.specs.declared.shown.OpShown.{OpShown};

use crate::ends::Ends;
use crate::queues::Queues;
use csp_buffer::Buffer;
use csp_deck::{Item, QueueId};
use std::sync::Wait;

/// Serves a take.
pub(crate) fn take<R: Wait>(rt: &R, queues: &Queues, ends: &mut Ends) -> Option<Buffer>
    requires { AreOf queues.now ends.old }
    ensures served { MatchOption result
        (Serves queues.now ends.old OpShown.Take AnswerShown.NoBuffer ends.new)
        (λ b. Serves queues.now ends.old OpShown.Take (AnswerShown.Taken b.picture) ends.new) }
    ensures empty { MatchOption result (FoundPoolEmpty ends.old.home ends.new.home) (λ _. ⊤) }
    ensures cleared { IfSome result (λ b. IsCleared b.picture) }
    ensures within { IfSome result (λ b. b.region ≡ region_of ends.old) }
{
    match &mut ends.home {
        Some(home) => home.take(rt, queues),
        None => None,
    }
}

/// Serves a give.
pub(crate) fn give<R: Wait>(
    rt: &R,
    queues: &Queues,
    ends: &mut Ends,
    buffer: Buffer,
) -> Result<(), Buffer>
    requires of_it { AreOf queues.now ends.old }
    requires within { buffer.region ≡ region_of ends.old }
    ensures served { MatchResult result
        (λ _. Serves queues.now ends.old (OpShown.Give buffer.picture) AnswerShown.Given ends.new)
        (λ b. Serves queues.now ends.old (OpShown.Give buffer.picture) (AnswerShown.PoolFull b.picture) ends.new) }
    ensures full { IfErr result (λ _. FoundPoolFull (room_for queues.now ends.old.home) ends.old.home ends.new.home) }
    ensures back { IfErr result (λ b. b ≡ buffer) }
{
    match &mut ends.home {
        Some(home) => home.give(rt, queues, buffer),
        None => Err(buffer),
    }
}

/// Serves a push to the inbox.
pub(crate) fn post<R: Wait>(
    rt: &R,
    queues: &Queues,
    ends: &mut Ends,
    item: Item,
) -> Result<(), Item>
    requires of_it { AreOf queues.now ends.old }
    requires whole { AreEnds ends.old }
    requires carried { IsCarriedIn (rule_of ends.old QueueId.Inbox) (shown_item item) }
    requires within { IsItemOf (region_of ends.old) item }
    ensures served { MatchResult result
        (λ _. Serves queues.now ends.old (OpShown.Push QueueId.Inbox (shown_item item)) AnswerShown.Pushed ends.new)
        (λ i. Serves queues.now ends.old (OpShown.Push QueueId.Inbox (shown_item item)) (AnswerShown.Full (shown_item i)) ends.new) }
    ensures back { IfErr result (λ i. i ≡ item) }
{
    match &mut ends.home {
        Some(home) => home.put(rt, queues, item),
        None => Err(item),
    }
}

/// Serves a pop of the inbox.
pub(crate) fn receive<R: Wait>(rt: &R, queues: &Queues, ends: &mut Ends) -> Option<Item>
    requires of_it { AreOf queues.now ends.old }
    requires whole { AreEnds ends.old }
    ensures served { MatchOption result
        (Serves queues.now ends.old (OpShown.Pop QueueId.Inbox) AnswerShown.Empty ends.new)
        (λ i. Serves queues.now ends.old (OpShown.Pop QueueId.Inbox) (AnswerShown.Popped (shown_item i)) ends.new) }
    ensures carried { IfSome result (λ i. IsCarriedIn (rule_of ends.old QueueId.Inbox) (shown_item i)) }
    ensures within { IfSome result (λ i. IsItemOf (region_of ends.old) i) }
{
    match &mut ends.home {
        Some(home) => home.get(rt, queues),
        None => None,
    }
}
