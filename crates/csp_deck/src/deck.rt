//! What serves a party.

ghost use Rattle.std.specs.Prelude.{◌≡◌, ℕ, ⊤, Option, IsSome, IsTrue, false, IfSome, IfErr, MatchOption, MatchResult};
ghost use Rattle.std.specs.List.{AllByRecursion};
ghost use Rattle.csp_deck.specs.Carried.{IsCarriedIn, place_for, places_of, passed_over};
ghost use Rattle.csp_deck.specs.Regions.{IsItemOf};
ghost use Rattle.csp_deck.specs.Step.{IsCleared};
ghost use Rattle.csp_log.specs.Pictures.{shown_item};

use crate::{Item, QueueId};
use csp_buffer::Buffer;

/// The pool and the queues that a party's operations go to: those of plain lists, or queues that
/// other parties use at the same time.
///
/// An operation that finds nothing, or no room, says which place was empty or full at a moment of
/// this call. What comes back is what was handed in. What an operation is and is answered, contracts
/// see as pictures; that its buffers are of the deck's region they say besides.
pub trait Deck {
    ghost use Rattle.csp_arena.specs.Cells.{RegionName};
    ghost use Rattle.csp_log.specs.declared.places.Place.{Place};
    ghost use Rattle.csp_log.specs.declared.places.Place.TheVariants as place;
    ghost use Rattle.csp_log.specs.declared.places.QueueId.{QueueId};
    ghost use Rattle.csp_log.specs.declared.places.Rule.{Rule};
    ghost use Rattle.csp_log.specs.declared.shown.OpShown.{OpShown};
    ghost use Rattle.csp_log.specs.declared.shown.AnswerShown.{AnswerShown};

    /// What each queue carries. `None` where this deck has no such queue.
    ghost rule: { Self → QueueId → Option Rule };

    /// The region of all its buffers.
    ghost region: { Self → RegionName };

    /// This operation can be answered so, and leaves the deck so.
    ghost answers: { Self → OpShown → AnswerShown → Self → Type 0 };

    /// At a moment of the operation that led from the first deck to the second, this place was empty.
    ghost was_empty: { Self → Self → Place → Type 0 };

    /// At such a moment this place was full.
    ghost was_full: { Self → Self → Place → Type 0 };

    /// No operation leaves the deck as it is.
    fn rest(&mut self)
        ensures answer { answers self.old OpShown.Nothing AnswerShown.Nothing self.new }
        ensures rules { (q : QueueId) → rule self.new q ≡ rule self.old q }
        ensures region { region self.new ≡ region self.old };

    /// Takes a buffer from the pool, cleared. `None` only where the pool was empty.
    fn take(&mut self) -> Option<Buffer>
        ensures answer { MatchOption result (answers self.old OpShown.Take AnswerShown.NoBuffer self.new) (λ b. answers self.old OpShown.Take (AnswerShown.Taken b.picture) self.new) }
        ensures empty { MatchOption result (was_empty self.old self.new place.Pool) (λ _. ⊤) }
        ensures cleared { IfSome result (λ b. IsCleared b.picture) }
        ensures of_it { IfSome result (λ b. b.region ≡ region self.old) }
        ensures rules { (q : QueueId) → rule self.new q ≡ rule self.old q }
        ensures region { region self.new ≡ region self.old };

    /// Puts a buffer into the pool. `Err`, with the buffer, only where the pool was full.
    fn give(&mut self, buffer: Buffer) -> Result<(), Buffer>
        requires { buffer.region ≡ region self.old }
        ensures answer { MatchResult result (λ _. answers self.old (OpShown.Give buffer.picture) AnswerShown.Given self.new) (λ b. answers self.old (OpShown.Give buffer.picture) (AnswerShown.PoolFull b.picture) self.new) }
        ensures full { IfErr result (λ _. was_full self.old self.new place.Pool) }
        ensures back { IfErr result (λ b. b ≡ buffer) }
        ensures rules { (q : QueueId) → rule self.new q ≡ rule self.old q }
        ensures region { region self.new ≡ region self.old };

    /// Appends an item to a queue that carries it, in the inbox to that of its header's priority.
    /// `Err`, with the item, only where that queue was full.
    fn push(&mut self, queue: QueueId, item: Item) -> Result<(), Item>
        requires carried { IsCarriedIn (rule self.old queue) (shown_item item) }
        requires of_it { IsItemOf (region self.old) item }
        ensures answer { MatchResult result (λ _. answers self.old (OpShown.Push queue (shown_item item)) AnswerShown.Pushed self.new) (λ i. answers self.old (OpShown.Push queue (shown_item item)) (AnswerShown.Full (shown_item i)) self.new) }
        ensures full { IfErr result (λ _. was_full self.old self.new (place_for queue (shown_item item))) }
        ensures back { IfErr result (λ i. i ≡ item) }
        ensures rules { (q : QueueId) → rule self.new q ≡ rule self.old q }
        ensures region { region self.new ≡ region self.old };

    /// Takes the first item of a queue, of the inbox that of the most urgent priority which has one.
    /// `None` only where that queue, in the inbox each of the four, was empty.
    fn pop(&mut self, queue: QueueId) -> Option<Item>
        requires { IsSome (rule self.old queue) }
        ensures answer { MatchOption result (answers self.old (OpShown.Pop queue) AnswerShown.Empty self.new) (λ i. answers self.old (OpShown.Pop queue) (AnswerShown.Popped (shown_item i)) self.new) }
        ensures empty { MatchOption result (AllByRecursion (was_empty self.old self.new) (places_of queue)) (λ i. AllByRecursion (was_empty self.old self.new) (passed_over queue (shown_item i))) }
        ensures carried { IfSome result (λ i. IsCarriedIn (rule self.old queue) (shown_item i)) }
        ensures of_it { IfSome result (λ i. IsItemOf (region self.old) i) }
        ensures rules { (q : QueueId) → rule self.new q ≡ rule self.old q }
        ensures region { region self.new ≡ region self.old };

    /// Looks into a queue, and says whether it was empty. Where this does not say so, nothing was done.
    fn misses(&mut self, queue: QueueId) -> bool
        requires { IsSome (rule self.old queue) }
        ensures answer { IsTrue result → answers self.old (OpShown.Pop queue) AnswerShown.Empty self.new }
        ensures empty { IsTrue result → AllByRecursion (was_empty self.old self.new) (places_of queue) }
        ensures rest { result ≡ false → self.new ≡ self.old }
        ensures rules { (q : QueueId) → rule self.new q ≡ rule self.old q }
        ensures region { region self.new ≡ region self.old }
    {
        let _queue = queue;
        false
    }
}
