//! What the turns of a party keep of what it has in hand.

ghost use Rattle.std.specs.Prelude.{◌≡◌, ℕ, List};
ghost use Rattle.csp_ends.specs.Ends.{PlainNodeQueues, PlainEnds, AreOf, AreEnds, region_of, rule_of};
ghost use Rattle.csp_ends.specs.Moves.{ends_after, room_for};
ghost use Rattle.csp_log.specs.declared.places.QueueId.{QueueId};
ghost use Rattle.csp_log.specs.declared.shown.AnswerShown.{AnswerShown};
ghost use Rattle.csp_log.specs.declared.shown.OpShown.{OpShown};

/// After a turn, whatever was asked and answered, what a party has in hand is of the queues that it was of, and is what a party may have; its buffers
/// are of the same region, its queues carry the same, and the pool of its node has the same room.
pub fn turns_keep_ends()
    ensures of_it { (nodes : List PlainNodeQueues) (room : ℕ) (o : OpShown) (a : AnswerShown) (e : PlainEnds) → AreOf nodes e → AreOf nodes (ends_after room o a e) }
    ensures whole { (room : ℕ) (o : OpShown) (a : AnswerShown) (e : PlainEnds) → AreEnds e → AreEnds (ends_after room o a e) }
    ensures region { (room : ℕ) (o : OpShown) (a : AnswerShown) (e : PlainEnds) → region_of (ends_after room o a e) ≡ region_of e }
    ensures rules { (room : ℕ) (o : OpShown) (a : AnswerShown) (e : PlainEnds) (q : QueueId) → rule_of (ends_after room o a e) q ≡ rule_of e q }
    ensures room { (nodes : List PlainNodeQueues) (room : ℕ) (o : OpShown) (a : AnswerShown) (e : PlainEnds) → room_for nodes (ends_after room o a e).home ≡ room_for nodes e.home }
{}
