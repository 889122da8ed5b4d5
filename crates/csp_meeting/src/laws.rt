//! What meetings keep.

ghost use Rattle.std.specs.Prelude.{◌≡◌, ℕ, List};
ghost use Rattle.csp_ends.specs.Ends.{PlainNodeQueues, PlainEnds, AreOf, AreEnds, region_of, rule_of};
ghost use Rattle.csp_ends.specs.Traced.{AreMarked, AreTraced};
ghost use Rattle.csp_log.specs.declared.entry.Entry.{Entry};
ghost use Rattle.csp_log.specs.declared.places.QueueId.{QueueId};
ghost use Rattle.csp_meeting.specs.Meeting.{KnowsMore};

/// A party that knows more has what it had in hand: of the queues that it was of, and what a party may have; its buffers are of the same region, its
/// queues carry the same, and what went through them is what its log says, with its marks.
#[tactic(auto, using(crate::proofs::Keeping::of_it, crate::proofs::Keeping::whole, crate::proofs::Keeping::region, crate::proofs::Keeping::rules, crate::proofs::Keeping::traced, crate::proofs::Keeping::marked))]
pub fn meetings_keep_ends()
    ensures of_it { (nodes : List PlainNodeQueues) (d e : PlainEnds) → KnowsMore d e → AreOf nodes d → AreOf nodes e }
    ensures whole { (d e : PlainEnds) → KnowsMore d e → AreEnds d → AreEnds e }
    ensures region { (d e : PlainEnds) → KnowsMore d e → region_of e ≡ region_of d }
    ensures rules { (d e : PlainEnds) (q : QueueId) → KnowsMore d e → rule_of e q ≡ rule_of d q }
    ensures traced { (d e : PlainEnds) (opened : List ℕ) (es : List Entry) → KnowsMore d e → AreTraced opened es d → AreTraced opened es e }
    ensures marked { (d e : PlainEnds) (es : List Entry) → KnowsMore d e → AreMarked es d.sides → AreMarked es e.sides }
{}

/// A party knows what it knows, and what it knew before it knew more.
#[tactic(auto, using(crate::proofs::Keeping::none, crate::proofs::Keeping::both))]
pub fn meetings_add_up()
    ensures none { (d : PlainEnds) → KnowsMore d d }
    ensures both { (c d e : PlainEnds) → KnowsMore c d → KnowsMore d e → KnowsMore c e }
{}
