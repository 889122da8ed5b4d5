//! What turns keep of a party of a threaded run.

ghost use Rattle.std.specs.Prelude.{◌≡◌, ℕ, ◌+◌, ◌<◌, ◌≤◌, List};
ghost use Rattle.std.specs.List.{AllByRecursion};
ghost use Rattle.csp_consistent.specs.Reading.{gets};
ghost use Rattle.csp_deck.specs.Carried.{IsCarried};
ghost use Rattle.csp_deck.specs.Runs.{Runs, last_time};
ghost use Rattle.csp_ends.specs.Ends.{PlainNodeQueues, AreOf, AreEnds};
ghost use Rattle.csp_ends.specs.Traced.{AreMarked, AreTraced};
ghost use Rattle.csp_log.specs.declared.places.QueueId.TheVariants as queue;
ghost use Rattle.csp_log.specs.declared.places.Rule.TheVariants as rule;
ghost use Rattle.csp_party.specs.Any.{PlainParty};
ghost use Rattle.csp_posts.specs.Balance.{IsBalanced};
ghost use Rattle.csp_posts.specs.Posts.{PlainPost, AreTurns};
ghost use Rattle.csp_posts.specs.Still.{still, IsPostFrom};
ghost use Rattle.csp_posts.specs.Through.{IsThrough, WasCrammed};
ghost use Rattle.csp_topology.specs.Parties.{party_steps};

/// Turns at one time, and then more at that time, are as many turns as both.
pub fn turns_add_up()
    ensures { (nodes : List PlainNodeQueues) (time a b : ℕ) (s t u : PlainPost) → AreTurns nodes time a s t → AreTurns nodes time b t u → AreTurns nodes time (a + b) s u }
{}

/// Turns leave what a party has in hand of the queues that it was of, and as it was but for what went through it: so they keep each fact that is
/// said of that alone.
pub fn turns_leave_ends()
    ensures still { (nodes : List PlainNodeQueues) (time count : ℕ) (s t : PlainPost) → AreTurns nodes time count s t → still t.ends ≡ still s.ends }
    ensures of_it { (nodes : List PlainNodeQueues) (time count : ℕ) (s t : PlainPost) → AreTurns nodes time count s t → AreOf nodes s.ends → AreOf nodes t.ends }
    ensures ends { (nodes : List PlainNodeQueues) (time count : ℕ) (s t : PlainPost) → AreTurns nodes time count s t → AreEnds s.ends → AreEnds t.ends }
{}

/// Where what a party has in hand told what its log says, its marks too, it still does after turns; where no buffer was lost or made in its hands, none is by turns;
/// and where its log was a run from an opening, it is one with turns that come no earlier. Where all that came from the inbox was what an inbox
/// carries, it still is, and all that went through an end is what its lane carries; a push is refused only where there is no room; and what is said
/// of all times, it keeps at one of which it is true.
pub fn turns_keep_post()
    ensures traced { (nodes : List PlainNodeQueues) (time count : ℕ) (opened : List ℕ) (s t : PlainPost) → AreTurns nodes time count s t → AreTraced opened s.entries s.ends → AreTraced opened t.entries t.ends }
    ensures marked { (nodes : List PlainNodeQueues) (time count : ℕ) (opened : List ℕ) (s t : PlainPost) → AreTurns nodes time count s t → AreEnds s.ends → AreTraced opened s.entries s.ends → AreMarked s.entries s.ends.sides → AreMarked t.entries t.ends.sides }
    ensures balanced { (nodes : List PlainNodeQueues) (time count : ℕ) (opened : List ℕ) (s t : PlainPost) → AreTurns nodes time count s t → AreEnds s.ends → IsBalanced opened s → IsBalanced opened t }
    ensures runs { (nodes : List PlainNodeQueues) (time count : ℕ) (opening : PlainParty) (s t : PlainPost) → AreTurns nodes time count s t → last_time 0 s.entries ≤ time → Runs party_steps opening s.entries s.party → Runs party_steps opening t.entries t.party }
    ensures all { (nodes : List PlainNodeQueues) (time count : ℕ) (opening : PlainParty) (opened : List ℕ) (s t : PlainPost) → AreTurns nodes time count s t → last_time 0 s.entries ≤ time → IsPostFrom nodes opening opened s → IsPostFrom nodes opening opened t }
    ensures got { (nodes : List PlainNodeQueues) (time count : ℕ) (s t : PlainPost) → AreTurns nodes time count s t → AllByRecursion (IsCarried rule.Inbox) (gets queue.Inbox s.entries) → AllByRecursion (IsCarried rule.Inbox) (gets queue.Inbox t.entries) }
    ensures through { (nodes : List PlainNodeQueues) (time count : ℕ) (s t : PlainPost) → AreTurns nodes time count s t → AreEnds s.ends → AllByRecursion IsThrough s.ends.sides → AllByRecursion IsThrough t.ends.sides }
    ensures full { (nodes : List PlainNodeQueues) (time count : ℕ) (opened : List ℕ) (s t : PlainPost) → AreTurns nodes time count s t → AreTraced opened s.entries s.ends → AllByRecursion (WasCrammed s.entries) s.ends.sides → AllByRecursion (WasCrammed t.entries) t.ends.sides }
    ensures early { (nodes : List PlainNodeQueues) (time count limit : ℕ) (s t : PlainPost) → AreTurns nodes time count s t → time < limit → AllByRecursion (λ e. e.time < limit) s.entries → AllByRecursion (λ e. e.time < limit) t.entries }
    ensures last { (nodes : List PlainNodeQueues) (time count : ℕ) (s t : PlainPost) → AreTurns nodes time count s t → last_time 0 s.entries ≤ time → last_time 0 t.entries ≤ time }
{}
