//! What holds between rounds holds at the opening, and each round and each meeting keeps it.

ghost use Rattle.csp_ends.specs.Ends.{PlainNodeQueues};
ghost use Rattle.csp_posts.specs.Between.{AreAllTraced, AreInRounds, HasHeard, HaveMet};
ghost use Rattle.csp_posts.specs.Posts.{AreTurns, PlainPost};
ghost use Rattle.csp_log.specs.declared.who.Who.{Who};
ghost use Rattle.std.specs.Prelude.{◌≡◌, ◌+◌, ℕ, List, []};
ghost use Rattle.std.specs.List.{AllByRecursion, AllZip};

/// Where all parties have met, a round of all of them, with any number of turns, keeps what holds
/// between rounds: a queue that was found empty or full in it was so by what each party knew.
pub fn goes_on()
    ensures { (nodes : List PlainNodeQueues) (opened : Who → List ℕ) (now count : ℕ) (posts after : List PlainPost) → AreAllTraced nodes opened posts → AreInRounds nodes now posts → HaveMet posts → AllZip (AreTurns nodes now count) posts after → AreInRounds nodes (now + 1) after }
{}

/// It holds before the first round.
pub fn starts()
    ensures { (nodes : List PlainNodeQueues) (posts : List PlainPost) → AllByRecursion (λ s. s.entries ≡ []) posts → AreInRounds nodes 0 posts }
{}

/// A meeting keeps it.
pub fn keeps_when_met()
    ensures { (nodes : List PlainNodeQueues) (now : ℕ) (posts after : List PlainPost) → AreInRounds nodes now posts → AllZip HasHeard posts after → AreInRounds nodes now after }
{}
