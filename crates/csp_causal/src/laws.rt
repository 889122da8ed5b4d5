//! How two logs stay causal as they grow.

ghost use Rattle.std.specs.Prelude.{◌≡◌, ◌≤◌, List, [], ◌∷◌, ◌++◌, length};
ghost use Rattle.csp_causal.specs.Causal.{AreCausal};
ghost use Rattle.csp_consistent.specs.Reading.{gets, puts};
ghost use Rattle.csp_log.specs.declared.entry.Entry.{Entry};
ghost use Rattle.csp_log.specs.declared.places.QueueId.{QueueId};

/// Two logs without a turn are causal. With one more turn of either party they stay so, where no more was then got of a lane than was put into it.
pub fn grows_causal()
    ensures none { (there back : QueueId) → AreCausal there back [] [] }
    ensures first { (there back : QueueId) (first second : List Entry) (e : Entry) → AreCausal there back first second → length (gets there second) ≤ length (puts there (first ++ e ∷ [])) → AreCausal there back (first ++ e ∷ []) second }
    ensures second { (there back : QueueId) (first second : List Entry) (e : Entry) → AreCausal there back first second → length (gets back first) ≤ length (puts back (second ++ e ∷ [])) → AreCausal there back first (second ++ e ∷ []) }
{}
