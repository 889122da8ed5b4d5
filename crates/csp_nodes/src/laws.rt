//! Laws of the lists of all nodes.

ghost use Rattle.std.specs.Prelude.{◌≡◌, ◌+◌, ℕ, List, Some, length, map, slice_get, if◌then◌else◌};
ghost use Rattle.csp_deck.specs.Step.{times, op_numbers, answer_numbers};
ghost use Rattle.csp_lists.specs.PlainDeck.{PlainDeck, numbers_in};
ghost use Rattle.csp_log.specs.declared.places.End.{End};
ghost use Rattle.csp_log.specs.declared.places.QueueId.{QueueId};
ghost use Rattle.csp_log.specs.declared.shown.OpShown.{OpShown};
ghost use Rattle.csp_nodes.specs.Serving.{answer_in, is_served_at, rule_in};
ghost use Rattle.csp_log.specs.declared.who.Who.{Who};

/// The conservation law: the lists of the node that serves an operation lose just the number that its
/// answer brings and gain just the number that it hands over, and those of any other node have what
/// they had.
pub fn conserves()
    ensures { (decks : List PlainDeck) (links : List (List End)) (w : Who) (o : OpShown) (node : ℕ) (d : PlainDeck) → slice_get decks node ≡ Some d
        → (e : PlainDeck) × (slice_get (answer_in decks links w o).1 node ≡ Some e)
        × ((k : ℕ) → times k (numbers_in e) + (if is_served_at links w o node then times k (answer_numbers (answer_in decks links w o).0) else 0)
        ≡ times k (numbers_in d) + (if is_served_at links w o node then times k (op_numbers o) else 0)) }
{
    csp_lists::conserves();
}

/// An operation changes no queue's rule, no room of a pool and no number of queues.
pub fn keeps_shape()
    ensures rules { (decks : List PlainDeck) (links : List (List End)) (w : Who) (o : OpShown) (x : Who) (q : QueueId) → rule_in (answer_in decks links w o).1 links x q ≡ rule_in decks links x q }
    ensures rooms { (decks : List PlainDeck) (links : List (List End)) (w : Who) (o : OpShown) → map (λ d. d.pool.room) (answer_in decks links w o).1 ≡ map (λ d. d.pool.room) decks }
    ensures queues { (decks : List PlainDeck) (links : List (List End)) (w : Who) (o : OpShown) → map (λ d. length d.queues) (answer_in decks links w o).1 ≡ map (λ d. length d.queues) decks }
{
    csp_lists::keeps_shape();
}
