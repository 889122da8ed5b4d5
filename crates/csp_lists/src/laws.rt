//! Laws of the deck of lists.

ghost use Rattle.std.specs.Prelude.{◌≡◌, ◌+◌, ◌*◌, ℕ, List, Some, IsSome, length, map, sum_by};
ghost use Rattle.csp_buffer.specs.Content.{Content};
ghost use Rattle.csp_lists.specs.Gathered.{queued_numbers};
ghost use Rattle.csp_lists.specs.Order.{position_of};
ghost use Rattle.csp_lists.specs.PlainDeck.{PlainDeck, answer_of, buffer_numbers, emptied, holders_of, numbers_in, opening_deck, opening_queue, queue_at, shape_of};
ghost use Rattle.csp_deck.specs.Step.{times, op_numbers, answer_numbers};
ghost use Rattle.csp_log.specs.declared.shown.OpShown.{OpShown};
ghost use Rattle.csp_log.specs.declared.places.Carries.{Carries};
ghost use Rattle.csp_log.specs.declared.places.Place.{Place};

/// The conservation law: an operation takes from the deck just the number that its answer brings, and leaves
/// in it just the number that it hands over.
pub fn conserves()
    ensures { (d : PlainDeck) (o : OpShown) (k : ℕ) → times k (numbers_in (answer_of d o).1) + times k (answer_numbers (answer_of d o).0) ≡ times k (numbers_in d) + times k (op_numbers o) }
{}

/// An operation changes nothing of a deck but the items of its queues and the buffers of its pool: each
/// queue keeps its place, its rule and its room, and the pool its room.
pub fn keeps_shape()
    ensures queues { (d : PlainDeck) (o : OpShown) → map emptied (answer_of d o).1.queues ≡ map emptied d.queues }
    ensures shape { (d : PlainDeck) (o : OpShown) → (answer_of d o).1.shape ≡ d.shape }
    ensures pool { (d : PlainDeck) (o : OpShown) → (answer_of d o).1.pool.room ≡ d.pool.room }
{}

/// A number has as many holders in a deck as it is often in it.
pub fn counts_holders()
    ensures { (d : PlainDeck) (k : ℕ) → length (holders_of d k) ≡ times k (numbers_in d) }
{}

/// What is taken back at the end, from the pool and from the queues, is what is in the deck.
pub fn gathers()
    ensures { (d : PlainDeck) (k : ℕ) → times k (buffer_numbers d.pool.items) + times k (queued_numbers d) ≡ times k (numbers_in d) }
{}

/// At the opening a deck has the numbers of its buffers, and no other. Each of its queues stands at the
/// position of its place, empty. It has the four queues of the inbox, two lanes for each application and
/// three for each interface.
pub fn opens()
    ensures numbers { (buffers : List Content) (inbox apps : ℕ) (ifaces : List Carries) (k : ℕ) → times k (numbers_in (opening_deck buffers inbox apps ifaces)) ≡ times k (buffer_numbers buffers) }
    ensures stands { (buffers : List Content) (inbox apps : ℕ) (ifaces : List Carries) (p : Place) → IsSome (position_of (shape_of apps ifaces) p) → queue_at (opening_deck buffers inbox apps ifaces) p ≡ Some (opening_queue inbox ifaces p) }
    ensures queues { (buffers : List Content) (inbox apps : ℕ) (ifaces : List Carries) → length (opening_deck buffers inbox apps ifaces).queues ≡ 4 + 2 * apps + 3 * length ifaces }
{}

/// Two lists that have each number as often weigh the same by every weight, and are as long.
pub fn weighs()
    ensures weight { (xs ys : List ℕ) → ((k : ℕ) → times k xs ≡ times k ys) → (weight : ℕ → ℕ) → sum_by weight xs ≡ sum_by weight ys }
    ensures len { (xs ys : List ℕ) → ((k : ℕ) → times k xs ≡ times k ys) → length xs ≡ length ys }
{}
