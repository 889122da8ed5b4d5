//! The rule of one queue of an inbox, and what each step tells.

ghost use Rattle.std.specs.Prelude.{◌≡◌, ℕ};

use crate::hand::Hand;
use csp_deck::Item;
use csp_ring::protocol::{Finding, Join, Lesson, Outcome, Protocol, Split};
use csp_ring::{Pass, RuledRing};
use std::marker::{Brand, PhantomData};

/// What was got and then what the queue holds has, for each mark, what was put under it, in order.
pub(crate) struct Arrivals;

impl Protocol<Item, Hand> for Arrivals {
    ghost use Rattle.csp_inbox.specs.Sorts.{Sorts, newcomer};

    ghost holds = { Sorts };

    ghost first = { newcomer };
}

/// One queue of an inbox.
pub(crate) type Queue = RuledRing<Item, Hand, Arrivals>;

/// A pass of it.
pub(crate) type Port = Pass<Item, Hand>;

/// A put, or a look that found no room.
pub(crate) struct Puts;

impl Outcome<Item, Hand> for Puts {
    ghost use Rattle.csp_inbox.specs.Passes.{with_kept};
    ghost use Rattle.csp_inbox.specs.Sorts.{hand};
    ghost use Rattle.csp_log.specs.Pictures.{shown_item};

    ghost then = { λ v x w. w ≡ hand v.role v.prio (with_kept v.mail (shown_item x)) };
}

impl Finding<Item, Hand> for Puts {
    ghost use Rattle.csp_inbox.specs.Sorts.{Overflows};

    ghost found = { Overflows };
}

/// A get by the opening pass, or a look that found nothing.
pub(crate) struct Gets;

impl Outcome<Item, Hand> for Gets {
    ghost use Rattle.csp_inbox.specs.Sorts as sorts;

    ghost then = { sorts.Gets };
}

impl Finding<Item, Hand> for Gets {
    ghost use Rattle.csp_inbox.specs.Sorts.{Misses};

    ghost found = { λ v items w. Misses v w };
}

/// A get by the opening pass with all marks at home.
pub(crate) struct Empties;

impl Outcome<Item, Hand> for Empties {
    ghost use Rattle.csp_inbox.specs.Sorts as sorts;

    ghost then = { sorts.Gets };
}

impl Finding<Item, Hand> for Empties {
    ghost use Rattle.csp_inbox.specs.Sorts.{Accounts};

    ghost found = { λ v items w. (w ≡ v) × Accounts v items };
}

impl Lesson<Item, Hand> for Empties {
    ghost use Rattle.csp_inbox.specs.Sorts.{Accounts};

    ghost fact = { Accounts };
}

/// What a queue is opened for.
pub(crate) trait Opening {
    ghost use Rattle.csp_inbox.specs.Sorts.{Terms};

    ghost terms: { Terms };
}

impl Opening for Brand {
    ghost use Rattle.csp_inbox.specs.Sorts.{no_terms};

    ghost terms = { no_terms };
}

/// The first pass becomes the opening pass.
pub(crate) struct Opens<K> {
    terms: PhantomData<K>,
}

impl<K: Opening> Split<Hand> for Opens<K> {
    ghost use Rattle.csp_inbox.specs.Sorts.{opening_hand, spent};

    ghost left = { λ _. opening_hand K.terms };

    ghost right = { λ _. spent };
}

/// The mark of a pass that is split off.
pub(crate) trait Marking {
    ghost mark: { ℕ };
}

impl Marking for Brand {
    ghost mark = { 0 };
}

/// The opening pass gives a mark away.
pub(crate) struct Parts<K> {
    mark: PhantomData<K>,
}

impl<K: Marking> Split<Hand> for Parts<K> {
    ghost use Rattle.csp_inbox.specs.Sorts.{parted_hand, split_hand};

    ghost left = { λ v. parted_hand v K.mark };

    ghost right = { λ v. split_hand v K.mark };
}

/// The opening pass takes another in.
pub(crate) struct Rejoins;

impl Join<Hand> for Rejoins {
    ghost use Rattle.csp_inbox.specs.Sorts.{both_hands};
    ghost use Rattle.csp_inbox.specs.Sorts as sorts;

    ghost both = { both_hands };

    ghost spent = { sorts.spent };
}

/// A note of what was put, and its reading.
pub(crate) struct PutNote;

impl Split<Hand> for PutNote {
    ghost use Rattle.csp_inbox.specs.Sorts.{put_note};

    ghost left = { λ v. v };

    ghost right = { put_note };
}

impl Join<Hand> for PutNote {
    ghost use Rattle.csp_inbox.specs.Sorts.{reads_puts};
    ghost use Rattle.csp_inbox.specs.Sorts as sorts;

    ghost both = { reads_puts };

    ghost spent = { sorts.spent };
}

/// A note of what was got, and its reading.
pub(crate) struct GetNote;

impl Split<Hand> for GetNote {
    ghost use Rattle.csp_inbox.specs.Sorts.{get_note};

    ghost left = { λ v. v };

    ghost right = { get_note };
}

impl Join<Hand> for GetNote {
    ghost use Rattle.csp_inbox.specs.Sorts.{reads_gets};
    ghost use Rattle.csp_inbox.specs.Sorts as sorts;

    ghost both = { reads_gets };

    ghost spent = { sorts.spent };
}
