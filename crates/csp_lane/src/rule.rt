//! The rule of a lane's queue, and what each step tells.

ghost use Rattle.std.specs.Prelude.{◌≡◌, []};
ghost use Rattle.std.specs.Option.{option_map};
ghost use Rattle.crossbeam_queue.specs.Passes.{view, IsSamePass, IsPassOf};
ghost use Rattle.csp_lane.specs.Relays.{IsLast, bounded, newcomer, no_course, reader, writer};

use crate::cargo::Cargo;
use crate::hand::Hand;
use crossbeam_queue::protocol::{Join, Lesson, Outcome, Protocol, Split};
use crossbeam_queue::{Pass, RuledArrayQueue};
use csp_arena::RegionToken;
use csp_deck::Carries;
use csp_tally::{Tally, TallyName};
use std::marker::{Brand, PhantomData};

/// What was got and then what the queue holds is what was put.
pub(crate) struct Order;

impl Protocol<Cargo, Hand> for Order {
    ghost use Rattle.csp_lane.specs.Relays.{Relays, newcomer};

    ghost holds = { Relays };

    ghost first = { newcomer };
}

/// The queue of a lane.
pub(crate) type Queue = RuledArrayQueue<Cargo, Hand, Order>;

/// A pass of it.
pub(crate) type Port = Pass<Cargo, Hand>;

/// A put.
pub(crate) struct Puts;

impl Outcome<Cargo, Hand> for Puts {
    ghost use Rattle.csp_lane.specs.Marks.{reached};
    ghost use Rattle.csp_lane.specs.Relays.{seen_in, with_put};

    ghost then = { λ v x w. w ≡ with_put v (seen_in x) (reached x.note) };
}

impl Lesson<Cargo, Hand> for Puts {
    ghost use Rattle.csp_lane.specs.Relays.{Crammed};

    ghost fact = { Crammed };
}

/// A get.
pub(crate) struct Gets;

impl Outcome<Cargo, Hand> for Gets {
    ghost use Rattle.csp_lane.specs.Relays as relays;

    ghost then = { relays.Gets };
}

impl Lesson<Cargo, Hand> for Gets {
    ghost use Rattle.csp_lane.specs.Relays.{Drained};

    ghost fact = { Drained };
}

/// A get by the pass that knows all.
pub(crate) struct Empties;

impl Outcome<Cargo, Hand> for Empties {
    ghost use Rattle.csp_lane.specs.Relays as relays;

    ghost then = { relays.Gets };
}

impl Lesson<Cargo, Hand> for Empties {
    ghost use Rattle.csp_lane.specs.Relays.{Accounts};

    ghost fact = { Accounts };
}

/// The terms of a lane that is being opened.
pub(crate) trait Opening {
    ghost terms: { Terms };

    ghost use Rattle.csp_lane.specs.Relays.{Terms};
}

impl Opening for Brand {
    ghost use Rattle.csp_lane.specs.Relays.{no_terms};

    ghost terms = { no_terms };
}

/// The first pass is parted into the ends.
pub(crate) struct Parts<K> {
    terms: PhantomData<K>,
}

impl<K: Opening> Split<Hand> for Parts<K> {
    ghost use Rattle.std.specs.Prelude.{[]};
    ghost use Rattle.csp_lane.specs.Relays.{no_course, reader, writer};

    ghost left = { λ _. writer K.terms no_course 0 };

    ghost right = { λ _. reader K.terms no_course [] 0 };
}

/// The producer writes a note.
pub(crate) struct PutNote;

impl Split<Hand> for PutNote {
    ghost use Rattle.std.specs.Prelude.{length};
    ghost use Rattle.csp_lane.specs.Relays.{note};

    ghost left = { λ v. v };

    ghost right = { λ v. note (length v.put.items) 0 };
}

/// The consumer reads it.
impl Join<Hand> for PutNote {
    ghost use Rattle.std.specs.Prelude.{max};
    ghost use Rattle.csp_lane.specs.Relays.{told, note};

    ghost both = { λ v w. told v (max v.known_puts w.known_puts) v.known_gets };

    ghost spent = { note 0 0 };
}

/// The consumer writes a note.
pub(crate) struct GetNote;

impl Split<Hand> for GetNote {
    ghost use Rattle.std.specs.Prelude.{length};
    ghost use Rattle.csp_lane.specs.Relays.{note};

    ghost left = { λ v. v };

    ghost right = { λ v. note 0 (length v.got.items) };
}

/// The producer reads it.
impl Join<Hand> for GetNote {
    ghost use Rattle.std.specs.Prelude.{max};
    ghost use Rattle.csp_lane.specs.Relays.{told, note};

    ghost both = { λ v w. told v v.known_puts (max v.known_gets w.known_gets) };

    ghost spent = { note 0 0 };
}

/// One pass for both ends.
pub(crate) struct Rejoins;

impl Join<Hand> for Rejoins {
    ghost use Rattle.csp_lane.specs.Relays.{both_hands, note};

    ghost both = { both_hands };

    ghost spent = { note 0 0 };
}

/// The bound of a mark.
pub(crate) trait Limit {
    ghost limit: { ℕ };

    ghost use Rattle.std.specs.Prelude.{ℕ};
}

impl Limit for Brand {
    ghost limit = { 0 };
}

/// The last mark gets its bound.
pub(crate) struct Heeds<K> {
    limit: PhantomData<K>,
}

impl<K: Limit> Split<Hand> for Heeds<K> {
    ghost use Rattle.csp_lane.specs.Relays.{bounded, note};

    ghost left = { λ v. bounded v K.limit };

    ghost right = { λ _. note 0 0 };
}

/// Parts the first pass into the ends of a lane on these terms.
pub(crate) fn part<K: Opening>(
    queue: &Queue,
    pass: &mut Port,
    region: &RegionToken,
    carries: Carries,
    room: u16,
    tally: &Tally,
    about: &Option<TallyName>,
) -> Port
    requires terms { K.terms ≡ record { region = region.now.name; carries = carries; room = room; tally = tally.now.name; about = option_map (λ t. t.name) about.now } }
    requires first { IsPassOf queue.now pass.old × (view pass.old ≡ newcomer) }
    ensures producer { IsSamePass pass.old pass.new × (view pass.new ≡ writer (record { region = region.now.name; carries = carries; room = room; tally = tally.now.name; about = option_map (λ t. t.name) about.now }) no_course 0) }
    ensures consumer { IsPassOf queue.now result × (view result ≡ reader (record { region = region.now.name; carries = carries; room = room; tally = tally.now.name; about = option_map (λ t. t.name) about.now }) no_course [] 0) }
{
    queue.another::<Parts<K>>(pass)
}

/// Bounds the last mark by what this tally has handed out.
pub(crate) fn heed<K: Limit>(queue: &Queue, pass: &mut Port, tally: &Tally)
    requires limit { K.limit ≡ tally.now.count }
    requires pass { IsPassOf queue.now pass.old }
    requires last { IsLast tally.now.count (view pass.old) }
    ensures { IsSamePass pass.old pass.new × (view pass.new ≡ bounded (view pass.old) tally.now.count) }
{
    let _note = queue.another::<Heeds<K>>(pass);
}
