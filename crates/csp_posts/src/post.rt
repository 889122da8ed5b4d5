//! A party of a threaded run: its turns and its rounds.

ghost use Rattle.std.specs.Prelude.{◌≡◌, ◌↔◌, ◌+◌, ◌++◌, ◌∷◌, ◌-◌, ◌<◌, ◌≤◌, ◌^◌, [], true, false, Some, length, max, OnOk, OnErr, vec_capacity};
ghost use Rattle.std.specs.List.{list_all};
ghost use Rattle.csp_base.specs.declared.turns.Turn.{Turn};
ghost use Rattle.csp_ends.specs.Ends.{rule_of, AreEnds};
ghost use Rattle.csp_ends.specs.Ends as hands;
ghost use Rattle.csp_log.specs.Pictures.{turn_of};
ghost use Rattle.csp_log.specs.Weights.{weight_of_all};
ghost use Rattle.csp_log.specs.declared.entry.Entry.{Entry};
ghost use Rattle.csp_log.specs.declared.places.QueueId.{QueueId};
ghost use Rattle.csp_log.specs.declared.places.Rule.{Rule};
ghost use Rattle.csp_party.specs.Any.{plain, region_of, is_ready, is_done, count, uses, has_ended};
ghost use Rattle.csp_posts.specs.Ready.{CanTurn, HasTurned};

use csp_base::Turn;
use csp_deck::{Desk, Log, Party, Spares, turn};
use csp_ends::{Ends, EndsDeck, Queues};
use csp_party::AnyParty;
use csp_record::Who;
use csp_rounds::Worker;
use std::alloc::{AllocError, Global};
use std::marker::Model;
use std::sync::Wait;

/// So many turns make a round.
pub const ROUND_TURNS: u32 = 8;

/// A party of a threaded run, with what it has in hand of the queues that threads share, its log and its stock. It must be spent.
///
/// Contracts see it as a `SeenPost`.
pub struct Post {
    /// Which it is.
    pub(crate) who: Who,
    /// The party itself.
    pub(crate) party: AnyParty,
    /// Its turns.
    pub(crate) log: Log,
    /// The stock that the frames which it makes come from.
    pub(crate) spares: Spares,
    /// What its turns write on.
    pub(crate) desk: Desk,
    /// Its ends of the queues.
    pub(crate) ends: Ends,
    /// Room for the numbers of the buffers that it holds at the end.
    pub(crate) numbers: Vec<u16>,
}

impl Model for Post {
    ghost use Rattle.std.specs.Coded.{codes};
    ghost use Rattle.csp_route.specs.Codes.{routes_code};
    ghost use Rattle.csp_posts.specs.Seen.{SeenPost};

    ghost Value = { SeenPost };

    ghost coded = { Prim.hlevel (codes, routes_code) };

    ghost use Rattle.csp_posts.specs.Seen.{seen_post, IsFit};

    ghost view = { seen_post };

    ghost invariant = { IsFit };
}

impl Post {
    /// A party before its first turn, with these ends of queues and this room for numbers. It takes no memory.
    pub fn new(
        alloc: Global,
        who: Who,
        party: AnyParty,
        desk: Desk,
        ends: Ends,
        numbers: Vec<u16>,
    ) -> Post
        requires ready { has_ended (plain party) ≡ false → is_ready (plain party) 0 }
        requires counted { count (plain party) ≡ 0 }
        requires served { (q : QueueId) (r : Rule) → uses (plain party) q ≡ Some r → rule_of ends q ≡ Some r }
        requires ends { AreEnds ends }
        requires region { region_of party ≡ hands.region_of ends }
        requires unnoted { numbers.items ≡ [] }
        ensures { result ≡ record { plain = record { who = who; party = plain party; entries = []; ends = ends }; spare = 0; room = vec_capacity numbers } }
    {
        Post {
            who,
            party,
            log: Log::new(alloc),
            spares: Spares::new(alloc),
            desk,
            ends,
            numbers,
        }
    }

    /// Makes room in its log for this many turns, and boxes for them in its stock. A refusal changes nothing but the stock.
    ///
    /// # Errors
    /// Want of memory.
    pub fn reserve(&mut self, turns: u32) -> Result<(), AllocError>
        requires { length self.old.plain.entries + turns ≤ 2 ^ 32 - 2 }
        ensures plain { self.new.plain ≡ self.old.plain }
        ensures numbers { self.new.room ≡ self.old.room }
        ensures room { OnOk result (self.new.spare ≡ max self.old.spare turns) }
        ensures refused { OnErr result (self.new.spare ≡ self.old.spare) }
    {
        let spare = self.log.spare().max(turns);
        self.spares
            .reserve(usize::from(self.party.boxes()) * spare as usize)?;
        self.log.reserve(turns)
    }

    /// What its entries weigh together.
    pub fn entries(&self) -> u64
        ensures weight { result ≡ weight_of_all self.now.plain.entries }
        ensures few { result < 2 ^ 35 }
    {
        self.log.weight()
    }

    /// Whether it is no application, or one that has ended.
    pub fn is_done(&self) -> bool
        ensures { result ≡ is_done self.now.plain.party }
    {
        self.party.is_done()
    }

    /// One turn: the party asks, the queues serve that one operation, it is told the answer, and its log has one entry more.
    ///
    /// `Turn::Ended` where the party had ended before: then nothing is done or logged. `Turn::Idle` where nothing was asked, or the pool or queue was
    /// empty or full.
    pub fn turn<R: Wait>(&mut self, rt: &R, queues: &Queues, now: u64) -> Turn
        requires { CanTurn queues.now now 1 self.old }
        ensures turned { HasTurned queues.now now 1 self.old self.new }
        ensures ended { (result ≡ Turn.Ended) ↔ (has_ended self.old.plain.party ≡ true) }
        ensures told { has_ended self.old.plain.party ≡ false → (e : Entry) × (self.new.plain.entries ≡ self.old.plain.entries ++ e ∷ []) × (result ≡ turn_of e.answer) }
    {
        let mut deck = EndsDeck::new(rt, queues, &mut self.ends);
        turn(
            &mut self.party,
            &mut deck,
            &mut self.log,
            &mut self.spares,
            &mut self.desk,
            now,
        )
    }
}

impl Worker for Post {
    ghost use Rattle.csp_posts.specs.Ready.{CanTurn, HasTurned};

    type Shared = Queues;

    ghost is_ready = { λ post queues now. CanTurn queues now 8 post };

    ghost does = { λ before queues now after. HasTurned queues now 8 before after };

    fn round<R: Wait>(&mut self, rt: &R, shared: &Queues, now: u64) {
        for _ in 0..ROUND_TURNS {
            let _turn = self.turn(rt, shared, now);
        }
    }
}

/// Whether each application has ended.
pub fn are_finished(posts: &[Post]) -> bool
    ensures { result ≡ list_all (λ s. is_done s.plain.party) posts.now }
{
    posts.iter().all(|post| post.is_done())
}
