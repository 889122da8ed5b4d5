//! A party with its log: one turn of it, and its end.

ghost use Rattle.std.specs.Prelude.{◌≡◌, ℕ, ◌+◌, ◌-◌, ◌<◌, ◌≤◌, ◌^◌, ◌++◌, [], ◌∷◌, true, false, Some, length, map, max, slice_get, OnOk, OnErr, ◌*◌, vec_len, vec_capacity};
ghost use Rattle.csp_buffer.specs.Content.{Content};
ghost use Rattle.csp_deck.specs.Step.{times};
ghost use Rattle.csp_lists.specs.PlainDeck.{PlainDeck, numbers_in};
ghost use Rattle.csp_log.specs.Pictures.{turn_of};
ghost use Rattle.csp_log.specs.declared.shown.AnswerShown.TheVariants as answer;
ghost use Rattle.csp_nodes.specs.Emptied.{with_gathered};
ghost use Rattle.csp_party.specs.Any.{plain, region_of, needs, has_ended, holds, is_done};
ghost use Rattle.csp_world.specs.Holders.{holds_at};
ghost use Rattle.csp_world.specs.Grown.{IsGrown, IsFullFor};
ghost use Rattle.csp_world.specs.Inside.{IsFit, rooms};
ghost use Rattle.csp_consistent.specs.Pools.{held_by};
ghost use Rattle.csp_world.specs.Record.{member_log};
ghost use Rattle.csp_world.specs.Seen.{plain_member, has_number};
ghost use Rattle.csp_world.specs.World.{answered, told};

use csp_base::Turn;
use csp_deck::{Desk, Log, Party, Place, Spares, turn};
use csp_nodes::{Decks, Emptied, conserves, keeps_shape};
use csp_party::AnyParty;
use csp_record::{HeldBy, PartyLog, Who};
use std::alloc::AllocError;

/// A party of a world.
pub struct Member {
    /// Which it is.
    pub(crate) who: Who,
    /// The party itself.
    pub(crate) party: AnyParty,
    /// Its turns.
    pub(crate) log: Log,
    /// The stock that the frames which it makes come from.
    pub(crate) spares: Spares,
    /// Room for the numbers of the buffers that it holds at the end.
    pub(crate) numbers: Vec<u16>,
    /// Whether its last turn was idle, as the next ones may then be too.
    pub(crate) idle: bool,
}

/// Takes one turn of a party over the lists of all nodes, and logs it.
pub(crate) fn take_turn(member: &mut Member, decks: &mut Decks, desk: &mut Desk, time: u64) -> Turn
    requires fit { IsFit decks.old time member.old }
    requires early { time < 2 ^ 62 }
    requires room { 0 < member.old.log.spare }
    ensures ended { has_ended (plain member.old.party) ≡ true → (result ≡ Turn.Ended) × (member.new ≡ member.old) × (decks.new.decks ≡ decks.old.decks) }
    ensures member { has_ended (plain member.old.party) ≡ false → plain_member member.new ≡ told (plain_member member.old) time (answered decks.old.decks decks.old.links time (plain_member member.old)).0 }
    ensures decks { has_ended (plain member.old.party) ≡ false → decks.new.decks ≡ (answered decks.old.decks decks.old.links time (plain_member member.old)).1 }
    ensures turn { has_ended (plain member.old.party) ≡ false → result ≡ turn_of (answered decks.old.decks decks.old.links time (plain_member member.old)).0 }
    ensures spare { has_ended (plain member.old.party) ≡ false → member.new.log.spare ≡ member.old.log.spare - 1 }
    ensures fit { IsFit decks.new time member.new }
    ensures who { member.new.who ≡ member.old.who }

    // At each node the party and the lists hold together what they held.
    ensures conserved { (node : ℕ) (d : PlainDeck) → slice_get decks.old.decks node ≡ Some d → (e : PlainDeck) × (slice_get decks.new.decks node ≡ Some e)
        × ((k : ℕ) → times k (holds_at node (plain_member member.new)) + times k (numbers_in e) ≡ times k (holds_at node (plain_member member.old)) + times k (numbers_in d)) }

    // Where it finds the pool full, it is of a node whose pool is full, and it had the buffer itself.
    ensures full { has_ended (plain member.old.party) ≡ false → (buffer : Content) → (answered decks.old.decks decks.old.links time (plain_member member.old)).0 ≡ answer.PoolFull buffer
        → IsFullFor decks.old.decks (plain_member member.old) buffer.number }

    ensures grown { IsGrown decks.old decks.new }
    ensures rooms { rooms decks.new.decks ≡ rooms decks.old.decks }
    ensures queues { map (λ d. length d.queues) decks.new.decks ≡ map (λ d. length d.queues) decks.old.decks }
    ensures regions { decks.new.regions ≡ decks.old.regions }
    ensures links { decks.new.links ≡ decks.old.links }
{
    conserves();
    keeps_shape();
    if member.party.ended() {
        return Turn::Ended;
    }
    decks.serve(member.who);
    let came = turn(
        &mut member.party,
        decks,
        &mut member.log,
        &mut member.spares,
        desk,
        time,
    );
    member.idle = came == Turn::Idle;
    came
}

impl Member {
    /// Whether it is a party of this node that holds the buffer of this number.
    pub(crate) fn has(&self, node: u8, number: u16) -> bool
        ensures { result ≡ has_number node number self.now }
    {
        self.who.node() == Some(node) && self.party.holds(number)
    }

    /// Whether it is no application, or one that has ended.
    pub(crate) fn is_done(&self) -> bool
        ensures { result ≡ is_done (plain self.now.party) }
    {
        self.party.is_done()
    }

    /// Makes room in its log for this many turns, and boxes for them in its stock, of those that no party
    /// has while there are some; what its stock has besides goes there. A refusal changes nothing but the
    /// stocks.
    pub(crate) fn reserve(&mut self, turns: u32, boxes: &mut Spares) -> Result<(), AllocError>
        requires fits { length self.old.log.entries + turns ≤ 2 ^ 32 - 2 }
        requires stock { needs (plain self.old.party) * self.old.log.spare ≤ self.old.spares.boxes }
        ensures party { (self.new.who ≡ self.old.who) × (self.new.party ≡ self.old.party) × (self.new.numbers ≡ self.old.numbers) × (self.new.log.entries ≡ self.old.log.entries) }
        ensures room { OnOk result (self.new.log.spare ≡ max self.old.log.spare turns) }
        ensures refused { OnErr result (self.new.log ≡ self.old.log) }
        ensures stock { needs (plain self.new.party) * self.new.log.spare ≤ self.new.spares.boxes }
    {
        let spare = self.log.spare().max(turns);
        self.spares
            .level(usize::from(self.party.boxes()) * spare as usize, boxes)?;
        self.log.reserve(turns)
    }

    /// Takes back what a party of a node holds, notes that and its log, and ends it.
    pub(crate) fn end(
        self,
        place: Place,
        emptied: &mut Emptied,
        logs: &mut Vec<PartyLog>,
        held: &mut Vec<HeldBy>,
        node: u8,
    )
        requires unnoted { self.numbers.items ≡ [] }
        requires home { region_of self.party ≡ emptied.old.region }
        requires numbers { length (holds (plain self.party)) ≤ vec_capacity self.numbers }
        requires fits { length emptied.old.emptied.gathered + length (holds (plain self.party)) ≤ emptied.old.emptied.pool.room }
        requires logs_room { vec_len logs.old + 1 ≤ vec_capacity logs.old }
        requires held_room { vec_len held.old + 1 ≤ vec_capacity held.old }
        ensures emptied { emptied.new ≡ record emptied.old { emptied = with_gathered (holds (plain self.party)) emptied.old.emptied } }
        ensures logs { logs.new.items ≡ logs.old.items ++ member_log (plain_member self) ∷ [] }
        ensures held { held.new.items ≡ held.old.items ++ held_by (holds (plain self.party)) (node, place) ∷ [] }
        ensures logs_len { vec_len logs.new ≡ vec_len logs.old + 1 }
        ensures held_len { vec_len held.new ≡ vec_len held.old + 1 }
        ensures logs_capacity { vec_capacity logs.new ≡ vec_capacity logs.old }
        ensures held_capacity { vec_capacity held.new ≡ vec_capacity held.old }
    {
        let Member {
            who,
            party,
            log,
            spares: _,
            mut numbers,
            idle: _,
        } = self;
        let step = party.step();
        drain(party, emptied, &mut numbers);
        logs.push_reserved(PartyLog { who, log, step });
        held.push_reserved(HeldBy {
            node,
            place,
            numbers,
        });
    }

    /// Notes the log of a party that holds nothing, and ends it.
    pub(crate) fn end_empty(self, logs: &mut Vec<PartyLog>)
        requires holds { holds (plain self.party) ≡ [] }
        requires logs_room { vec_len logs.old + 1 ≤ vec_capacity logs.old }
        ensures logs { logs.new.items ≡ logs.old.items ++ member_log (plain_member self) ∷ [] }
        ensures logs_len { vec_len logs.new ≡ vec_len logs.old + 1 }
        ensures logs_capacity { vec_capacity logs.new ≡ vec_capacity logs.old }
    {
        let Member {
            who,
            party,
            log,
            spares: _,
            numbers: _,
            idle: _,
        } = self;
        let step = party.step();
        party.end();
        logs.push_reserved(PartyLog { who, log, step });
    }
}

/// Takes back what a party holds, notes the numbers, and ends it.
fn drain(mut party: AnyParty, emptied: &mut Emptied, numbers: &mut Vec<u16>)
    requires home { region_of party ≡ emptied.old.region }
    requires numbers { vec_len numbers.old + length (holds (plain party)) ≤ vec_capacity numbers.old }
    requires fits { length emptied.old.emptied.gathered + length (holds (plain party)) ≤ emptied.old.emptied.pool.room }
    ensures emptied { emptied.new ≡ record emptied.old { emptied = with_gathered (holds (plain party)) emptied.old.emptied } }
    ensures numbers { numbers.new.items ≡ numbers.old.items ++ holds (plain party) }
{
    while let Some(buffer) = party.drain() {
        numbers.push_reserved(buffer.number());
        emptied.take(buffer);
    }
    party.end();
}
