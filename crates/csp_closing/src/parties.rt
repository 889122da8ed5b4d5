//! The end of the parties and of the memory of their nodes.

ghost use Rattle.std.specs.Prelude.{◌≡◌, ◌+◌, ◌≤◌, ◌++◌, ◌∷◌, [], All, length, map, vec_len, vec_capacity};
ghost use Rattle.std.specs.List.{flat_map};
ghost use Rattle.csp_closing.specs.Retired.{all_rest, rest_of};
ghost use Rattle.csp_closing.specs.Stores.{CanEndParties, CanEndParty, CanGiveBack, parties_back, party_back, pile_of, pool_part, rest_held, rest_log, with_held};
ghost use Rattle.csp_consistent.specs.Pools.{pools_held};
ghost use Rattle.csp_ending.specs.Notes.{with_place};
ghost use Rattle.csp_ending.specs.Stores.{HasRoom, TakesBack};
ghost use Rattle.csp_log.specs.declared.places.Place.TheVariants as place;
ghost use Rattle.csp_party.specs.Any.{holds, plain, region_of};

use csp_deck::Place;
use csp_ending::{Notes, Store};
use csp_party::AnyParty;
use csp_posts::Retired;
use csp_record::PartyLog;
use csp_standing::NodeStore;
use std::collections::VecDeque;

/// Ends these parties: their logs and what they hold are noted, and their buffers are taken back.
pub(crate) fn end_parties(
    parties: Vec<Retired>,
    stores: &mut [NodeStore],
    logs: &mut Vec<PartyLog>,
    notes: &mut Notes,
)
    requires can { CanEndParties (map pile_of stores.old) (all_rest parties.items) }
    requires logs_room { vec_len logs.old + length parties.items ≤ vec_capacity logs.old }
    requires notes_room { length parties.items ≤ notes.old.others }
    ensures stores { map pile_of stores.new ≡ parties_back (all_rest parties.items) (map pile_of stores.old) }
    ensures logs { logs.new.items ≡ logs.old.items ++ map rest_log (all_rest parties.items) }
    ensures notes { notes.new ≡ with_held notes.old (flat_map rest_held (all_rest parties.items)) notes.new.others }
    ensures rooms { notes.old.others ≤ notes.new.others + length parties.items }
{
    let mut parties = VecDeque::from_vec(parties);
    while let Some(party) = parties.pop_front() {
        end_party(party, stores, logs, notes);
    }
    parties.destroy_empty();
}

/// Ends a party: its log and what it holds are noted, and its buffers are taken back.
fn end_party(party: Retired, stores: &mut [NodeStore], logs: &mut Vec<PartyLog>, notes: &mut Notes)
    requires can { CanEndParty (map pile_of stores.old) (rest_of party) }
    requires logs_room { vec_len logs.old + 1 ≤ vec_capacity logs.old }
    requires notes_room { 1 ≤ notes.old.others }
    ensures stores { map pile_of stores.new ≡ party_back (rest_of party) (map pile_of stores.old) }
    ensures logs { logs.new.items ≡ logs.old.items ++ rest_log (rest_of party) ∷ [] }
    ensures logs_len { vec_len logs.new ≡ vec_len logs.old + 1 }
    ensures logs_capacity { vec_capacity logs.new ≡ vec_capacity logs.old }
    ensures notes { notes.new ≡ with_held notes.old (rest_held (rest_of party)) notes.new.others }
    ensures rooms { notes.old.others ≤ notes.new.others + 1 }
{
    let Retired {
        who,
        party,
        log,
        ends: _,
        numbers,
    } = party;
    let step = party.step();
    logs.push_reserved(PartyLog { who, log, step });
    match who.home() {
        Some((node, place)) => {
            let store = &mut stores[usize::from(node)].store;
            take_held(party, numbers, store, node, place, notes);
        }
        None => party.end(),
    }
}

/// Takes back what a party at this place of a node holds, notes that, and ends it.
fn take_held(
    party: AnyParty,
    mut numbers: Vec<u16>,
    store: &mut Store,
    node: u8,
    place: Place,
    notes: &mut Notes,
)
    requires unnoted { numbers.items ≡ [] }
    requires numbers_room { length (holds (plain party)) ≤ vec_capacity numbers }
    requires region { region_of party ≡ store.old.region }
    requires store_room { HasRoom store.old (length (holds (plain party))) }
    requires notes_room { 1 ≤ notes.old.others }
    ensures back { TakesBack store.old (holds (plain party)) store.new }
    ensures notes { notes.new ≡ with_place notes.old node place (holds (plain party)) notes.new.others }
    ensures rooms { notes.old.others ≡ notes.new.others + 1 }
{
    drain(party, store, &mut numbers);
    notes.add_place(node, place, numbers);
}

/// Takes back what a party holds, notes the numbers, and ends it.
fn drain(mut party: AnyParty, store: &mut Store, numbers: &mut Vec<u16>)
    requires numbers_room { vec_len numbers.old + length (holds (plain party)) ≤ vec_capacity numbers.old }
    requires region { region_of party ≡ store.old.region }
    requires store_room { HasRoom store.old (length (holds (plain party))) }
    ensures numbers { numbers.new.items ≡ numbers.old.items ++ holds (plain party) }
    ensures back { TakesBack store.old (holds (plain party)) store.new }
{
    while let Some(buffer) = party.drain() {
        numbers.push_reserved(buffer.number());
        store.take(buffer);
    }
    party.end();
}

/// Gives the memory of each node back, and notes what its pool held.
pub(crate) fn end_stores(stores: Vec<NodeStore>, notes: &mut Notes)
    requires few { length stores.items ≤ 255 }
    requires can { All CanGiveBack (map pile_of stores.items) }
    requires notes_room { length stores.items ≤ notes.old.others }
    ensures { notes.new ≡ with_held notes.old (pools_held 0 (map pool_part (map pile_of stores.items))) notes.new.others }
{
    let mut stores = VecDeque::from_vec(stores);
    let mut node = 0;
    while let Some(rest) = stores.pop_front() {
        end_store(rest, node, notes);
        node += 1;
    }
    stores.destroy_empty();
}

/// Gives the memory of a node back, and notes what its pool held.
fn end_store(rest: NodeStore, node: u8, notes: &mut Notes)
    requires can { CanGiveBack (pile_of rest) }
    requires notes_room { 1 ≤ notes.old.others }
    ensures notes { notes.new ≡ with_place notes.old node place.Pool (pool_part (pile_of rest)) notes.new.others }
    ensures rooms { notes.old.others ≡ notes.new.others + 1 }
{
    let NodeStore {
        store,
        numbers,
        first,
        last,
    } = rest;
    store.end(first, last, numbers, node, notes);
}
