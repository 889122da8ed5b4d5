//! Turns in which a party looks into empty queues until it is as it was: they are logged without being taken one
//! by one.

ghost use Rattle.std.specs.Prelude.{◌≡◌, ◌+◌, ◌*◌, ◌-◌, ◌<◌, ◌≤◌, ◌^◌, ◌++◌, All, IsSome, IsTrue, length, map};
ghost use Rattle.csp_nodes.specs.DecksAt.{rule_at};
ghost use Rattle.csp_world.specs.Inside.{IsFit};
ghost use Rattle.csp_world.specs.Looking.{AreEmpty, MakesOf, look_entries, look_entry};
ghost use Rattle.csp_world.specs.Seen.{plain_member};

use crate::member::Member;
use csp_deck::{Deck, Log, Party, QueueId};
use csp_nodes::Decks;

/// Takes turns of a party that looks into queues which are all empty until it is as it was: as many whole circles
/// of them as so many turns have. Answers how many turns it took, and takes none where the party does anything else, or
/// where its last turn was not idle.
pub(crate) fn look_round(member: &mut Member, decks: &mut Decks, time: u64, most: usize) -> usize
    requires fit { IsFit decks.old time member.old }
    requires early { time < 2 ^ 62 }
    requires some { 0 < most }
    requires room { most ≤ member.old.log.spare }
    ensures most { result ≤ most }
    ensures lists { decks.new ≡ record decks.old { whose = decks.new.whose } }
    ensures who { member.new.who ≡ member.old.who }
    ensures spare { member.new.log.spare + result ≡ member.old.log.spare }
    ensures turns { MakesOf decks.old.decks decks.old.links time result (plain_member member.old) (plain_member member.new) }
    ensures fit { IsFit decks.old time member.new }
    ensures party { member.new.party ≡ member.old.party }
{
    if !member.idle || member.party.ended() {
        return 0;
    }
    // Read for the checker alone, which then knows that the log has fewer entries than its count can tell.
    let _entries = member.log.len();
    let circle = member.party.circle(time);
    let queues = circle.as_slice();
    if queues.is_empty() {
        return 0;
    }
    decks.serve(member.who);
    if !are_empty(decks, queues) {
        return 0;
    }
    let rounds = most / queues.len();
    log_rounds(&mut member.log, time, queues, rounds);
    rounds * queues.len()
}

/// Whether these queues of the party whose turn it is are all empty. Where this does not say so, some may still be.
fn are_empty(decks: &mut Decks, queues: &[QueueId]) -> bool
    requires served { All (λ q. IsSome (rule_at decks.old q)) queues.now }
    ensures lists { decks.new ≡ decks.old }
    ensures empty { IsTrue result → AreEmpty decks.old queues.now }
{
    for queue in queues {
        if !decks.misses(*queue) {
            return false;
        }
    }
    true
}

/// Logs looks into these queues, which were empty, so many times round.
fn log_rounds(log: &mut Log, time: u64, queues: &[QueueId], rounds: usize)
    requires room { rounds * length queues.now ≤ log.old.spare }
    ensures entries { log.new.entries ≡ log.old.entries ++ look_entries rounds time queues.now }
    ensures spare { log.new.spare + rounds * length queues.now ≡ log.old.spare }
{
    for _ in 0..rounds {
        log_looks(log, time, queues);
    }
}

/// Logs looks into these queues, which were empty.
fn log_looks(log: &mut Log, time: u64, queues: &[QueueId])
    requires room { length queues.now ≤ log.old.spare }
    ensures entries { log.new.entries ≡ log.old.entries ++ map (look_entry time) queues.now }
    ensures spare { log.new.spare + length queues.now ≡ log.old.spare }
{
    for queue in queues {
        log.append_empty(time, *queue);
    }
}
