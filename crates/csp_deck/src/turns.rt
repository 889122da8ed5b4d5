//! One turn of a party.

ghost use Rattle.std.specs.Prelude.{◌≡◌, ℕ, suc, ◌+◌, ◌-◌, ◌*◌, ◌^◌, ◌<◌, ◌≤◌, true, false, Some, [], length};
ghost use Rattle.csp_base.specs.declared.turns.Turn.{Turn};
ghost use Rattle.csp_deck.specs.Carried.{IsCarriedIn};
ghost use Rattle.csp_deck.specs.Regions.{IsOpOf, IsItemOf, IsAnswerFrom};
ghost use Rattle.csp_deck.specs.Runs.{IsKept, last_time};
ghost use Rattle.csp_deck.specs.Step.{HasCause, CanServe, IsAnswerOf, kind_of, entry_of, op_numbers, answer_numbers, times};
ghost use Rattle.csp_log.specs.Pictures.{Fits, shown_op, shown_answer, shown_item, turn_of};
ghost use Rattle.csp_log.specs.PlainLog.{with_entry};
ghost use Rattle.csp_log.specs.declared.places.QueueId.{QueueId};
ghost use Rattle.csp_log.specs.declared.places.Rule.{Rule};
ghost use Rattle.csp_log.specs.declared.shown.AnswerShown.{AnswerShown};
ghost use Rattle.csp_log.specs.declared.shown.OpShown.{OpShown};

use crate::{Answer, Deck, Desk, Events, Item, Log, Op, Party, QueueId, Spares};
use csp_base::Turn;
use csp_buffer::Buffer;

/// One turn of a party: it asks, the deck serves that one operation, it is told the answer, and the
/// log has one entry more.
///
/// `Turn::Ended` where the party had ended before: then nothing is done or logged. `Turn::Idle` where
/// nothing was asked, or the pool or queue was empty or full.
pub fn turn<P: Party, D: Deck>(
    party: &mut P,
    deck: &mut D,
    log: &mut Log,
    spares: &mut Spares,
    desk: &mut Desk,
    now: u64,
) -> Turn
    requires ready { P.has_ended party.old ≡ false → P.is_ready party.old now }
    requires early { now < 2 ^ 62 }
    requires room { 0 < log.old.spare }
    requires counted { P.count party.old ≤ length log.old.entries }
    requires served { (q : QueueId) (r : Rule) → P.uses party.old q ≡ Some r → D.rule deck.old q ≡ Some r }
    requires region { P.region party.old ≡ D.region deck.old }
    requires stock { P.has_ended party.old ≡ false → P.needs party.old ≤ spares.old.boxes }

    ensures ended { P.has_ended party.old ≡ true → (result ≡ Turn.Ended) × (party.new ≡ party.old) × (deck.new ≡ deck.old) × (log.new ≡ log.old) × (spares.new ≡ spares.old) }

    // One operation was answered, for its cause, and the party made its step.
    ensures went { P.has_ended party.old ≡ false → (answer : AnswerShown)
        × D.answers deck.old (P.asks party.old now) answer deck.new
        × Fits (P.asks party.old now) answer
        × HasCause (D.was_empty deck.old deck.new) (D.was_full deck.old deck.new) (P.asks party.old now) answer
        × (party.new ≡ P.tells (P.asked party.old now) now answer)
        × (log.new ≡ with_entry log.old (entry_of now (P.asks party.old now) answer (P.events (P.asked party.old now) now answer)))
        × (result ≡ turn_of answer)
        × ((k : ℕ) → times k (P.holds party.new) + times k (op_numbers (P.asks party.old now)) ≡ times k (P.holds party.old) + times k (answer_numbers answer)) }

    // What it asked is served by queues that it uses, and what it pushed is such as they carry.
    ensures asked { P.has_ended party.old ≡ false → CanServe (P.uses party.old) (P.asks party.old now) }

    // It had what it handed over.
    ensures had { P.has_ended party.old ≡ false → (k : ℕ) → times k (op_numbers (P.asks party.old now)) ≤ times k (P.holds party.old) }

    // Where the log was a run of this party's steps from an opening, it is one with this turn.
    ensures kept { (opening : P) → last_time 0 log.old.entries ≤ now
        → IsKept (record { has_ended = P.has_ended; asks = P.asks; asked = P.asked; tells = P.tells; events = P.events }) P.holds opening log.old.entries party.old
        → IsKept (record { has_ended = P.has_ended; asks = P.asks; asked = P.asked; tells = P.tells; events = P.events }) P.holds opening log.new.entries party.new }

    // What the next turn needs.
    ensures ready { (later : ℕ) → now ≤ later → later < 2 ^ 62 → P.has_ended party.new ≡ false → P.is_ready party.new later }
    ensures counted { P.count party.new ≤ length log.new.entries }
    ensures uses { (q : QueueId) → P.uses party.new q ≡ P.uses party.old q }
    ensures rules { (q : QueueId) → D.rule deck.new q ≡ D.rule deck.old q }
    ensures region { (P.region party.new ≡ P.region party.old) × (D.region deck.new ≡ D.region deck.old) }
    ensures needs { P.needs party.new ≡ P.needs party.old }
    ensures least { spares.old.boxes ≤ spares.new.boxes + P.needs party.old }
    ensures most { spares.new.boxes ≤ spares.old.boxes + 2 }
{
    if party.ended() {
        return Turn::Ended;
    }
    // Read for the checker alone, which then knows that the log has fewer entries than its count can tell.
    let _room = log.len();
    match party.look(now) {
        Some(queue) => look(party, deck, log, spares, desk, now, queue),
        None => act(party, deck, log, spares, desk, now),
    }
}

/// One turn of a party that goes on: it is asked.
#[inline(always)]
fn act<P: Party, D: Deck>(
    party: &mut P,
    deck: &mut D,
    log: &mut Log,
    spares: &mut Spares,
    desk: &mut Desk,
    now: u64,
) -> Turn
    requires goes_on { P.has_ended party.old ≡ false }
    requires ready { P.is_ready party.old now }
    requires early { now < 2 ^ 62 }
    requires room { 0 < log.old.spare }
    requires countable { P.count party.old < 2 ^ 32 - 1 }
    requires served { (q : QueueId) (r : Rule) → P.uses party.old q ≡ Some r → D.rule deck.old q ≡ Some r }
    requires region { P.region party.old ≡ D.region deck.old }
    requires stock { P.needs party.old ≤ spares.old.boxes }
    ensures went { (answer : AnswerShown)
        × D.answers deck.old (P.asks party.old now) answer deck.new
        × Fits (P.asks party.old now) answer
        × HasCause (D.was_empty deck.old deck.new) (D.was_full deck.old deck.new) (P.asks party.old now) answer
        × (party.new ≡ P.tells (P.asked party.old now) now answer)
        × (log.new ≡ with_entry log.old (entry_of now (P.asks party.old now) answer (P.events (P.asked party.old now) now answer)))
        × (result ≡ turn_of answer)
        × ((k : ℕ) → times k (P.holds party.new) + times k (op_numbers (P.asks party.old now)) ≡ times k (P.holds party.old) + times k (answer_numbers answer)) }
    ensures asked { CanServe (P.uses party.old) (P.asks party.old now) }
    ensures had { (k : ℕ) → times k (op_numbers (P.asks party.old now)) ≤ times k (P.holds party.old) }
    ensures ready { (later : ℕ) → now ≤ later → later < 2 ^ 62 → P.has_ended party.new ≡ false → P.is_ready party.new later }
    ensures counted { P.count party.new ≤ P.count party.old + 1 }
    ensures uses { (q : QueueId) → P.uses party.new q ≡ P.uses party.old q }
    ensures rules { (q : QueueId) → D.rule deck.new q ≡ D.rule deck.old q }
    ensures region { (P.region party.new ≡ P.region party.old) × (D.region deck.new ≡ D.region deck.old) }
    ensures needs { P.needs party.new ≡ P.needs party.old }
    ensures least { spares.old.boxes ≤ spares.new.boxes + P.needs party.old }
    ensures most { spares.new.boxes ≤ spares.old.boxes + 2 }
{
    let op = party.ask(now);
    carry(party, deck, log, spares, desk, now, op)
}

/// Has the deck serve the operation that a party asked, tells the party the answer, and logs the turn.
#[inline(never)]
fn carry<P: Party, D: Deck>(
    party: &mut P,
    deck: &mut D,
    log: &mut Log,
    spares: &mut Spares,
    desk: &mut Desk,
    now: u64,
    op: Op,
) -> Turn
    requires waiting { P.is_waiting party.old now }
    requires awaits { P.awaits party.old ≡ kind_of (shown_op op) }
    requires early { now < 2 ^ 62 }
    requires room { 0 < log.old.spare }
    requires countable { P.count party.old < 2 ^ 32 - 1 }
    requires asked { CanServe (P.uses party.old) (shown_op op) }
    requires served { (q : QueueId) (r : Rule) → P.uses party.old q ≡ Some r → D.rule deck.old q ≡ Some r }
    requires of_it { IsOpOf (D.region deck.old) op }
    requires region { P.region party.old ≡ D.region deck.old }
    requires stock { P.needs party.old ≤ spares.old.boxes }
    ensures went { (answer : AnswerShown)
        × D.answers deck.old (shown_op op) answer deck.new
        × Fits (shown_op op) answer
        × HasCause (D.was_empty deck.old deck.new) (D.was_full deck.old deck.new) (shown_op op) answer
        × (party.new ≡ P.tells party.old now answer)
        × (log.new ≡ with_entry log.old (entry_of now (shown_op op) answer (P.events party.old now answer)))
        × (result ≡ turn_of answer)
        × ((k : ℕ) → times k (P.holds party.new) ≡ times k (P.holds party.old) + times k (answer_numbers answer)) }
    ensures ready { (later : ℕ) → now ≤ later → later < 2 ^ 62 → P.has_ended party.new ≡ false → P.is_ready party.new later }
    ensures counted { P.count party.new ≤ P.count party.old + 1 }
    ensures uses { (q : QueueId) → P.uses party.new q ≡ P.uses party.old q }
    ensures rules { (q : QueueId) → D.rule deck.new q ≡ D.rule deck.old q }
    ensures region { (P.region party.new ≡ P.region party.old) × (D.region deck.new ≡ D.region deck.old) }
    ensures needs { P.needs party.new ≡ P.needs party.old }
    ensures least { spares.old.boxes ≤ spares.new.boxes + P.needs party.old }
    ensures most { spares.new.boxes ≤ spares.old.boxes + 2 }
{
    let Desk { draft, report } = desk;
    draft.ask(&op);
    let answer = serve(deck, op);
    draft.answer(&answer);
    let turn = answer.turn();
    empty(report);
    party.told(answer, now, report, spares);
    log.append(now, draft, report);
    turn
}

/// The same, for a look into a queue: most find nothing, and needn't pay for what others carry.
fn look<P: Party, D: Deck>(
    party: &mut P,
    deck: &mut D,
    log: &mut Log,
    spares: &mut Spares,
    desk: &mut Desk,
    now: u64,
    queue: QueueId,
) -> Turn
    requires waiting { P.is_waiting party.old now }
    requires awaits { P.awaits party.old ≡ kind_of (OpShown.Pop queue) }
    requires early { now < 2 ^ 62 }
    requires room { 0 < log.old.spare }
    requires countable { P.count party.old < 2 ^ 32 - 1 }
    requires asked { CanServe (P.uses party.old) (OpShown.Pop queue) }
    requires served { (q : QueueId) (r : Rule) → P.uses party.old q ≡ Some r → D.rule deck.old q ≡ Some r }
    requires region { P.region party.old ≡ D.region deck.old }
    requires stock { P.needs party.old ≤ spares.old.boxes }
    ensures went { (answer : AnswerShown)
        × D.answers deck.old (OpShown.Pop queue) answer deck.new
        × Fits (OpShown.Pop queue) answer
        × HasCause (D.was_empty deck.old deck.new) (D.was_full deck.old deck.new) (OpShown.Pop queue) answer
        × (party.new ≡ P.tells party.old now answer)
        × (log.new ≡ with_entry log.old (entry_of now (OpShown.Pop queue) answer (P.events party.old now answer)))
        × (result ≡ turn_of answer)
        × ((k : ℕ) → times k (P.holds party.new) ≡ times k (P.holds party.old) + times k (answer_numbers answer)) }
    ensures ready { (later : ℕ) → now ≤ later → later < 2 ^ 62 → P.has_ended party.new ≡ false → P.is_ready party.new later }
    ensures counted { P.count party.new ≤ P.count party.old + 1 }
    ensures uses { (q : QueueId) → P.uses party.new q ≡ P.uses party.old q }
    ensures rules { (q : QueueId) → D.rule deck.new q ≡ D.rule deck.old q }
    ensures region { (P.region party.new ≡ P.region party.old) × (D.region deck.new ≡ D.region deck.old) }
    ensures needs { P.needs party.new ≡ P.needs party.old }
    ensures least { spares.old.boxes ≤ spares.new.boxes + P.needs party.old }
    ensures most { spares.new.boxes ≤ spares.old.boxes + 2 }
{
    if deck.misses(queue) {
        miss(party, log, spares, desk, now, queue);
        Turn::Idle
    } else {
        carry(party, deck, log, spares, desk, now, Op::Pop(queue))
    }
}

/// Tells a party that the queue into which it looked was empty, and logs the turn.
fn miss<P: Party>(
    party: &mut P,
    log: &mut Log,
    spares: &mut Spares,
    desk: &mut Desk,
    now: u64,
    queue: QueueId,
)
    requires waiting { P.is_waiting party.old now }
    requires awaits { P.awaits party.old ≡ kind_of (OpShown.Pop queue) }
    requires early { now < 2 ^ 62 }
    requires room { 0 < log.old.spare }
    requires countable { P.count party.old < 2 ^ 32 - 1 }
    requires stock { P.needs party.old ≤ spares.old.boxes }
    ensures party { party.new ≡ P.tells party.old now AnswerShown.Empty }
    ensures log { log.new ≡ with_entry log.old (entry_of now (OpShown.Pop queue) AnswerShown.Empty (P.events party.old now AnswerShown.Empty)) }
    ensures holds { (k : ℕ) → times k (P.holds party.new) ≡ times k (P.holds party.old) }
    ensures ready { (later : ℕ) → now ≤ later → later < 2 ^ 62 → P.has_ended party.new ≡ false → P.is_ready party.new later }
    ensures counted { P.count party.new ≤ P.count party.old + 1 }
    ensures uses { (q : QueueId) → P.uses party.new q ≡ P.uses party.old q }
    ensures region { P.region party.new ≡ P.region party.old }
    ensures needs { P.needs party.new ≡ P.needs party.old }
    ensures least { spares.old.boxes ≤ spares.new.boxes + P.needs party.old }
    ensures most { spares.new.boxes ≤ spares.old.boxes + 2 }
{
    empty(&mut desk.report);
    party.miss(now, &mut desk.report, spares);
    log_miss(log, desk, now, queue);
}

/// Empties a list of events: mostly it is empty.
fn empty(report: &mut Events)
    ensures { report.new.items ≡ [] }
{
    if !report.is_empty() {
        report.clear();
    }
}

/// Logs a look into a queue that was empty, with what was reported of it.
fn log_miss(log: &mut Log, desk: &mut Desk, time: u64, queue: QueueId)
    requires { 0 < log.old.spare }
    ensures { log.new ≡ with_entry log.old (entry_of time (OpShown.Pop queue) AnswerShown.Empty desk.old.report.items) }
{
    let Desk { draft, report } = desk;
    if report.is_empty() {
        log.append_empty(time, queue);
    } else {
        draft.look(queue);
        log.append(time, draft, report);
    }
}

/// Has the deck serve one operation.
fn serve<D: Deck>(deck: &mut D, op: Op) -> Answer
    requires served { CanServe (D.rule deck.old) (shown_op op) }
    requires of_it { IsOpOf (D.region deck.old) op }
    ensures answers { D.answers deck.old (shown_op op) (shown_answer result) deck.new }
    ensures fits { Fits (shown_op op) (shown_answer result) }
    ensures cause { HasCause (D.was_empty deck.old deck.new) (D.was_full deck.old deck.new) (shown_op op) (shown_answer result) }
    ensures carried { IsAnswerOf (D.rule deck.old) (kind_of (shown_op op)) (shown_answer result) }
    ensures of_it { IsAnswerFrom (D.region deck.old) result }
    ensures rules { (q : QueueId) → D.rule deck.new q ≡ D.rule deck.old q }
    ensures region { D.region deck.new ≡ D.region deck.old }
{
    match op {
        Op::Nothing => {
            deck.rest();
            Answer::Nothing
        }
        Op::Take => match deck.take() {
            Some(buffer) => Answer::Taken(buffer),
            None => Answer::NoBuffer,
        },
        Op::Give(buffer) => give(deck, buffer),
        Op::Push(queue, item) => push(deck, queue, item),
        Op::Pop(queue) => match deck.pop(queue) {
            Some(item) => Answer::Popped(item),
            None => Answer::Empty,
        },
    }
}

/// Has the deck put a buffer into the pool.
#[inline]
fn give<D: Deck>(deck: &mut D, buffer: Buffer) -> Answer
    requires { buffer.region ≡ D.region deck.old }
    ensures answers { D.answers deck.old (OpShown.Give buffer.picture) (shown_answer result) deck.new }
    ensures fits { Fits (OpShown.Give buffer.picture) (shown_answer result) }
    ensures cause { HasCause (D.was_empty deck.old deck.new) (D.was_full deck.old deck.new) (OpShown.Give buffer.picture) (shown_answer result) }
    ensures carried { IsAnswerOf (D.rule deck.old) (kind_of (OpShown.Give buffer.picture)) (shown_answer result) }
    ensures of_it { IsAnswerFrom (D.region deck.old) result }
    ensures rules { (q : QueueId) → D.rule deck.new q ≡ D.rule deck.old q }
    ensures region { D.region deck.new ≡ D.region deck.old }
{
    match deck.give(buffer) {
        Ok(()) => Answer::Given,
        Err(buffer) => Answer::PoolFull(buffer),
    }
}

/// Has the deck append an item to a queue.
#[inline]
fn push<D: Deck>(deck: &mut D, queue: QueueId, item: Item) -> Answer
    requires carried { IsCarriedIn (D.rule deck.old queue) (shown_item item) }
    requires of_it { IsItemOf (D.region deck.old) item }
    ensures answers { D.answers deck.old (OpShown.Push queue (shown_item item)) (shown_answer result) deck.new }
    ensures fits { Fits (OpShown.Push queue (shown_item item)) (shown_answer result) }
    ensures cause { HasCause (D.was_empty deck.old deck.new) (D.was_full deck.old deck.new) (OpShown.Push queue (shown_item item)) (shown_answer result) }
    ensures carried { IsAnswerOf (D.rule deck.old) (kind_of (OpShown.Push queue (shown_item item))) (shown_answer result) }
    ensures of_it { IsAnswerFrom (D.region deck.old) result }
    ensures rules { (q : QueueId) → D.rule deck.new q ≡ D.rule deck.old q }
    ensures region { D.region deck.new ≡ D.region deck.old }
{
    match deck.push(queue, item) {
        Ok(()) => Answer::Pushed,
        Err(item) => Answer::Full(item),
    }
}
