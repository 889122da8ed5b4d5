//! The turns of a router: what one asks, and what its answer comes to.

ghost use Rattle.std.specs.Prelude.{◌≡◌, ◌≢◌, cond, true, ℕ, ◌-◌, ◌+◌, ◌^◌, None, Some, IfSome, MatchOption, [], length, ◌<◌, ◌≤◌};
ghost use Rattle.std.specs.Option.{option_map};
ghost use Rattle.csp_conn.specs.PlainConns.{IsThere};
ghost use Rattle.csp_deck.specs.Regions.{IsAnswerFrom, IsItemOf, IsOpOf};
ghost use Rattle.csp_deck.specs.Step.{CanServe, IsAnswerOf, IsCleared, answer_numbers, item_numbers, times};
ghost use Rattle.csp_log.specs.Pictures.{shown_answer, shown_item, shown_op};
ghost use Rattle.csp_ports.specs.Asking.{answered};
ghost use Rattle.csp_ports.specs.Counts.{AreFar, IsCountable};
ghost use Rattle.csp_ports.specs.Held.{held};
ghost use Rattle.csp_ports.specs.Keeps.{IsOwedBy};
ghost use Rattle.csp_ports.specs.PlainPorts.{machine_at, stalls_of, waiting};
ghost use Rattle.csp_ports.specs.Tasks.{next_task, told_down};
ghost use Rattle.csp_rdp.specs.Jobs.{job_of};
ghost use Rattle.csp_stack.specs.Comes.{ComesTo, IsFree, IsServing};
ghost use Rattle.csp_stack.specs.Counting.{came_in, was_full, went_out};
ghost use Rattle.csp_stack.specs.Keeps.{Asks, Keeps};
ghost use Rattle.csp_stack.specs.Party.{Awaits, HasPlace, IsClear, IsDelivering, IsFrom, IsSendable, IsSound, IsTimed, IsWaiting, kind_of_plan, rules_of};
ghost use Rattle.csp_stack.specs.Readings.{buffer_in, is_pushed, item_in};
ghost use Rattle.csp_stack.specs.Router.{at_rest, holds};
ghost use Rattle.csp_stack.specs.Rules.{heard, packet_in};
ghost use Rattle.csp_stack.specs.Sources.{has_work, place_with_work, source_at};
ghost use Rattle.csp_stack.specs.Told.{kept, ported, unchanged, with_ports};
ghost use Rattle.csp_stack.specs.Turn.{asked_at, until_answer, asks_at, brought, job_due, kept_back, no_room, plan_for, plan_of, told_at, turn_of, work_found};
ghost use Rattle.csp_stack.specs.declared.state.TheConstants.{TRASH_ROOM};

use crate::counting::{count_full, count_in, count_out};
use crate::facts::Facts;
use crate::inbox::hear;
use crate::making::make;
use crate::packet::Packet;
use crate::serving::serve;
use crate::sources::{count_sources, past_app, past_inbox, past_jobs, source_in};
use crate::state::State;
use crate::{Plan, Source};
use csp_base::Seat;
use csp_deck::{Answer, AnswerShown, Discard, Events, Item, Note, Op, OpShown, QueueId};
use csp_ports::{Owed, Task};
use csp_rdp::Job;

/// Begins a turn: what it asks, and the state without what it hands over. The timers are tried first.
pub fn begin(facts: &Facts, state: &mut State, now: u64) -> Op
    requires sound { IsSound facts.now state.old.state }
    ensures served { CanServe (rules_of facts.now) (shown_op result) }
    ensures op { shown_op result ≡ asks_at facts.now state.old.state now }
    ensures state { state.new.state ≡ asked_at facts.now state.old.state now }
    ensures of_it { IsOpOf state.old.region result }
    ensures region { state.new.region ≡ state.old.region }
    ensures asks { Asks facts.now state.old.state state.new.state now (shown_op result) }
{
    state.try_timers(now);
    begin_plan(facts, state, now)
}

/// Begins a turn once the timers were tried.
#[tactic(auto, using(crate::proofs::Resting::give_asks, crate::proofs::Resting::push_asks))]
fn begin_plan(facts: &Facts, state: &mut State, now: u64) -> Op
    requires sound { IsTimed facts.now state.old.state }
    ensures served { CanServe (rules_of facts.now) (shown_op result) }
    ensures op { shown_op result ≡ (turn_of facts.now state.old.state now (plan_of facts.now state.old.state now)).asks }
    ensures state { state.new.state ≡ until_answer facts.now state.old.state now (plan_of facts.now state.old.state now) }
    ensures of_it { IsOpOf state.old.region result }
    ensures region { state.new.region ≡ state.old.region }
    ensures asks { Asks facts.now state.old.state state.new.state now (shown_op result) }
{
    if let Some(buffer) = state.trash.pop() {
        state.doing = Plan::Give;
        return Op::Give(buffer);
    }
    if state.out.is_some()
        && let Some(packet) = state.out.take()
    {
        state.doing = Plan::Push(packet.queue, packet.buffer.payload().len() as u32);
        return packet.into_push();
    }
    begin_work(facts, state, now)
}

/// Begins a turn that looks into a queue, where nothing else is to be done before. Else nothing is changed.
#[tactic(auto, using(crate::proofs::Resting::still_timed))]
pub fn look(facts: &Facts, state: &mut State, now: u64) -> Option<QueueId>
    requires sound { IsSound facts.now state.old.state }
    ensures looks { MatchOption result (state.new ≡ state.old) (λ q. (asks_at facts.now state.old.state now ≡ OpShown.Pop q) × (state.new.state ≡ asked_at facts.now state.old.state now)) }
    ensures asks { IfSome result (λ q. Asks facts.now state.old.state state.new.state now (OpShown.Pop q)) }
    ensures served { IfSome result (λ q. CanServe (rules_of facts.now) (OpShown.Pop q)) }
    ensures region { state.new.region ≡ state.old.region }
{
    if state.is_still(now) {
        look_for_work(facts, state, now)
    } else {
        None
    }
}

/// Begins a turn at the first source with work, from the cursor on, where that is a queue.
#[tactic(auto, using(crate::proofs::Resting::plainly_asks))]
fn look_for_work(facts: &Facts, state: &mut State, now: u64) -> Option<QueueId>
    requires sound { IsTimed facts.now state.old.state }
    requires clear { IsClear state.old.state }
    ensures looks { MatchOption result (state.new ≡ state.old) (λ q. ((turn_of facts.now state.old.state now (work_found facts.now state.old.state now (place_with_work facts.now state.old.state now))).asks ≡ OpShown.Pop q) × (state.new.state ≡ until_answer facts.now state.old.state now (work_found facts.now state.old.state now (place_with_work facts.now state.old.state now)))) }
    ensures asks { IfSome result (λ q. Asks facts.now state.old.state state.new.state now (OpShown.Pop q)) }
    ensures served { IfSome result (λ q. CanServe (rules_of facts.now) (OpShown.Pop q)) }
    ensures region { state.new.region ≡ state.old.region }
{
    match find_work(facts, state, state.cursor, now) {
        Some(Source::Inbox) => {
            state.cursor = past_inbox(facts);
            state.doing = Plan::Hear;
            Some(QueueId::Inbox)
        }
        Some(Source::App(app)) => {
            state.cursor = past_app(facts, app);
            state.doing = Plan::Serve(app);
            Some(QueueId::Up(app))
        }
        Some(Source::Jobs) | None => None,
    }
}

/// Begins a turn at the first source with work, from the cursor on.
#[tactic(auto, using(crate::proofs::Resting::plainly_asks))]
fn begin_work(facts: &Facts, state: &mut State, now: u64) -> Op
    requires sound { IsTimed facts.now state.old.state }
    requires clear { IsClear state.old.state }
    ensures served { CanServe (rules_of facts.now) (shown_op result) }
    ensures op { shown_op result ≡ (turn_of facts.now state.old.state now (work_found facts.now state.old.state now (place_with_work facts.now state.old.state now))).asks }
    ensures state { state.new.state ≡ until_answer facts.now state.old.state now (work_found facts.now state.old.state now (place_with_work facts.now state.old.state now)) }
    ensures of_it { IsOpOf state.old.region result }
    ensures region { state.new.region ≡ state.old.region }
    ensures asks { Asks facts.now state.old.state state.new.state now (shown_op result) }
{
    match find_work(facts, state, state.cursor, now) {
        Some(Source::Inbox) => {
            state.cursor = past_inbox(facts);
            state.doing = Plan::Hear;
            Op::Pop(QueueId::Inbox)
        }
        Some(Source::App(app)) => {
            state.cursor = past_app(facts, app);
            state.doing = Plan::Serve(app);
            Op::Pop(QueueId::Up(app))
        }
        Some(Source::Jobs) => begin_job(facts, state, now),
        None => rest(facts, state, now),
    }
}

/// Begins a turn without work.
#[tactic(auto, using(crate::proofs::Resting::plainly_asks))]
fn rest(facts: &Facts, state: &mut State, _now: u64) -> Op
    requires sound { IsTimed facts.now state.old.state }
    requires clear { IsClear state.old.state }
    ensures op { result ≡ Op.Nothing }
    ensures state { state.new ≡ record state.old { state = until_answer facts.now state.old.state _now Plan.Rest } }
    ensures asks { Asks facts.now state.old.state state.new.state _now (shown_op result) }
{
    state.doing = Plan::Rest;
    Op::Nothing
}

/// Begins a turn at the jobs: the answer that came to be owed first is pushed; where none is owed the next
/// connection with a task comes to it.
#[tactic(auto, using(crate::proofs::Resting::plainly_asks, crate::proofs::Sendable::reply_served))]
fn begin_job(facts: &Facts, state: &mut State, now: u64) -> Op
    requires sound { IsTimed facts.now state.old.state }
    requires clear { IsClear state.old.state }
    ensures served { CanServe (rules_of facts.now) (shown_op result) }
    ensures op { shown_op result ≡ (turn_of facts.now state.old.state now (job_due state.old.state.ports.owed (next_task now state.old.state.ports))).asks }
    ensures state { state.new.state ≡ until_answer facts.now state.old.state now (job_due state.old.state.ports.owed (next_task now state.old.state.ports)) }
    ensures of_it { IsOpOf state.old.region result }
    ensures region { state.new.region ≡ state.old.region }
    ensures asks { Asks facts.now state.old.state state.new.state now (shown_op result) }
{
    if let Some(Owed { app, note }) = state.ports.first_owed() {
        state.cursor = past_jobs(facts);
        state.doing = Plan::Reply(app);
        return Op::Push(QueueId::Down(app), Item::Note(note));
    }
    match state.ports.next_task(now) {
        Some((seat, task)) => begin_task(facts, state, seat, task, now),
        None => rest(facts, state, now),
    }
}

/// Begins a turn of a connection that comes to its task.
fn begin_task(facts: &Facts, state: &mut State, seat: Seat, task: Task, now: u64) -> Op
    requires sound { IsTimed facts.now state.old.state }
    requires clear { IsClear state.old.state }
    requires there { IsThere state.old.state.ports.conns seat }
    requires owed { IsOwedBy task now seat state.old.state.ports }
    ensures served { CanServe (rules_of facts.now) (shown_op result) }
    ensures op { shown_op result ≡ (turn_of facts.now state.old.state now (plan_for seat task)).asks }
    ensures state { state.new.state ≡ until_answer facts.now state.old.state now (plan_for seat task) }
    ensures of_it { IsOpOf state.old.region result }
    ensures region { state.new.region ≡ state.old.region }
    ensures asks { Asks facts.now state.old.state state.new.state now (shown_op result) }
{
    match task {
        Task::Tell => begin_note(facts, state, seat, now),
        Task::Deliver => begin_delivery(facts, state, seat, now),
        Task::Make(job) => begin_packet(facts, state, seat, job, now),
    }
}

/// Begins the push of a Down note.
#[tactic(auto, using(crate::proofs::Resting::ports_ask, crate::proofs::Sendable::reply_served))]
fn begin_note(facts: &Facts, state: &mut State, seat: Seat, _now: u64) -> Op
    requires sound { IsTimed facts.now state.old.state }
    requires clear { IsClear state.old.state }
    requires there { IsThere state.old.state.ports.conns seat }
    ensures served { CanServe (rules_of facts.now) (shown_op result) }
    ensures op { shown_op result ≡ (turn_of facts.now state.old.state _now (Plan.Tell seat)).asks }
    ensures state { state.new.state ≡ until_answer facts.now state.old.state _now (Plan.Tell seat) }
    ensures of_it { IsOpOf state.old.region result }
    ensures region { state.new.region ≡ state.old.region }
    ensures asks { Asks facts.now state.old.state state.new.state _now (shown_op result) }
{
    state.cursor = past_jobs(facts);
    state.doing = Plan::Tell(seat);
    state.ports.turn(seat);
    let Seat { app, slot } = seat;
    Op::Push(QueueId::Down(app), Item::Note(Note::Down { slot }))
}

/// Begins the push of the packet that a connection is to deliver, which it hands over.
#[tactic(auto, using(crate::proofs::Sendable::to_slot_sendable))]
fn begin_delivery(facts: &Facts, state: &mut State, seat: Seat, _now: u64) -> Op
    requires sound { IsTimed facts.now state.old.state }
    requires clear { IsClear state.old.state }
    requires there { IsThere state.old.state.ports.conns seat }
    requires owed { IsOwedBy Task.Deliver _now seat state.old.state.ports }
    ensures served { CanServe (rules_of facts.now) (shown_op result) }
    ensures op { shown_op result ≡ (turn_of facts.now state.old.state _now (Plan.Deliver seat)).asks }
    ensures state { state.new.state ≡ until_answer facts.now state.old.state _now (Plan.Deliver seat) }
    ensures of_it { IsOpOf state.old.region result }
    ensures region { state.new.region ≡ state.old.region }
    ensures asks { Asks facts.now state.old.state state.new.state _now (shown_op result) }
{
    state.cursor = past_jobs(facts);
    state.doing = Plan::Deliver(seat);
    state.ports.turn(seat);
    let buffer = state.ports.take_packet(seat);
    let Seat { app, slot } = seat;
    Op::Push(QueueId::Down(app), Item::Packet { mark: slot, buffer })
}

/// Begins the taking of a buffer for a packet that a connection owes.
#[tactic(auto, using(crate::proofs::Resting::ports_ask))]
fn begin_packet(facts: &Facts, state: &mut State, seat: Seat, job: Job, _now: u64) -> Op
    requires sound { IsTimed facts.now state.old.state }
    requires clear { IsClear state.old.state }
    requires there { IsThere state.old.state.ports.conns seat }
    requires owed { IsOwedBy (Task.Make job) _now seat state.old.state.ports }
    ensures op { result ≡ Op.Take }
    ensures state { state.new.state ≡ until_answer facts.now state.old.state _now (Plan.Make seat job) }
    ensures region { state.new.region ≡ state.old.region }
    ensures asks { Asks facts.now state.old.state state.new.state _now (shown_op result) }
{
    state.cursor = past_jobs(facts);
    state.doing = Plan::Make(seat, job);
    state.ports.turn(seat);
    Op::Take
}

/// The first source with work, from this cursor on.
#[inline(always)]
pub fn find_work(facts: &Facts, state: &State, cursor: usize, now: u64) -> Option<Source>
    requires apps { state.now.state.ports.conns.apps ≡ facts.now.apps }
    ensures there { (k : ℕ) → result ≡ Some (Source.App k) → k < facts.now.apps }
    ensures works { IfSome result (λ source. has_work state.now.state now source ≡ true) }
    ensures source { result ≡ option_map (source_at facts.now) (place_with_work facts.now (record state.now.state { cursor = cursor }) now) }
{
    match find_place(facts, state, cursor, now) {
        Some(place) => Some(source_in(facts, place)),
        None => None,
    }
}

/// The place of the first source with work, from this cursor on.
fn find_place(facts: &Facts, state: &State, cursor: usize, now: u64) -> Option<usize>
    requires apps { state.now.state.ports.conns.apps ≡ facts.now.apps }
    ensures place { result ≡ place_with_work facts.now (record state.now.state { cursor = cursor }) now }
    ensures works { IfSome result (λ k. has_work state.now.state now (source_at facts.now k) ≡ true) }
{
    let count = count_sources(facts);
    (cursor..count)
        .chain(0..cursor)
        .find(|place| works(state, now, source_in(facts, *place)))
}

/// Whether a source has work.
fn works(state: &State, now: u64, source: Source) -> bool
    requires there { (k : ℕ) → source ≡ Source.App k → k < state.now.state.ports.conns.apps }
    ensures { result ≡ has_work state.now.state now source }
{
    match source {
        Source::Inbox => true,
        Source::App(app) => state.ports.waiting(app) == 0 && state.ports.stalled(app) == 0,
        Source::Jobs => state.ports.first_owed().is_some() || state.ports.next_task(now).is_some(),
    }
}

/// Ends a turn with its answer.
#[tactic(auto, using(crate::proofs::Resting::finished_sound))]
pub fn finish(facts: &Facts, state: &mut State, now: u64, answer: Answer, report: &mut Events)
    requires sound { IsSound facts.now state.old.state }
    requires fits { Awaits facts.now state.old.state.doing (shown_answer answer) }
    requires waits { IsWaiting state.old.state.doing state.old.state now }
    requires countable { IsCountable state.old.state.ports }
    requires early { now < 2 ^ 62 }
    requires of_it { IsAnswerFrom state.old.region answer }
    requires unwritten { report.old.items ≡ [] }
    ensures told { ComesTo state.old state.new [] report.new.items (told_at facts.now state.old.state now (shown_answer answer)) }
    ensures sound { IsSound facts.now state.new.state }
    ensures numbers { (k : ℕ) → times k (holds state.new.state) ≡ times k (holds state.old.state) + times k (answer_numbers (shown_answer answer)) }
    ensures far { (n : ℕ) → AreFar n state.old.state.ports → AreFar (n + 1) state.new.state.ports }
{
    let doing = state.end_turn(report);
    finish_plan(facts, state, now, doing, answer, report);
}

/// Ends a turn that looked into a queue, which was empty.
#[tactic(auto, using(crate::proofs::Resting::finished_sound))]
pub fn miss(facts: &Facts, state: &mut State, now: u64, report: &mut Events)
    requires sound { IsSound facts.now state.old.state }
    requires fits { IsAnswerOf (rules_of facts.now) (kind_of_plan state.old.state.doing) AnswerShown.Empty }
    requires waits { IsWaiting state.old.state.doing state.old.state now }
    requires unwritten { report.old.items ≡ [] }
    ensures told { ComesTo state.old state.new [] report.new.items (told_at facts.now state.old.state now AnswerShown.Empty) }
    ensures sound { IsSound facts.now state.new.state }
    ensures numbers { (k : ℕ) → times k (holds state.new.state) ≡ times k (holds state.old.state) }
    ensures far { (n : ℕ) → AreFar n state.old.state.ports → AreFar (n + 1) state.new.state.ports }
{
    let doing = state.end_turn(report);
    miss_plan(facts, state, now, doing, report);
}

/// Ends the turn that a plan was, where its queue was empty: nothing comes.
#[tactic(auto, using(crate::proofs::Keeping::unchanged_keeps))]
fn miss_plan(_facts: &Facts, state: &mut State, _now: u64, doing: Plan, report: &mut Events)
    requires sound { IsSound _facts.now (record state.old.state { doing = doing; early = report.old.items }) }
    requires fits { IsAnswerOf (rules_of _facts.now) (kind_of_plan doing) AnswerShown.Empty }
    requires waits { IsWaiting doing state.old.state _now }
    requires rests { at_rest state.old.state ≡ state.old.state }
    ensures told { ComesTo state.old state.new report.old.items report.new.items ((turn_of _facts.now state.old.state _now doing).told AnswerShown.Empty) }
    ensures sendable { IsSendable _facts.now state.new.state.out }
    ensures keeps { Keeps (length _facts.now.ifaces) state.old.state state.new.state [] }
    ensures room { length state.new.state.trash + length (held state.new.state.ports) ≤ TRASH_ROOM }
{
    // That the trash has room for all that the ports hold is a clause of this reading.
    state.bounds();
    match doing {
        Plan::Hear | Plan::Serve(_) => {}
        Plan::Rest | Plan::Give | Plan::Push(_, _) | Plan::Make(_, _) => unreachable!(),
        Plan::Reply(_) | Plan::Tell(_) | Plan::Deliver(_) => unreachable!(),
    }
}

/// Ends the turn that a plan was.
#[tactic(auto, using(crate::proofs::Keeping::unchanged_keeps))]
fn finish_plan(
    facts: &Facts,
    state: &mut State,
    now: u64,
    doing: Plan,
    answer: Answer,
    report: &mut Events,
)
    requires sound { IsSound facts.now (record state.old.state { doing = doing; early = report.old.items }) }
    requires fits { Awaits facts.now doing (shown_answer answer) }
    requires waits { IsWaiting doing state.old.state now }
    requires countable { IsCountable state.old.state.ports }
    requires early { now < 2 ^ 62 }
    requires of_it { IsAnswerFrom state.old.region answer }
    requires rests { at_rest state.old.state ≡ state.old.state }
    ensures told { ComesTo state.old state.new report.old.items report.new.items ((turn_of facts.now state.old.state now doing).told (shown_answer answer)) }
    ensures sendable { IsSendable facts.now state.new.state.out }
    ensures keeps { Keeps (length facts.now.ifaces) state.old.state state.new.state (answer_numbers (shown_answer answer)) }
    ensures room { length state.new.state.trash + length (held state.new.state.ports) ≤ TRASH_ROOM }
{
    // That the trash has room for all that the ports hold is a clause of this reading.
    state.bounds();
    match doing {
        Plan::Rest => finish_rest(state, answer),
        Plan::Give => finish_give(state, answer),
        Plan::Push(queue, bytes) => finish_send(state, queue, bytes, answer, report),
        Plan::Hear => finish_hear(facts, state, now, answer, report),
        Plan::Serve(app) => finish_serve(facts, state, now, app, answer, report),
        Plan::Reply(_) => finish_reply(facts, state, answer, report),
        Plan::Tell(seat) => finish_note(facts, state, seat, answer, report),
        Plan::Deliver(seat) => finish_delivery(facts, state, now, seat, answer, report),
        Plan::Make(seat, job) => finish_packet(facts, state, now, seat, job, answer, report),
    }
}

/// Nothing was asked, and nothing comes.
fn finish_rest(state: &State, answer: Answer)
    requires no_buffer { buffer_in (shown_answer answer) ≡ None }
    requires no_item { item_in (shown_answer answer) ≡ None }
    requires of_it { IsAnswerFrom state.now.region answer }
    ensures { answer_numbers (shown_answer answer) ≡ [] }
{
    if let Some(_item) = state.item_of(answer) {
        unreachable!();
    }
}

/// Where the pool has no room, the buffer is the first of the trash again.
#[tactic(auto, using(crate::proofs::Keeping::unchanged_keeps))]
fn finish_give(state: &mut State, answer: Answer)
    requires place { HasPlace Plan.Give state.old.state }
    requires fits { item_in (shown_answer answer) ≡ None }
    requires of_it { IsAnswerFrom state.old.region answer }
    ensures told { ComesTo state.old state.new [] [] (brought state.old.state (kept state.old.state) (buffer_in (shown_answer answer))) }
    ensures keeps { (ifaces : ℕ) → Keeps ifaces state.old.state state.new.state (answer_numbers (shown_answer answer)) }
{
    if let Some(buffer) = state.buffer_of(answer) {
        state.keep(buffer);
    }
}

/// Where the queue has no room, the packet is discarded.
#[tactic(auto, using(crate::proofs::Keeping::unchanged_keeps))]
fn finish_push(state: &mut State, answer: Answer, report: &mut Events)
    requires free { IsFree state.old.state report.old.items }
    requires fits { buffer_in (shown_answer answer) ≡ None }
    requires of_it { IsAnswerFrom state.old.region answer }
    ensures told { ComesTo state.old state.new report.old.items report.new.items (no_room state.old.state (packet_in (item_in (shown_answer answer)))) }
    ensures out { state.new.state.out ≡ None }
    ensures keeps { (ifaces : ℕ) → Keeps ifaces state.old.state state.new.state (answer_numbers (shown_answer answer)) }
{
    if let Some(item) = state.item_of(answer) {
        refuse(state, item, report);
    }
}

/// A packet was pushed to its queue, or the queue had no room: either is counted.
#[tactic(auto, using(crate::proofs::Keeping::unchanged_keeps))]
fn finish_send(state: &mut State, queue: QueueId, bytes: u32, answer: Answer, report: &mut Events)
    requires free { IsFree state.old.state report.old.items }
    requires fits { buffer_in (shown_answer answer) ≡ None }
    requires of_it { IsAnswerFrom state.old.region answer }
    ensures told { ComesTo state.old state.new report.old.items report.new.items (cond (is_pushed (shown_answer answer)) (unchanged (went_out state.old.state queue bytes)) (no_room (was_full state.old.state queue) (packet_in (item_in (shown_answer answer))))) }
    ensures out { state.new.state.out ≡ None }
    ensures keeps { (ifaces : ℕ) → Keeps ifaces state.old.state state.new.state (answer_numbers (shown_answer answer)) }
{
    if let Answer::Pushed = answer {
        count_out(state, queue, bytes);
    } else {
        count_full(state, queue);
        finish_push(state, answer, report);
    }
}

/// A packet that its queue has no room for is discarded.
#[tactic(auto, using(crate::proofs::Keeping::unchanged_keeps))]
fn refuse(state: &mut State, item: Item, report: &mut Events)
    requires free { IsFree state.old.state report.old.items }
    requires of_it { IsItemOf state.old.region item }
    ensures told { ComesTo state.old state.new report.old.items report.new.items (no_room state.old.state (packet_in (Some (shown_item item)))) }
    ensures out { state.new.state.out ≡ None }
    ensures keeps { (ifaces : ℕ) → Keeps ifaces state.old.state state.new.state (item_numbers (shown_item item)) }
{
    match item {
        Item::Packet { mark: _, buffer } => state.discard(Discard::Full, buffer, report),
        Item::Note(_) | Item::Frame(_) => {}
    }
}

/// A packet from the inbox goes by the rules.
#[tactic(auto, using(crate::proofs::Keeping::unchanged_keeps))]
fn finish_hear(facts: &Facts, state: &mut State, now: u64, answer: Answer, report: &mut Events)
    requires sound { IsServing facts.now state.old.state }
    requires unwritten { report.old.items ≡ [] }
    requires fits { buffer_in (shown_answer answer) ≡ None }
    requires of_it { IsAnswerFrom state.old.region answer }
    requires countable { IsCountable state.old.state.ports }
    requires early { now < 2 ^ 62 }
    ensures told { ComesTo state.old state.new report.old.items report.new.items ((turn_of facts.now state.old.state now Plan.Hear).told (shown_answer answer)) }
    ensures sendable { IsSendable facts.now state.new.state.out }
    ensures keeps { Keeps (length facts.now.ifaces) state.old.state state.new.state (answer_numbers (shown_answer answer)) }
{
    if let Some(item) = state.item_of(answer) {
        hear_item(facts, state, now, item, report);
    }
}

/// An item from the inbox is a packet.
#[tactic(auto, using(crate::proofs::Keeping::unchanged_keeps))]
fn hear_item(facts: &Facts, state: &mut State, now: u64, item: Item, report: &mut Events)
    requires sound { IsServing facts.now state.old.state }
    requires unwritten { report.old.items ≡ [] }
    requires of_it { IsItemOf state.old.region item }
    requires countable { IsCountable state.old.state.ports }
    requires early { now < 2 ^ 62 }
    ensures told { ComesTo state.old state.new report.old.items report.new.items (brought state.old.state (λ p. heard facts.now (came_in state.old.state p.mark p.buffer) now p) (packet_in (Some (shown_item item)))) }
    ensures sendable { IsSendable facts.now state.new.state.out }
    ensures keeps { Keeps (length facts.now.ifaces) state.old.state state.new.state (item_numbers (shown_item item)) }
{
    match item {
        Item::Packet { mark, buffer } => {
            count_in(state, mark, &buffer);
            hear(facts, state, now, Packet::of(mark, buffer), report);
        }
        Item::Note(_) | Item::Frame(_) => {}
    }
}

/// An item from an application is sent, or discarded.
#[tactic(auto, using(crate::proofs::Keeping::unchanged_keeps))]
fn finish_serve(
    facts: &Facts,
    state: &mut State,
    now: u64,
    app: u8,
    answer: Answer,
    report: &mut Events,
)
    requires sound { IsServing facts.now state.old.state }
    requires unwritten { report.old.items ≡ [] }
    requires fits { buffer_in (shown_answer answer) ≡ None }
    requires from { IfSome (item_in (shown_answer answer)) (IsFrom facts.now app) }
    requires first { waiting app state.old.state.ports.owed ≡ 0 }
    requires alone { stalls_of app state.old.state.ports.slots ≡ 0 }
    requires of_it { IsAnswerFrom state.old.region answer }
    requires countable { IsCountable state.old.state.ports }
    ensures told { ComesTo state.old state.new report.old.items report.new.items ((turn_of facts.now state.old.state now (Plan.Serve app)).told (shown_answer answer)) }
    ensures sendable { IsSendable facts.now state.new.state.out }
    ensures keeps { Keeps (length facts.now.ifaces) state.old.state state.new.state (answer_numbers (shown_answer answer)) }
{
    if let Some(item) = state.item_of(answer) {
        serve(facts, state, now, app, item, report);
    }
}

/// An answer to an application was pushed, or stays owed where its lane has no room.
fn finish_reply(facts: &Facts, state: &mut State, answer: Answer, report: &mut Events)
    requires sound { IsServing facts.now state.old.state }
    requires unwritten { report.old.items ≡ [] }
    requires fits { buffer_in (shown_answer answer) ≡ None }
    requires of_it { IsAnswerFrom state.old.region answer }
    requires countable { IsCountable state.old.state.ports }
    ensures told { ComesTo state.old state.new report.old.items report.new.items (cond (is_pushed (shown_answer answer)) (ported state.old.state (answered state.old.state.ports)) (no_room state.old.state (packet_in (item_in (shown_answer answer))))) }
    ensures out { state.new.state.out ≡ None }
    ensures keeps { Keeps (length facts.now.ifaces) state.old.state state.new.state (answer_numbers (shown_answer answer)) }
{
    if let Answer::Pushed = answer {
        state.answer();
    } else {
        finish_push(state, answer, report);
    }
}

/// A Down note was pushed, or stays owed where its lane has no room.
fn finish_note(facts: &Facts, state: &mut State, seat: Seat, answer: Answer, report: &mut Events)
    requires sound { IsServing facts.now state.old.state }
    requires unwritten { report.old.items ≡ [] }
    requires there { IsThere state.old.state.ports.conns seat }
    requires fits { buffer_in (shown_answer answer) ≡ None }
    requires of_it { IsAnswerFrom state.old.region answer }
    ensures told { ComesTo state.old state.new report.old.items report.new.items (cond (is_pushed (shown_answer answer)) (unchanged (with_ports state.old.state (told_down seat state.old.state.ports))) (no_room state.old.state (packet_in (item_in (shown_answer answer))))) }
    ensures out { state.new.state.out ≡ None }
    ensures keeps { Keeps (length facts.now.ifaces) state.old.state state.new.state (answer_numbers (shown_answer answer)) }
{
    if let Answer::Pushed = answer {
        state.ports.tell_down(seat);
    } else {
        finish_push(state, answer, report);
    }
}

/// A packet was delivered, or its connection keeps it again where its lane has no room.
fn finish_delivery(
    facts: &Facts,
    state: &mut State,
    now: u64,
    seat: Seat,
    answer: Answer,
    report: &mut Events,
)
    requires sound { IsServing facts.now state.old.state }
    requires unwritten { report.old.items ≡ [] }
    requires there { IsThere state.old.state.ports.conns seat }
    requires taken { IsDelivering state.old.state seat }
    requires fits { buffer_in (shown_answer answer) ≡ None }
    requires of_it { IsAnswerFrom state.old.region answer }
    requires countable { IsCountable state.old.state.ports }
    ensures told { ComesTo state.old state.new report.old.items report.new.items ((turn_of facts.now state.old.state now (Plan.Deliver seat)).told (shown_answer answer)) }
    ensures out { state.new.state.out ≡ None }
    ensures keeps { Keeps (length facts.now.ifaces) state.old.state state.new.state (answer_numbers (shown_answer answer)) }
{
    if let Answer::Pushed = answer {
        state.deliver(seat, now, report);
    } else {
        keep_delivery(state, seat, answer);
    }
}

/// A packet that could not be delivered is kept by its connection again.
#[tactic(auto, using(crate::proofs::Keeping::unchanged_keeps))]
fn keep_delivery(state: &mut State, seat: Seat, answer: Answer)
    requires none { state.old.state.out ≡ None }
    requires there { IsThere state.old.state.ports.conns seat }
    requires taken { IsDelivering state.old.state seat }
    requires fits { buffer_in (shown_answer answer) ≡ None }
    requires of_it { IsAnswerFrom state.old.region answer }
    ensures told { ComesTo state.old state.new [] [] (kept_back state.old.state seat (packet_in (item_in (shown_answer answer)))) }
    ensures out { state.new.state.out ≡ None }
    ensures keeps { (ifaces : ℕ) → Keeps ifaces state.old.state state.new.state (answer_numbers (shown_answer answer)) }
{
    match state.item_of(answer) {
        Some(Item::Packet { mark: _, buffer }) => state.ports.keep_packet(seat, buffer),
        Some(Item::Note(_) | Item::Frame(_)) => {}
        None => {}
    }
}

/// A buffer came for a packet that a connection owes. Without one the packet stays owed.
#[tactic(auto, using(crate::proofs::Keeping::unchanged_keeps))]
fn finish_packet(
    facts: &Facts,
    state: &mut State,
    now: u64,
    seat: Seat,
    job: Job,
    answer: Answer,
    report: &mut Events,
)
    requires sound { IsServing facts.now state.old.state }
    requires unwritten { report.old.items ≡ [] }
    requires there { IsThere state.old.state.ports.conns seat }
    requires owed { job_of now (machine_at state.old.state.ports seat) ≡ Some job }
    requires sent { job ≢ Job.Deliver }
    requires fits { item_in (shown_answer answer) ≡ None }
    requires cleared { IfSome (buffer_in (shown_answer answer)) IsCleared }
    requires of_it { IsAnswerFrom state.old.region answer }
    ensures told { ComesTo state.old state.new report.old.items report.new.items ((turn_of facts.now state.old.state now (Plan.Make seat job)).told (shown_answer answer)) }
    ensures sendable { IsSendable facts.now state.new.state.out }
    ensures keeps { Keeps (length facts.now.ifaces) state.old.state state.new.state (answer_numbers (shown_answer answer)) }
{
    if let Some(buffer) = state.buffer_of(answer) {
        make(facts, state, now, seat, job, buffer, report);
    }
}
