//! What an application asks in a turn.

ghost use Rattle.std.specs.Prelude.{◌≡◌, ◌<◌, false, IfSome, MatchOption};
ghost use Rattle.csp_deck.specs.Step.{CanServe};
ghost use Rattle.csp_log.specs.declared.places.QueueId.{QueueId};
ghost use Rattle.csp_log.specs.declared.shown.OpShown.{OpShown};
ghost use Rattle.std.specs.Option.{option_map};
ghost use Rattle.csp_app.specs.Turn.{giving_op, pushing_op};
ghost use Rattle.csp_arena.specs.Cells.{RegionName};
ghost use Rattle.csp_deck.specs.Regions.{IsOpOf};
ghost use Rattle.csp_log.specs.Pictures.{shown_op};

use crate::plan::AppPlan;
use crate::slot::KnownSlot;
use crate::{App, Step};
use csp_base::SLOTS;
use csp_buffer::Buffer;
use csp_deck::Circle;
use csp_log::{Item, ItemShown, Note, Op, QueueId};

impl App {
    ghost use Rattle.csp_app.specs.PlainApp.{uses, has_ended, holds, with_app};
    ghost use Rattle.std.specs.Prelude.{nat_le};
    ghost use Rattle.csp_app.specs.Slots.{slot_at};
    ghost use Rattle.csp_app.specs.Steps.{plan_of, give_plan, note_plan, packet_plan, recv_plan, is_enough};
    ghost use Rattle.csp_app.specs.Asking.{asks, asked, awaits};
    ghost use Rattle.csp_app.specs.Waiting.{waits_on, receives_on, vain_looks};

    /// What this turn is.
    fn plan(&self) -> AppPlan
        requires { has_ended self.now.app ≡ false }
        ensures { result ≡ plan_of self.now.app }
    {
        if !self.taken.is_empty() {
            return AppPlan::Return;
        }
        if self.refused {
            return AppPlan::Look;
        }
        match self.script.step(self.progress.done) {
            Step::Take => AppPlan::Take,
            Step::Give => self.give_plan(),
            Step::Bind { port, need } => self.note_plan(Note::Bind { port, need }),
            Step::Connect {
                slot,
                dest,
                port,
                prio,
                flags,
                from,
            } => self.note_plan(Note::Connect {
                slot,
                dest,
                port,
                prio,
                flags,
                from,
            }),
            Step::Send { .. } | Step::Burst { .. } | Step::Blob { .. } | Step::Raw { .. } => {
                self.packet_plan()
            }
            Step::Recv {
                slot,
                count,
                rounds,
            } => self.recv_plan(slot, count, rounds),
            Step::Collect {
                slot,
                count,
                rounds,
            } => self.recv_plan(slot, count, rounds),
            Step::Close { slot } => self.note_plan(Note::Close { slot }),
            Step::Wait { rounds } => AppPlan::Wait { rounds },
        }
    }

    /// A `give` step gives the buffer held longest, or does nothing.
    fn give_plan(&self) -> AppPlan
        ensures { result ≡ give_plan self.now.app.held }
    {
        if self.held.len() == 0 {
            AppPlan::Skip
        } else {
            AppPlan::Give
        }
    }

    /// A step that asks pushes its note, and then looks for the answer.
    fn note_plan(&self, note: Note) -> AppPlan
        ensures { result ≡ note_plan self.now.app.asked note }
    {
        if self.progress.asked {
            AppPlan::Await
        } else {
            AppPlan::Ask(note)
        }
    }

    /// A step that sends takes a buffer for its packet, and pushes the packet.
    fn packet_plan(&self) -> AppPlan
        ensures { result ≡ packet_plan self.now.app.made }
    {
        if self.made.is_empty() {
            AppPlan::Fill
        } else {
            AppPlan::Push
        }
    }

    /// A `recv` step does nothing where its packets are there at its start, and else looks for one.
    fn recv_plan(&self, slot: u8, count: u32, rounds: Option<u32>) -> AppPlan
        requires { slot < SLOTS }
        ensures { result ≡ recv_plan slot count rounds self.now.app.since (is_enough slot count self.now.app) }
    {
        if self.progress.since.is_none() && count <= self.slots[slot as usize].unused {
            AppPlan::Use { slot, count }
        } else {
            AppPlan::Receive {
                slot,
                count,
                rounds,
            }
        }
    }

    /// The queue that this turn looks into, where it does no more.
    #[tactic(auto, using(crate::proofs::Hearing::asked_ready))]
    pub(crate) fn look_now(&mut self, now: u64) -> Option<QueueId>
        requires goes_on { has_ended self.old.app ≡ false }
        ensures looks { MatchOption result (self.new ≡ self.old) (λ q. (asks self.old.app now ≡ OpShown.Pop q) × (self.new ≡ with_app self.old (asked self.old.app now))) }
        ensures served { IfSome result (λ q. CanServe (uses self.old.app) (OpShown.Pop q)) }
        ensures uses { (q : QueueId) → uses self.new.app q ≡ uses self.old.app q }
        ensures holds { holds self.new.app ≡ holds self.old.app }
    {
        let plan = self.plan();
        match &plan {
            AppPlan::Look => self.refused = false,
            AppPlan::Await => {}
            AppPlan::Receive { .. } | AppPlan::Wait { .. } => self.progress.note(now),
            AppPlan::Rest | AppPlan::Skip | AppPlan::Use { .. } | AppPlan::Return => return None,
            AppPlan::Take | AppPlan::Fill | AppPlan::Give | AppPlan::Ask(_) | AppPlan::Push =>
                return None,
        }
        self.doing = plan;
        Some(QueueId::Down(self.number))
    }

    /// The queues that it looks into until it is as it is now, where each is empty: its `Down` alone, while its step
    /// waits and no time or slot ends that.
    pub(crate) fn circle_now(&self, now: u64) -> Circle
        requires goes_on { has_ended self.now.app ≡ false }
        ensures { result.items ≡ vain_looks self.now.app now }
    {
        let mut circle = Circle::new();
        if matches!(self.doing, AppPlan::Rest) && self.waits_on(now) {
            circle.push(QueueId::Down(self.number));
        }
        circle
    }

    /// Whether this turn looks into `Down`, and comes to nothing where that is empty.
    fn waits_on(&self, now: u64) -> bool
        requires goes_on { has_ended self.now.app ≡ false }
        ensures { result ≡ waits_on self.now.app now (plan_of self.now.app) }
    {
        match self.plan() {
            AppPlan::Await => true,
            AppPlan::Receive {
                slot,
                count,
                rounds,
            } => self.receives_on(slot, count, rounds, now),
            AppPlan::Wait { rounds } => {
                self.progress.since.is_some() && !self.progress.has_passed(rounds, now)
            }
            AppPlan::Rest
            | AppPlan::Return
            | AppPlan::Look
            | AppPlan::Take
            | AppPlan::Give
            | AppPlan::Skip => false,
            AppPlan::Ask(_) | AppPlan::Fill | AppPlan::Push | AppPlan::Use { .. } => false,
        }
    }

    /// Whether a `recv` step that looked before goes on looking.
    fn receives_on(&self, slot: u8, count: u32, rounds: Option<u32>, now: u64) -> bool
        requires slot { slot < SLOTS }
        ensures { result ≡ receives_on slot count rounds now self.now.app }
    {
        let KnownSlot { unused, down, .. } = self.slots[slot as usize];
        self.progress.since.is_some()
            && unused < count
            && !rounds.is_some_and(|rounds| self.progress.has_passed(rounds, now))
            && !down
    }

    /// The operation of this turn, whose buffer leaves the application.
    #[tactic(auto, using(crate::proofs::Hearing::asked_ready))]
    pub(crate) fn ask_now(&mut self, now: u64) -> Op
        requires goes_on { has_ended self.old.app ≡ false }
        ensures op { shown_op result ≡ asks self.old.app now }
        ensures of_it { IsOpOf self.old.region result }
        ensures state { self.new ≡ with_app self.old (asked self.old.app now) }
    {
        let plan = self.plan();
        let op = match &plan {
            AppPlan::Rest | AppPlan::Skip | AppPlan::Use { .. } => Op::Nothing,
            AppPlan::Return => given(self.taken.take()),
            AppPlan::Look => {
                self.refused = false;
                Op::Pop(QueueId::Down(self.number))
            }
            AppPlan::Take | AppPlan::Fill => Op::Take,
            AppPlan::Give => given(self.held.pop()),
            AppPlan::Ask(note) => Op::Push(QueueId::Up(self.number), Item::Note(*note)),
            AppPlan::Await => Op::Pop(QueueId::Down(self.number)),
            AppPlan::Push => pushed(self.number, self.mark, self.made.take()),
            AppPlan::Receive { .. } | AppPlan::Wait { .. } => {
                self.progress.note(now);
                Op::Pop(QueueId::Down(self.number))
            }
        };
        self.doing = plan;
        op
    }
}

/// A buffer goes back to the pool.
#[inline(never)]
fn given(buffer: Option<Buffer>) -> Op
    ensures op { shown_op result ≡ giving_op (option_map (λ b. b.picture) buffer) }
    ensures of_it { (r : RegionName) → IfSome buffer (λ b. b.region ≡ r) → IsOpOf r result }
{
    match buffer {
        Some(buffer) => Op::Give(buffer),
        None => Op::Nothing,
    }
}

/// A packet with its mark goes to the `Up` of this application.
#[inline(always)]
fn pushed(number: u8, mark: u8, packet: Option<Buffer>) -> Op
    ensures op { shown_op result ≡ pushing_op number (option_map (λ b. ItemShown.Packet mark b.picture) packet) }
    ensures of_it { (r : RegionName) → IfSome packet (λ b. b.region ≡ r) → IsOpOf r result }
{
    match packet {
        Some(buffer) => Op::Push(QueueId::Up(number), Item::Packet { mark, buffer }),
        None => Op::Nothing,
    }
}
