//! What a bridge asks in a turn, and what it makes of the answer.

ghost use Rattle.std.specs.Prelude.{◌≡◌, None, [], IfSome, MatchOption};
ghost use Rattle.csp_deck.specs.Regions.{IsAnswerFrom, IsItemOf, IsOpOf};
ghost use Rattle.csp_deck.specs.Step.{CanServe, IsAnswerOf};
ghost use Rattle.csp_log.specs.Pictures.{shown_answer, shown_item, shown_op};
ghost use Rattle.csp_log.specs.declared.places.QueueId.{QueueId};
ghost use Rattle.csp_log.specs.declared.shown.OpShown.{OpShown};

use crate::Bridge;
use crate::doing::Doing;
use csp_deck::Circle;
use csp_log::{Answer, AnswerShown, Discard, Event, Events, Item, Op, QueueId, UNMARKED};

impl Bridge {
    ghost use Rattle.csp_bridge.specs.Circling.{circle};
    ghost use Rattle.csp_bridge.specs.PlainBridge.{holds, uses, with_bridge};
    ghost use Rattle.csp_bridge.specs.Turns.{asks, asked, awaits, crossing, discarded, tells, events};

    /// The queue that this turn looks into, where it does no more.
    pub(crate) fn look_now(&mut self) -> Option<QueueId>
        ensures looks { MatchOption result (self.new ≡ self.old) (λ q. (asks self.old.bridge ≡ OpShown.Pop q) × (self.new ≡ with_bridge self.old (asked self.old.bridge))) }
        ensures served { IfSome result (λ q. CanServe (uses self.old.bridge) (OpShown.Pop q)) }
        ensures uses { (q : QueueId) → uses self.new.bridge q ≡ uses self.old.bridge q }
        ensures holds { holds self.new.bridge ≡ holds self.old.bridge }
    {
        if !self.trash.is_empty() || !self.out.is_empty() {
            return None;
        }
        self.doing = Doing::Hear;
        Some(QueueId::Inbox)
    }

    /// The queues that it looks into until it is as it is now, where each is empty: its inbox alone, unless it holds
    /// a packet.
    pub(crate) fn circle_now(&self) -> Circle
        ensures { result.items ≡ circle self.now.bridge }
    {
        let mut circle = Circle::new();
        if matches!(self.doing, Doing::Rest) && self.trash.is_empty() && self.out.is_empty() {
            circle.push(QueueId::Inbox);
        }
        circle
    }

    /// The operation of this turn, whose buffer leaves the bridge.
    #[tactic(auto, using(crate::proofs::StepLaws::out_carried))]
    pub(crate) fn ask_now(&mut self) -> Op
        ensures op { shown_op result ≡ asks self.old.bridge }
        ensures of_it { IsOpOf self.old.region result }
        ensures state { self.new ≡ with_bridge self.old (asked self.old.bridge) }
        ensures served { CanServe (uses self.old.bridge) (shown_op result) }
    {
        if let Some(buffer) = self.trash.take() {
            self.doing = Doing::Give;
            return Op::Give(buffer);
        }
        if let Some(buffer) = self.out.take() {
            self.doing = Doing::Send;
            let packet = Item::Packet {
                mark: UNMARKED,
                buffer,
            };
            return Op::Push(QueueId::Out(self.to), packet);
        }
        self.doing = Doing::Hear;
        Op::Pop(QueueId::Inbox)
    }

    /// Ends the turn with the operation's answer.
    pub(crate) fn told_now(&mut self, answer: Answer, report: &mut Events)
        requires fits { IsAnswerOf (uses self.old.bridge) (awaits self.old.bridge) (shown_answer answer) }
        requires of_it { IsAnswerFrom self.old.region answer }
        requires unwritten { report.old.items ≡ [] }
        ensures events { report.new.items ≡ events self.old.bridge (shown_answer answer) }
        ensures state { self.new ≡ with_bridge self.old (tells self.old.bridge (shown_answer answer)) }
    {
        self.doing = Doing::Rest;
        match answer {
            Answer::PoolFull(buffer) => self.trash.put(buffer),
            Answer::Full(item) => {
                self.discard(item);
                report.push(Event::Discarded(Discard::Full));
            }
            Answer::Popped(item) => self.pass_on(item),
            Answer::Given | Answer::Pushed | Answer::Empty | Answer::Nothing => {}
            Answer::Taken(_buffer) => unreachable!(),
            Answer::NoBuffer => unreachable!(),
        }
    }

    /// The other interface had no room: the packet is discarded.
    fn discard(&mut self, item: Item)
        requires room { self.old.bridge.trash ≡ None }
        requires rest { self.old.bridge.doing ≡ Doing.Rest }
        requires of_it { IsItemOf self.old.region item }
        ensures { self.new ≡ with_bridge self.old (discarded self.old.bridge (AnswerShown.Full (shown_item item))) }
    {
        match item {
            Item::Packet { mark: _, buffer } => self.trash.put(buffer),
            Item::Frame(_) | Item::Note(_) => {}
        }
    }

    /// A packet came in: it is to go out at the other side.
    fn pass_on(&mut self, item: Item)
        requires room { self.old.bridge.out ≡ None }
        requires rest { self.old.bridge.doing ≡ Doing.Rest }
        requires of_it { IsItemOf self.old.region item }
        ensures { self.new ≡ with_bridge self.old (crossing self.old.bridge (AnswerShown.Popped (shown_item item))) }
    {
        match item {
            Item::Packet { mark, buffer } => {
                self.to = if mark == 0 { 1 } else { 0 };
                self.out.put(buffer);
            }
            Item::Frame(_) | Item::Note(_) => {}
        }
    }
}
