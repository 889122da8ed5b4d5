//! What an interface asks in a turn.

ghost use Rattle.std.specs.Prelude.{◌≡◌, [], IfSome, MatchOption, slice_get};
ghost use Rattle.std.specs.Option.{option_map};
ghost use Rattle.csp_arena.specs.Cells.{RegionName};
ghost use Rattle.csp_deck.specs.Regions.{IsOpOf};
ghost use Rattle.csp_deck.specs.Step.{CanServe};
ghost use Rattle.csp_iface.specs.Asking.{given, delivered, transmitted};
ghost use Rattle.csp_log.specs.Pictures.{shown_op};
ghost use Rattle.csp_log.specs.declared.places.QueueId.{QueueId};
ghost use Rattle.csp_log.specs.declared.shown.OpShown.{OpShown};

use crate::Iface;
use crate::plan::{IfacePlan, Side};
use csp_buffer::Buffer;
use csp_deck::Circle;
use csp_log::{BoxedFrame, Item, Op, QueueId};

impl Iface {
    ghost use Rattle.csp_iface.specs.PlainIface.{uses, holds, with_iface};
    ghost use Rattle.csp_iface.specs.Planning.{plan_of, side_plan};
    ghost use Rattle.csp_iface.specs.Asking.{asks, asked};
    ghost use Rattle.csp_iface.specs.Circling.{circle, is_idle, sides};

    /// What this turn is.
    fn plan(&self) -> IfacePlan
        requires { self.now.iface.doing ≡ IfacePlan.Rest }
        ensures { result ≡ plan_of self.now.iface }
    {
        if !self.back.is_empty() {
            return IfacePlan::Return;
        }
        if !self.accepted.is_empty() {
            return IfacePlan::Deliver;
        }
        if self.whole.is_some() {
            return IfacePlan::Take;
        }
        self.side_plan()
    }

    /// The turn of the side that comes next.
    fn side_plan(&self) -> IfacePlan
        requires { self.now.iface.doing ≡ IfacePlan.Rest }
        ensures { result ≡ side_plan self.now.iface.side self.now.iface.frames }
    {
        match self.side {
            Side::Sending if self.sender.is_loaded() => IfacePlan::Transmit,
            Side::Sending => IfacePlan::Fetch,
            Side::Receiving => IfacePlan::Receive,
        }
    }

    /// The queue that this turn looks into, where it does no more.
    pub(crate) fn look_now(&mut self) -> Option<QueueId>
        requires rests { self.old.iface.doing ≡ IfacePlan.Rest }
        ensures looks { MatchOption result (self.new ≡ self.old) (λ q. (asks self.old.iface 0 ≡ OpShown.Pop q) × (self.new ≡ with_iface self.old (asked self.old.iface 0))) }
        ensures served { IfSome result (λ q. CanServe (uses self.old.iface) (OpShown.Pop q)) }
        ensures uses { (q : QueueId) → uses self.new.iface q ≡ uses self.old.iface q }
        ensures holds { holds self.new.iface ≡ holds self.old.iface }
    {
        let plan = self.plan();
        let queue = match plan {
            IfacePlan::Fetch => QueueId::Out(self.number),
            IfacePlan::Receive => QueueId::Rx(self.number),
            IfacePlan::Rest
            | IfacePlan::Return
            | IfacePlan::Deliver
            | IfacePlan::Take
            | IfacePlan::Transmit => return None,
        };
        self.side = self.side.other();
        self.doing = plan;
        Some(queue)
    }

    /// The queues that it looks into until it is as it is now, where each is empty: those of its two sides, unless
    /// there is something else to do.
    pub(crate) fn circle_now(&self) -> Circle
        requires rests { self.now.iface.doing ≡ IfacePlan.Rest }
        ensures { result.items ≡ circle self.now.iface }
    {
        let mut circle = Circle::new();
        if self.is_idle() {
            self.list_sides(&mut circle);
        }
        circle
    }

    /// Whether neither side has anything to do but look.
    fn is_idle(&self) -> bool
        requires { self.now.iface.doing ≡ IfacePlan.Rest }
        ensures { result ≡ is_idle self.now.iface }
    {
        self.back.is_empty()
            && self.accepted.is_empty()
            && !self.whole.is_some()
            && !self.sender.is_loaded()
            && self.receiver.is_read()
    }

    /// Lists the queues of the two sides, that whose turn comes next first.
    fn list_sides(&self, circle: &mut Circle)
        requires { circle.old.items ≡ [] }
        ensures { circle.new.items ≡ sides self.now.iface.number self.now.iface.side }
    {
        let out = QueueId::Out(self.number);
        let rx = QueueId::Rx(self.number);
        match self.side {
            Side::Sending => {
                circle.push(out);
                circle.push(rx);
            }
            Side::Receiving => {
                circle.push(rx);
                circle.push(out);
            }
        }
    }

    /// The operation of this turn, whose buffer or frame leaves the interface.
    pub(crate) fn ask_now(&mut self) -> Op
        requires rests { self.old.iface.doing ≡ IfacePlan.Rest }
        ensures op { shown_op result ≡ asks self.old.iface 0 }
        ensures of_it { IsOpOf self.old.region result }
        ensures served { CanServe (uses self.old.iface) (shown_op result) }
        ensures state { self.new ≡ with_iface self.old (asked self.old.iface 0) }
    {
        let plan = self.plan();
        let op = match plan {
            IfacePlan::Rest => Op::Nothing,
            IfacePlan::Return => given(self.back.take()),
            IfacePlan::Deliver => delivered(self.number, self.accepted.take()),
            IfacePlan::Take => Op::Take,
            IfacePlan::Transmit => {
                self.side = self.side.other();
                transmitted(self.number, self.sender.next())
            }
            IfacePlan::Fetch => {
                self.side = self.side.other();
                Op::Pop(QueueId::Out(self.number))
            }
            IfacePlan::Receive => {
                self.side = self.side.other();
                Op::Pop(QueueId::Rx(self.number))
            }
        };
        self.doing = plan;
        op
    }
}

/// A buffer goes back to the pool.
fn given(buffer: Option<Buffer>) -> Op
    ensures op { shown_op result ≡ given (option_map (λ b. b.picture) buffer) }
    ensures of_it { (r : RegionName) → IfSome buffer (λ b. b.region ≡ r) → IsOpOf r result }
{
    match buffer {
        Some(buffer) => Op::Give(buffer),
        None => Op::Nothing,
    }
}

/// An accepted packet goes to the inbox, marked with the interface.
fn delivered(number: u8, packet: Option<Buffer>) -> Op
    ensures op { shown_op result ≡ delivered number (option_map (λ b. b.picture) packet) }
    ensures of_it { (r : RegionName) → IfSome packet (λ b. b.region ≡ r) → IsOpOf r result }
{
    match packet {
        Some(buffer) => Op::Push(
            QueueId::Inbox,
            Item::Packet {
                mark: number,
                buffer,
            },
        ),
        None => Op::Nothing,
    }
}

/// A frame goes to the link.
fn transmitted(number: u8, frame: Option<BoxedFrame>) -> Op
    ensures op { shown_op result ≡ transmitted number frame }
    ensures of_it { (r : RegionName) → IsOpOf r result }
{
    match frame {
        Some(frame) => Op::Push(QueueId::Tx(number), Item::Frame(frame)),
        None => Op::Nothing,
    }
}
