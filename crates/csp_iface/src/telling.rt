//! What an interface makes of an answer.

ghost use Rattle.std.specs.Prelude.{◌≡◌, ◌≢◌, ◌+◌, ◌-◌, ◌^◌, ◌<◌, ◌≤◌, None, [], ◌∷◌, ◌++◌, length};
ghost use Rattle.csp_deck.specs.Carried.{IsOutItem};
ghost use Rattle.csp_deck.specs.Keeping.{with_content};
ghost use Rattle.csp_deck.specs.Regions.{IsAnswerFrom, IsItemOf};
ghost use Rattle.csp_deck.specs.Step.{IsAnswerOf, IsCleared};
ghost use Rattle.csp_iface.specs.Sending.{next_node};
ghost use Rattle.csp_iface.specs.Telling.{packet_in};
ghost use Rattle.csp_log.specs.Pictures.{shown_answer, shown_item};

use crate::Iface;
use crate::heeding::is_for;
use crate::plan::IfacePlan;
use csp_base::{Addr, MAX_FRAME, Origin};
use csp_buffer::Buffer;
use csp_deck::{Hand, Spares};
use csp_header::Header;
use csp_log::{Answer, AnswerShown, BoxedFrame, Event, Events, Item, ItemShown, UNMARKED};

impl Iface {
    ghost use Rattle.csp_iface.specs.PlainIface.{uses, with_iface};
    ghost use Rattle.csp_iface.specs.Asking.{awaits};
    ghost use Rattle.csp_iface.specs.Links.{IsFrameOn};
    ghost use Rattle.csp_iface.specs.Stocking.{answered_stock, caught_stock, fetched_stock, made_stock, read_after_stock, stocks};
    ghost use Rattle.csp_iface.specs.Telling.{tells, events, answered, read_after, begun, caught, fetched, resting, pushed};

    /// Ends the turn with its answer: what the answer makes of the interface, and what it reads on then.
    pub(crate) fn told_now(
        &mut self,
        answer: Answer,
        now: u64,
        report: &mut Events,
        spares: &mut Spares,
    )
        requires fits { IsAnswerOf (uses self.old.iface) (awaits self.old.iface) (shown_answer answer) }
        requires of_it { IsAnswerFrom self.old.region answer }
        requires countable { self.old.iface.serial < 2 ^ 32 - 1 }
        requires unwritten { report.old.items ≡ [] }
        requires stock { 0 < spares.old.boxes }
        ensures events { report.new.items ≡ events self.old.iface now (shown_answer answer) }
        ensures state { self.new ≡ with_iface self.old (tells self.old.iface now (shown_answer answer)) }
        ensures stock { spares.new ≡ stocks self.old.iface now (shown_answer answer) spares.old }
        ensures least { spares.old.boxes ≤ spares.new.boxes + 1 }
        ensures most { spares.new.boxes ≤ spares.old.boxes + 2 }
    {
        let refused = self.take_answer(answer, now, report, spares);
        let count = refused + self.read_on(spares);
        if count > 0 {
            report.push(Event::Bad { count });
        }
    }

    /// Ends a turn whose look into a queue found nothing.
    pub(crate) fn miss_now(&mut self, now: u64, report: &mut Events, spares: &mut Spares)
        requires fits { IsAnswerOf (uses self.old.iface) (awaits self.old.iface) AnswerShown.Empty }
        requires unwritten { report.old.items ≡ [] }
        ensures events { report.new.items ≡ events self.old.iface now AnswerShown.Empty }
        ensures state { self.new ≡ with_iface self.old (tells self.old.iface now AnswerShown.Empty) }
        ensures stock { spares.new ≡ stocks self.old.iface now AnswerShown.Empty spares.old }
        ensures least { spares.old.boxes ≤ spares.new.boxes }
        ensures most { spares.new.boxes ≤ spares.old.boxes + 1 }
    {
        self.told_empty(now);
        let count = self.read_on(spares);
        if count > 0 {
            report.push(Event::Bad { count });
        }
    }

    /// Reads on in the frame in hand, but nothing while a packet is in hand. Gives how many pieces were
    /// refused.
    #[inline(always)]
    fn read_on(&mut self, spares: &mut Spares) -> u32
        requires { self.old.iface.doing ≡ IfacePlan.Rest }
        ensures state { self.new ≡ with_iface self.old (record self.old.iface { receiver = (read_after self.old.iface).receiver; whole = (read_after self.old.iface).whole }) }
        ensures refused { result ≡ (read_after self.old.iface).refused }
        ensures few { result ≤ MAX_FRAME }
        ensures stock { spares.new ≡ read_after_stock self.old.iface spares.old }
        ensures least { spares.old.boxes ≤ spares.new.boxes }
        ensures most { spares.new.boxes ≤ spares.old.boxes + 1 }
    {
        if self.whole.is_some() || !self.accepted.is_empty() {
            return 0;
        }
        self.receiver.read_on(&mut self.whole, spares)
    }

    /// What an answer makes of the interface. Gives how many frames were refused.
    fn take_answer(
        &mut self,
        answer: Answer,
        now: u64,
        report: &mut Events,
        spares: &mut Spares,
    ) -> u32
        requires fits { IsAnswerOf (uses self.old.iface) (awaits self.old.iface) (shown_answer answer) }
        requires of_it { IsAnswerFrom self.old.region answer }
        requires countable { self.old.iface.serial < 2 ^ 32 - 1 }
        requires unwritten { report.old.items ≡ [] }
        requires stock { 0 < spares.old.boxes }
        ensures events { report.new.items ≡ (answered self.old.iface now (shown_answer answer)).events }
        ensures state { self.new ≡ with_iface self.old (answered self.old.iface now (shown_answer answer)).iface }
        ensures refused { result ≡ (answered self.old.iface now (shown_answer answer)).refused }
        ensures few { result ≤ 1 }
        ensures room { length report.new.items ≤ 1 }
        ensures stock { spares.new ≡ answered_stock self.old.iface self.old.iface.doing (shown_answer answer) spares.old }
        ensures least { spares.old.boxes ≤ spares.new.boxes + 1 }
        ensures most { spares.new.boxes ≤ spares.old.boxes + 1 }
    {
        match answer {
            Answer::Nothing => self.told_nothing(now),
            Answer::Taken(buffer) => self.told_taken(buffer, now),
            Answer::NoBuffer => self.told_no_buffer(now, report),
            Answer::Given => self.told_given(now),
            Answer::PoolFull(buffer) => self.told_pool_full(buffer, now),
            Answer::Pushed => self.told_pushed(now, spares),
            Answer::Full(item) => self.told_full(item, now, report),
            Answer::Popped(item) => return self.told_popped(item, now, report, spares),
            Answer::Empty => self.told_empty(now),
        }
        0
    }

    fn told_nothing(&mut self, now: u64)
        requires { IsAnswerOf (uses self.old.iface) (awaits self.old.iface) AnswerShown.Nothing }
        ensures events { (answered self.old.iface now AnswerShown.Nothing).events ≡ [] }
        ensures refused { (answered self.old.iface now AnswerShown.Nothing).refused ≡ 0 }
        ensures state { self.new ≡ with_iface self.old (answered self.old.iface now AnswerShown.Nothing).iface }
    {
        self.doing = IfacePlan::Rest;
    }

    fn told_given(&mut self, now: u64)
        requires { IsAnswerOf (uses self.old.iface) (awaits self.old.iface) AnswerShown.Given }
        ensures events { (answered self.old.iface now AnswerShown.Given).events ≡ [] }
        ensures refused { (answered self.old.iface now AnswerShown.Given).refused ≡ 0 }
        ensures state { self.new ≡ with_iface self.old (answered self.old.iface now AnswerShown.Given).iface }
    {
        self.doing = IfacePlan::Rest;
    }

    fn told_empty(&mut self, now: u64)
        requires { IsAnswerOf (uses self.old.iface) (awaits self.old.iface) AnswerShown.Empty }
        ensures events { (answered self.old.iface now AnswerShown.Empty).events ≡ [] }
        ensures refused { (answered self.old.iface now AnswerShown.Empty).refused ≡ 0 }
        ensures state { self.new ≡ with_iface self.old (answered self.old.iface now AnswerShown.Empty).iface }
    {
        self.doing = IfacePlan::Rest;
    }

    /// A whole packet has its buffer.
    fn told_taken(&mut self, buffer: Buffer, now: u64)
        requires fits { IsAnswerOf (uses self.old.iface) (awaits self.old.iface) (AnswerShown.Taken buffer.picture) }
        requires of_it { buffer.region ≡ self.old.region }
        ensures events { (answered self.old.iface now (AnswerShown.Taken buffer.picture)).events ≡ [] }
        ensures refused { (answered self.old.iface now (AnswerShown.Taken buffer.picture)).refused ≡ 0 }
        ensures state { self.new ≡ with_iface self.old (answered self.old.iface now (AnswerShown.Taken buffer.picture)).iface }
    {
        let buffer = self.whole.fill(buffer);
        self.whole.clear();
        self.accepted.put(buffer);
        self.doing = IfacePlan::Rest;
    }

    /// A whole packet found no buffer, and is dropped.
    fn told_no_buffer(&mut self, now: u64, report: &mut Events)
        requires fits { IsAnswerOf (uses self.old.iface) (awaits self.old.iface) AnswerShown.NoBuffer }
        requires unwritten { report.old.items ≡ [] }
        ensures events { report.new.items ≡ (answered self.old.iface now AnswerShown.NoBuffer).events }
        ensures refused { (answered self.old.iface now AnswerShown.NoBuffer).refused ≡ 0 }
        ensures state { self.new ≡ with_iface self.old (answered self.old.iface now AnswerShown.NoBuffer).iface }
        ensures room { length report.new.items ≤ 1 }
    {
        self.whole.clear();
        self.doing = IfacePlan::Rest;
        report.push(Event::Starved);
    }

    /// The pool was full: the buffer is still to be given back.
    fn told_pool_full(&mut self, buffer: Buffer, now: u64)
        requires fits { IsAnswerOf (uses self.old.iface) (awaits self.old.iface) (AnswerShown.PoolFull buffer.picture) }
        requires of_it { buffer.region ≡ self.old.region }
        ensures events { (answered self.old.iface now (AnswerShown.PoolFull buffer.picture)).events ≡ [] }
        ensures refused { (answered self.old.iface now (AnswerShown.PoolFull buffer.picture)).refused ≡ 0 }
        ensures state { self.new ≡ with_iface self.old (answered self.old.iface now (AnswerShown.PoolFull buffer.picture)).iface }
    {
        self.back.put(buffer);
        self.doing = IfacePlan::Rest;
    }

    /// The packet is in the inbox, or the frame is on the link.
    fn told_pushed(&mut self, now: u64, spares: &mut Spares)
        requires fits { IsAnswerOf (uses self.old.iface) (awaits self.old.iface) AnswerShown.Pushed }
        requires stock { 0 < spares.old.boxes }
        ensures events { (answered self.old.iface now AnswerShown.Pushed).events ≡ [] }
        ensures refused { (answered self.old.iface now AnswerShown.Pushed).refused ≡ 0 }
        ensures state { self.new ≡ with_iface self.old (answered self.old.iface now AnswerShown.Pushed).iface }
        ensures stock { spares.new ≡ answered_stock self.old.iface self.old.iface.doing AnswerShown.Pushed spares.old }
        ensures least { spares.old.boxes ≤ spares.new.boxes + 1 }
        ensures most { spares.new.boxes ≤ spares.old.boxes }
    {
        match self.doing {
            IfacePlan::Transmit => self.go_on(spares),
            _ => self.doing = IfacePlan::Rest,
        }
    }

    /// A frame was pushed: the next is made, or after the last the buffer is to be given back.
    fn go_on(&mut self, spares: &mut Spares)
        requires doing { self.old.iface.doing ≡ IfacePlan.Transmit }
        requires stock { 0 < spares.old.boxes }
        ensures state { self.new ≡ with_iface self.old (pushed self.old.iface.frames (resting self.old.iface)) }
        ensures stock { spares.new ≡ made_stock self.old.iface.frames spares.old }
        ensures least { spares.old.boxes ≤ spares.new.boxes + 1 }
        ensures most { spares.new.boxes ≤ spares.old.boxes }
    {
        self.sender.load(spares);
        if !self.sender.is_loaded()
            && let Some(buffer) = self.sender.release()
        {
            self.back.put(buffer);
        }
        self.doing = IfacePlan::Rest;
    }

    /// The inbox was full, and the buffer is to be given back; or the link was, and the frame is kept.
    fn told_full(&mut self, item: Item, now: u64, report: &mut Events)
        requires fits { IsAnswerOf (uses self.old.iface) (awaits self.old.iface) (AnswerShown.Full (shown_item item)) }
        requires of_it { IsItemOf self.old.region item }
        requires unwritten { report.old.items ≡ [] }
        ensures events { report.new.items ≡ (answered self.old.iface now (AnswerShown.Full (shown_item item))).events }
        ensures refused { (answered self.old.iface now (AnswerShown.Full (shown_item item))).refused ≡ 0 }
        ensures state { self.new ≡ with_iface self.old (answered self.old.iface now (AnswerShown.Full (shown_item item))).iface }
        ensures room { length report.new.items ≤ 1 }
    {
        match item {
            Item::Packet {
                mark: _,
                buffer: packet,
            } => {
                self.back.put(packet);
                report.push(Event::InboxFull);
            }
            Item::Frame(frame) => self.sender.put_back(frame),
            Item::Note(_) => {}
        }
        self.doing = IfacePlan::Rest;
    }

    /// An item of `Out` or `Rx`. Gives how many frames were refused.
    fn told_popped(&mut self, item: Item, now: u64, report: &mut Events, spares: &mut Spares) -> u32
        requires fits { IsAnswerOf (uses self.old.iface) (awaits self.old.iface) (AnswerShown.Popped (shown_item item)) }
        requires of_it { IsItemOf self.old.region item }
        requires countable { self.old.iface.serial < 2 ^ 32 - 1 }
        requires unwritten { report.old.items ≡ [] }
        requires stock { 0 < spares.old.boxes }
        ensures events { report.new.items ≡ (answered self.old.iface now (AnswerShown.Popped (shown_item item))).events }
        ensures refused { result ≡ (answered self.old.iface now (AnswerShown.Popped (shown_item item))).refused }
        ensures state { self.new ≡ with_iface self.old (answered self.old.iface now (AnswerShown.Popped (shown_item item))).iface }
        ensures few { result ≤ 1 }
        ensures room { length report.new.items ≤ 1 }
        ensures stock { spares.new ≡ answered_stock self.old.iface self.old.iface.doing (AnswerShown.Popped (shown_item item)) spares.old }
        ensures least { spares.old.boxes ≤ spares.new.boxes + 1 }
        ensures most { spares.new.boxes ≤ spares.old.boxes + 1 }
    {
        match item {
            Item::Packet { mark, buffer } => {
                self.fetch(mark, buffer, report, spares);
                0
            }
            Item::Frame(frame) => self.catch(frame, now, spares),
            Item::Note(_) => {
                self.doing = IfacePlan::Rest;
                0
            }
        }
    }

    /// A frame: it is heard, or is for another node of a hub and used up at once. Gives how many frames were refused.
    fn catch(&mut self, frame: BoxedFrame, now: u64, spares: &mut Spares) -> u32
        requires doing { self.old.iface.doing ≡ IfacePlan.Receive }
        requires carried { IsFrameOn self.old.iface.kind frame }
        ensures refused { result ≡ (caught now (ItemShown.Frame frame) (resting self.old.iface)).refused }
        ensures state { self.new ≡ with_iface self.old (caught now (ItemShown.Frame frame) (resting self.old.iface)).iface }
        ensures few { result ≤ 1 }
        ensures stock { spares.new ≡ caught_stock self.old.iface (ItemShown.Frame frame) spares.old }
        ensures least { spares.old.boxes ≤ spares.new.boxes }
        ensures most { spares.new.boxes ≤ spares.old.boxes + 1 }
    {
        self.doing = IfacePlan::Rest;
        if is_for(self.heeds, frame.frame()) {
            return self.receiver.hear(frame, now, &mut self.whole, spares);
        }
        spares.keep(frame);
        0
    }

    /// A packet that is to be sent: its transmission begins, or it is too big for the link, and its buffer is to be
    /// given back.
    fn fetch(&mut self, mark: u8, buffer: Buffer, report: &mut Events, spares: &mut Spares)
        requires doing { self.old.iface.doing ≡ IfacePlan.Fetch }
        requires mark { mark ≢ UNMARKED → mark < 32 }
        requires of_it { buffer.region ≡ self.old.region }
        requires countable { self.old.iface.serial < 2 ^ 32 - 1 }
        requires unwritten { report.old.items ≡ [] }
        requires stock { 0 < spares.old.boxes }
        ensures events { report.new.items ≡ (fetched (ItemShown.Packet mark buffer.picture) (resting self.old.iface)).events }
        ensures refused { (fetched (ItemShown.Packet mark buffer.picture) (resting self.old.iface)).refused ≡ 0 }
        ensures state { self.new ≡ with_iface self.old (fetched (ItemShown.Packet mark buffer.picture) (resting self.old.iface)).iface }
        ensures room { length report.new.items ≤ 1 }
        ensures stock { spares.new ≡ fetched_stock self.old.iface (ItemShown.Packet mark buffer.picture) spares.old }
        ensures least { spares.old.boxes ≤ spares.new.boxes + 1 }
        ensures most { spares.new.boxes ≤ spares.old.boxes }
    {
        if buffer.payload().len() > usize::from(self.mtu) {
            self.back.put(buffer);
            self.doing = IfacePlan::Rest;
            report.push(Event::TooBig);
        } else {
            let serial = self.send(mark, buffer, spares);
            report.push(Event::Transmitted { serial });
        }
    }

    /// The transmission of a packet begins. Gives its number.
    fn send(&mut self, mark: u8, buffer: Buffer, spares: &mut Spares) -> u64
        requires doing { self.old.iface.doing ≡ IfacePlan.Fetch }
        requires mark { mark ≢ UNMARKED → mark < 32 }
        requires of_it { buffer.region ≡ self.old.region }
        requires countable { self.old.iface.serial < 2 ^ 32 - 1 }
        requires stock { 0 < spares.old.boxes }
        ensures serial { result ≡ self.old.iface.serial }
        ensures state { self.new ≡ with_iface self.old (begun mark buffer.picture (resting self.old.iface)) }
        ensures stock { spares.new ≡ made_stock (begun mark buffer.picture self.old.iface).frames spares.old }
        ensures least { spares.old.boxes ≤ spares.new.boxes + 1 }
        ensures most { spares.new.boxes ≤ spares.old.boxes }
    {
        let serial = self.serial;
        let origin = Origin {
            node: self.node,
            iface: self.number,
            serial,
        };
        let next = next_node(mark, buffer.header());
        self.sender.begin(self.kind, buffer, next, origin, spares);
        self.serial += 1;
        self.doing = IfacePlan::Rest;
        serial
    }
}

/// The node that is to have a packet next: the next hop, or its destination.
fn next_node(mark: u8, header: u32) -> Addr
    requires { mark ≢ UNMARKED → mark < 32 }
    ensures { result ≡ next_node mark header }
{
    if mark == UNMARKED {
        Header::decode(header).dst
    } else {
        Addr::new(mark).unwrap()
    }
}
