//! What an interface keeps of what came, by the kind of its link.

ghost use Rattle.std.specs.Prelude.{◌≡◌, ◌+◌, ◌-◌, ◌^◌, ◌<◌, ◌≤◌, None, Some, unwrap_or};
ghost use Rattle.csp_can.specs.Identifiers.{identifier_of};
ghost use Rattle.csp_can.specs.Rules.{arrival};
ghost use Rattle.csp_deck.specs.Carried.{IsCanItem};
ghost use Rattle.csp_iface.specs.Receiving.{arrived, frame_heard, read_further, reassembled};
ghost use Rattle.csp_log.specs.Kinds.{carried_on};
ghost use Rattle.csp_iface.specs.Stocking.{further_stock, heard_stock};

use crate::packet::Whole;
use crate::stream::Stream;
use csp_base::{MAX_FRAME, MAX_PAYLOAD, Trace};
use csp_can::{CanEvent, Reassembly};
use csp_deck::Spares;
use csp_log::{BoxedFrame, Frame, ItemShown, LinkKind};

/// The last number of hops. A frame that has it is used up as one that is refused.
pub const MAX_HOPS: u64 = u64::MAX;

/// What is kept of what came.
#[derive(Drop)]
pub enum Receiver {
    /// Of a KISS link: its stream.
    Kiss(Stream),
    /// Of a CAN bus: the packets of which some frames came.
    Can(Reassembly),
}

impl Receiver {
    ghost use Rattle.csp_iface.specs.Circling.{is_read};
    ghost use Rattle.csp_iface.specs.Links.{receiver_for, heard_in, IsFrameIn};

    /// What is kept on a link of this kind before anything came, where packets have at most `mtu` payload bytes.
    pub fn for_link(kind: LinkKind, mtu: u16) -> Receiver
        requires { mtu ≤ MAX_PAYLOAD }
        ensures receiver { result ≡ receiver_for kind mtu }
        ensures heard { heard_in result ≡ carried_on kind }
    {
        match kind {
            LinkKind::Kiss => Receiver::Kiss(Stream::new(false, mtu)),
            LinkKind::KissHeader => Receiver::Kiss(Stream::new(true, mtu)),
            LinkKind::Can => Receiver::Can(Reassembly::new(mtu)),
        }
    }

    /// A frame was popped. A packet that it makes whole goes into `whole`. Gives 1 where it is refused.
    pub fn hear(
        &mut self,
        frame: BoxedFrame,
        now: u64,
        whole: &mut Whole,
        spares: &mut Spares,
    ) -> u32
        requires carried { IsFrameIn (heard_in self.old) frame }
        requires free { whole.old ≡ None }
        ensures receiver { self.new ≡ (frame_heard now self.old frame).receiver }
        ensures whole { whole.new ≡ (frame_heard now self.old frame).whole }
        ensures refused { result ≡ (frame_heard now self.old frame).refused }
        ensures few { result ≤ 1 }
        ensures lane { heard_in self.new ≡ heard_in self.old }
        ensures stock { spares.new ≡ heard_stock self.old frame spares.old }
        ensures least { spares.old.boxes ≤ spares.new.boxes }
        ensures most { spares.new.boxes ≤ spares.old.boxes + 1 }
    {
        if frame.frame().trace.hops == MAX_HOPS {
            spares.keep(frame);
            return 1;
        }
        match self {
            Receiver::Kiss(stream) => {
                let trace = arrived(&frame.frame().trace);
                stream.take(frame, trace, spares);
                0
            }
            Receiver::Can(partials) => {
                let refused = reassemble(partials, frame.frame(), now, whole);
                spares.keep(frame);
                refused
            }
        }
    }

    /// Whether no frame is in hand that is still to be read.
    pub fn is_read(&self) -> bool
        ensures { result ≡ is_read self.now }
    {
        match self {
            Receiver::Kiss(stream) => stream.is_read(),
            Receiver::Can(_) => true,
        }
    }

    /// Reads on in the frame in hand until a packet is whole, which goes into `whole`, or the frame is
    /// used up. Gives how many pieces were refused.
    #[inline(always)]
    pub fn read_on(&mut self, whole: &mut Whole, spares: &mut Spares) -> u32
        requires { whole.old ≡ None }
        ensures receiver { self.new ≡ (read_further self.old).receiver }
        ensures whole { whole.new ≡ (read_further self.old).whole }
        ensures refused { result ≡ (read_further self.old).refused }
        ensures few { result ≤ MAX_FRAME }
        ensures lane { heard_in self.new ≡ heard_in self.old }
        ensures stock { spares.new ≡ further_stock self.old spares.old }
        ensures least { spares.old.boxes ≤ spares.new.boxes }
        ensures most { spares.new.boxes ≤ spares.old.boxes + 1 }
    {
        match self {
            Receiver::Kiss(stream) => stream.read_on(whole, spares),
            Receiver::Can(_) => 0,
        }
    }
}

/// A frame of a CAN bus comes to its partial packet. Gives 1 where it is refused.
fn reassemble(partials: &mut Reassembly, frame: &Frame, now: u64, whole: &mut Whole) -> u32
    requires carried { IsCanItem (ItemShown.Frame frame.now) }
    requires early { frame.now.trace.hops < 2 ^ 64 - 1 }
    requires free { whole.old ≡ None }
    ensures partials { Receiver.Can partials.new ≡ (reassembled partials.old (arrival (identifier_of (unwrap_or frame.now.can 0)) frame.now.bytes.items (arrived frame.now.trace) now)).receiver }
    ensures whole { whole.new ≡ (reassembled partials.old (arrival (identifier_of (unwrap_or frame.now.can 0)) frame.now.bytes.items (arrived frame.now.trace) now)).whole }
    ensures refused { result ≡ (reassembled partials.old (arrival (identifier_of (unwrap_or frame.now.can 0)) frame.now.bytes.items (arrived frame.now.trace) now)).refused }
    ensures few { result ≤ 1 }
{
    let id = frame.can.unwrap();
    if partials.go_on(id, frame.bytes.as_slice(), now) {
        return 0;
    }
    end_or_begin(partials, id, frame, now, whole)
}

/// The same for any frame, with the answer by value.
#[inline(never)]
fn end_or_begin(
    partials: &mut Reassembly,
    id: u32,
    frame: &Frame,
    now: u64,
    whole: &mut Whole,
) -> u32
    requires id { frame.now.can ≡ Some id }
    requires carried { IsCanItem (ItemShown.Frame frame.now) }
    requires early { frame.now.trace.hops < 2 ^ 64 - 1 }
    requires free { whole.old ≡ None }
    ensures partials { Receiver.Can partials.new ≡ (reassembled partials.old (arrival (identifier_of id) frame.now.bytes.items (arrived frame.now.trace) now)).receiver }
    ensures whole { whole.new ≡ (reassembled partials.old (arrival (identifier_of id) frame.now.bytes.items (arrived frame.now.trace) now)).whole }
    ensures refused { result ≡ (reassembled partials.old (arrival (identifier_of id) frame.now.bytes.items (arrived frame.now.trace) now)).refused }
    ensures few { result ≤ 1 }
{
    let answer = partials.frame(id, frame.bytes.as_slice(), arrived(&frame.trace), now);
    match &answer.event {
        CanEvent::Part => 0,
        CanEvent::Whole {
            header,
            payload,
            trace,
        } => {
            whole.set(*header, payload.as_slice(), *trace);
            0
        }
        CanEvent::NoBegin
        | CanEvent::ShortBegin
        | CanEvent::BadRemain
        | CanEvent::TooMuch
        | CanEvent::TooLong
        | CanEvent::NoRoom => 1,
    }
}

/// The trace of what came in a frame with this one: one hop more.
fn arrived(trace: &Trace) -> Trace
    requires { trace.now.hops < 2 ^ 64 - 1 }
    ensures { result ≡ arrived trace.now }
{
    Trace {
        hops: trace.hops + 1,
        ..*trace
    }
}
