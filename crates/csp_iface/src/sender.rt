//! The packet that an interface sends, and its frames.

ghost use Rattle.std.specs.Prelude.{◌≡◌, ◌≢◌, ◌+◌, ◌<◌, ◌≤◌, true, false, Some, None, [], ◌∷◌, ◌++◌, map, ⊤, nat_lt, IfSome, MatchOption};
ghost use Rattle.std.specs.Option.{option_map, option_to_list};
ghost use Rattle.std.specs.List.{AllByRecursion};
ghost use Rattle.csp_deck.specs.Keeping.{number_in};
ghost use Rattle.csp_deck.specs.Step.{times};
ghost use Rattle.csp_iface.specs.Links.{IsFrameOn};
ghost use Rattle.csp_iface.specs.Sending.{kiss_frame, can_frame, frames_of, sent_trace};
ghost use Rattle.csp_iface.specs.Stocking.{made_stock};
ghost use Rattle.csp_log.specs.PlainSpares.{without_box};

use arrayvec::ArrayVec;
use csp_arena::RegionToken;
use csp_base::{Addr, MAX_FRAME, Origin, Trace};
use csp_buffer::Buffer;
use csp_can::{Fragments, fragments};
use csp_deck::{Hand, Spares};
use csp_kiss::encode;
use csp_log::{BoxedFrame, LinkKind};
use std::marker::Model;

/// How many identifiers the packets of a CAN bus go through: they have 10 bits.
pub const IDS: u64 = 1_024;

/// The packet whose transmission has begun, and its frames that are left. The next frame is made as the
/// one before it is pushed, so that a turn makes at most one.
///
/// It is ended when it has no packet.
pub struct Sender {
    packet: Hand,
    /// The next frame, made.
    first: Option<BoxedFrame>,
    /// Those after it, on a CAN bus.
    rest: Option<Fragments>,
    /// The trace of each frame.
    trace: Trace,
    /// Where a frame of a KISS link is written before its box has it.
    written: ArrayVec<u8, MAX_FRAME>,
}

impl Model for Sender {
    ghost use Rattle.csp_iface.specs.Keeping.{PlainSender};

    ghost Value = { PlainSender };

    ghost use Rattle.csp_iface.specs.Kept.{plain_sender};

    ghost view = { plain_sender };
}

impl Sender {
    /// No packet is sent. The buffers to come are of this region.
    pub fn idle(region: RegionToken) -> Sender
        ensures { result ≡ record { region = region.name; packet = None; frames = []; loaded = false } }
    {
        Sender {
            packet: Hand::empty(region),
            first: None,
            rest: None,
            trace: Trace::empty(),
            written: ArrayVec::new(),
        }
    }

    /// Whether the next frame is made and here.
    pub fn is_loaded(&self) -> bool
        ensures loaded { result ≡ self.now.loaded }
        ensures some { self.now.loaded ≡ true → self.now.frames ≢ [] }
    {
        self.first.is_some()
    }

    /// Begins the transmission of a packet to the node `next`. Its first frame is made.
    pub fn begin(
        &mut self,
        kind: LinkKind,
        buffer: Buffer,
        next: Addr,
        origin: Origin,
        spares: &mut Spares,
    )
        requires free { self.old.packet ≡ None }
        requires of_it { buffer.region ≡ self.old.region }
        requires stock { 0 < spares.old.boxes }
        ensures state { self.new ≡ record {
          region = self.old.region;
          packet = Some buffer.picture;
          frames = frames_of kind origin.serial next buffer.picture (sent_trace origin.node origin.iface origin.serial buffer.picture.trace);
          loaded = true;
        } }
        ensures carried { AllByRecursion (IsFrameOn kind) self.new.frames }
        ensures stock { spares.new ≡ made_stock self.new.frames spares.old }
        ensures least { spares.old.boxes ≤ spares.new.boxes + 1 }
        ensures most { spares.new.boxes ≤ spares.old.boxes }
    {
        let trace = Trace {
            origin: Some(origin),
            ..buffer.trace()
        };
        self.cut(kind, &buffer, next, origin.serial, trace, spares);
        self.packet.put(buffer);
    }

    /// Cuts a packet into frames with this trace. The first is made.
    fn cut(
        &mut self,
        kind: LinkKind,
        buffer: &Buffer,
        next: Addr,
        serial: u64,
        trace: Trace,
        spares: &mut Spares,
    )
        requires { 0 < spares.old.boxes }
        ensures state { self.new ≡ record {
          region = self.old.region;
          packet = self.old.packet;
          frames = frames_of kind serial next buffer.now.picture trace;
          loaded = true;
        } }
        ensures carried { AllByRecursion (IsFrameOn kind) self.new.frames }
        ensures stock { spares.new ≡ made_stock self.new.frames spares.old }
        ensures least { spares.old.boxes ≤ spares.new.boxes + 1 }
        ensures most { spares.new.boxes ≤ spares.old.boxes }
    {
        match kind {
            LinkKind::Kiss => self.cut_kiss(false, buffer, trace, spares),
            LinkKind::KissHeader => self.cut_kiss(true, buffer, trace, spares),
            LinkKind::Can => self.cut_can(buffer, next, serial, trace, spares),
        }
    }

    /// Makes the one frame of a packet on a KISS link, whose CRC covers the header or not.
    fn cut_kiss(&mut self, cover: bool, buffer: &Buffer, trace: Trace, spares: &mut Spares)
        requires { 0 < spares.old.boxes }
        ensures state { self.new ≡ record {
          region = self.old.region;
          packet = self.old.packet;
          frames = kiss_frame cover buffer.now.picture trace ∷ [];
          loaded = true;
        } }
        ensures stock { spares.new ≡ without_box spares.old }
    {
        encode(buffer.header(), buffer.payload(), cover, &mut self.written);
        self.first = Some(spares.fill(None, self.written.as_slice(), trace));
        if self.rest.is_some() {
            self.rest = None;
        }
    }

    /// Cuts a packet into the frames of a CAN bus, with the identifier of the transmission of this number. The first
    /// is made.
    fn cut_can(
        &mut self,
        buffer: &Buffer,
        next: Addr,
        serial: u64,
        trace: Trace,
        spares: &mut Spares,
    )
        requires { 0 < spares.old.boxes }
        ensures state { self.new ≡ record {
          region = self.old.region;
          packet = self.old.packet;
          frames = frames_of LinkKind.Can serial next buffer.now.picture trace;
          loaded = true;
        } }
        ensures carried { AllByRecursion (IsFrameOn LinkKind.Can) self.new.frames }
        ensures stock { spares.new ≡ made_stock self.new.frames spares.old }
        ensures least { spares.old.boxes ≤ spares.new.boxes + 1 }
        ensures most { spares.new.boxes ≤ spares.old.boxes }
    {
        self.trace = trace;
        let id = (serial % IDS) as u16;
        let mut rest = fragments(buffer.header(), buffer.payload(), next, id);
        self.first = can_frame(&mut rest, trace, spares);
        self.rest = Some(rest);
    }

    /// Hands over the next frame, where it is here.
    pub fn next(&mut self) -> Option<BoxedFrame>
        ensures { MatchOption result
            ((self.old.loaded ≡ false) × (self.new ≡ self.old))
            (λ f. (self.old.frames ≡ f ∷ self.new.frames)
            × (self.new ≡ record { region = self.old.region; packet = self.old.packet; frames = self.new.frames; loaded = false })) }
    {
        self.first.take()
    }

    /// Takes back the frame that it handed over.
    pub fn put_back(&mut self, frame: BoxedFrame)
        requires { self.old.loaded ≡ false }
        ensures { self.new ≡ record { region = self.old.region; packet = self.old.packet; frames = frame ∷ self.old.frames; loaded = true } }
    {
        self.first = Some(frame);
    }

    /// Makes the next frame, where one is left.
    pub fn load(&mut self, spares: &mut Spares)
        requires empty { self.old.loaded ≡ false }
        requires stock { 0 < spares.old.boxes }
        ensures state { self.new ≡ record { region = self.old.region; packet = self.old.packet; frames = self.old.frames; loaded = self.new.loaded } }
        ensures made { self.new.loaded ≡ false → self.old.frames ≡ [] }
        ensures stock { spares.new ≡ made_stock self.old.frames spares.old }
        ensures least { spares.old.boxes ≤ spares.new.boxes + 1 }
        ensures most { spares.new.boxes ≤ spares.old.boxes }
    {
        if let Some(rest) = &mut self.rest {
            self.first = can_frame(rest, self.trace, spares);
        }
    }

    /// Hands over the packet, if there is one.
    pub fn release(&mut self) -> Option<Buffer>
        ensures packet { option_map (λ b. b.picture) result ≡ self.old.packet }
        ensures of_it { IfSome result (λ b. b.region ≡ self.old.region) }
        ensures rest { self.new ≡ record { region = self.old.region; packet = None; frames = self.old.frames; loaded = self.old.loaded } }
    {
        self.packet.take()
    }

    /// Whether the packet is the buffer of this number.
    pub fn holds(&self, number: u16) -> bool
        ensures { result ≡ nat_lt 0 (times number (number_in self.now.packet)) }
    {
        self.packet.holds(number)
    }

    /// Ends it.
    pub fn end(self)
        requires { self.packet ≡ None }
    {
        let Sender {
            packet,
            first: _,
            rest: _,
            trace: _,
            written: _,
        } = self;
        packet.end();
    }
}

/// The next frame of a packet on a CAN bus, where one is left.
fn can_frame(rest: &mut Fragments, trace: Trace, spares: &mut Spares) -> Option<BoxedFrame>
    requires { 0 < spares.old.boxes }
    ensures frame { map (can_frame trace) rest.old ≡ option_to_list result ++ map (can_frame trace) rest.new }
    ensures none { MatchOption result (rest.old ≡ []) (λ _. ⊤) }
    ensures stock { spares.new ≡ made_stock (map (can_frame trace) rest.old) spares.old }
    ensures least { spares.old.boxes ≤ spares.new.boxes + 1 }
    ensures most { spares.new.boxes ≤ spares.old.boxes }
{
    let frame = rest.next()?;
    Some(spares.fill(Some(frame.id), frame.bytes.as_slice(), trace))
}
