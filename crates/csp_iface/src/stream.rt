//! The stream of a KISS link.

ghost use Rattle.std.specs.Prelude.{◌≡◌, ◌+◌, ◌≤◌, None, [], length, drop};
ghost use Rattle.std.specs.Option.{option_map};
ghost use Rattle.csp_base.specs.Trace.{no_trace};
ghost use Rattle.csp_iface.specs.Circling.{all_read};
ghost use Rattle.csp_iface.specs.Receiving.{traced};
ghost use Rattle.csp_iface.specs.Stocking.{in_hand_stock, read_stock};
ghost use Rattle.csp_kiss.specs.GoingOn.{read_on};
ghost use Rattle.csp_kiss.specs.Reading.{unread};

use crate::packet::Whole;
use csp_base::{MAX_FRAME, MAX_PAYLOAD, Trace};
use csp_deck::Spares;
use csp_kiss::{KissPacket, KissProgress, KissReader};
use csp_log::BoxedFrame;
use std::marker::Model;

/// What is kept of the stream of a KISS link, and the frame in hand.
#[derive(Drop)]
pub struct Stream {
    reader: KissReader,
    frame: Option<BoxedFrame>,
    /// How many bytes of the frame are read.
    at: usize,
    /// The trace of what is read in it.
    trace: Trace,
}

impl Model for Stream {
    ghost use Rattle.csp_iface.specs.Keeping.{PlainStream};

    ghost Value = { PlainStream };

    ghost use Rattle.csp_iface.specs.Kept.{plain_stream, IsStream};

    ghost view = { plain_stream };

    ghost invariant = { IsStream };
}

impl Stream {
    /// A stream that is still to come, of frames whose CRC covers the header or not, and of packets with at most
    /// `mtu` payload bytes.
    pub fn new(cover: bool, mtu: u16) -> Stream
        requires { mtu ≤ MAX_PAYLOAD }
        ensures { result ≡ record { reading = unread cover mtu; rest = []; trace = no_trace } }
    {
        Stream {
            reader: KissReader::new(cover, mtu),
            frame: None,
            at: 0,
            trace: Trace::empty(),
        }
    }

    /// Takes a frame in hand, of which nothing is read yet. What is read in it has this trace.
    pub fn take(&mut self, frame: BoxedFrame, trace: Trace, spares: &mut Spares)
        ensures state { self.new ≡ record { reading = self.old.reading; rest = frame.bytes.items; trace = trace } }
        ensures stock { spares.new ≡ in_hand_stock frame.bytes.items spares.old }
        ensures least { spares.old.boxes ≤ spares.new.boxes }
        ensures most { spares.new.boxes ≤ spares.old.boxes + 1 }
    {
        self.trace = trace;
        self.keep(frame, 0, spares);
    }

    /// Whether the frame in hand, where there is one, is read to its end.
    #[tactic(auto, using(crate::proofs::Circling::none_left))]
    pub fn is_read(&self) -> bool
        ensures { result ≡ all_read self.now.rest }
    {
        match &self.frame {
            Some(frame) => self.at >= frame.frame().bytes.len(),
            None => true,
        }
    }

    /// Reads on in the frame in hand until a packet is whole, which goes into `whole`, or the frame is
    /// used up. Gives how many pieces were refused.
    #[tactic(auto, unfolding(csp_kiss::specs::GoingOn::read_on, csp_kiss::specs::Reading::answers))]
    #[inline(always)]
    pub fn read_on(&mut self, whole: &mut Whole, spares: &mut Spares) -> u32
        requires { whole.old ≡ None }
        ensures state { let p = read_on self.old.reading self.old.rest in
            self.new ≡ record { reading = p.reading; rest = p.left; trace = self.old.trace } }
        ensures whole { whole.new ≡ option_map (traced self.old.trace) (read_on self.old.reading self.old.rest).packet }
        ensures refused { result ≡ (read_on self.old.reading self.old.rest).refused }
        ensures few { result ≤ MAX_FRAME }
        ensures stock { spares.new ≡ read_stock self.old.rest (read_on self.old.reading self.old.rest).left spares.old }
        ensures least { spares.old.boxes ≤ spares.new.boxes }
        ensures most { spares.new.boxes ≤ spares.old.boxes + 1 }
    {
        let at = self.at;
        match self.frame.take() {
            Some(frame) => self.read_in(frame, at, whole, spares),
            None => 0,
        }
    }

    /// Reads on in a frame from this place on.
    #[inline(never)]
    fn read_in(
        &mut self,
        frame: BoxedFrame,
        at: usize,
        whole: &mut Whole,
        spares: &mut Spares,
    ) -> u32
        requires place { at ≤ length frame.bytes.items }
        requires free { whole.old ≡ None }
        ensures state { let p = read_on self.old.reading (drop at frame.bytes.items) in
            self.new ≡ record { reading = p.reading; rest = p.left; trace = self.old.trace } }
        ensures whole { whole.new ≡ option_map (traced self.old.trace) (read_on self.old.reading (drop at frame.bytes.items)).packet }
        ensures refused { result ≡ (read_on self.old.reading (drop at frame.bytes.items)).refused }
        ensures few { result ≤ MAX_FRAME }
        ensures stock { spares.new ≡ in_hand_stock (read_on self.old.reading (drop at frame.bytes.items)).left spares.old }
        ensures least { spares.old.boxes ≤ spares.new.boxes }
        ensures most { spares.new.boxes ≤ spares.old.boxes + 1 }
    {
        let bytes = frame.frame().bytes.as_slice();
        let KissProgress {
            used,
            refused,
            packet,
        } = &self.reader.read_on(&bytes[at..]);
        if let Some(KissPacket { header, payload }) = packet {
            whole.set(*header, payload.as_slice(), self.trace);
        }
        self.keep(frame, at + *used, spares);
        *refused as u32
    }

    /// Keeps a frame in hand whose bytes are read up to this place. Where all are read, its box goes back.
    #[tactic(auto, using(crate::proofs::Circling::none_left))]
    fn keep(&mut self, frame: BoxedFrame, at: usize, spares: &mut Spares)
        requires { at ≤ length frame.bytes.items }
        ensures state { self.new ≡ record { reading = self.old.reading; rest = drop at frame.bytes.items; trace = self.old.trace } }
        ensures stock { spares.new ≡ in_hand_stock (drop at frame.bytes.items) spares.old }
        ensures least { spares.old.boxes ≤ spares.new.boxes }
        ensures most { spares.new.boxes ≤ spares.old.boxes + 1 }
    {
        if at < frame.frame().bytes.len() {
            self.frame = Some(frame);
            self.at = at;
        } else {
            self.frame = None;
            spares.keep(frame);
        }
    }
}
