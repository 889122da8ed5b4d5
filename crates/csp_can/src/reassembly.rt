//! Packets put together from their frames.

ghost use Rattle.std.specs.Prelude.{◌≡◌, ◌↔◌, ℕ, ◌<◌, ◌≤◌, ◌^◌, ◌∷◌, [], ◌++◌, length, true, false, List};
ghost use Rattle.csp_base.specs.declared.traces.Trace.{Trace};
ghost use Rattle.csp_can.specs.Chains.{Completes};
ghost use Rattle.csp_can.specs.Identifiers.{identifier_of};
ghost use Rattle.csp_can.specs.Listening.{answered, listened, silent};
ghost use Rattle.csp_can.specs.Maps.{IsMap};
ghost use Rattle.csp_can.specs.Open.{answer, shown_partials, open_after, whole_frames};
ghost use Rattle.csp_can.specs.Rules.{Arrival, arrival};
ghost use Rattle.csp_can.specs.Steps.{GoesOnLast};

use crate::answers::{CanAnswer, CanEvent};
use crate::assembly::Partials;
use crate::frames::MAX_DATA;
use crate::identifiers::{Identifier, Kind};
use csp_base::{MAX_PAYLOAD, Trace};
use std::marker::Model;

/// A listener on a bus, which puts packets together from their frames.
#[derive(Drop)]
pub struct Reassembly {
    /// How many payload bytes a packet has at most.
    mtu: u16,
    partials: Partials,
}

impl Model for Reassembly {
    ghost use Rattle.std.specs.Prelude.{◌≤◌};
    ghost use Rattle.csp_base.specs.declared.limits.TheConstants.{MAX_PAYLOAD};
    ghost use Rattle.csp_can.specs.Listening.{Listening};

    ghost Value = { Listening };

    ghost view = { λ r. record { mtu = r.mtu; partials = r.partials } };

    ghost invariant = { λ r. r.mtu ≤ MAX_PAYLOAD };
}

impl Reassembly {
    /// No partial packet stands. A packet has at most `mtu` payload bytes.
    pub fn new(mtu: u16) -> Reassembly
        requires { mtu ≤ MAX_PAYLOAD }
        ensures empty { result ≡ silent mtu }
        ensures whole { result.partials ≡ shown_partials (open_after mtu []) }

        // Whatever comes, the partial packets are a map from keys to frames.
        ensures map { (history : List Arrival) → IsMap (open_after mtu history) }
    {
        Reassembly {
            mtu,
            partials: Partials::new(),
        }
    }

    /// A frame that came at `now`: its identifier, its data bytes and its trace. First each partial packet
    /// whose last frame came `GIVE_UP` or more before `now` is given up.
    pub fn frame(&mut self, id: u32, bytes: &[u8], trace: Trace, now: u64) -> CanAnswer
        requires id { id < 2 ^ 29 }
        requires bytes { length bytes.now ≤ MAX_DATA }

        ensures answer { let a = arrival (identifier_of id) bytes.now trace now in
            result ≡ answered self.old a }
        ensures state { let a = arrival (identifier_of id) bytes.now trace now in
            self.new ≡ listened self.old a }

        // The same by whole frames, over every history of frames and times.
        ensures whole { let a = arrival (identifier_of id) bytes.now trace now in
            (history : List Arrival) → self.old.partials ≡ shown_partials (open_after self.old.mtu history)
            → (self.new.partials ≡ shown_partials (open_after self.old.mtu (history ++ a ∷ [])))
            × (result ≡ answer whole_frames self.old.mtu (open_after self.old.mtu history) a) }

        // Whole comes exactly where the frame makes its key's list of frames a chain, of no more payload bytes than
        // a packet has.
        ensures chain { let a = arrival (identifier_of id) bytes.now trace now in
            (history : List Arrival) → self.old.partials ≡ shown_partials (open_after self.old.mtu history)
            → (header : ℕ) (payload : List ℕ) (begun : Trace)
            → (result.event ≡ CanEvent.Whole header (record { items = payload }) begun)
            ↔ Completes self.old.mtu (open_after self.old.mtu history) a header payload begun }
    {
        self.hear(&Identifier::decode(id), bytes, trace, now)
    }

    /// The same of a frame whose identifier is read.
    fn hear(&mut self, head: &Identifier, bytes: &[u8], trace: Trace, now: u64) -> CanAnswer
        requires bytes { length bytes.now ≤ MAX_DATA }
        ensures answer { result ≡ answered self.old (arrival head.now bytes.now trace now) }
        ensures state { self.new ≡ listened self.old (arrival head.now bytes.now trace now) }
    {
        self.partials.give_up(now);
        match head.kind {
            Kind::Begin => self.partials.begin(self.mtu, head, bytes, trace, now),
            Kind::More => CanAnswer::plain(self.partials.more(head, bytes, trace, now)),
        }
    }

    /// Takes a frame by which alone the packet of the last frame goes on, as most do: then `frame` would answer
    /// `Part`, in a value with room for a whole packet. Whether it is such a frame; any other is left to `frame`.
    pub fn go_on(&mut self, id: u32, bytes: &[u8], now: u64) -> bool
        requires id { id < 2 ^ 29 }
        requires bytes { length bytes.now ≤ MAX_DATA }
        ensures when { (trace : Trace) → (result ≡ true) ↔ (((identifier_of id).kind ≡ Kind.More) × GoesOnLast self.old.partials (arrival (identifier_of id) bytes.now trace now)) }
        ensures answer { result ≡ true → (trace : Trace) → answered self.old (arrival (identifier_of id) bytes.now trace now) ≡ record { restarted = false; event = CanEvent.Part } }
        ensures state { result ≡ true → (trace : Trace) → self.new ≡ listened self.old (arrival (identifier_of id) bytes.now trace now) }
        ensures left { result ≡ false → self.new ≡ self.old }
    {
        let head = Identifier::decode(id);
        match head.kind {
            Kind::Begin => false,
            Kind::More => self.partials.go_on(&head, bytes, now),
        }
    }
}
