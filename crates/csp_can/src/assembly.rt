//! The partial packets of a listener.

ghost use Rattle.std.specs.Prelude.{◌≡◌, ◌↔◌, ◌<◌, ◌≤◌, ◌∷◌, [], ◌++◌, ◌-◌, length, nat_lt, if◌then◌else◌, OnSome, IfSome, IfNone, true, false, position, List};
ghost use Rattle.std.specs.List.{list_all};
ghost use Rattle.csp_can.specs.Identifiers.{key_of, same_key};
ghost use Rattle.csp_can.specs.Rules.{arrival, measured, leaves};
ghost use Rattle.csp_base.specs.declared.traces.Trace.{Trace};
ghost use Rattle.csp_can.specs.Steps.{opened, begin_said, more_said, after, GoesOnLast, StandsLast};
ghost use Rattle.csp_can.specs.declared.partials.Partial.{Partial};
ghost use Rattle.csp_can.specs.Open.{counters, fresh, standing, without, done, answer_of};

use crate::answers::{CanAnswer, CanEvent};
use crate::frames::{MAX_DATA, copied};
use crate::identifiers::{Identifier, Key};
use crate::partials::{Begin, GIVE_UP, MAX_PARTIALS, Partial};
use arrayvec::ArrayVec;
use csp_base::{MAX_PAYLOAD, Trace};
use std::cmp::Ordering;
use std::marker::Model;

/// Packets of which some frames came: at most `MAX_PARTIALS`, each of another key.
#[derive(Drop)]
pub struct Partials {
    partials: ArrayVec<Partial, MAX_PARTIALS>,
}

impl Model for Partials {
    ghost use Rattle.std.specs.Prelude.{List};
    ghost use Rattle.csp_can.specs.declared.partials.Partial.{Partial};

    ghost Value = { List Partial };

    ghost use Rattle.csp_can.specs.Steps.{AllFit};

    ghost view = { λ r. r.partials.items };

    ghost invariant = { λ r. AllFit r.partials.items };
}

impl Partials {
    /// No partial packet stands.
    pub(crate) fn new() -> Partials
        ensures { result ≡ [] }
    {
        Partials {
            partials: ArrayVec::new(),
        }
    }

    /// Gives up each partial packet whose last frame came `GIVE_UP` or more before `now`.
    pub(crate) fn give_up(&mut self, now: u64)
        ensures { self.new ≡ fresh counters now self.old }
    {
        self.partials
            .retain(|p| now.saturating_sub(p.time) < GIVE_UP);
    }

    /// Whether none is to be given up at `now`.
    fn are_fresh(&self, now: u64) -> bool
        ensures { result ≡ list_all (λ p. nat_lt (now - p.time) GIVE_UP) self.now }
    {
        self.partials
            .iter()
            .all(|p| now.saturating_sub(p.time) < GIVE_UP)
    }

    /// Where the partial packet of a key stands.
    fn place(&self, key: &Key) -> Option<usize>
        ensures first { result ≡ position (λ p. same_key p.key key.now) self.now }
        ensures room { length self.now ≤ MAX_PARTIALS }
    {
        self.partials.iter().position(|p| p.key == *key)
    }

    /// Takes out the partial packet of a key.
    fn take(&mut self, key: &Key) -> Option<Partial>
        ensures found { result ≡ standing counters key.now self.old }
        ensures rest { self.new ≡ without counters key.now self.old }
        ensures none { IfNone result (self.new ≡ self.old) }
        ensures room { OnSome result (length self.new < MAX_PARTIALS) }
        ensures fits { IfSome result (λ p. p.length ≤ MAX_PAYLOAD) }
    {
        let index = self.place(key)?;
        Some(self.partials.remove(index))
    }

    /// What the payload so far makes of a packet: too much, whole, or one more partial packet.
    fn settle(&mut self, partial: Partial) -> CanEvent
        requires room { length self.old < MAX_PARTIALS }
        requires fits { partial.length ≤ MAX_PAYLOAD }
        ensures event { result ≡ (measured false partial leaves).event }
        ensures state { self.new
            ≡ (if nat_lt (length partial.payload.items) partial.length then self.old ++ partial ∷ [] else self.old) }
    {
        match partial.payload.len().cmp(&(partial.length as usize)) {
            Ordering::Greater => CanEvent::TooMuch,
            Ordering::Equal => CanEvent::Whole {
                header: partial.header,
                payload: partial.payload,
                trace: partial.trace,
            },
            Ordering::Less => {
                self.partials.push(partial);
                CanEvent::Part
            }
        }
    }

    /// A packet opens: a partial packet of its key ends, and a new key needs room.
    fn open(&mut self, partial: Partial) -> CanAnswer
        requires { partial.length ≤ MAX_PAYLOAD }
        ensures answer { result ≡ answer_of (opened self.old partial) }
        ensures state { (grown : List Partial) → self.new
            ≡ done counters (opened self.old partial).deed partial.key partial grown self.old }
    {
        match self.take(&partial.key) {
            Some(_) => CanAnswer {
                restarted: true,
                event: self.settle(partial),
            },
            None if self.partials.is_full() => CanAnswer::plain(CanEvent::NoRoom),
            None => CanAnswer::plain(self.settle(partial)),
        }
    }

    /// A BEGIN frame, after what is too old was given up. A packet has at most `mtu` payload bytes.
    pub(crate) fn begin(
        &mut self,
        mtu: u16,
        head: &Identifier,
        bytes: &[u8],
        trace: Trace,
        now: u64,
    ) -> CanAnswer
        requires mtu { mtu ≤ MAX_PAYLOAD }
        requires bytes { length bytes.now ≤ MAX_DATA }
        ensures answer { let a = arrival head.now bytes.now trace now in
            result ≡ answer_of (begin_said mtu self.old a) }
        ensures state { let a = arrival head.now bytes.now trace now in
            self.new ≡ after (begin_said mtu self.old a) self.old a }
    {
        let Some(begin) = Begin::read(bytes) else {
            return CanAnswer::plain(CanEvent::ShortBegin);
        };
        if begin.length > mtu {
            return CanAnswer::plain(CanEvent::TooLong);
        }
        self.open(Partial {
            key: head.key(),
            header: begin.header,
            length: begin.length,
            payload: copied(begin.payload),
            remain: head.remain,
            time: now,
            trace,
        })
    }

    /// Extends the last partial packet in place, where it is of this key and goes on after the frame. Whether it did.
    fn extend(&mut self, head: &Identifier, bytes: &[u8], now: u64) -> bool
        ensures when { (trace : Trace) → let a = arrival head.now bytes.now trace now in
            (result ≡ true) ↔ (((more_said self.old a).event ≡ CanEvent.Part) × StandsLast (key_of head.now) self.old) }
        ensures state { result ≡ true → (trace : Trace) → let a = arrival head.now bytes.now trace now in
            self.new ≡ after (more_said self.old a) self.old a }
        ensures left { result ≡ false → self.new ≡ self.old }
    {
        match self.place(&head.key()) {
            Some(index) if index + 1 == self.partials.len() => {
                self.partials[index].go_on(head, bytes, now)
            }
            _ => false,
        }
    }

    /// The same where besides none is to be given up.
    pub(crate) fn go_on(&mut self, head: &Identifier, bytes: &[u8], now: u64) -> bool
        ensures when { (trace : Trace) → let a = arrival head.now bytes.now trace now in
            (result ≡ true) ↔ GoesOnLast self.old a }
        ensures state { result ≡ true → (trace : Trace) → let a = arrival head.now bytes.now trace now in
            self.new ≡ after (more_said self.old a) self.old a }
        ensures left { result ≡ false → self.new ≡ self.old }
    {
        self.are_fresh(now) && self.extend(head, bytes, now)
    }

    /// A MORE frame, after what is too old was given up: in place where it can be.
    pub(crate) fn more(
        &mut self,
        head: &Identifier,
        bytes: &[u8],
        trace: Trace,
        now: u64,
    ) -> CanEvent
        ensures event { let a = arrival head.now bytes.now trace now in
            result ≡ (more_said self.old a).event }
        ensures state { let a = arrival head.now bytes.now trace now in
            self.new ≡ after (more_said self.old a) self.old a }
    {
        if self.extend(head, bytes, now) {
            return CanEvent::Part;
        }
        self.take_and_settle(head, bytes, trace, now)
    }

    /// The same, with the partial packet taken out, and put at the end where it goes on.
    fn take_and_settle(
        &mut self,
        head: &Identifier,
        bytes: &[u8],
        trace: Trace,
        now: u64,
    ) -> CanEvent
        ensures event { let a = arrival head.now bytes.now trace now in
            result ≡ (more_said self.old a).event }
        ensures state { let a = arrival head.now bytes.now trace now in
            self.new ≡ after (more_said self.old a) self.old a }
    {
        let Some(mut partial) = self.take(&head.key()) else {
            return CanEvent::NoBegin;
        };
        if head.remain as u16 + 1 != partial.remain as u16 {
            return CanEvent::BadRemain;
        }
        if partial.payload.try_extend_from_slice(bytes).is_err() {
            return CanEvent::TooMuch;
        }
        partial.remain = head.remain;
        partial.time = now;
        self.settle(partial)
    }
}
