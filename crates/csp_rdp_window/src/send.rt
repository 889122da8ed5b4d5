//! The send window.

ghost use Rattle.std.specs.Prelude.{◌≡◌, ◌≢◌, ◌+◌, ◌-◌, ◌==◌, ◌^◌, ◌<◌, ◌≤◌, ◌↔◌, ℕ, pos, true, false, [], ◌∷◌, ◌++◌, drop, map, fold, max, find, length, slice_index_or, nat_lt, Some, None, IsSome, IsTrue, IfOk, IfErr, OnOk, OnErr, IfNone, IsErr};
ghost use Rattle.std.specs.List.{filter_map, list_any};
ghost use Rattle.std.specs.Option.{option_map, option_map_or};
ghost use Rattle.csp_base.specs.Sequence.{number_of};
ghost use Rattle.csp_rdp_window.specs.Numbers.{left_over, number_in, times, with_payload};
ghost use Rattle.csp_rdp_window.specs.Places.{ArePlaced, held_in};
ghost use Rattle.csp_rdp_window.specs.Sending.{PlainSend, acked, acknowledges, admitted, drained, due_index, first_pending, fresh, list_heard, is_due, is_full, is_loose, listed, listed_at, loose_buffer, marked, needed_if, newest_of, opening_send, packet_at, payload_at, send_numbers, with_mark, without_listed, without_loose};
ghost use Rattle.csp_rdp_window.specs.Shown.{shown};

use crate::places::{put, take_first};
use crate::shown::shown_index;
use crate::{Mark, Pending};
use csp_base::Seq;
use csp_buffer::Buffer;
use std::marker::Model;
use std::mem::ManuallyDrop;

/// The places of a send window: the widest window.
pub const SEND_PLACES: usize = 20;

/// The packets that were admitted and are not acknowledged, at most `window` of them, and those that are
/// not needed any more and wait to be handed out by `drain`.
///
/// It takes no memory, and must be spent by `end`, when it holds no buffer. Contracts see it as a
/// `PlainSend`, in true indices.
pub struct SendWindow {
    start: Seq,
    window: u32,
    una: u64,
    nxt: u64,
    // The last place is that of the packet before `nxt`, each other that of the packet before.
    places: [Option<Pending>; SEND_PLACES],
}

impl Model for SendWindow {
    ghost use Rattle.csp_rdp_window.specs.Places.{IsSendSound, send_view};
    ghost use Rattle.csp_rdp_window.specs.Sending.{PlainSend};

    ghost Value = { PlainSend };

    ghost view = { λ w. send_view w.start w.window w.una w.nxt w.places };

    ghost invariant = { λ w. IsSendSound w.window w.una w.nxt w.places };
}

impl SendWindow {
    /// A window without packets, of a flow that starts at `start`.
    pub fn new(start: Seq, window: u32) -> SendWindow
        requires low { 1 ≤ window }
        requires high { window ≤ SEND_PLACES }
        ensures { result ≡ opening_send start.0 window }
    {
        SendWindow {
            start,
            window,
            una: 1,
            nxt: 1,
            places: [
                None, None, None, None, None, None, None, None, None, None, None, None, None, None,
                None, None, None, None, None, None,
            ],
        }
    }

    /// Takes a packet in with the next index and answers its number, or hands it back where as many
    /// packets as the window are unacknowledged.
    pub fn admit(&mut self, buffer: Buffer) -> Result<Seq, Buffer>
        // What is not needed any more was handed out, so that there is a place.
        requires drained { loose_buffer self.old ≡ None }
        requires countable { self.old.nxt < 2 ^ 32 }
        ensures full { IsErr result ↔ IsTrue (is_full self.old) }
        ensures ok { OnOk result (self.new ≡ admitted buffer self.old) }
        ensures number { IfOk result (λ n. n.0 ≡ number_of self.old.start (pos self.old.nxt)) }
        ensures err { OnErr result (self.new ≡ self.old) }
        ensures back { IfErr result (λ b. b ≡ buffer) }
        ensures holds { (k : ℕ) → times k (send_numbers self.new) + times k (left_over result) ≡ times k (send_numbers self.old) + times k (buffer.picture.number ∷ []) }
    {
        if self.nxt - self.una >= u64::from(self.window) {
            return Err(buffer);
        }
        let index = self.nxt;
        push(&mut self.places, fresh(index, buffer));
        self.nxt = index + 1;
        Ok(self.start.add(index))
    }

    /// Hears an acknowledgement: a number whose index is from `una - 1` to `nxt - 1` moves `una` to one
    /// past it, and what is older is not needed any more. Whether it was such a number.
    pub fn acked(&mut self, number: Seq) -> bool
        ensures inside { result ≡ acknowledges self.old number.0 }
        ensures state { self.new ≡ acked number.0 self.old }
        ensures holds { send_numbers self.new ≡ send_numbers self.old }
    {
        match shown_index(number, self.start, self.una) {
            Some(index) if self.una <= index + 1 && index < self.nxt => {
                self.mark(Mark::Acknowledged(index));
                self.una = index + 1;
                true
            }
            _ => false,
        }
    }

    /// The least index that is due.
    pub fn due(&self, now: u64, packet_timeout: u32) -> Option<u64>
        ensures { result ≡ due_index now packet_timeout self.now }
    {
        let places: &[Option<Pending>] = &self.places;
        // What is acknowledged is not needed.
        if self.una == self.nxt {
            return None;
        }
        first_due(places, now, packet_timeout)
    }

    /// Writes the payload of the packet of this index into a cleared buffer, and notes that it is sent.
    pub fn copy(&mut self, index: u64, into: &mut Buffer, now: u64)
        requires kept { IsSome (packet_at self.old index) }
        requires cleared { into.old.picture.payload ≡ [] }
        ensures payload { into.new ≡ with_payload (payload_at self.old index) into.old }
        ensures state { self.new ≡ with_mark (Mark.Sent index now) self.old }
        ensures holds { send_numbers self.new ≡ send_numbers self.old }
    {
        let packet = packet_of(&self.places, index);
        into.push_tail(packet.buffer.payload()).unwrap();
        self.mark(Mark::Sent { index, time: now });
    }

    /// Hears an extended acknowledgement: the listed packets are not needed any more, and what is older
    /// than the newest of them is due again, at most once per packet timeout.
    pub fn eak(&mut self, list: &[Seq], now: u64, packet_timeout: u32)
        ensures state { self.new ≡ list_heard list.now now packet_timeout self.old }
        ensures holds { send_numbers self.new ≡ send_numbers self.old }
    {
        let newest = self.free_listed(list);
        self.mark(Mark::Missed {
            newest,
            time: now,
            timeout: packet_timeout,
        });
    }

    /// Makes every buffer one that is not needed any more.
    pub fn abandon(&mut self)
        ensures state { self.new ≡ with_mark Mark.Abandoned self.old }
        ensures holds { send_numbers self.new ≡ send_numbers self.old }
    {
        self.mark(Mark::Abandoned);
    }

    /// Hands out a buffer that is not needed any more.
    pub fn drain(&mut self) -> Option<Buffer>
        ensures buffer { result ≡ loose_buffer self.old }
        ensures state { self.new ≡ drained self.old }
        ensures none { IfNone result (self.new ≡ self.old) }
        ensures holds { (k : ℕ) → times k (send_numbers self.new) + times k (number_in result) ≡ times k (send_numbers self.old) }
    {
        match take_loose(&mut self.places) {
            Some(packet) => Some(packet.into_buffer()),
            None => None,
        }
    }

    /// Takes out the first buffer, whether or not it is needed: for the end of a run.
    pub fn take_out(&mut self) -> Option<Buffer>
        ensures buffer { result ≡ first_pending self.old.packets }
        ensures state { self.new ≡ record self.old { packets = drop 1 self.old.packets } }
    {
        match take_first(&mut self.places) {
            Some(packet) => Some(packet.into_buffer()),
            None => None,
        }
    }

    /// Whether it holds the buffer of this number.
    pub fn holds(&self, number: u16) -> bool
        ensures { result ≡ nat_lt 0 (times number (send_numbers self.now)) }
    {
        has_buffer(&self.places, number)
    }

    /// Spends a window that holds no buffer.
    pub fn end(self)
        requires { self.packets ≡ [] }
    {
        let SendWindow {
            start: _,
            window: _,
            una: _,
            nxt: _,
            places,
        } = self;
        let _empty = unsafe { ManuallyDrop::new_unchecked(places) };
    }

    /// The number of its places: it holds no more buffers.
    pub fn capacity(&self) -> usize
        ensures value { result ≡ SEND_PLACES }
        ensures few { length self.now.packets ≤ result }
    {
        let places: &[Option<Pending>] = &self.places;
        places.len()
    }

    /// The least index that is not acknowledged.
    pub fn una(&self) -> u64
        ensures value { result ≡ self.now.una }
        ensures low { 1 ≤ self.now.una }
        ensures ordered { self.now.una ≤ self.now.nxt }
    {
        self.una
    }

    /// The next index.
    pub fn nxt(&self) -> u64
        ensures value { result ≡ self.now.nxt }
        ensures range { self.now.nxt ≤ 2 ^ 32 }
    {
        self.nxt
    }

    /// The start of its flow: the number of index 0.
    pub fn start(&self) -> Seq
        ensures { result.0 ≡ self.now.start }
    {
        self.start
    }

    /// The number of an index.
    pub fn number(&self, index: u64) -> Seq
        ensures { result.0 ≡ number_of self.now.start (pos index) }
    {
        self.start.add(index)
    }

    // What befalls each packet.
    fn mark(&mut self, mark: Mark)
        ensures state { self.new ≡ with_mark mark self.old }
        ensures holds { send_numbers self.new ≡ send_numbers self.old }
    {
        mark_all(&mut self.places, mark);
    }

    // Frees the listed packets, and answers the newest listed index, 0 where there is none.
    fn free_listed(&mut self, list: &[Seq]) -> u64
        ensures newest { result ≡ newest_of (listed self.old list.now) }
        ensures state { self.new ≡ without_listed (listed self.old list.now) self.old }
        ensures holds { send_numbers self.new ≡ send_numbers self.old }
    {
        let mut newest = 0;
        for number in list {
            match self.listed_index(*number) {
                Some(index) => {
                    self.mark(Mark::Listed(index));
                    newest = greater(newest, index);
                }
                None => {}
            }
        }
        newest
    }

    // The index from `una` to `nxt - 1` that a listed number shows, if it shows such a one.
    fn listed_index(&self, number: Seq) -> Option<u64>
        ensures { result ≡ listed_at self.now (shown number.0 self.now.start self.now.una) }
    {
        match shown_index(number, self.start, self.una) {
            Some(index) if self.una <= index && index < self.nxt => Some(index),
            _ => None,
        }
    }
}

impl Pending {
    // Its buffer.
    fn into_buffer(self) -> Buffer
        ensures { result ≡ self.buffer }
    {
        let Pending {
            index: _,
            buffer,
            needed: _,
            sent: _,
            due: _,
            asked: _,
        } = self;
        buffer
    }
}

// The greater of two numbers.
fn greater(a: u64, b: u64) -> u64
    ensures { result ≡ max a b }
{
    if a < b { b } else { a }
}

// A packet that was never sent.
fn fresh(index: u64, buffer: Buffer) -> Pending
    ensures { result ≡ fresh index buffer }
{
    Pending {
        index,
        buffer,
        needed: true,
        sent: None,
        due: false,
        asked: None,
    }
}

// Moves the packets on by one place, the first of which is empty, and puts another into the last.
fn push(places: &mut [Option<Pending>], packet: Pending)
    requires all { length places.old ≡ SEND_PLACES }
    requires first { slice_index_or places.old 0 None ≡ None }
    ensures { places.new ≡ drop 1 places.old ++ Some packet ∷ [] }
{
    places.rotate_left(1);
    put(&mut places[SEND_PLACES - 1], packet);
}

// What befalls the packet of each place.
fn mark_all(places: &mut [Option<Pending>], mark: Mark)
    ensures { places.new ≡ map (option_map (marked mark)) places.old }
{
    for place in places.iter_mut() {
        match place {
            Some(packet) => packet.mark(mark),
            None => {}
        }
    }
}

// The index of the first packet that is due.
fn first_due(places: &[Option<Pending>], now: u64, timeout: u32) -> Option<u64>
    ensures { result ≡ option_map (λ p. p.index) (find (is_due now timeout) (held_in places.now)) }
{
    for place in places {
        if let Some(packet) = place
            && packet.is_due(now, timeout)
        {
            return Some(packet.index);
        }
    }
    None
}

// The packet of this index, which is there.
fn packet_of(places: &[Option<Pending>], index: u64) -> &Pending
    requires { IsSome (find (λ p. p.index == index) (held_in places.now)) }
    ensures { find (λ p. p.index == index) (held_in places.now) ≡ Some result.now }
{
    for place in places {
        if let Some(packet) = place
            && packet.index == index
        {
            return packet;
        }
    }
    unreachable!()
}

// Takes the first packet that is not needed out of its place.
fn take_loose(places: &mut [Option<Pending>]) -> Option<Pending>
    ensures packet { result ≡ find is_loose (held_in places.old) }
    ensures state { held_in places.new ≡ without_loose (held_in places.old) }
    ensures placed { (una t : ℕ) → ArePlaced una t places.old → ArePlaced una t places.new }
{
    for place in places.iter_mut() {
        if has_loose(place) {
            return place.take();
        }
    }
    None
}

// Whether a place has a packet that is not needed.
fn has_loose(place: &Option<Pending>) -> bool
    ensures { result ≡ option_map_or is_loose place.now false }
{
    match place {
        Some(packet) => !packet.needed,
        None => false,
    }
}

// Whether a place has the buffer of this number.
fn has_buffer(places: &[Option<Pending>], number: u16) -> bool
    ensures { result ≡ nat_lt 0 (times number (map (λ p. p.buffer.picture.number) (held_in places.now))) }
{
    for place in places {
        if let Some(packet) = place
            && packet.buffer.number() == number
        {
            return true;
        }
    }
    false
}
