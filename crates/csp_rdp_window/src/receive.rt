//! The receive window.

ghost use Rattle.std.specs.Prelude.{◌≡◌, ◌≢◌, ◌+◌, ◌-◌, ◌*◌, ◌^◌, ◌<◌, ◌≤◌, ◌↔◌, ℕ, pos, true, false, [], ◌∷◌, map, length, nat_lt, Some, None, IsSome, is_some};
ghost use Rattle.csp_base.specs.Sequence.{number_of};
ghost use Rattle.csp_rdp_window.specs.Numbers.{times, number_in};
ghost use Rattle.csp_rdp_window.specs.Offers.{handed_back};
ghost use Rattle.csp_rdp_window.specs.Places.{held_in, kept_in};
ghost use Rattle.csp_rdp_window.specs.Receiving.{PlainRecv, confirmed, first_buffer, first_missing, index_in, is_awaited, is_kept, kept_numbers, missing_from, next_buffer, offered, offered_at, opening_recv, recv_numbers, with_kept, without_first, without_next};

use crate::places::{put, take_first};
use crate::shown::shown_index;
use arrayvec::ArrayVec;
use csp_base::Seq;
use csp_buffer::Buffer;
use std::marker::Model;
use std::mem::ManuallyDrop;

/// The places of a receive window: twice the widest window.
pub const RECEIVE_PLACES: usize = 40;

/// What becomes of a packet that is offered to a receive window.
pub enum Offer {
    /// It is kept.
    Kept,
    /// A packet of its number is kept already.
    Duplicate(Buffer),
    /// Its number is outside the window.
    Outside(Buffer),
}

/// The packets that came, up to `2 * window` past the last that was delivered.
///
/// It takes no memory, and must be spent by `end`, when it holds no buffer. Contracts see it as a
/// `PlainRecv`, in true indices.
pub struct RecvWindow {
    start: Seq,
    window: u32,
    cur: u64,
    // The first place is that of the packet after `cur`, each other that of the packet after.
    places: [Option<Buffer>; RECEIVE_PLACES],
}

impl Model for RecvWindow {
    ghost use Rattle.csp_rdp_window.specs.Places.{IsRecvSound, recv_view};
    ghost use Rattle.csp_rdp_window.specs.Receiving.{PlainRecv};

    ghost Value = { PlainRecv };

    ghost view = { λ w. recv_view w.start w.window w.cur w.places };

    ghost invariant = { λ w. IsRecvSound w.window w.cur };
}

impl RecvWindow {
    /// A window without packets, of a flow that starts at `start`.
    pub fn new(start: Seq, window: u32) -> RecvWindow
        requires low { 1 ≤ window }
        requires high { 2 * window ≤ RECEIVE_PLACES }
        ensures { result ≡ opening_recv start.0 window }
    {
        RecvWindow {
            start,
            window,
            cur: 0,
            places: [
                None, None, None, None, None, None, None, None, None, None, None, None, None, None,
                None, None, None, None, None, None, None, None, None, None, None, None, None, None,
                None, None, None, None, None, None, None, None, None, None, None, None,
            ],
        }
    }

    /// Keeps a packet whose number shows an index from `cur + 1` to `cur + 2 * window`, once.
    pub fn offer(&mut self, number: Seq, buffer: Buffer) -> Offer
        ensures answer { result ≡ (offered number.0 buffer self.old).0 }
        ensures state { self.new ≡ (offered number.0 buffer self.old).1 }
        ensures holds { (k : ℕ) → times k (recv_numbers self.new) + times k (handed_back result) ≡ times k (recv_numbers self.old) + times k (buffer.picture.number ∷ []) }
    {
        match self.index_of(number) {
            Some(index) if self.awaits(index) => self.keep(index, buffer),
            _ => Offer::Outside(buffer),
        }
    }

    /// Takes out the packet `cur + 1`, where it is kept.
    pub fn next(&mut self) -> Option<Buffer>
        ensures buffer { result ≡ next_buffer self.old }
        ensures state { self.new ≡ without_next self.old }
        ensures taken { is_kept self.new (self.new.cur + 1) ≡ false }
        ensures holds { (k : ℕ) → times k (recv_numbers self.new) + times k (number_in result) ≡ times k (recv_numbers self.old) }
    {
        self.places[0].take()
    }

    /// The packet `cur + 1`, which was taken out, is delivered.
    pub fn confirm(&mut self)
        requires taken { is_kept self.old (self.old.cur + 1) ≡ false }
        requires countable { self.old.cur < 2 ^ 32 - 1 }
        ensures state { self.new ≡ confirmed self.old }
        ensures holds { recv_numbers self.new ≡ recv_numbers self.old }
    {
        self.places.rotate_left(1);
        self.cur += 1;
    }

    /// Keeps the packet `cur + 1` again, which was taken out.
    pub fn put_back(&mut self, buffer: Buffer)
        requires taken { is_kept self.old (self.old.cur + 1) ≡ false }
        ensures state { self.new ≡ with_kept (self.old.cur + 1) buffer self.old }
        ensures holds { (k : ℕ) → times k (recv_numbers self.new) ≡ times k (recv_numbers self.old) + times k (buffer.picture.number ∷ []) }
    {
        put(&mut self.places[0], buffer);
    }

    /// Lists the numbers of what is kept in `out`, in order, in place of what stood there.
    pub fn kept(&self, out: &mut ArrayVec<Seq, RECEIVE_PLACES>)
        ensures { out.new.items ≡ kept_numbers self.now }
    {
        list_kept(&self.places, self.start, self.cur, out);
    }

    /// Hands out what is kept, least index first.
    pub fn drain(&mut self) -> Option<Buffer>
        ensures buffer { result ≡ first_buffer self.old.kept }
        ensures state { self.new ≡ record self.old { kept = without_first self.old.kept } }
        ensures holds { (k : ℕ) → times k (recv_numbers self.new) + times k (number_in result) ≡ times k (recv_numbers self.old) }
    {
        take_first(&mut self.places)
    }

    /// Whether it holds the buffer of this number.
    pub fn holds(&self, number: u16) -> bool
        ensures { result ≡ nat_lt 0 (times number (recv_numbers self.now)) }
    {
        has_buffer(&self.places, number)
    }

    /// Spends a window that holds no buffer.
    pub fn end(self)
        requires { self.kept ≡ [] }
    {
        let RecvWindow {
            start: _,
            window: _,
            cur: _,
            places,
        } = self;
        let _empty = unsafe { ManuallyDrop::new_unchecked(places) };
    }

    /// The number of its places: it holds no more buffers.
    pub fn capacity(&self) -> usize
        ensures value { result ≡ RECEIVE_PLACES }
        ensures few { length self.now.kept ≤ result }
    {
        let places: &[Option<Buffer>] = &self.places;
        places.len()
    }

    /// The last index that was delivered.
    pub fn cur(&self) -> u64
        ensures value { result ≡ self.now.cur }
        ensures range { self.now.cur < 2 ^ 32 }
    {
        self.cur
    }

    /// The start of its flow: the number of index 0.
    pub fn start(&self) -> Seq
        ensures { result.0 ≡ self.now.start }
    {
        self.start
    }

    /// The number of an index.
    pub fn number(&self, index: u64) -> Seq
        ensures { result.0 ≡ number_of self.now.start (pos index) }
    {
        self.start.add(index)
    }

    /// The true index that a number shows.
    pub fn index_of(&self, number: Seq) -> Option<u64>
        ensures { result ≡ index_in self.now number.0 }
    {
        shown_index(number, self.start, self.cur)
    }

    /// Whether an index is from `cur + 1` to `cur + 2 * window`.
    pub fn awaits(&self, index: u64) -> bool
        ensures { result ≡ is_awaited self.now index }
    {
        self.cur < index && index <= self.cur + 2 * u64::from(self.window)
    }

    /// Whether the packet of an awaited index is kept.
    pub fn keeps(&self, index: u64) -> bool
        requires { is_awaited self.now index ≡ true }
        ensures { result ≡ is_kept self.now index }
    {
        self.places[(index - self.cur - 1) as usize].is_some()
    }

    /// Whether the packet `cur + 1` is kept.
    pub fn has_next(&self) -> bool
        ensures { result ≡ is_some (next_buffer self.now) }
    {
        self.places[0].is_some()
    }

    /// The first index after `cur` that is not kept.
    pub fn first_missing(&self) -> u64
        ensures value { result ≡ first_missing self.now }
        ensures later { self.now.cur < result }
    {
        self.cur + 1 + leading(&self.places)
    }

    // Keeps a packet of an awaited index, once.
    fn keep(&mut self, index: u64, buffer: Buffer) -> Offer
        requires { is_awaited self.old index ≡ true }
        ensures answer { result ≡ (offered_at (Some index) buffer self.old).0 }
        ensures state { self.new ≡ (offered_at (Some index) buffer self.old).1 }
    {
        if self.keeps(index) {
            return Offer::Duplicate(buffer);
        }
        put(&mut self.places[(index - self.cur - 1) as usize], buffer);
        Offer::Kept
    }
}

// Lists the numbers of what places keep, the first that of the index after `cur`.
fn list_kept(
    places: &[Option<Buffer>],
    start: Seq,
    cur: u64,
    out: &mut ArrayVec<Seq, RECEIVE_PLACES>,
)
    requires few { length places.now ≤ RECEIVE_PLACES }
    requires range { cur < 2 ^ 32 }
    ensures { out.new.items ≡ map (λ k. record { 0 = number_of start.0 (pos k.index) }) (kept_in (cur + 1) places.now) }
{
    out.clear();
    let mut index = cur;
    for place in places {
        index += 1;
        if place.is_some() {
            out.push(start.add(index));
        }
    }
}

// How many places from the first on are not empty.
fn leading(places: &[Option<Buffer>]) -> u64
    ensures value { (t : ℕ) → missing_from t (kept_in t places.now) ≡ t + result }
    ensures few { result ≤ length places.now }
{
    let mut count = 0;
    for place in places {
        if place.is_none() {
            return count;
        }
        count += 1;
    }
    count
}

// Whether a place has the buffer of this number.
fn has_buffer(places: &[Option<Buffer>], number: u16) -> bool
    ensures { result ≡ nat_lt 0 (times number (map (λ b. b.picture.number) (held_in places.now))) }
{
    for place in places {
        if let Some(buffer) = place
            && buffer.number() == number
        {
            return true;
        }
    }
    false
}
