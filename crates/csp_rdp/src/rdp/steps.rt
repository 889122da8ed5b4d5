//! What happens in a row.

ghost use Rattle.std.specs.Prelude.{◌≡◌, ◌+◌, ℕ, true, false, [], ◌∷◌, Some, None};
ghost use Rattle.csp_rdp.specs.Holding.{rdp_numbers};
ghost use Rattle.csp_rdp.specs.Jobs.{reset_after, timed_out};
ghost use Rattle.csp_rdp.specs.Machine.{broken, left, opened, owes_ack, owes_rst, started};
ghost use Rattle.csp_rdp.specs.Sound.{IsOver};
ghost use Rattle.csp_rdp.specs.Table.{acknowledged, after, back_of, entered, keeping, least, listing, row_of, since_moved};
ghost use Rattle.csp_rdp_header.specs.Numbers.{is_malformed};
ghost use Rattle.csp_rdp_window.specs.Numbers.{number_in, times};
ghost use Rattle.csp_rdp_window.specs.Receiving.{index_in, is_awaited, is_kept};
ghost use Rattle.csp_rdp_window.specs.Sending.{acknowledges};

use crate::State;
use crate::rdp::{Rdp, peer_of};
use crate::rows::StateRow;
use arrayvec::ArrayVec;
use csp_base::{Seq, Tag};
use csp_buffer::Buffer;
use csp_rdp_header::{RdpHead, eak_decode, is_malformed};
use csp_rdp_window::{Offer, RecvWindow};

impl Rdp {
    pub(super) fn step(
        &mut self,
        row: StateRow,
        head: RdpHead,
        tag: Option<Tag>,
        packet: Buffer,
        now: u64,
    ) -> Option<Buffer>
        requires row { row ≡ row_of self.old head packet.picture.payload }
        ensures back { result ≡ back_of row packet }
        ensures state { self.new ≡ after row head tag packet now self.old }
        ensures holds { (k : ℕ) → times k (rdp_numbers self.new) + times k (number_in result) ≡ times k (rdp_numbers self.old) + times k (packet.picture.number ∷ []) }
    {
        match row {
            StateRow::Stray => {}
            StateRow::Refused | StateRow::Ended => self.leave(State::Closed, now),
            StateRow::Answered => self.answer(head.seq, tag, now),
            StateRow::Repeated => self.owed.syn = true,
            StateRow::Late => self.owed.ack = true,
            StateRow::Reset => self.reset(now),
            StateRow::ResetAt(index) => self.reset_at = Some(least(self.reset_at, index)),
            StateRow::Broken => self.break_off(now),
            StateRow::Acknowledges | StateRow::Duplicate => {
                self.enter(now);
                let _inside = self.hear(head.ack, now);
            }
            StateRow::Lists => {
                self.enter(now);
                self.hear_list(head.ack, packet.payload(), now);
            }
            StateRow::Outside => {
                self.enter(now);
                self.owed.eak = true;
            }
            StateRow::Data(index) => {
                self.enter(now);
                let _inside = self.hear(head.ack, now);
                return self.keep(index, head.seq, packet);
            }
        }
        Some(packet)
    }

    // The answer to the opening packet came, with this number and tag: it is open, and owes an
    // acknowledgement.
    pub(super) fn answer(&mut self, other: Seq, tag: Option<Tag>, now: u64)
        requires { self.old.state ≡ State.SynSent }
        ensures state { self.new ≡ owes_ack (opened now (started other.0 tag self.old)) }
        ensures holds { rdp_numbers self.new ≡ rdp_numbers self.old }
    {
        let window = RecvWindow::new(other, self.options.window);
        std::mem::replace(&mut self.recv, window).end();
        self.peer = peer_of(tag);
        self.open(now);
        self.owed.ack = true;
    }

    pub(super) fn open(&mut self, now: u64)
        ensures state { self.new ≡ opened now self.old }
        ensures holds { rdp_numbers self.new ≡ rdp_numbers self.old }
    {
        self.state = State::Open;
        self.was_open = true;
        self.since = now;
        self.owed.syn = false;
    }

    // A packet that acknowledges opens a connection in SynRcvd.
    pub(super) fn enter(&mut self, now: u64)
        ensures state { self.new ≡ entered now self.old }
        ensures holds { rdp_numbers self.new ≡ rdp_numbers self.old }
    {
        if self.state == State::SynRcvd {
            self.open(now);
        }
    }

    // It is closed or broken off.
    pub(super) fn leave(&mut self, state: State, now: u64)
        requires { IsOver state }
        ensures state { self.new ≡ left state now self.old }
        ensures holds { rdp_numbers self.new ≡ rdp_numbers self.old }
    {
        self.state = state;
        self.since = now;
        self.send.abandon();
        self.reset_at = None;
    }

    pub(super) fn break_off(&mut self, now: u64)
        ensures state { self.new ≡ broken now self.old }
        ensures holds { rdp_numbers self.new ≡ rdp_numbers self.old }
    {
        self.leave(State::CloseWait, now);
        self.owed.rst = true;
    }

    pub(super) fn reset(&mut self, now: u64)
        ensures state { self.new ≡ owes_rst (left State.Closed now self.old) }
        ensures holds { rdp_numbers self.new ≡ rdp_numbers self.old }
    {
        self.leave(State::Closed, now);
        self.owed.rst = true;
    }

    // The send window hears an acknowledgement number. Whether it was inside.
    pub(super) fn hear(&mut self, number: Seq, now: u64) -> bool
        ensures inside { result ≡ acknowledges self.old.send number.0 }
        ensures state { self.new ≡ acknowledged number.0 now self.old }
        ensures holds { rdp_numbers self.new ≡ rdp_numbers self.old }
    {
        let before = self.send.una();
        let inside = self.send.acked(number);
        self.since = since_moved(before, self.send.una(), now, self.since);
        inside
    }

    // It hears an acknowledgement number, and the list where the number was inside.
    pub(super) fn hear_list(&mut self, number: Seq, bytes: &[u8], now: u64)
        requires { is_malformed bytes.now ≡ false }
        ensures state { self.new ≡ listing (acknowledges self.old.send number.0) bytes.now now (acknowledged number.0 now self.old) }
        ensures holds { rdp_numbers self.new ≡ rdp_numbers self.old }
    {
        if self.hear(number, now) {
            self.hear_numbers(bytes, now);
        }
    }

    // The send window hears a list.
    pub(super) fn hear_numbers(&mut self, bytes: &[u8], now: u64)
        requires { is_malformed bytes.now ≡ false }
        ensures state { self.new ≡ listing true bytes.now now self.old }
        ensures holds { rdp_numbers self.new ≡ rdp_numbers self.old }
    {
        let mut list = ArrayVec::new();
        match eak_decode(bytes, &mut list) {
            Ok(()) => self
                .send
                .eak(list.as_slice(), now, self.options.packet_timeout),
            Err(_) => unreachable!(),
        }
    }

    // A packet of an awaited index that is not kept yet is kept.
    pub(super) fn keep(&mut self, index: u64, number: Seq, packet: Buffer) -> Option<Buffer>
        requires open { self.old.state ≡ State.Open }
        requires shown { index_in self.old.recv number.0 ≡ Some index }
        requires awaited { is_awaited self.old.recv index ≡ true }
        requires missing { is_kept self.old.recv index ≡ false }
        ensures back { result ≡ None }
        ensures state { self.new ≡ keeping index packet self.old }
        ensures holds { (k : ℕ) → times k (rdp_numbers self.new) ≡ times k (rdp_numbers self.old) + times k (packet.picture.number ∷ []) }
    {
        self.owed.eak = self.owed.eak || index != self.recv.cur() + 1;
        match self.recv.offer(number, packet) {
            Offer::Kept => None,
            Offer::Duplicate(packet) | Offer::Outside(packet) => Some(packet),
        }
    }

    // A reset that waits closes the connection, once all before it is delivered.
    pub(super) fn reset_if_reached(&mut self, now: u64)
        ensures state { self.new ≡ reset_after self.old.reset_at now self.old }
        ensures holds { rdp_numbers self.new ≡ rdp_numbers self.old }
    {
        if let Some(index) = self.reset_at
            && index <= self.recv.cur() + 1
        {
            self.reset(now);
        }
    }

    // The connection timeout has passed.
    pub(super) fn time_out(&mut self, now: u64)
        ensures state { self.new ≡ timed_out self.old.state now self.old }
        ensures holds { rdp_numbers self.new ≡ rdp_numbers self.old }
    {
        match self.state {
            State::SynSent | State::SynRcvd | State::CloseWait => self.leave(State::Closed, now),
            State::Open => {
                if self.send.una() != self.send.nxt() {
                    self.break_off(now);
                }
            }
            State::Closed => {}
        }
    }
}

// From when the timer counts, where `una` was and is this.
fn since_moved(before: u64, after: u64, now: u64, since: u64) -> u64
    ensures { result ≡ since_moved before after now since }
{
    if after == before { since } else { now }
}

// The least index of a reset that waits.
fn least(waiting: Option<u64>, index: u64) -> u64
    ensures { Some result ≡ least waiting index }
{
    match waiting {
        Some(earlier) if earlier < index => earlier,
        _ => index,
    }
}
