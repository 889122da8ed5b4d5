//! The machine.

ghost use Rattle.std.specs.Prelude.{◌≡◌, ◌≢◌, ◌+◌, ◌-◌, ◌^◌, ◌<◌, ◌≤◌, ◌↔◌, ℕ, true, false, [], ◌∷◌, length, nat_lt, Some, None, is_some, IsTrue, IsErr, OnOk, OnErr, OnSome, IfErr};
ghost use Rattle.std.specs.Option.{MatchOption, option_map};
ghost use Rattle.csp_rdp.specs.Changes.{change_between, close_change};
ghost use Rattle.csp_rdp.specs.Holding.{rdp_buffers, rdp_numbers, rested, taken_out, unneeded, unneeded_buffer, unneeded_in, without_kept, without_unneeded};
ghost use Rattle.csp_rdp.specs.Jobs.{admitting, closing, delivering, delivery, filled, job_in, job_of, keeping_again, sent, ticked, without_delivery};
ghost use Rattle.csp_rdp.specs.Machine.{accepting, connecting, flow_of, made, una_of};
ghost use Rattle.csp_rdp.specs.Sound.{IsUnopened};
ghost use Rattle.csp_rdp.specs.Timer.{times_out, waits_in};
ghost use Rattle.csp_rdp.specs.Table.{back_of, after_packet, is_stray, row_of};
ghost use Rattle.csp_rdp.specs.declared.answers.Cause.TheVariants as cause;
ghost use Rattle.csp_rdp_window.specs.Numbers.{left_over, number_in, times};
ghost use Rattle.csp_rdp_window.specs.Receiving.{is_kept};
ghost use Rattle.csp_rdp_window.specs.Sending.{is_full, loose_buffer, opening_send};
ghost use Rattle.csp_rdp_window.specs.Times.{has_passed};

mod packets;
mod rows;
mod steps;

use crate::answers::change_between;
use crate::jobs::Owed;
use crate::{Cause, Change, Job, Result2, State};
use csp_base::{MAX_PAYLOAD, Seq, Tag};
use csp_buffer::Buffer;
use csp_rdp_header::{MAX_WINDOW, Options, RdpHead};
use csp_rdp_window::{RECEIVE_PLACES, RecvWindow, SEND_PLACES, SendWindow, has_passed};
use std::marker::Model;

/// A connection of the reliable transport.
///
/// It takes no memory, and must be spent by `end`, when it holds no buffer. Contracts see it as a
/// `PlainRdp`: a packet comes to a row of the table of states, and the row says what happens.
pub struct Rdp {
    state: State,
    options: Options,
    node: u8,
    nth: u32,
    peer: Option<(u8, u32)>,
    was_open: bool,
    since: u64,
    send: SendWindow,
    recv: RecvWindow,
    owed: Owed,
    reset_at: Option<u64>,
}

impl Model for Rdp {
    ghost use Rattle.csp_rdp.specs.Machine.{PlainRdp};
    ghost use Rattle.csp_rdp.specs.Sound.{IsSound};

    ghost Value = { PlainRdp };

    ghost view = { λ r. record {
      state = r.state;
      options = r.options;
      node = r.node;
      nth = r.nth;
      peer = r.peer;
      was_open = r.was_open;
      since = r.since;
      send = r.send;
      recv = r.recv;
      owed = r.owed;
      reset_at = r.reset_at;
    } };

    ghost invariant = { λ r. IsSound r.state r.options r.send r.recv r.owed };
}

impl Rdp {
    /// A connection that this node asks for, from the turn `now` on: it owes the opening packet. `start`
    /// is the start of its flow, which is the `nth` of the node `node`.
    pub fn connect(start: Seq, options: Options, node: u8, nth: u32, now: u64) -> Rdp
        requires low { 1 ≤ options.window }
        requires high { options.window ≤ MAX_WINDOW }
        ensures { result ≡ connecting start.0 options node nth now }
    {
        made(
            State::SynSent,
            options,
            (node, nth),
            now,
            SendWindow::new(start, options.window),
            None,
        )
    }

    /// A connection that another node asks for by the opening packet `syn`, which had this tag and these
    /// options: it owes the answer.
    pub fn accept(
        start: Seq,
        options: Options,
        syn: RdpHead,
        tag: Option<Tag>,
        node: u8,
        nth: u32,
        now: u64,
    ) -> Rdp
        requires low { 1 ≤ options.window }
        requires high { options.window ≤ MAX_WINDOW }
        ensures { result ≡ accepting start.0 options syn.seq.0 tag node nth now }
    {
        made(
            State::SynRcvd,
            options,
            (node, nth),
            now,
            SendWindow::new(start, options.window),
            Some((syn.seq, tag)),
        )
    }

    /// Hands over a packet, whose head was cut off. It comes to a row of the table of states.
    pub fn handed(&mut self, head: RdpHead, tag: Option<Tag>, packet: Buffer, now: u64) -> Result2
        ensures state { self.new ≡ after_packet head tag packet now self.old }
        ensures back { result.back ≡ back_of (row_of self.old head packet.picture.payload) packet }
        ensures change { result.change ≡ change_between self.old.state self.new.state cause.Reset }
        ensures stray { result.stray ≡ is_stray (row_of self.old head packet.picture.payload) }
        ensures holds { (k : ℕ) → times k (rdp_numbers self.new) + times k (number_in result.back) ≡ times k (rdp_numbers self.old) + times k (packet.picture.number ∷ []) }
    {
        let before = self.state;
        let row = self.row_of(head, packet.payload());
        let back = self.step(row, head, tag, packet, now);
        Result2 {
            back,
            change: change_between(before, self.state, Cause::Reset),
            stray: row.is_stray(),
        }
    }

    /// Takes in a packet of the application, in state Open, or hands it back where the window is full.
    pub fn admit(&mut self, buffer: Buffer, now: u64) -> Result<(), Buffer>
        requires open { self.old.state ≡ State.Open }
        requires short { length buffer.picture.payload ≤ MAX_PAYLOAD - 9 }
        // What is not needed any more was handed out.
        requires drained { loose_buffer self.old.send ≡ None }
        requires countable { self.old.send.nxt < 2 ^ 32 }
        ensures full { IsErr result ↔ IsTrue (is_full self.old.send) }
        ensures ok { OnOk result (self.new ≡ admitting buffer now self.old) }
        ensures err { OnErr result (self.new ≡ self.old) }
        ensures back { IfErr result (λ b. b ≡ buffer) }
        ensures holds { (k : ℕ) → times k (rdp_numbers self.new) + times k (left_over result) ≡ times k (rdp_numbers self.old) + times k (buffer.picture.number ∷ []) }
    {
        let since = if self.send.una() == self.send.nxt() {
            now
        } else {
            self.since
        };
        match self.send.admit(buffer) {
            Ok(_) => {
                self.since = since;
                Ok(())
            }
            Err(buffer) => Err(buffer),
        }
    }

    /// The first job that is owed.
    pub fn job(&self, now: u64) -> Option<Job>
        ensures { result ≡ job_of now self.now }
    {
        if self.owed.rst {
            return Some(Job::Rst);
        }
        match self.state {
            State::SynSent | State::SynRcvd => self.opening_job(now),
            State::Open => self.open_job(now),
            State::CloseWait | State::Closed => None,
        }
    }

    /// Whether any job is owed. A connection that is over answers at once.
    #[inline(always)]
    pub fn owes(&self, now: u64) -> bool
        ensures { result ≡ is_some (job_of now self.now) }
    {
        self.owed.rst
            || match self.state {
                State::SynSent | State::SynRcvd | State::Open => self.owes_in_state(now),
                State::CloseWait | State::Closed => false,
            }
    }

    // Whether any job but a reset is owed.
    #[inline(never)]
    fn owes_in_state(&self, now: u64) -> bool
        ensures { result ≡ is_some (job_in self.now.state now self.now) }
    {
        match self.state {
            State::SynSent | State::SynRcvd => self.opening_job(now).is_some(),
            State::Open => self.open_job(now).is_some(),
            State::CloseWait | State::Closed => false,
        }
    }

    /// Fills a cleared buffer with the packet of the job that is owed first, which is not a delivery, and
    /// notes that it is sent.
    pub fn fill(&mut self, job: Job, into: &mut Buffer, now: u64)
        requires owed { job_of now self.old ≡ Some job }
        requires sent { job ≢ Job.Deliver }
        requires cleared { into.old.picture.payload ≡ [] }
        ensures packet { into.new ≡ filled job now self.old into.old }
        ensures state { self.new ≡ sent job now self.old }
        ensures holds { rdp_numbers self.new ≡ rdp_numbers self.old }

        // A checksum has room behind it.
        ensures short { length into.new.picture.payload ≤ MAX_PAYLOAD - 4 }
    {
        match job {
            Job::Rst => self.fill_rst(into),
            Job::Syn => self.fill_syn(into, now),
            Job::Deliver => unreachable!(),
            Job::Eak => self.fill_eak(into),
            Job::Data => self.fill_data(into, now),
            Job::Ack => self.fill_ack(into),
        }
    }

    /// Takes out the packet that is to be delivered next.
    pub fn deliver(&mut self) -> Option<Buffer>
        ensures buffer { result ≡ delivery self.old }
        ensures state { self.new ≡ without_delivery self.old }
        ensures taken { OnSome result (is_kept self.new.recv (self.new.recv.cur + 1) ≡ false) }
        ensures holds { (k : ℕ) → times k (rdp_numbers self.new) + times k (number_in result) ≡ times k (rdp_numbers self.old) }
    {
        match self.state {
            State::Open => self.recv.next(),
            State::SynSent | State::SynRcvd | State::CloseWait | State::Closed => None,
        }
    }

    /// The packet that was taken out is delivered.
    pub fn delivered(&mut self, now: u64) -> Change
        requires open { self.old.state ≡ State.Open }
        requires taken { is_kept self.old.recv (self.old.recv.cur + 1) ≡ false }
        requires countable { self.old.recv.cur < 2 ^ 32 - 1 }
        ensures state { self.new ≡ delivering now self.old }
        ensures change { result ≡ change_between self.old.state self.new.state cause.Reset }
        ensures holds { rdp_numbers self.new ≡ rdp_numbers self.old }
    {
        let before = self.state;
        self.recv.confirm();
        self.owed = self.owed.counting(now);
        self.reset_if_reached(now);
        change_between(before, self.state, Cause::Reset)
    }

    /// The packet that was taken out could not be delivered: it is kept again.
    pub fn put_back(&mut self, buffer: Buffer)
        requires open { self.old.state ≡ State.Open }
        requires taken { is_kept self.old.recv (self.old.recv.cur + 1) ≡ false }
        ensures state { self.new ≡ keeping_again buffer self.old }
        ensures holds { (k : ℕ) → times k (rdp_numbers self.new) ≡ times k (rdp_numbers self.old) + times k (buffer.picture.number ∷ []) }
    {
        self.recv.put_back(buffer);
    }

    /// Whether its timer has passed. Where it has not, trying it changes nothing.
    pub fn is_late(&self, now: u64) -> bool
        ensures late { result ≡ has_passed (Some self.now.since) self.now.options.conn_timeout now }
        ensures rest { result ≡ false → ticked now self.now ≡ self.now }
    {
        has_passed(Some(self.since), self.options.conn_timeout, now)
    }

    /// Whether trying its timer changes it: the timer has passed, and it waits for its peer. An open
    /// connection waits while something is not acknowledged; a closed one waits for nothing.
    pub fn times_out(&self, now: u64) -> bool
        ensures value { result ≡ times_out now self.now }
        ensures rest { result ≡ false → ticked now self.now ≡ self.now }
        ensures changes { result ≡ true → ticked now self.now ≢ self.now }
    {
        self.waits() && self.is_late(now)
    }

    // Whether it waits for its peer.
    fn waits(&self) -> bool
        ensures { result ≡ waits_in self.now.state self.now.send.una self.now.send.nxt }
    {
        match self.state {
            State::SynSent | State::SynRcvd | State::CloseWait => true,
            State::Open => self.send.una() != self.send.nxt(),
            State::Closed => false,
        }
    }

    /// Tries the timer.
    pub fn tick(&mut self, now: u64) -> Change
        ensures state { self.new ≡ ticked now self.old }
        ensures change { result ≡ change_between self.old.state self.new.state cause.Timeout }
        ensures holds { rdp_numbers self.new ≡ rdp_numbers self.old }
    {
        let before = self.state;
        if has_passed(Some(self.since), self.options.conn_timeout, now) {
            self.time_out(now);
        }
        change_between(before, self.state, Cause::Timeout)
    }

    /// The application closes the connection.
    pub fn close(&mut self, now: u64) -> Change
        ensures state { self.new ≡ closing now self.old }
        ensures change { result ≡ close_change self.old.state }
        ensures holds { rdp_numbers self.new ≡ rdp_numbers self.old }
    {
        match self.state {
            State::SynSent => {
                self.leave(State::Closed, now);
                Change::Closed
            }
            State::SynRcvd | State::Open => {
                self.break_off(now);
                Change::None
            }
            State::CloseWait | State::Closed => Change::None,
        }
    }

    /// Hands out a buffer that the connection does not need any more.
    pub fn drain(&mut self) -> Option<Buffer>
        ensures buffer { result ≡ unneeded_buffer self.old }
        ensures state { self.new ≡ without_unneeded self.old }

        // Called until it hands out none, it hands out all that is not needed, in order.
        ensures all { MatchOption result ((unneeded self.old ≡ []) × (rested self.old ≡ self.old) × (self.new ≡ self.old)) (λ b. (unneeded self.old ≡ b ∷ unneeded self.new) × (rested self.new ≡ rested self.old)) }
        ensures holds { (k : ℕ) → times k (rdp_numbers self.new) + times k (number_in result) ≡ times k (rdp_numbers self.old) }
    {
        self.hand_out()
    }

    /// Takes out the first buffer, whether or not it is needed: for the end of a run.
    pub fn take_out(&mut self) -> Option<Buffer>
        ensures buffers { MatchOption result ((rdp_buffers self.old ≡ []) × (self.new ≡ self.old)) (λ b. rdp_buffers self.old ≡ b ∷ rdp_buffers self.new) }
        ensures state { self.new ≡ taken_out self.old }
    {
        match self.send.take_out() {
            Some(buffer) => Some(buffer),
            None => self.recv.drain(),
        }
    }

    /// Its state.
    pub fn state(&self) -> State
        ensures value { result ≡ self.now.state }

        // Before it is open nothing is kept, and nothing was delivered.
        ensures unopened { IsUnopened self.now.state self.now.recv }

        // While it is not open, what it does not need is all that it holds.
        ensures empty { (self.now.state ≢ State.Open) → unneeded self.now ≡ [] → rdp_numbers self.now ≡ [] }

        // It holds no more than its windows have places.
        ensures few { length (rdp_numbers self.now) ≤ SEND_PLACES + RECEIVE_PLACES }
    {
        // The windows hold no more than this.
        let _places = self.send.capacity() + self.recv.capacity();
        self.state
    }

    /// The how-manieth connection of its node it is.
    pub fn nth(&self) -> u32
        ensures { result ≡ self.now.nth }
    {
        self.nth
    }

    /// Whether it was ever open.
    pub fn was_open(&self) -> bool
        ensures { result ≡ self.now.was_open }
    {
        self.was_open
    }

    /// The flow of its peer, a node and the how-manieth connection of it, where the packet that set the
    /// receive start told it.
    pub fn peer(&self) -> Option<(u8, u32)>
        ensures { result ≡ self.now.peer }
    {
        self.peer
    }

    /// The last index that was delivered.
    pub fn cur(&self) -> u64
        ensures { result ≡ self.now.recv.cur }
    {
        self.recv.cur()
    }

    /// The least index that is not acknowledged: that of the opening packet until the connection is open.
    pub fn una(&self) -> u64
        ensures { result ≡ una_of self.now }
    {
        if self.was_open { self.send.una() } else { 0 }
    }

    /// Whether a window of it holds the buffer of this number.
    pub fn holds(&self, number: u16) -> bool
        ensures { result ≡ nat_lt 0 (times number (rdp_numbers self.now)) }
    {
        self.send.holds(number) || self.recv.holds(number)
    }

    /// Spends a connection that holds no buffer.
    pub fn end(self)
        requires { rdp_numbers self ≡ [] }
    {
        let Rdp {
            state: _,
            options: _,
            node: _,
            nth: _,
            peer: _,
            was_open: _,
            since: _,
            send,
            recv,
            owed: _,
            reset_at: _,
        } = self;
        send.end();
        recv.end();
    }

    // Hands out what the send window does not need, or what is kept.
    fn hand_out(&mut self) -> Option<Buffer>
        ensures buffer { result ≡ unneeded_buffer self.old }
        ensures state { self.new ≡ without_unneeded self.old }
        ensures holds { (k : ℕ) → times k (rdp_numbers self.new) + times k (number_in result) ≡ times k (rdp_numbers self.old) }
    {
        match self.send.drain() {
            Some(buffer) => Some(buffer),
            None => self.drain_kept(),
        }
    }

    // Hands out what is kept, where the connection is not open.
    fn drain_kept(&mut self) -> Option<Buffer>
        ensures buffer { result ≡ unneeded_in self.old.state self.old }
        ensures state { self.new ≡ without_kept self.old.state self.old }
        ensures holds { (k : ℕ) → times k (rdp_numbers self.new) + times k (number_in result) ≡ times k (rdp_numbers self.old) }
    {
        match self.state {
            State::Open => None,
            State::SynSent | State::SynRcvd | State::CloseWait | State::Closed => self.recv.drain(),
        }
    }
}

// A connection in this state, of this flow, made in the turn `now`, with this send window, by the number and the tag of the peer's first packet, where
// that has come.
fn made(
    state: State,
    options: Options,
    flow: (u8, u32),
    now: u64,
    send: SendWindow,
    first: Option<(Seq, Option<Tag>)>,
) -> Rdp
    requires low { 1 ≤ options.window }
    requires high { options.window ≤ MAX_WINDOW }
    requires window { send ≡ opening_send send.start options.window }
    ensures { result ≡ made state send.start options (option_map (λ f. (f.0.0, f.1)) first) flow.0 flow.1 now }
{
    let (node, nth) = flow;
    let (start, peer) = match first {
        Some((number, tag)) => (number, peer_of(tag)),
        None => (Seq(0), None),
    };
    Rdp {
        state,
        options,
        node,
        nth,
        peer,
        was_open: false,
        since: now,
        send,
        recv: RecvWindow::new(start, options.window),
        owed: Owed::opening(),
        reset_at: None,
    }
}

// The flow that a tag names.
fn peer_of(tag: Option<Tag>) -> Option<(u8, u32)>
    ensures { result ≡ option_map flow_of tag }
{
    match tag {
        Some(tag) => Some((tag.node, tag.nth)),
        None => None,
    }
}
