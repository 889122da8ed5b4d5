//! The jobs that are owed, and their packets.

ghost use Rattle.std.specs.Prelude.{◌≡◌, ◌-◌, ◌≤◌, ◌++◌, ℕ, [], length, Some, None, pos, IsSome};
ghost use Rattle.csp_base.specs.Sequence.{number_of};
ghost use Rattle.csp_buffer.specs.PlainBuffer.{with_picture};
ghost use Rattle.csp_rdp.specs.Holding.{rdp_numbers};
ghost use Rattle.csp_rdp.specs.Jobs.{filled, headed, is_ack_due, job_in, sent, without_ack};
ghost use Rattle.csp_rdp_header.specs.Head.{head_bytes};
ghost use Rattle.csp_rdp_window.specs.Numbers.{with_payload};
ghost use Rattle.csp_rdp_window.specs.Sending.{due_index, packet_at, payload_at, with_mark};

use crate::rdp::Rdp;
use crate::{Job, State};
use arrayvec::ArrayVec;
use csp_base::{MAX_PAYLOAD, Seq, Tag, Trace};
use csp_buffer::Buffer;
use csp_rdp_header::{ACK, EAK, RST, RdpHead, SYN, eak_encode};
use csp_rdp_window::{Mark, has_passed};

impl Rdp {
    pub(super) fn opening_job(&self, now: u64) -> Option<Job>
        ensures { result ≡ job_in State.SynSent now self.now }
    {
        let timeout = self.options.packet_timeout;
        if self.owed.syn || has_passed(self.owed.syn_sent, timeout, now) {
            Some(Job::Syn)
        } else {
            None
        }
    }

    pub(super) fn open_job(&self, now: u64) -> Option<Job>
        ensures { result ≡ job_in State.Open now self.now }
    {
        if self.recv.has_next() {
            Some(Job::Deliver)
        } else if self.owed.eak {
            Some(Job::Eak)
        } else if self.send.due(now, self.options.packet_timeout).is_some() {
            Some(Job::Data)
        } else if self.owes_ack(now) {
            Some(Job::Ack)
        } else {
            None
        }
    }

    pub(super) fn owes_ack(&self, now: u64) -> bool
        ensures { result ≡ is_ack_due now self.now }
    {
        let owed = &self.owed;
        let options = &self.options;
        owed.ack
            || (owed.delivered > 0
                && (options.delayed == 0
                    || owed.delivered > u64::from(options.ack_count)
                    || has_passed(owed.first, options.ack_timeout, now)))
    }

    pub(super) fn fill_rst(&mut self, into: &mut Buffer)
        requires { into.old.picture.payload ≡ [] }
        ensures packet { (time : ℕ) → into.new ≡ filled Job.Rst time self.old into.old }
        ensures state { (time : ℕ) → self.new ≡ sent Job.Rst time self.old }
        ensures short { length into.new.picture.payload ≤ MAX_PAYLOAD - 4 }
    {
        self.owed.rst = false;
        let index = self.send.nxt();
        self.acknowledge(RST | ACK, index, into);
    }

    pub(super) fn fill_syn(&mut self, into: &mut Buffer, now: u64)
        requires { into.old.picture.payload ≡ [] }
        ensures packet { (time : ℕ) → into.new ≡ filled Job.Syn time self.old into.old }
        ensures state { self.new ≡ sent Job.Syn now self.old }
        ensures short { length into.new.picture.payload ≤ MAX_PAYLOAD - 4 }
    {
        self.owed.syn = false;
        self.owed.syn_sent = Some(now);
        if self.state == State::SynSent {
            into.push_tail(&self.options.encode()).unwrap();
            let head = RdpHead {
                flags: SYN,
                seq: self.send.number(0),
                ack: Seq(0),
            };
            put_head(into, head, self.tag(0, 0));
        } else {
            self.acknowledge(SYN | ACK, 0, into);
        }
    }

    pub(super) fn fill_eak(&mut self, into: &mut Buffer)
        requires { into.old.picture.payload ≡ [] }
        ensures packet { (time : ℕ) → into.new ≡ filled Job.Eak time self.old into.old }
        ensures state { (time : ℕ) → self.new ≡ sent Job.Eak time self.old }
        ensures short { length into.new.picture.payload ≤ MAX_PAYLOAD - 4 }
    {
        let mut list = ArrayVec::new();
        self.recv.kept(&mut list);
        let mut bytes = ArrayVec::new();
        eak_encode(list.as_slice(), &mut bytes);
        into.push_tail(bytes.as_slice()).unwrap();
        self.owed.eak = false;
        let index = self.send.nxt();
        self.acknowledge(EAK | ACK, index, into);
    }

    pub(super) fn fill_data(&mut self, into: &mut Buffer, now: u64)
        requires due { IsSome (due_index now self.old.options.packet_timeout self.old.send) }
        requires cleared { into.old.picture.payload ≡ [] }
        ensures packet { into.new ≡ filled Job.Data now self.old into.old }
        ensures state { self.new ≡ sent Job.Data now self.old }
        ensures holds { rdp_numbers self.new ≡ rdp_numbers self.old }
        ensures short { length into.new.picture.payload ≤ MAX_PAYLOAD - 4 }
    {
        match self.send.due(now, self.options.packet_timeout) {
            Some(index) => {
                self.copy(index, into, now);
                self.acknowledge(ACK, index, into);
            }
            None => unreachable!(),
        }
    }

    // Writes the payload of a packet of the send window into a cleared buffer, and notes that it is sent.
    pub(super) fn copy(&mut self, index: u64, into: &mut Buffer, now: u64)
        requires there { IsSome (packet_at self.old.send index) }
        requires cleared { into.old.picture.payload ≡ [] }
        ensures payload { into.new ≡ with_payload (payload_at self.old.send index) into.old }
        ensures short { length into.new.picture.payload ≤ MAX_PAYLOAD - 9 }
        ensures state { self.new ≡ record self.old { send = with_mark (Mark.Sent index now) self.old.send } }
        ensures holds { rdp_numbers self.new ≡ rdp_numbers self.old }
    {
        self.send.copy(index, into, now);
    }

    pub(super) fn fill_ack(&mut self, into: &mut Buffer)
        requires { into.old.picture.payload ≡ [] }
        ensures packet { (time : ℕ) → into.new ≡ filled Job.Ack time self.old into.old }
        ensures state { (time : ℕ) → self.new ≡ sent Job.Ack time self.old }
        ensures short { length into.new.picture.payload ≤ MAX_PAYLOAD - 4 }
    {
        let index = self.send.nxt();
        self.acknowledge(ACK, index, into);
    }

    // Ends a packet that acknowledges by its head, and notes that it is sent.
    pub(super) fn acknowledge(&mut self, flags: u8, index: u64, into: &mut Buffer)
        requires { length into.old.picture.payload ≤ MAX_PAYLOAD - 9 }
        ensures packet { into.new ≡ headed (record { flags = flags; index = index; ack = self.old.recv.cur; bytes = into.old.picture.payload })
            (record { flags = flags; seq = record { 0 = number_of self.old.send.start (pos index) }; ack = record { 0 = number_of self.old.recv.start (pos self.old.recv.cur) } })
            self.old into.old }
        ensures state { self.new ≡ record self.old { owed = without_ack self.old.owed } }
        ensures short { length into.new.picture.payload ≤ MAX_PAYLOAD - 4 }
    {
        self.owed.ack = false;
        self.owed.delivered = 0;
        self.owed.first = None;
        let cur = self.recv.cur();
        let head = RdpHead {
            flags,
            seq: self.send.number(index),
            ack: self.recv.number(cur),
        };
        put_head(into, head, self.tag(index, cur));
    }

    pub(super) fn tag(&self, index: u64, ack: u64) -> Tag
        ensures { result ≡ record { node = self.now.node; nth = self.now.nth; index = index; ack = ack } }
    {
        Tag {
            node: self.node,
            nth: self.nth,
            index,
            ack,
        }
    }
}

// Appends a head to a payload, and writes the tag.
fn put_head(into: &mut Buffer, head: RdpHead, tag: Tag)
    requires { length into.old.picture.payload ≤ MAX_PAYLOAD - 9 }
    ensures value { into.new ≡ with_picture into.old (record into.old.picture { payload = into.old.picture.payload ++ head_bytes head; trace = record { origin = None; hops = 0; tag = Some tag } }) }
    ensures short { length into.new.picture.payload ≤ MAX_PAYLOAD - 4 }
{
    into.push_tail(&head.encode()).unwrap();
    into.set_trace(Trace {
        origin: None,
        hops: 0,
        tag: Some(tag),
    });
}
