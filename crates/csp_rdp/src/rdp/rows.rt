//! The row of the table of states that a packet comes to.

ghost use Rattle.std.specs.Prelude.{◌≡◌};
ghost use Rattle.csp_rdp.specs.Table.{ack_row, close_wait_row, data_row, is_bad_list, open_row, reset_row, row_of, syn_rcvd_row, syn_sent_row};
ghost use Rattle.csp_rdp_window.specs.Receiving.{index_in};

use crate::State;
use crate::rdp::Rdp;
use crate::rows::StateRow;
use csp_base::Seq;
use csp_rdp_header::{ACK, EAK, RST, RdpHead, SYN, is_malformed};

impl Rdp {
    pub(super) fn row_of(&self, head: RdpHead, bytes: &[u8]) -> StateRow
        ensures { result ≡ row_of self.now head bytes.now }
    {
        match self.state {
            State::SynSent => self.syn_sent_row(head),
            State::SynRcvd => self.syn_rcvd_row(head, bytes),
            State::Open => self.open_row(head, bytes),
            State::CloseWait => close_wait_row(head),
            State::Closed => StateRow::Stray,
        }
    }

    pub(super) fn syn_sent_row(&self, head: RdpHead) -> StateRow
        ensures { result ≡ syn_sent_row self.now head }
    {
        if head.has(RST) {
            StateRow::Refused
        } else if head.has(SYN) && head.has(ACK) && head.ack == self.send.start() {
            StateRow::Answered
        } else {
            StateRow::Stray
        }
    }

    pub(super) fn syn_rcvd_row(&self, head: RdpHead, bytes: &[u8]) -> StateRow
        ensures { result ≡ syn_rcvd_row self.now head bytes.now }
    {
        if head.has(RST) {
            self.reset_row(head.seq)
        } else if head.has(SYN) && !head.has(ACK) && head.seq == self.recv.start() {
            StateRow::Repeated
        } else if head.has(SYN) || !head.has(ACK) {
            StateRow::Broken
        } else if is_bad_list(head, bytes) {
            StateRow::Stray
        } else if head.ack == self.send.start() {
            self.ack_row(head, bytes)
        } else {
            StateRow::Stray
        }
    }

    pub(super) fn open_row(&self, head: RdpHead, bytes: &[u8]) -> StateRow
        ensures { result ≡ open_row self.now head bytes.now }
    {
        if head.has(RST) {
            self.reset_row(head.seq)
        } else if head.has(SYN) && head.seq == self.recv.start() {
            StateRow::Late
        } else if head.has(SYN) || !head.has(ACK) {
            StateRow::Broken
        } else if is_bad_list(head, bytes) {
            StateRow::Stray
        } else {
            self.ack_row(head, bytes)
        }
    }

    pub(super) fn reset_row(&self, number: Seq) -> StateRow
        ensures { result ≡ reset_row self.now (index_in self.now.recv number.0) }
    {
        match self.recv.index_of(number) {
            Some(index) => {
                if index != self.recv.first_missing() {
                    StateRow::Stray
                } else if index == self.recv.cur() + 1 {
                    StateRow::Reset
                } else {
                    StateRow::ResetAt(index)
                }
            }
            None => StateRow::Stray,
        }
    }

    pub(super) fn ack_row(&self, head: RdpHead, bytes: &[u8]) -> StateRow
        ensures { result ≡ ack_row self.now head bytes.now }
    {
        if head.has(EAK) {
            StateRow::Lists
        } else if bytes.is_empty() {
            StateRow::Acknowledges
        } else {
            self.data_row(head.seq)
        }
    }

    pub(super) fn data_row(&self, number: Seq) -> StateRow
        ensures { result ≡ data_row self.now (index_in self.now.recv number.0) }
    {
        match self.recv.index_of(number) {
            Some(index) => {
                if !self.recv.awaits(index) {
                    StateRow::Outside
                } else if self.recv.keeps(index) {
                    StateRow::Duplicate
                } else {
                    StateRow::Data(index)
                }
            }
            None => StateRow::Outside,
        }
    }
}

// Whether the packet has a list that is none.
fn is_bad_list(head: RdpHead, bytes: &[u8]) -> bool
    ensures { result ≡ is_bad_list head bytes.now }
{
    head.has(EAK) && is_malformed(bytes)
}

// In CloseWait only a reset counts.
fn close_wait_row(head: RdpHead) -> StateRow
    ensures { result ≡ close_wait_row head }
{
    if head.has(RST) {
        StateRow::Ended
    } else {
        StateRow::Stray
    }
}
