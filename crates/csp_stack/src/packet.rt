//! A packet from the inbox.

ghost use Rattle.std.specs.Prelude.{◌≡◌, ◌+◌, ◌-◌, ◌≤◌, ◌↔◌, IfOk, IfSome, MatchResult, ⊤, IsTrue, IsSome, Some, length, take};
ghost use Rattle.csp_base.specs.declared.limits.TheConstants.{MAX_PAYLOAD};
ghost use Rattle.csp_crc.specs.Check.{payload_of};
ghost use Rattle.csp_service.specs.Services.{service_at};
ghost use Rattle.std.specs.Option.{option_map};
ghost use Rattle.csp_rdp_header.specs.Head.{parted};
ghost use Rattle.csp_stack.specs.Comes.{arrival_of, beheaded, cut_to};
ghost use Rattle.csp_stack.specs.Rules.{answer_flags, arrival, connection_of};

use bitflags::Flags;
use csp_base::Addr;
use csp_buffer::Buffer;
use csp_conn::Connection;
use csp_crc::check;
use csp_header::{FlagSet, Header};
use csp_rdp_header::{HEAD_LEN, RdpHead};
use csp_service::Service;

/// The bytes of a checksum, at the end of a payload.
const CHECKSUM: usize = 4;

/// The flags that a connection made by a packet takes over from it: a checksum, the reliable transport.
const ANSWER_FLAGS: u8 = FlagSet::CRC32.0 | FlagSet::RDP.0;

/// A packet with the mark with which it came, and its header, which is read once.
pub struct Packet {
    pub mark: u8,
    pub header: Header,
    pub buffer: Buffer,
}

impl Packet {
    /// A packet from the inbox, with its header read.
    pub fn of(mark: u8, buffer: Buffer) -> Packet
        ensures packet { arrival_of result ≡ arrival mark buffer.picture }
        ensures region { result.buffer.region ≡ buffer.region }
    {
        let header = Header::decode(buffer.header());
        Packet {
            mark,
            header,
            buffer,
        }
    }

    /// The node that it is for.
    pub fn destination(&self) -> Addr
        ensures { result ≡ self.now.header.dst }
    {
        self.header.dst
    }

    /// The service that has the port that it came to, if one has.
    pub fn service(&self) -> Option<Service>
        ensures { result ≡ service_at self.now.header.dport }
    {
        Service::at(self.header.dport)
    }

    /// Its connection: with the node and the port that it came from, by the port that it came to.
    pub fn connection(&self) -> Connection
        ensures { result ≡ connection_of self.now.header }
    {
        Connection {
            peer: self.header.src,
            peer_port: self.header.sport,
            own_port: self.header.dport,
        }
    }

    /// Those of its flags with which the connection that it opens sends.
    pub fn answer_flags(&self) -> u8
        ensures { result ≡ answer_flags self.now.header }
    {
        self.header.flags.bits() & ANSWER_FLAGS
    }

    /// Its buffer.
    pub fn into_buffer(self) -> Buffer
        ensures { result ≡ self.buffer }
    {
        let Packet {
            mark: _,
            header: _,
            buffer,
        } = self;
        buffer
    }

    /// Its head of the reliable transport, and its buffer without that, or the buffer as it is where it is
    /// too short for one.
    pub fn without_head(self) -> Result<(RdpHead, Buffer), Buffer>
        ensures value { result ≡ beheaded (parted self.buffer.picture.payload) self.buffer }
        ensures number { MatchResult result (λ read. read.1.picture.number ≡ self.buffer.picture.number) (λ buffer. buffer ≡ self.buffer) }
        ensures region { MatchResult result (λ read. read.1.region ≡ self.buffer.region) (λ _. ⊤) }
    {
        let mut buffer = self.into_buffer();
        match read_head(buffer.payload()) {
            Some(head) if buffer.cut_tail(HEAD_LEN).is_ok() => Ok((head, buffer)),
            _ => Err(buffer),
        }
    }

    /// Cuts the checksum off its payload, or gives it back as it is where that is missing or wrong.
    pub fn without_checksum(mut self) -> Result<Packet, Packet>
        ensures value { result ≡ cut_to (payload_of self.buffer.picture.payload) self }
        ensures number { MatchResult result (λ p. p.buffer.picture.number ≡ self.buffer.picture.number) (λ p. p ≡ self) }
        ensures room { IfOk result (λ p. length p.buffer.picture.payload + CHECKSUM ≤ MAX_PAYLOAD) }
    {
        if has_checksum(self.buffer.payload()) && self.buffer.cut_tail(CHECKSUM).is_ok() {
            return Ok(self);
        }
        Err(self)
    }
}

/// Whether a payload ends with the checksum of what stands before it.
#[tactic(auto, unfolding(csp_crc::specs::Check::payload_of))]
fn has_checksum(payload: &[u8]) -> bool
    ensures is { IsTrue result ↔ IsSome (payload_of payload.now) }
    ensures cut { IsTrue result → (CHECKSUM ≤ length payload.now) × (payload_of payload.now ≡ Some (take (length payload.now - CHECKSUM) payload.now)) }
{
    check(payload).is_ok()
}

/// The head at the end of a payload, where it is long enough for one.
fn read_head(payload: &[u8]) -> Option<RdpHead>
    ensures value { result ≡ option_map (λ read. read.1) (parted payload.now) }
    ensures cut { IfSome (parted payload.now) (λ read. read.0 ≡ take (length payload.now - HEAD_LEN) payload.now) }
    ensures fits { IfSome result (λ _. HEAD_LEN ≤ length payload.now) }
{
    match RdpHead::decode(payload) {
        Ok((_, head)) => Some(head),
        Err(_) => None,
    }
}
