//! A trace in few bytes, since a buffer is handed on by value, and logs keep many.

ghost use Rattle.std.specs.Prelude.{◌≡◌, IfSome};
ghost use Rattle.std.specs.Option.{is_some};
ghost use Rattle.csp_buffer.specs.Trails.{full_of, is_brief, parts_of, trace_of};

use csp_base::{Origin, Tag, Trace};

/// Which parts a trace has besides its hops.
#[derive(Clone, Copy)]
pub(crate) enum Parts {
    Neither,
    Origin,
    Tag,
    Both,
}

/// A trace whose parts lie side by side. `trace_of` of it is the trace.
#[derive(Clone, Copy)]
pub struct Trail {
    serial: u64,
    hops: u64,
    index: u64,
    ack: u64,
    nth: u32,
    node: u8,
    iface: u8,
    owner: u8,
    parts: Parts,
}

/// A trail whose numbers are all of 32 bits, in fewer bytes.
#[derive(Clone, Copy)]
pub struct BriefTrail {
    serial: u32,
    hops: u32,
    index: u32,
    ack: u32,
    nth: u32,
    node: u8,
    iface: u8,
    owner: u8,
    parts: Parts,
}

impl Trail {
    /// That of a trace.
    pub fn of(trace: Trace) -> Trail
        ensures { trace_of result ≡ trace }
    {
        let Trace { origin, hops, tag } = trace;
        let parts = which(origin, tag);
        let origin = origin.unwrap_or(Origin {
            node: 0,
            iface: 0,
            serial: 0,
        });
        let tag = tag.unwrap_or(Tag {
            node: 0,
            nth: 0,
            index: 0,
            ack: 0,
        });
        Trail {
            serial: origin.serial,
            hops,
            index: tag.index,
            ack: tag.ack,
            nth: tag.nth,
            node: origin.node,
            iface: origin.iface,
            owner: tag.node,
            parts,
        }
    }

    /// The trace.
    pub fn trace(&self) -> Trace
        ensures { result ≡ trace_of self.now }
    {
        let origin = Origin {
            node: self.node,
            iface: self.iface,
            serial: self.serial,
        };
        let tag = Tag {
            node: self.owner,
            nth: self.nth,
            index: self.index,
            ack: self.ack,
        };
        let hops = self.hops;
        match self.parts {
            Parts::Neither => made(None, hops, None),
            Parts::Origin => made(Some(origin), hops, None),
            Parts::Tag => made(None, hops, Some(tag)),
            Parts::Both => made(Some(origin), hops, Some(tag)),
        }
    }

    /// The same trail in fewer bytes; `None` where one of its numbers is of more than 32 bits.
    #[inline(always)]
    pub fn brief(&self) -> Option<BriefTrail>
        ensures same { IfSome result (λ b. full_of b ≡ self.now) }
        ensures small { is_some result ≡ is_brief self.now }
    {
        if !self.is_brief() {
            return None;
        }
        Some(BriefTrail {
            serial: self.serial as u32,
            hops: self.hops as u32,
            index: self.index as u32,
            ack: self.ack as u32,
            nth: self.nth,
            node: self.node,
            iface: self.iface,
            owner: self.owner,
            parts: self.parts,
        })
    }

    /// Whether its numbers are all of 32 bits.
    #[inline(always)]
    fn is_brief(&self) -> bool
        ensures { result ≡ is_brief self.now }
    {
        let most = u64::from(u32::MAX);
        self.serial <= most && self.hops <= most && self.index <= most && self.ack <= most
    }
}

impl BriefTrail {
    /// The same trail, at its full size.
    #[inline(always)]
    pub fn full(&self) -> Trail
        ensures { result ≡ full_of self.now }
    {
        Trail {
            serial: u64::from(self.serial),
            hops: u64::from(self.hops),
            index: u64::from(self.index),
            ack: u64::from(self.ack),
            nth: self.nth,
            node: self.node,
            iface: self.iface,
            owner: self.owner,
            parts: self.parts,
        }
    }
}

fn made(origin: Option<Origin>, hops: u64, tag: Option<Tag>) -> Trace
    ensures { result ≡ record { origin = origin; hops = hops; tag = tag } }
{
    Trace { origin, hops, tag }
}

fn which(origin: Option<Origin>, tag: Option<Tag>) -> Parts
    ensures { result ≡ parts_of origin tag }
{
    match (origin, tag) {
        (None, None) => Parts::Neither,
        (Some(_), None) => Parts::Origin,
        (None, Some(_)) => Parts::Tag,
        (Some(_), Some(_)) => Parts::Both,
    }
}
