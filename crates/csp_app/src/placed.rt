//! The steps of a script as it keeps them.

ghost use Rattle.std.specs.Prelude.{◌≡◌, ◌+◌, ◌≤◌, [], List, ℕ, length};
ghost use Rattle.csp_app.specs.PlainStep.{bytes_of};
ghost use Rattle.csp_app.specs.Placing.{plain_step, part, placed_step, IsWithin};
ghost use Rattle.csp_app.specs.Collecting.{collects_on};
ghost use Rattle.csp_app.specs.Room.{is_take};

use crate::step::Step;
use csp_base::{Addr, Port, Prio};

/// Where the bytes of a step's packet stand in the list of a script.
#[derive(Clone, Copy)]
pub struct Place {
    pub first: usize,
    pub len: u16,
}

impl Place {
    /// The bytes at this place.
    fn of(self, bytes: &[u8]) -> &[u8]
        requires { self.first + self.len ≤ length bytes.now }
        ensures { result.now ≡ part bytes.now self }
    {
        &bytes[self.first..self.first + usize::from(self.len)]
    }
}

/// A step as a script keeps it: as `Step`, its packet's bytes named by their place.
#[derive(Clone, Copy)]
pub enum Placed {
    Take,
    Give,
    Bind {
        port: Port,
        need: u8,
    },
    Connect {
        slot: u8,
        dest: Addr,
        port: Port,
        prio: Prio,
        flags: u8,
        from: Option<Port>,
    },
    Send {
        slot: u8,
        place: Place,
    },
    Burst {
        slot: u8,
        count: u32,
        len: u16,
    },
    Blob {
        slot: u8,
        len: u32,
        size: u16,
    },
    Raw {
        header: u32,
        place: Place,
    },
    Recv {
        slot: u8,
        count: u32,
        rounds: Option<u32>,
    },
    Collect {
        slot: u8,
        count: u32,
        rounds: Option<u32>,
    },
    Close {
        slot: u8,
    },
    Wait {
        rounds: u32,
    },
}

impl Placed {
    /// This step, whose packet's bytes stand at this place.
    pub fn of(step: &Step<'_>, place: Place) -> Placed
        ensures value { (bytes : List ℕ) → part bytes place ≡ bytes_of (plain_step step.now) → placed_step bytes result ≡ plain_step step.now }
        ensures within { (bytes : List ℕ) → place.first + place.len ≤ length bytes → IsWithin bytes result }
    {
        match *step {
            Step::Take => Placed::Take,
            Step::Give => Placed::Give,
            Step::Bind { port, need } => Placed::Bind { port, need },
            Step::Connect {
                slot,
                dest,
                port,
                prio,
                flags,
                from,
            } => Placed::Connect {
                slot,
                dest,
                port,
                prio,
                flags,
                from,
            },
            Step::Send { slot, .. } => Placed::Send { slot, place },
            Step::Burst { slot, count, len } => Placed::Burst { slot, count, len },
            Step::Blob { slot, len, size } => Placed::Blob { slot, len, size },
            Step::Raw { header, .. } => Placed::Raw { header, place },
            Step::Recv {
                slot,
                count,
                rounds,
            } => Placed::Recv {
                slot,
                count,
                rounds,
            },
            Step::Collect {
                slot,
                count,
                rounds,
            } => Placed::Collect {
                slot,
                count,
                rounds,
            },
            Step::Close { slot } => Placed::Close { slot },
            Step::Wait { rounds } => Placed::Wait { rounds },
        }
    }

    /// Whether it takes a buffer to hold.
    pub fn is_take(&self) -> bool
        ensures { result ≡ is_take (placed_step [] self.now) }
    {
        match self {
            Placed::Take => true,
            Placed::Give
            | Placed::Bind { .. }
            | Placed::Connect { .. }
            | Placed::Send { .. }
            | Placed::Burst { .. }
            | Placed::Blob { .. }
            | Placed::Raw { .. }
            | Placed::Recv { .. }
            | Placed::Collect { .. }
            | Placed::Close { .. }
            | Placed::Wait { .. } => false,
        }
    }

    /// Whether it collects the blobs of this slot.
    pub fn collects_on(&self, number: u8) -> bool
        ensures { result ≡ collects_on number (placed_step [] self.now) }
    {
        match self {
            Placed::Collect { slot, .. } => *slot == number,
            Placed::Take
            | Placed::Give
            | Placed::Bind { .. }
            | Placed::Connect { .. }
            | Placed::Send { .. }
            | Placed::Burst { .. }
            | Placed::Blob { .. }
            | Placed::Raw { .. }
            | Placed::Recv { .. }
            | Placed::Close { .. }
            | Placed::Wait { .. } => false,
        }
    }

    /// The step itself, its packet's bytes read in this list.
    #[inline(always)]
    pub fn read<'a>(&self, bytes: &'a [u8]) -> Step<'a>
        requires { IsWithin bytes.now self.now }
        ensures { plain_step result ≡ placed_step bytes.now self.now }
    {
        match *self {
            Placed::Take => Step::Take,
            Placed::Give => Step::Give,
            Placed::Bind { port, need } => Step::Bind { port, need },
            Placed::Connect {
                slot,
                dest,
                port,
                prio,
                flags,
                from,
            } => Step::Connect {
                slot,
                dest,
                port,
                prio,
                flags,
                from,
            },
            Placed::Send { slot, place } => Step::Send {
                slot,
                bytes: place.of(bytes),
            },
            Placed::Burst { slot, count, len } => Step::Burst { slot, count, len },
            Placed::Blob { slot, len, size } => Step::Blob { slot, len, size },
            Placed::Raw { header, place } => Step::Raw {
                header,
                bytes: place.of(bytes),
            },
            Placed::Recv {
                slot,
                count,
                rounds,
            } => Step::Recv {
                slot,
                count,
                rounds,
            },
            Placed::Collect {
                slot,
                count,
                rounds,
            } => Step::Collect {
                slot,
                count,
                rounds,
            },
            Placed::Close { slot } => Step::Close { slot },
            Placed::Wait { rounds } => Step::Wait { rounds },
        }
    }
}
