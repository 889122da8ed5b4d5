//! What a node keeps of its ports.

ghost use Rattle.std.specs.Prelude.{◌≡◌, ◌+◌, ◌*◌, ◌<◌, ◌≤◌, ℕ, None, Some, IfOk, IfSome, [], length, slice_get, replicate, vec_capacity};
ghost use Rattle.std.specs.List.{All};
ghost use Rattle.std.specs.Option.{option_map};
ghost use Rattle.std.specs.VecDeque.{deque_capacity};
ghost use Rattle.csp_conn.specs.Opening.{found};
ghost use Rattle.csp_conn.specs.PlainConns.{IsThere, slot_at};
ghost use Rattle.csp_deck.specs.Carried.{IsReply};
ghost use Rattle.csp_ports.specs.Counts.{AreFar};
ghost use Rattle.csp_ports.specs.Held.{held};
ghost use Rattle.csp_ports.specs.Keeps.{AreWhole};
ghost use Rattle.csp_ports.specs.Kept.{IsOwed, wished, wishes};
ghost use Rattle.csp_ports.specs.PlainPorts.{machine_at, owing, ports_of, stalls, stalls_of, state_at, terms_at, terms_of, untouched, waiting, with_ports_at, with_terms};
ghost use Rattle.csp_deck.specs.Regions.{nowhere};
ghost use Rattle.csp_rdp.specs.Placed.{placed};
ghost use Rattle.csp_socket.specs.Bound.{owner_of};

use crate::owed::Owed;
use crate::terms::{SlotState, Terms};
use csp_arena::RegionToken;
use csp_base::{ALL_SLOTS, MAX_APPS, Port, SLOTS, Seat};
use csp_conn::{Connection, Conns, Slot, place};
use csp_deck::Note;
use csp_rdp::{Rdp, State};
use csp_socket::Sockets;
use std::alloc::{AllocError, Global};
use std::collections::VecDeque;
use std::marker::Model;

/// The most answers of an application that are owed or still to come: one for each slot, and one more,
/// since nothing is taken from an application while an answer to it waits.
pub const ANSWERS: usize = 5;

const _: () = prove!(ANSWERS == SLOTS + 1);

/// The most answers that are owed at a time.
pub const MAX_OWED: usize = 20;

const _: () = prove!(MAX_OWED == MAX_APPS * ANSWERS);

/// The ports of a node. Contracts see them as `PlainPorts`, and the region that their buffers are of.
///
/// They take no memory but at their opening. They are ended when they hold no buffer.
pub struct Ports {
    pub(crate) token: RegionToken,
    pub(crate) apps: u8,
    pub(crate) conns: Conns,
    pub(crate) slots: Vec<SlotState>,
    pub(crate) sockets: Sockets,
    pub(crate) owed: VecDeque<Owed>,
    pub(crate) next: usize,
    pub(crate) made: u32,
}

impl Model for Ports {
    ghost use Rattle.csp_ports.specs.PlainPorts.{PortsAt};

    ghost Value = { PortsAt };

    ghost use Rattle.csp_ports.specs.Kept.{ArePorts, ports_at};

    ghost view = { ports_at };

    ghost invariant = { ArePorts };
}

impl Ports {
    /// The ports of so many applications before any of them has asked for something. The buffers that
    /// they will hold are to be of this region.
    ///
    /// # Errors
    /// Want of memory for the answers and the slots.
    pub fn open(alloc: Global, apps: u8, region: RegionToken) -> Result<Ports, AllocError>
        requires { apps ≤ MAX_APPS }
        ensures { IfOk result (λ p. p ≡ record { region = region.name; ports = ports_of apps }) }
    {
        let owed = open_owed(alloc)?;
        let slots = open_slots(alloc)?;
        Ok(Ports {
            token: region,
            apps,
            conns: Conns::new(apps),
            slots,
            sockets: Sockets::new(),
            owed,
            next: 0,
            made: 0,
        })
    }

    /// What a slot has.
    pub fn slot(&self, seat: Seat) -> Slot
        requires { IsThere self.now.ports.conns seat }
        ensures { result ≡ slot_at self.now.ports.conns seat }
    {
        self.conns.slot(seat)
    }

    /// How a slot's packets are sent, and how far the slot has come.
    pub fn terms(&self, seat: Seat) -> Terms
        requires { IsThere self.now.ports.conns seat }
        ensures value { result ≡ terms_at self.now.ports seat }

        // With those still to come an application has no more answers than it may have.
        ensures due { (a : ℕ) → waiting a self.now.ports.owed + wishes a (terms_of self.now.ports) ≤ ANSWERS }
    {
        self.slots[place(seat)].terms
    }

    /// The machine of a slot's reliable connection, where the slot has one.
    pub fn machine(&self, seat: Seat) -> Option<&Rdp>
        requires { IsThere self.now.ports.conns seat }
        ensures { option_map (λ r. placed nowhere r.now) result ≡ (state_at self.now.ports seat).machine }
    {
        self.slots[place(seat)].machine.as_ref()
    }

    /// The state of a slot's reliable connection: without one it is closed.
    pub(crate) fn state(&self, seat: Seat) -> State
        requires { IsThere self.now.ports.conns seat }
        ensures { result ≡ (machine_at self.now.ports seat).state }
    {
        self.slots[place(seat)].state()
    }

    /// The seat that has this connection.
    pub fn find(&self, connection: Connection) -> Option<Seat>
        ensures value { result ≡ found self.now.ports.conns connection }
        ensures there { IfSome result (λ seat. IsThere self.now.ports.conns seat) }
    {
        self.conns.find(connection)
    }

    /// The application that bound a port, and the flags that a packet needs there.
    pub fn owner(&self, port: Port) -> Option<(u8, u8)>
        ensures value { result ≡ owner_of self.now.ports.bound port }
        ensures there { IfSome result (λ o. o.0 < self.now.ports.conns.apps) }
    {
        self.sockets.owner(port)
    }

    /// How many answers wait to be pushed to an application.
    pub fn waiting(&self, app: u8) -> usize
        ensures { result ≡ waiting app self.now.ports.owed }
    {
        self.owed.iter().filter(|owed| owed.app == app).count()
    }

    /// How many packets of an application wait for room.
    pub fn stalled(&self, app: u8) -> usize
        requires { app < self.now.ports.conns.apps }
        ensures { result ≡ stalls_of app self.now.ports.slots }
    {
        let slots = self.slots.as_slice();
        let first = place(Seat { app, slot: 0 });
        let slots = &slots[first..first + SLOTS];
        slots.iter().filter(|slot| slot.stalled.is_some()).count()
    }

    /// The answer that is to be pushed first.
    pub fn first_owed(&self) -> Option<Owed>
        ensures value { result ≡ slice_get self.now.ports.owed 0 }
        ensures owed { IfSome result (λ o. IsOwed self.now.ports.conns.apps o) }
    {
        self.owed.front().copied()
    }

    /// Each machine of a slot is whole, and no more packets wait than there may be applications.
    pub(crate) fn whole(&self)
        ensures machines { AreWhole self.now.ports }
        ensures waits { stalls self.now.ports.slots ≤ MAX_APPS }
    {
        // Read for the checker alone, which then knows what is true of all ports.
        let _slots = &self.slots;
    }

    /// An answer is owed to an application, which has fewer than it may have.
    pub(crate) fn owe(&mut self, app: u8, note: Note)
        requires app { app < self.old.ports.conns.apps }
        requires reply { IsReply note }
        requires room { waiting app self.old.ports.owed + wishes app (terms_of self.old.ports) < ANSWERS }
        ensures { self.new ≡ with_ports_at self.old (owing self.old.ports app note) }
    {
        self.owed.push_back_reserved(Owed { app, note });
    }

    /// Other terms for a slot, with no more answers still to come.
    pub(crate) fn set_terms(&mut self, seat: Seat, terms: Terms)
        requires there { IsThere self.old.ports.conns seat }
        requires due { (waiting seat.app self.old.ports.owed + wishes seat.app (terms_of self.old.ports)) + wished terms.wish ≤ ANSWERS + wished (terms_at self.old.ports seat).wish }
        ensures ports { self.new ≡ with_ports_at self.old (with_terms self.old.ports seat terms) }
        ensures wishes { wishes seat.app (terms_of self.new.ports) + wished (terms_at self.old.ports seat).wish ≡ wishes seat.app (terms_of self.old.ports) + wished terms.wish }
        ensures held { held self.new.ports ≡ held self.old.ports }
        ensures far { (n : ℕ) → AreFar n self.old.ports → terms.ordinal ≤ n → AreFar n self.new.ports }
    {
        self.slots[place(seat)].terms = terms;
    }
}

/// Room for all answers that may be owed, and no more.
fn open_owed(alloc: Global) -> Result<VecDeque<Owed>, AllocError>
    ensures none { IfOk result (λ owed. owed.items ≡ []) }
    ensures room { IfOk result (λ owed. deque_capacity owed ≡ MAX_OWED) }
{
    VecDeque::with_capacity(alloc, MAX_OWED)
}

/// All slots before their first connection, and no room for more.
fn open_slots(alloc: Global) -> Result<Vec<SlotState>, AllocError>
    ensures slots { IfOk result (λ slots. slots.items ≡ replicate ALL_SLOTS untouched) }
    ensures room { IfOk result (λ slots. vec_capacity slots ≡ ALL_SLOTS) }
{
    let mut slots = Vec::with_capacity(alloc, ALL_SLOTS)?;
    for _ in 0..ALL_SLOTS {
        slots.push_reserved(SlotState::untouched());
    }
    Ok(slots)
}
