//! The slots of all applications of a node.

ghost use Rattle.std.specs.Prelude.{◌≡◌, ◌≢◌, ◌↔◌, ◌≤◌, ◌<◌, false, true, None, Some, Ok, Err, IsErr, IfOk, IfSome, OnErr, length};
ghost use Rattle.std.specs.List.{All, list_any, position};
ghost use Rattle.csp_conn.specs.PlainConns.{IsConns, IsThere, conns_of, place_of, slot_at, slots_of, with_slot};
ghost use Rattle.csp_conn.specs.Opening.{first_free, free_seat, found, is_refused, is_taken, next_port, opened, own_port_of};
ghost use Rattle.csp_conn.specs.Slots.{between, is_between, is_free};

use crate::circle::{OWN_PORTS, port_after};
use crate::slot::{Connection, Slot};
use arrayvec::ArrayVec;
use csp_base::{ALL_SLOTS, Addr, FIRST_OWN_PORT, MAX_APPS, Port, SLOTS, Seat};
use std::marker::Model;
use thiserror::Error;

const _: () = prove!(ALL_SLOTS == OWN_PORTS as usize);

/// Why a connection was not opened.
#[derive(Clone, Copy, Debug, Error)]
pub enum OpenError {
    /// The slot is in use.
    #[error("the slot is in use")]
    Busy,
    /// A connection to the same node has the port that was asked for.
    #[error("a connection to that node has the port")]
    PortBusy,
}

/// An application all of whose slots are in use.
#[derive(Clone, Copy, Debug, Error)]
#[error("all slots are in use")]
pub struct NoSlot;

/// The slots of a node's applications.
#[derive(Drop)]
pub struct Conns {
    apps: u8,
    slots: ArrayVec<Slot, ALL_SLOTS>,
    last: Port,
}

impl Model for Conns {
    ghost use Rattle.csp_conn.specs.PlainConns.{IsConns, PlainConns};

    ghost Value = { PlainConns };

    ghost view = { λ c. record { apps = c.apps; slots = c.slots.items; last = c.last } };

    ghost invariant = { λ c. IsConns (record { apps = c.apps; slots = c.slots.items; last = c.last }) };
}

/// The place of a seat among all.
pub fn place(seat: Seat) -> usize
    requires app { seat.app < MAX_APPS }
    requires slot { seat.slot < SLOTS }
    ensures value { result ≡ place_of seat }
    ensures inside { result < ALL_SLOTS }
{
    seat.app as usize * SLOTS + seat.slot as usize
}

// The first of some slots that is free.
fn place_free(slots: &[Slot]) -> Option<usize>
    ensures value { result ≡ position is_free slots.now }
    ensures inside { IfSome result (λ place. place < length slots.now) }
{
    slots.iter().position(|slot| slot.is_free())
}

// The first of some slots that has this connection.
fn place_between(slots: &[Slot], connection: Connection) -> Option<usize>
    ensures value { result ≡ position (is_between connection) slots.now }
    ensures inside { IfSome result (λ place. place < length slots.now) }
{
    slots.iter().position(|slot| slot.is_between(connection))
}

impl Conns {
    /// The slots of so many applications, all free.
    pub fn new(apps: u8) -> Conns
        requires { apps ≤ MAX_APPS }
        ensures { result ≡ conns_of apps }
    {
        let mut slots = ArrayVec::from([Slot::Free; ALL_SLOTS]);
        slots.truncate(apps as usize * SLOTS);
        Conns {
            apps,
            slots,
            last: Port::new(FIRST_OWN_PORT + (OWN_PORTS - 1)).unwrap(),
        }
    }

    /// What a slot has.
    pub fn slot(&self, seat: Seat) -> Slot
        requires { IsThere self.now seat }
        ensures value { result ≡ slot_at self.now seat }
        ensures sound { IsConns self.now }
    {
        let slots = self.slots.as_slice();
        slots[place(seat)]
    }

    /// Opens a connection in a slot, to a port of another node, from this port or from the next one that is not taken.
    /// Answers the own port. What is refused changes nothing.
    pub fn open(
        &mut self,
        seat: Seat,
        dest: Addr,
        port: Port,
        from: Option<Port>,
    ) -> Result<Port, OpenError>
        requires { IsThere self.old seat }
        ensures busy { (result ≡ Err OpenError.Busy) ↔ (slot_at self.old seat ≢ Slot.Free) }
        ensures port_busy { (result ≡ Err OpenError.PortBusy) ↔ ((slot_at self.old seat ≡ Slot.Free) × (is_refused self.old dest from ≡ true)) }
        ensures own_port { IfOk result (λ own. own_port_of self.old dest from ≡ Some own) }
        ensures untaken { IfOk result (λ own. is_taken self.old dest own ≡ false) }
        ensures ok { IfOk result (λ own. self.new ≡ opened self.old seat (between dest port own) from) }
        ensures err { OnErr result (self.new ≡ self.old) }
        ensures apps { self.new.apps ≡ self.old.apps }
    {
        if !self.slot(seat).is_free() {
            return Err(OpenError::Busy);
        }
        let own_port = match from {
            Some(asked) => {
                if self.is_taken(dest, asked) {
                    return Err(OpenError::PortBusy);
                }
                asked
            }
            None => {
                self.last = self.next_port(dest);
                self.last
            }
        };
        let connection = Connection {
            peer: dest,
            peer_port: port,
            own_port,
        };
        self.put(seat, Slot::Open(connection));
        Ok(own_port)
    }

    /// Takes the least free slot of an application for a connection that a packet opens.
    pub fn incoming(&mut self, app: u8, connection: Connection) -> Result<Seat, NoSlot>
        requires { app < self.old.apps }
        ensures full { IsErr result ↔ All (λ slot. slot ≢ Slot.Free) (slots_of self.old app) }
        ensures least { IfOk result (λ seat. free_seat self.old app ≡ Some seat) }
        ensures none { OnErr result (free_seat self.old app ≡ None) }
        ensures ok { IfOk result (λ seat. IsThere self.old seat × (self.new ≡ with_slot self.old seat (Slot.Open connection))) }
        ensures err { OnErr result (self.new ≡ self.old) }
        ensures apps { self.new.apps ≡ self.old.apps }
    {
        let slot = self.first_free(app).ok_or(NoSlot)?;
        let seat = Seat { app, slot };
        self.put(seat, Slot::Open(connection));
        Ok(seat)
    }

    /// The seat that has this connection: the least application, and of its slots the least.
    pub fn find(&self, connection: Connection) -> Option<Seat>
        ensures value { result ≡ found self.now connection }
        ensures there { IfSome result (λ seat. IsThere self.now seat) }
        ensures connection { IfSome result (λ seat. slot_at self.now seat ≡ Slot.Open connection) }
        ensures sound { IsConns self.now }
    {
        match place_between(self.slots.as_slice(), connection) {
            Some(place) => Some(Seat {
                app: (place / SLOTS) as u8,
                slot: (place % SLOTS) as u8,
            }),
            None => None,
        }
    }

    /// Frees a slot, whatever it has.
    pub fn free(&mut self, seat: Seat)
        requires { IsThere self.old seat }
        ensures { self.new ≡ with_slot self.old seat Slot.Free }
    {
        self.put(seat, Slot::Free);
    }

    /// Puts a free slot in use without addresses and ports.
    pub fn hold(&mut self, seat: Seat)
        requires there { IsThere self.old seat }
        requires free { slot_at self.old seat ≡ Slot.Free }
        ensures { self.new ≡ with_slot self.old seat Slot.Held }
    {
        self.put(seat, Slot::Held);
    }

    fn put(&mut self, seat: Seat, what: Slot)
        requires { IsThere self.old seat }
        ensures { self.new ≡ with_slot self.old seat what }
    {
        let slots = self.slots.as_mut_slice();
        slots[place(seat)] = what;
    }

    // Whether a connection in use to this node has this own port.
    fn is_taken(&self, dest: Addr, port: Port) -> bool
        ensures { result ≡ is_taken self.now dest port }
    {
        self.slots.iter().any(|slot| slot.has_port(dest, port))
    }

    // The next own port that no connection in use to this node has. With a free slot at most 15 ports are taken.
    fn next_port(&self, dest: Addr) -> Port
        requires { list_any is_free self.now.slots ≡ true }
        ensures value { next_port self.now dest ≡ Some result }
        ensures untaken { is_taken self.now dest result ≡ false }
        ensures own { FIRST_OWN_PORT ≤ result }
    {
        for steps in 1..OWN_PORTS + 1 {
            let port = port_after(self.last, steps);
            if !self.is_taken(dest, port) {
                return port;
            }
        }
        unreachable!()
    }

    fn first_free(&self, app: u8) -> Option<u8>
        requires { app < self.now.apps }
        ensures { result ≡ first_free self.now app }
    {
        let slots = self.slots.as_slice();
        let first = place(Seat { app, slot: 0 });
        match place_free(&slots[first..first + SLOTS]) {
            Some(slot) => Some(slot as u8),
            None => None,
        }
    }
}
