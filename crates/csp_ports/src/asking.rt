//! What applications ask of their node's ports, and what the pushes of answers come to.

ghost use Rattle.std.specs.Prelude.{◌≡◌, ◌+◌, ◌<◌, ◌≤◌, ℕ, [], ◌++◌, length, None, Some};
ghost use Rattle.csp_conn.specs.PlainConns.{IsThere, slot_at};
ghost use Rattle.csp_conn.specs.Slots.{is_free};
ghost use Rattle.csp_deck.specs.Carried.{IsReply};
ghost use Rattle.csp_ports.specs.Asking.{answered, asking, bind, close, connect, ending_in, freed_by, held_by, is_reliable};
ghost use Rattle.csp_deck.specs.Keeping.{with_contents};
ghost use Rattle.csp_deck.specs.Regions.{nowhere};
ghost use Rattle.csp_log.specs.declared.event.TheConstants.{MAX_EVENTS};
ghost use Rattle.csp_ports.specs.Came.{Comes, at_work, pictures};
ghost use Rattle.csp_ports.specs.Counts.{IsCountable};
ghost use Rattle.csp_ports.specs.Keeps.{Keeps, at_hand};
ghost use Rattle.csp_ports.specs.Kept.{IsHoused, IsRoomy};
ghost use Rattle.csp_ports.specs.PlainPorts.{has_machine, machine_at, waiting, with_ports_at};
ghost use Rattle.csp_ports.specs.Steps.{stepped, where_machine};
ghost use Rattle.csp_rdp.specs.Holding.{rdp_numbers, rested, unneeded};
ghost use Rattle.csp_rdp.specs.Jobs.{closing};
ghost use Rattle.csp_rdp.specs.Placed.{placed};

use crate::flows::OwnFlows;
use crate::handing::start_of;
use crate::owed::Owed;
use crate::ports::Ports;
use crate::request::Request;
use crate::steps::let_go;
use crate::terms::Wish;
use csp_base::{Port, Seat};
use csp_conn::{OpenError, place};
use csp_deck::{Event, Events, Note, Pile, Why};
use csp_rdp::{Rdp, State, conserves, keeps_region, keeps_rest, keeps_whole, sees_no_region};
use csp_rdp_header::MAX_WINDOW;
use csp_socket::BindError;

/// The flag of the reliable transport (RDP).
const RELIABLE: u8 = 0x02;

/// Whether these flags are those of the reliable transport.
pub(crate) fn is_reliable(flags: u8) -> bool
    ensures { result ≡ is_reliable flags }
{
    flags & RELIABLE == RELIABLE
}

/// Why a port was not bound, as an answer says it.
fn why_unbound(error: BindError) -> Why
    ensures not_bindable { error ≡ BindError.NotBindable → result ≡ Why.NotBindable }
    ensures in_use { (owner : ℕ) → error ≡ BindError.InUse owner → result ≡ Why.InUse }
{
    match error {
        BindError::NotBindable => Why::NotBindable,
        BindError::InUse { owner: _ } => Why::InUse,
    }
}

/// Why a connection was not made, as an answer says it.
fn why_unopened(error: OpenError) -> Why
    ensures busy { error ≡ OpenError.Busy → result ≡ Why.Busy }
    ensures port_busy { error ≡ OpenError.PortBusy → result ≡ Why.PortBusy }
{
    match error {
        OpenError::Busy => Why::Busy,
        OpenError::PortBusy => Why::PortBusy,
    }
}

impl Ports {
    /// Binds a port for an application, where packets need these flags.
    pub fn bind(&mut self, app: u8, port: Port, need: u8)
        requires app { app < self.old.ports.conns.apps }
        requires first { waiting app self.old.ports.owed ≡ 0 }
        ensures ports { self.new ≡ with_ports_at self.old (bind self.old.ports app port need) }
        ensures apps { self.new.ports.conns.apps ≡ self.old.ports.conns.apps }
        ensures keeps { Keeps 0 (at_hand self.old.ports []) (at_hand self.new.ports []) [] }
    {
        match self.sockets.bind(app, port, need) {
            Ok(()) => self.owe(app, Note::Bound),
            Err(error) => {
                let why = why_unbound(error);
                self.owe(app, Note::Refused { why });
            }
        }
    }

    /// Makes a connection that an application asks for, or refuses it.
    pub fn connect(
        &mut self,
        flows: OwnFlows,
        request: Request,
        now: u64,
        trash: &mut Pile,
        report: &mut Events,
    )
        requires there { IsThere self.old.ports.conns request.seat }
        requires first { waiting request.seat.app self.old.ports.owed ≡ 0 }
        requires countable { IsCountable self.old.ports }
        requires roomy { IsRoomy 0 self.old trash.old }
        requires low { 1 ≤ flows.options.window }
        requires high { flows.options.window ≤ MAX_WINDOW }
        requires report { length report.old.items < MAX_EVENTS }
        ensures comes { Comes (at_work self.old trash.old report.old.items) (at_work self.new trash.new report.new.items) (connect flows self.old.ports request now) }
        ensures apps { self.new.ports.conns.apps ≡ self.old.ports.conns.apps }
        ensures keeps { Keeps 1 (at_hand self.old.ports trash.old.contents) (at_hand self.new.ports trash.new.contents) [] }
    {
        let seat = request.seat;
        match self
            .conns
            .open(seat, request.dest, request.port, request.from)
        {
            Ok(_) if is_reliable(request.flags) => {
                self.begin(seat, request.prio, request.flags, Wish::Connection);
                self.ask(flows, seat, now, trash);
            }
            Ok(_) => {
                self.begin(seat, request.prio, request.flags, Wish::Nothing);
                let Seat { app, slot } = seat;
                self.owe(app, Note::Connected { slot });
                report.push(Event::Opened {
                    app,
                    slot,
                    nth: None,
                    peer: None,
                });
            }
            Err(error) => {
                let why = why_unopened(error);
                self.owe(seat.app, Note::Refused { why });
            }
        }
    }

    /// The machine of a slot asks for a reliable connection.
    fn ask(&mut self, flows: OwnFlows, seat: Seat, now: u64, trash: &mut Pile)
        requires there { IsThere self.old.ports.conns seat }
        requires countable { IsCountable self.old.ports }
        requires roomy { IsRoomy 0 self.old trash.old }
        requires low { 1 ≤ flows.options.window }
        requires high { flows.options.window ≤ MAX_WINDOW }
        ensures comes { Comes (at_work self.old trash.old []) (at_work self.new trash.new []) (asking flows seat now self.old.ports) }
        ensures apps { self.new.ports.conns.apps ≡ self.old.ports.conns.apps }
    {
        keeps_region();
        keeps_rest();
        keeps_whole();
        let nth = self.made;
        let start = start_of(flows.seed, nth);
        let machine = Rdp::connect(start, flows.options, flows.node, nth, now);
        self.made += 1;
        self.replace(seat, Some(machine), trash);
    }

    /// Ends a slot that an application asks to be closed.
    pub fn close(&mut self, seat: Seat, now: u64, trash: &mut Pile)
        requires there { IsThere self.old.ports.conns seat }
        requires first { waiting seat.app self.old.ports.owed ≡ 0 }
        requires roomy { IsRoomy 0 self.old trash.old }
        ensures comes { Comes (at_work self.old trash.old []) (at_work self.new trash.new []) (close self.old.ports seat now) }
        ensures apps { self.new.ports.conns.apps ≡ self.old.ports.conns.apps }
        ensures keeps { Keeps 0 (at_hand self.old.ports trash.old.contents) (at_hand self.new.ports trash.new.contents) [] }
    {
        self.whole();
        if self.terms(seat).wish.is_closing() {
            return;
        }
        self.hold_free(seat);
        let state = self.close_machine(seat, now, trash);
        self.end_in(state, seat);
    }

    /// A slot that is free is held by its close.
    fn hold_free(&mut self, seat: Seat)
        requires there { IsThere self.old.ports.conns seat }
        ensures { self.new ≡ with_ports_at self.old (held_by (is_free (slot_at self.old.ports.conns seat)) self.old.ports seat) }
    {
        if self.conns.slot(seat).is_free() {
            self.conns.hold(seat);
        }
    }

    /// The machine of a slot closes. Its state then.
    fn close_machine(&mut self, seat: Seat, now: u64, trash: &mut Pile) -> State
        requires there { IsThere self.old.ports.conns seat }
        requires roomy { IsRoomy 0 self.old trash.old }
        ensures comes { Comes (at_work self.old trash.old []) (at_work self.new trash.new []) (where_machine (has_machine self.old.ports seat) (stepped seat (closing now (machine_at self.old.ports seat))) self.old.ports) }
        ensures state { result ≡ (closing now (machine_at self.old.ports seat)).state }
    {
        let Some(machine) = &mut self.slots[place(seat)].machine else {
            return State::Closed;
        };
        close(machine, now, trash)
    }

    /// The answer to a close is owed at once, or still to come, by the state of the slot's machine after it.
    fn end_in(&mut self, state: State, seat: Seat)
        requires there { IsThere self.old.ports.conns seat }
        requires first { waiting seat.app self.old.ports.owed ≡ 0 }
        ensures { self.new ≡ with_ports_at self.old (ending_in state seat self.old.ports) }
    {
        let mut terms = self.terms(seat);
        match state {
            State::Closed => {
                terms.wish = Wish::Ended;
                self.set_terms(seat, terms);
                self.owe(seat.app, Note::Closed { slot: seat.slot });
            }
            State::SynSent | State::SynRcvd | State::Open | State::CloseWait => {
                terms.wish = Wish::End;
                self.set_terms(seat, terms);
            }
        }
    }

    /// The answer that was owed first is pushed.
    pub fn answer(&mut self, trash: &mut Pile)
        requires countable { IsCountable self.old.ports }
        requires roomy { IsRoomy 0 self.old trash.old }
        ensures comes { Comes (at_work self.old trash.old []) (at_work self.new trash.new []) (answered self.old.ports) }
        ensures apps { self.new.ports.conns.apps ≡ self.old.ports.conns.apps }
        ensures keeps { Keeps 1 (at_hand self.old.ports trash.old.contents) (at_hand self.new.ports trash.new.contents) [] }
    {
        if let Some(Owed { app, note }) = self.owed.pop_front() {
            self.free_by(app, note, trash);
        }
    }

    /// What an answer does when it is pushed.
    fn free_by(&mut self, app: u8, note: Note, trash: &mut Pile)
        requires app { app < self.old.ports.conns.apps }
        requires reply { IsReply note }
        requires countable { IsCountable self.old.ports }
        requires roomy { IsRoomy 0 self.old trash.old }
        ensures comes { Comes (at_work self.old trash.old []) (at_work self.new trash.new []) (freed_by note app self.old.ports) }
        ensures apps { self.new.ports.conns.apps ≡ self.old.ports.conns.apps }
    {
        match note {
            Note::Closed { slot } => {
                let seat = Seat { app, slot };
                let terms = self.terms(seat);
                self.free_as(seat, terms.ordinal + 1, trash);
            }
            Note::Bound | Note::Connected { .. } | Note::Refused { .. } | Note::Down { .. } => {}
            Note::Bind { .. } | Note::Connect { .. } | Note::Close { .. } => {}
        }
    }
}

/// The machine of a slot that an application closes. Its state then.
fn close(machine: &mut Rdp, now: u64, trash: &mut Pile) -> State
    requires housed { IsHoused trash.old.region machine.old }
    requires room { length trash.old.contents + length (rdp_numbers machine.old) ≤ trash.old.room }
    ensures machine { placed nowhere machine.new ≡ rested (closing now (placed nowhere machine.old)) }
    ensures housed { IsHoused trash.old.region machine.new }
    ensures trash { trash.new ≡ with_contents trash.old (trash.old.contents ++ pictures (unneeded (closing now (placed nowhere machine.old)))) }
    ensures size { length trash.new.contents + length (rdp_numbers machine.new) ≡ length trash.old.contents + length (rdp_numbers machine.old) }
    ensures state { result ≡ (closing now (placed nowhere machine.old)).state }
{
    sees_no_region();
    keeps_region();
    keeps_whole();
    conserves();
    let _change = machine.close(now);
    let_go(machine, trash);
    machine.state()
}
