//! What follows when the machine of a slot's reliable connection has made a step.

ghost use Rattle.std.specs.Prelude.{◌≡◌, not, ◌+◌, ◌-◌, ◌*◌, ◌^◌, ◌<◌, ◌≤◌, ℕ, [], ◌∷◌, ◌++◌, length, None, Some, IfSome};
ghost use Rattle.std.specs.List.{range_with_len};
ghost use Rattle.std.specs.Option.{option_map, option_to_list};
ghost use Rattle.csp_conn.specs.PlainConns.{IsThere};
ghost use Rattle.csp_deck.specs.Keeping.{with_contents};
ghost use Rattle.csp_deck.specs.Regions.{nowhere};
ghost use Rattle.csp_log.specs.declared.event.Discard.TheVariants as why;
ghost use Rattle.csp_log.specs.declared.event.Event.TheVariants as event;
ghost use Rattle.csp_log.specs.declared.event.TheConstants.{MAX_EVENTS};
ghost use Rattle.csp_ports.specs.Came.{Comes, at_work, discarding, pictures};
ghost use Rattle.csp_ports.specs.Held.{held};
ghost use Rattle.csp_ports.specs.Keeps.{Keeps, at_hand};
ghost use Rattle.csp_ports.specs.Kept.{Admits, IsHoused, IsRoomy, IsWaiting, wished, wishes};
ghost use Rattle.csp_ports.specs.PlainPorts.{anywhere, machine_at, stalled_at, stalls, stalls_of, terms_at, terms_of, with_stalled, with_ports_at};
ghost use Rattle.csp_ports.specs.Steps.{admitted, changed, closed, connected, dropped, dropped_in, freed, has_room, reason_of, refused, replaced, settled, timed, timed_at, timed_in};
ghost use Rattle.csp_ports.specs.Counts.{IsCountable};
ghost use Rattle.csp_rdp.specs.Balance.{IsWhole};
ghost use Rattle.csp_rdp.specs.Changes.{change_between};
ghost use Rattle.csp_rdp.specs.Counts.{IsFar};
ghost use Rattle.csp_rdp.specs.Holding.{rdp_buffers, rdp_numbers, rested, unneeded};
ghost use Rattle.csp_rdp.specs.Jobs.{admitting, ticked};
ghost use Rattle.csp_rdp.specs.Placed.{placed};
ghost use Rattle.csp_rdp.specs.Regions.{AreAllIn};
ghost use Rattle.csp_rdp_window.specs.Sending.{is_full};
ghost use Rattle.csp_rdp.specs.declared.answers.Cause.TheVariants as machine_why;

use crate::ports::Ports;
use crate::terms::Wish;
use csp_base::{MAX_APPS, MAX_PAYLOAD, SLOTS, Seat};
use csp_buffer::Buffer;
use csp_conn::place;
use csp_deck::{Discard, Event, Events, Note, Pile, Why};
use csp_rdp::{
    Cause as MachineWhy, Change, Rdp, State, conserves, keeps_region, keeps_rest, keeps_whole,
    numbers, sees_no_region,
};

/// Why a connection that was asked for is refused, as an answer says it.
fn reason_of(why: MachineWhy) -> Why
    ensures { result ≡ reason_of why }
{
    match why {
        MachineWhy::Timeout => Why::Timeout,
        MachineWhy::Reset => Why::Reset,
    }
}

/// What a machine does not need any more joins the trash.
pub(crate) fn let_go(machine: &mut Rdp, trash: &mut Pile)
    requires of_it { AreAllIn trash.old.region machine.old }
    requires whole { IsWhole machine.old }
    requires room { length trash.old.contents + length (unneeded machine.old) ≤ trash.old.room }
    ensures machine { machine.new ≡ rested machine.old }
    ensures housed { IsHoused trash.old.region machine.new }
    ensures trash { trash.new ≡ with_contents trash.old (trash.old.contents ++ pictures (unneeded machine.old)) }
{
    keeps_region();
    keeps_rest();
    keeps_whole();
    while let Some(buffer) = machine.drain() {
        trash.add(buffer);
    }
    // What holds of a machine's buffers is a clause of this reading.
    let _state = machine.state();
}

/// The timer of a machine is tried.
fn tick(machine: &mut Rdp, now: u64, trash: &mut Pile) -> Change
    requires housed { IsHoused trash.old.region machine.old }
    requires room { length trash.old.contents + length (rdp_numbers machine.old) ≤ trash.old.room }
    ensures machine { placed nowhere machine.new ≡ rested (ticked now (placed nowhere machine.old)) }
    ensures housed { IsHoused trash.old.region machine.new }
    ensures trash { trash.new ≡ with_contents trash.old (trash.old.contents ++ pictures (unneeded (ticked now (placed nowhere machine.old)))) }
    ensures size { length trash.new.contents + length (rdp_numbers machine.new) ≡ length trash.old.contents + length (rdp_numbers machine.old) }
    ensures change { result ≡ change_between machine.old.state (ticked now (placed nowhere machine.old)).state machine_why.Timeout }
{
    sees_no_region();
    keeps_region();
    keeps_whole();
    keeps_rest();
    conserves();
    // A closed connection has no timer, and holds nothing that it does not need.
    if machine.state() == State::Closed {
        return Change::None;
    }
    // Nor does one whose timer has not passed.
    if !machine.is_late(now) {
        return Change::None;
    }
    let change = machine.tick(now);
    let_go(machine, trash);
    change
}

/// A packet is admitted where there is room for it, or handed back.
pub(crate) fn admit(machine: &mut Rdp, buffer: Buffer, now: u64) -> Result<(), Buffer>
    requires housed { IsHoused buffer.region machine.old }
    requires short { length buffer.picture.payload ≤ MAX_PAYLOAD - 9 }
    requires countable { IsFar (2 ^ 32 - 2) machine.old }
    ensures admits { Admits (has_room (placed nowhere machine.old)) result buffer (placed nowhere machine.new ≡ admitting (anywhere buffer.picture) now (placed nowhere machine.old)) (placed nowhere machine.new ≡ placed nowhere machine.old) }
    ensures housed { IsHoused buffer.region machine.new }
{
    match machine.state() {
        State::Open => admit_open(machine, buffer, now),
        State::SynSent | State::SynRcvd | State::CloseWait | State::Closed => Err(buffer),
    }
}

/// What a machine still holds joins the trash, and the machine is spent.
fn spend(machine: Rdp, trash: &mut Pile)
    requires of_it { AreAllIn trash.old.region machine }
    requires room { length trash.old.contents + length (rdp_numbers machine) ≤ trash.old.room }
    ensures { trash.new ≡ with_contents trash.old (trash.old.contents ++ pictures (rdp_buffers (placed nowhere machine))) }
{
    sees_no_region();
    keeps_region();
    numbers();
    let mut machine = machine;
    while let Some(buffer) = machine.take_out() {
        trash.add(buffer);
    }
    machine.end();
}

/// A packet is admitted to the window of an open connection, or handed back where that is full.
fn admit_open(machine: &mut Rdp, buffer: Buffer, now: u64) -> Result<(), Buffer>
    requires housed { IsHoused buffer.region machine.old }
    requires open { machine.old.state ≡ State.Open }
    requires short { length buffer.picture.payload ≤ MAX_PAYLOAD - 9 }
    requires countable { IsFar (2 ^ 32 - 2) machine.old }
    ensures admits { Admits (not (is_full machine.old.send)) result buffer (placed nowhere machine.new ≡ admitting (anywhere buffer.picture) now (placed nowhere machine.old)) (placed nowhere machine.new ≡ placed nowhere machine.old) }
    ensures housed { IsHoused buffer.region machine.new }
{
    sees_no_region();
    keeps_region();
    keeps_rest();
    keeps_whole();
    let answer = machine.admit(buffer, now);
    // What holds of a machine's buffers is a clause of this reading.
    let _state = machine.state();
    answer
}

impl Ports {
    /// Tries the timers of all reliable connections, in the order of application, then slot. A packet that
    /// waits for a connection which is not open any more is discarded.
    pub fn tick(&mut self, now: u64, trash: &mut Pile, report: &mut Events)
        requires roomy { IsRoomy 0 self.old trash.old }
        requires report { report.old.items ≡ [] }
        ensures comes { Comes (at_work self.old trash.old report.old.items) (at_work self.new trash.new report.new.items) (timed now self.old.ports) }
        ensures quiet { trash.new.contents ≡ [] → report.new.items ≡ [] }
        ensures few { length report.new.items ≤ MAX_APPS }
        ensures apps { self.new.ports.conns.apps ≡ self.old.ports.conns.apps }
        ensures keeps { Keeps 0 (at_hand self.old.ports trash.old.contents) (at_hand self.new.ports trash.new.contents) [] }
    {
        self.whole();
        self.tick_all(now, trash, report);
        self.drop_all(trash, report);
    }

    fn tick_all(&mut self, now: u64, trash: &mut Pile, report: &mut Events)
        requires roomy { IsRoomy 0 self.old trash.old }
        requires report { report.old.items ≡ [] }
        ensures comes { Comes (at_work self.old trash.old report.old.items) (at_work self.new trash.new report.new.items) (timed_in now (range_with_len 0 (self.old.ports.conns.apps * SLOTS)) self.old.ports) }
        ensures roomy { IsRoomy 0 self.new trash.new }
        ensures report { report.new.items ≡ [] }
        ensures apps { self.new.ports.conns.apps ≡ self.old.ports.conns.apps }
    {
        for at in 0..self.slot_count() {
            let seat = self.seat_at(at);
            self.tick_at(seat, now, trash, report);
        }
    }

    fn drop_all(&mut self, trash: &mut Pile, report: &mut Events)
        requires roomy { IsRoomy 0 self.old trash.old }
        requires report { report.old.items ≡ [] }
        ensures comes { Comes (at_work self.old trash.old report.old.items) (at_work self.new trash.new report.new.items) (dropped_in (range_with_len 0 (self.old.ports.conns.apps * SLOTS)) self.old.ports) }
        ensures few { length report.new.items ≤ MAX_APPS }
        ensures apps { self.new.ports.conns.apps ≡ self.old.ports.conns.apps }
    {
        self.whole();
        for at in 0..self.slot_count() {
            let seat = self.seat_at(at);
            self.drop_stalled(seat, trash, report);
        }
    }

    /// Tries the timer of a slot.
    fn tick_at(&mut self, seat: Seat, now: u64, trash: &mut Pile, report: &mut Events)
        requires there { IsThere self.old.ports.conns seat }
        requires roomy { IsRoomy 0 self.old trash.old }
        requires report { length report.old.items < MAX_EVENTS }
        ensures comes { Comes (at_work self.old trash.old report.old.items) (at_work self.new trash.new report.new.items) (timed_at now seat self.old.ports) }
        ensures quiet { report.new.items ≡ report.old.items }
        ensures roomy { IsRoomy 0 self.new trash.new }
        ensures apps { self.new.ports.conns.apps ≡ self.old.ports.conns.apps }
    {
        let Some(machine) = &mut self.slots[place(seat)].machine else {
            return;
        };
        let change = tick(machine, now, trash);
        self.change(change, seat, trash, report);
    }

    /// What a change of a slot's connection comes to, which the application did not ask for.
    #[inline(always)]
    pub(crate) fn change(
        &mut self,
        change: Change,
        seat: Seat,
        trash: &mut Pile,
        report: &mut Events,
    )
        requires there { IsThere self.old.ports.conns seat }
        requires roomy { IsRoomy 0 self.old trash.old }
        requires report { length report.old.items < MAX_EVENTS }
        ensures comes { Comes (at_work self.old trash.old report.old.items) (at_work self.new trash.new report.new.items) (changed change seat self.old.ports) }
        ensures roomy { IsRoomy 0 self.new trash.new }
        ensures few { length report.new.items ≤ length report.old.items + 1 }
        ensures apps { self.new.ports.conns.apps ≡ self.old.ports.conns.apps }
    {
        match change {
            Change::None => {}
            Change::Opened => {
                self.report_opening(seat, report);
                self.answer_connect(seat);
            }
            Change::Refused(why) => self.refuse(seat, why, trash),
            Change::Down => {
                let mut terms = self.terms(seat);
                terms.is_down = true;
                self.set_terms(seat, terms);
            }
            Change::Closed => self.answer_close(seat, trash),
        }
    }

    /// That a slot's reliable connection is open is reported.
    #[inline(never)]
    fn report_opening(&self, seat: Seat, report: &mut Events)
        requires there { IsThere self.now.ports.conns seat }
        requires report { length report.old.items < MAX_EVENTS }
        ensures { report.new.items ≡ report.old.items ++ (event.Opened seat.app seat.slot (Some (machine_at self.now.ports seat).nth) (machine_at self.now.ports seat).peer) ∷ [] }
    {
        let (nth, peer) = match self.machine(seat) {
            Some(machine) => (machine.nth(), machine.peer()),
            None => (0, None),
        };
        let Seat { app, slot } = seat;
        report.push(Event::Opened {
            app,
            slot,
            nth: Some(nth),
            peer,
        });
    }

    /// The application that waited for its connection is told that it is open.
    #[inline(never)]
    fn answer_connect(&mut self, seat: Seat)
        requires there { IsThere self.old.ports.conns seat }
        ensures ports { self.new ≡ with_ports_at self.old (connected seat self.old.ports) }
        ensures held { held self.new.ports ≡ held self.old.ports }
    {
        let mut terms = self.terms(seat);
        if terms.wish == Wish::Connection {
            terms.wish = Wish::Nothing;
            self.set_terms(seat, terms);
            self.owe(seat.app, Note::Connected { slot: seat.slot });
        }
    }

    /// A connection that was asked for is refused: its slot is free, and the application that waited is told
    /// so.
    #[inline(never)]
    fn refuse(&mut self, seat: Seat, why: MachineWhy, trash: &mut Pile)
        requires there { IsThere self.old.ports.conns seat }
        requires roomy { IsRoomy 0 self.old trash.old }
        ensures comes { Comes (at_work self.old trash.old []) (at_work self.new trash.new []) (refused why seat self.old.ports) }
        ensures roomy { IsRoomy 0 self.new trash.new }
        ensures apps { self.new.ports.conns.apps ≡ self.old.ports.conns.apps }
    {
        let waits = self.terms(seat).wish == Wish::Connection;
        self.free(seat, trash);
        if waits {
            let why = reason_of(why);
            self.owe(seat.app, Note::Refused { why });
        }
    }

    /// A connection is closed: the application that asked for that is told so, and the slot of one that
    /// never was open is free.
    #[inline(never)]
    fn answer_close(&mut self, seat: Seat, trash: &mut Pile)
        requires there { IsThere self.old.ports.conns seat }
        requires roomy { IsRoomy 0 self.old trash.old }
        ensures comes { Comes (at_work self.old trash.old []) (at_work self.new trash.new []) (closed seat self.old.ports) }
        ensures roomy { IsRoomy 0 self.new trash.new }
        ensures apps { self.new.ports.conns.apps ≡ self.old.ports.conns.apps }
    {
        let mut terms = self.terms(seat);
        match terms.wish {
            Wish::End => {
                terms.wish = Wish::Ended;
                self.set_terms(seat, terms);
                self.owe(seat.app, Note::Closed { slot: seat.slot });
            }
            Wish::Nothing => match self.machine(seat) {
                Some(machine) if machine.was_open() => {}
                _ => self.free(seat, trash),
            },
            Wish::Connection | Wish::Ended => {}
        }
    }

    /// A slot is free without an answer to a close.
    fn free(&mut self, seat: Seat, trash: &mut Pile)
        requires there { IsThere self.old.ports.conns seat }
        requires roomy { IsRoomy 0 self.old trash.old }
        ensures comes { Comes (at_work self.old trash.old []) (at_work self.new trash.new []) (freed (terms_at self.old.ports seat).ordinal seat self.old.ports) }
        ensures wishes { wishes seat.app (terms_of self.new.ports) + wished (terms_at self.old.ports seat).wish ≡ wishes seat.app (terms_of self.old.ports) }
        ensures roomy { IsRoomy 0 self.new trash.new }
        ensures apps { self.new.ports.conns.apps ≡ self.old.ports.conns.apps }
    {
        let terms = self.terms(seat);
        self.free_as(seat, terms.ordinal, trash);
    }

    /// A slot is free, and its next connection is of this ordinal.
    pub(crate) fn free_as(&mut self, seat: Seat, ordinal: u32, trash: &mut Pile)
        requires there { IsThere self.old.ports.conns seat }
        requires roomy { IsRoomy 0 self.old trash.old }
        ensures comes { Comes (at_work self.old trash.old []) (at_work self.new trash.new []) (freed ordinal seat self.old.ports) }
        ensures wishes { wishes seat.app (terms_of self.new.ports) + wished (terms_at self.old.ports seat).wish ≡ wishes seat.app (terms_of self.old.ports) }
        ensures roomy { IsRoomy 0 self.new trash.new }
        ensures apps { self.new.ports.conns.apps ≡ self.old.ports.conns.apps }
    {
        let mut terms = self.terms(seat);
        self.conns.free(seat);
        terms.wish = Wish::Nothing;
        terms.is_down = false;
        terms.ordinal = ordinal;
        self.set_terms(seat, terms);
        self.replace(seat, None, trash);
    }

    /// Another machine takes the place of a slot's, or none; what that one still held joins the trash.
    pub(crate) fn replace(&mut self, seat: Seat, machine: Option<Rdp>, trash: &mut Pile)
        requires there { IsThere self.old.ports.conns seat }
        requires housed { IfSome machine (IsHoused self.old.region) }
        requires empty { IfSome machine (λ r. rdp_numbers r ≡ []) }
        requires roomy { IsRoomy 0 self.old trash.old }
        ensures comes { Comes (at_work self.old trash.old []) (at_work self.new trash.new []) (replaced seat (option_map (placed nowhere) machine) self.old.ports) }
        ensures roomy { IsRoomy 0 self.new trash.new }
        ensures apps { self.new.ports.conns.apps ≡ self.old.ports.conns.apps }
    {
        let old = std::mem::replace(&mut self.slots[place(seat)].machine, machine);
        let Some(old) = old else {
            return;
        };
        spend(old, trash);
    }

    /// The packet that waits at a slot is discarded where the connection is not open.
    pub(crate) fn drop_stalled(&mut self, seat: Seat, trash: &mut Pile, report: &mut Events)
        requires there { IsThere self.old.ports.conns seat }
        requires roomy { IsRoomy 0 self.old trash.old }
        requires report { length report.old.items < MAX_EVENTS }
        ensures comes { Comes (at_work self.old trash.old report.old.items) (at_work self.new trash.new report.new.items) (dropped seat self.old.ports) }
        ensures roomy { IsRoomy 0 self.new trash.new }
        ensures few { length report.new.items + stalls self.new.ports.slots ≤ length report.old.items + stalls self.old.ports.slots }
        ensures report { length report.new.items ≤ length report.old.items + 1 }
        ensures apps { self.new.ports.conns.apps ≡ self.old.ports.conns.apps }
    {
        if self.state(seat) == State::Open {
            return;
        }
        if let Some(packet) = self.take_stalled(seat) {
            report.push(Event::Discarded(Discard::NoConn));
            trash.add(packet);
        }
    }

    /// Takes out the packet that waits at a slot. Then none of its application's waits.
    fn take_stalled(&mut self, seat: Seat) -> Option<Buffer>
        requires there { IsThere self.old.ports.conns seat }
        ensures stalled { option_map (λ b. anywhere b.picture) result ≡ stalled_at self.old.ports seat }
        ensures ports { self.new ≡ with_ports_at self.old (with_stalled self.old.ports seat None) }
        ensures waits { IfSome result (IsWaiting self.old.region) }
        ensures none { IfSome result (λ b. stalls_of seat.app self.new.ports.slots ≡ 0) }
        ensures size { length (held self.new.ports) + length (option_to_list (stalled_at self.old.ports seat)) ≡ length (held self.old.ports) }
        ensures few { stalls self.new.ports.slots + length (option_to_list (stalled_at self.old.ports seat)) ≡ stalls self.old.ports.slots }
    {
        self.slots[place(seat)].stalled.take()
    }

    /// The packet that waits at a slot is admitted where there is room.
    pub(crate) fn settle(&mut self, seat: Seat, now: u64)
        requires there { IsThere self.old.ports.conns seat }
        requires countable { IsCountable self.old.ports }
        ensures ports { self.new ≡ with_ports_at self.old (settled now seat self.old.ports) }
    {
        if let Some(packet) = self.take_stalled(seat)
            && let Err(packet) = self.admit(seat, packet, now)
        {
            self.stall(seat, packet);
        }
    }

    /// A packet is admitted to the window of a slot's connection where there is room, or handed back.
    pub(crate) fn admit(&mut self, seat: Seat, buffer: Buffer, now: u64) -> Result<(), Buffer>
        requires there { IsThere self.old.ports.conns seat }
        requires of_it { buffer.region ≡ self.old.region }
        requires short { length buffer.picture.payload ≤ MAX_PAYLOAD - 9 }
        requires countable { IsFar (2 ^ 32 - 2) (machine_at self.old.ports seat) }
        ensures { Admits (has_room (machine_at self.old.ports seat)) result buffer (self.new ≡ with_ports_at self.old (admitted now seat (anywhere buffer.picture) self.old.ports)) (self.new ≡ self.old) }
    {
        let Some(machine) = &mut self.slots[place(seat)].machine else {
            return Err(buffer);
        };
        admit(machine, buffer, now)
    }

    /// A packet of an application waits for room in a slot's window, where none of the application's waits.
    pub(crate) fn stall(&mut self, seat: Seat, packet: Buffer)
        requires there { IsThere self.old.ports.conns seat }
        requires of_it { packet.region ≡ self.old.region }
        requires short { length packet.picture.payload ≤ MAX_PAYLOAD - 9 }
        requires none { stalls_of seat.app self.old.ports.slots ≡ 0 }
        ensures { self.new ≡ with_ports_at self.old (with_stalled self.old.ports seat (Some (anywhere packet.picture))) }
    {
        put(&mut self.slots[place(seat)].stalled, packet);
    }
}

/// Puts a packet where none waits.
fn put(place: &mut Option<Buffer>, packet: Buffer)
    requires { place.old ≡ None }
    ensures { place.new ≡ Some packet }
{
    match place.replace(packet) {
        None => {}
        Some(_) => unreachable!(),
    }
}
