//! What comes of packets: those that open a connection, those that are handed to a reliable one, and those
//! of applications.

ghost use Rattle.std.specs.Prelude.{◌≡◌, ◌-◌, ◌+◌, ◌^◌, ◌<◌, ◌≤◌, ℕ, [], ◌∷◌, ◌++◌, length, None, Some, IfSome, MatchOption};
ghost use Rattle.std.specs.Option.{option_to_list};
ghost use Rattle.csp_conn.specs.Opening.{free_seat};
ghost use Rattle.csp_conn.specs.PlainConns.{IsThere};
ghost use Rattle.csp_log.specs.declared.event.Discard.TheVariants as discard;
ghost use Rattle.csp_log.specs.declared.event.Event.TheVariants as event;
ghost use Rattle.csp_log.specs.declared.event.TheConstants.{MAX_EVENTS};
ghost use Rattle.csp_deck.specs.Keeping.{with_contents};
ghost use Rattle.csp_deck.specs.Regions.{nowhere};
ghost use Rattle.csp_rdp.specs.Placed.{placed};
ghost use Rattle.csp_ports.specs.Came.{Comes, at_work, pictures};
ghost use Rattle.csp_ports.specs.Counts.{AreFar, IsCountable};
ghost use Rattle.csp_ports.specs.Held.{held};
ghost use Rattle.csp_ports.specs.Keeps.{Keeps, at_hand};
ghost use Rattle.csp_ports.specs.Kept.{IsHoused, IsRoomy, wished, wishes};
ghost use Rattle.csp_ports.specs.declared.ports.TheConstants.{ANSWERS};
ghost use Rattle.csp_rdp.specs.Changes.{change_between};
ghost use Rattle.csp_rdp.specs.Holding.{rdp_numbers, rested, unneeded};
ghost use Rattle.csp_rdp.specs.Machine.{idle};
ghost use Rattle.csp_rdp.specs.Regions.{IsIn};
ghost use Rattle.csp_rdp.specs.Table.{back_of, after_packet, is_stray, row_of};
ghost use Rattle.csp_rdp.specs.declared.answers.Cause.TheVariants as machine_why;
ghost use Rattle.csp_ports.specs.Packets.{accepted, admitting_by, handing, handing_event, invited, stray_events, submitting};
ghost use Rattle.csp_ports.specs.PlainPorts.{anywhere, begun, has_machine, machine_at, start_of, stalls_of, terms_at, terms_of, waiting, with_ports_at};
ghost use Rattle.csp_ports.specs.Steps.{has_room, stepped, where_machine};

use crate::flows::OwnFlows;
use crate::ports::Ports;
use crate::steps::let_go;
use crate::terms::Wish;
use csp_base::{MAX_PAYLOAD, Prio, Seat, Seq, Tag};
use csp_buffer::Buffer;
use csp_conn::{Connection, place};
use csp_deck::{Discard, Event, Events, Pile};
use csp_rdp::{
    Change, Rdp, Result2, State, conserves, keeps_count, keeps_region, keeps_rest, keeps_whole,
    sees_no_region,
};
use csp_rdp_header::{MAX_WINDOW, Options, RdpHead};

/// A packet that opens a reliable connection.
#[derive(Clone, Copy)]
pub struct Invitation {
    /// Its head.
    pub head: RdpHead,
    /// Its tag.
    pub tag: Option<Tag>,
    /// The options that it states.
    pub options: Options,
}

impl Ports {
    /// Opens a plain connection by a packet, in the least free slot of an application. `None` where all are
    /// in use.
    pub fn accept(&mut self, app: u8, connection: Connection, prio: Prio, flags: u8) -> Option<Seat>
        requires { app < self.old.ports.conns.apps }
        ensures seat { result ≡ free_seat self.old.ports.conns app }
        ensures ports { MatchOption result (self.new ≡ self.old) (λ seat. self.new ≡ with_ports_at self.old (accepted self.old.ports seat connection prio flags)) }
        ensures there { IfSome result (λ seat. IsThere self.old.ports.conns seat) }
        ensures apps { self.new.ports.conns.apps ≡ self.old.ports.conns.apps }
        ensures keeps { Keeps 0 (at_hand self.old.ports []) (at_hand self.new.ports []) [] }
    {
        match self.conns.incoming(app, connection) {
            Ok(seat) => {
                self.begin(seat, prio, flags, Wish::Nothing);
                Some(seat)
            }
            Err(_) => None,
        }
    }

    /// Opens a reliable connection by a packet that asks for one, in the least free slot of an application.
    /// `None` where all are in use.
    pub fn invite(
        &mut self,
        flows: OwnFlows,
        app: u8,
        connection: Connection,
        prio: Prio,
        flags: u8,
        invitation: Invitation,
        now: u64,
        trash: &mut Pile,
    ) -> Option<Seat>
        requires app { app < self.old.ports.conns.apps }
        requires countable { IsCountable self.old.ports }
        requires roomy { IsRoomy 0 self.old trash.old }
        requires low { 1 ≤ invitation.options.window }
        requires high { invitation.options.window ≤ MAX_WINDOW }
        ensures seat { result ≡ free_seat self.old.ports.conns app }
        ensures comes { MatchOption result ((self.new ≡ self.old) × (trash.new ≡ trash.old)) (λ seat. Comes (at_work self.old trash.old []) (at_work self.new trash.new []) (invited flows invitation seat now (accepted self.old.ports seat connection prio flags))) }
        ensures apps { self.new.ports.conns.apps ≡ self.old.ports.conns.apps }
        ensures keeps { Keeps 1 (at_hand self.old.ports trash.old.contents) (at_hand self.new.ports trash.new.contents) [] }
    {
        keeps_region();
        keeps_rest();
        keeps_whole();
        self.whole();
        let seat = self.accept(app, connection, prio, flags)?;
        let Invitation { head, tag, options } = invitation;
        let nth = self.made;
        let start = start_of(flows.seed, nth);
        let machine = Rdp::accept(start, options, head, tag, flows.node, nth, now);
        self.made += 1;
        self.replace(seat, Some(machine), trash);
        Some(seat)
    }

    /// Hands a packet with this head, which was cut off, to the machine of a slot.
    pub fn hand(
        &mut self,
        seat: Seat,
        head: RdpHead,
        packet: Buffer,
        now: u64,
        trash: &mut Pile,
        report: &mut Events,
    )
        requires there { IsThere self.old.ports.conns seat }
        requires of_it { packet.region ≡ self.old.region }
        requires roomy { IsRoomy 1 self.old trash.old }
        requires countable { IsCountable self.old.ports }
        requires report { report.old.items ≡ [] }
        ensures comes { Comes (at_work self.old trash.old report.old.items) (at_work self.new trash.new report.new.items) (handing self.old.ports seat head packet.picture now) }
        ensures apps { self.new.ports.conns.apps ≡ self.old.ports.conns.apps }
        ensures keeps { Keeps 1 (at_hand self.old.ports trash.old.contents) (at_hand self.new.ports trash.new.contents) (packet.picture.number ∷ []) }
    {
        self.whole();
        let change = self.hand_machine(seat, head, packet, now, trash, report);
        self.change(change, seat, trash, report);
        self.drop_stalled(seat, trash, report);
        self.settle(seat, now);
    }

    /// The machine of a slot is handed a packet. What it hands back joins the trash before what it does not
    /// need any more.
    fn hand_machine(
        &mut self,
        seat: Seat,
        head: RdpHead,
        packet: Buffer,
        now: u64,
        trash: &mut Pile,
        report: &mut Events,
    ) -> Change
        requires there { IsThere self.old.ports.conns seat }
        requires of_it { packet.region ≡ self.old.region }
        requires roomy { IsRoomy 1 self.old trash.old }
        requires countable { IsCountable self.old.ports }
        requires report { report.old.items ≡ [] }
        ensures comes { Comes (at_work self.old (with_contents trash.old (trash.old.contents ++ pictures (option_to_list (back_of (row_of (machine_at self.old.ports seat) head packet.picture.payload) (anywhere packet.picture))))) []) (at_work self.new trash.new []) (where_machine (has_machine self.old.ports seat) (stepped seat (after_packet head packet.picture.trace.tag (anywhere packet.picture) now (machine_at self.old.ports seat))) self.old.ports) }
        ensures report { report.new.items ≡ handing_event (machine_at self.old.ports seat) packet.picture.trace.tag ∷ stray_events (back_of (row_of (machine_at self.old.ports seat) head packet.picture.payload) (anywhere packet.picture)) (is_stray (row_of (machine_at self.old.ports seat) head packet.picture.payload)) }
        ensures few { length report.new.items ≤ 2 }
        ensures change { result ≡ change_between (machine_at self.old.ports seat).state (after_packet head packet.picture.trace.tag (anywhere packet.picture) now (machine_at self.old.ports seat)).state machine_why.Reset }
        ensures roomy { IsRoomy 0 self.new trash.new }
        ensures countable { IsCountable self.new.ports }
    {
        keeps_count();
        let Some(machine) = &mut self.slots[place(seat)].machine else {
            hand_nobody(packet, trash, report);
            return Change::None;
        };
        hand(machine, head, packet, now, trash, report)
    }

    /// A packet of an application goes on the slot's reliable connection, or waits for room there. Where the
    /// connection is not open it is discarded.
    pub fn submit(
        &mut self,
        seat: Seat,
        packet: Buffer,
        now: u64,
        trash: &mut Pile,
        report: &mut Events,
    )
        requires there { IsThere self.old.ports.conns seat }
        requires of_it { packet.region ≡ self.old.region }
        requires short { length packet.picture.payload ≤ MAX_PAYLOAD - 9 }
        requires first { stalls_of seat.app self.old.ports.slots ≡ 0 }
        requires roomy { IsRoomy 1 self.old trash.old }
        requires countable { IsCountable self.old.ports }
        requires report { report.old.items ≡ [] }
        ensures comes { Comes (at_work self.old trash.old report.old.items) (at_work self.new trash.new report.new.items) (submitting self.old.ports seat packet.picture now) }
        ensures apps { self.new.ports.conns.apps ≡ self.old.ports.conns.apps }
        ensures keeps { Keeps 1 (at_hand self.old.ports trash.old.contents) (at_hand self.new.ports trash.new.contents) (packet.picture.number ∷ []) }
    {
        self.whole();
        match self.state(seat) {
            State::Open => self.send(seat, packet, now, report),
            State::SynSent | State::SynRcvd | State::CloseWait | State::Closed => {
                report.push(Event::Discarded(Discard::NoConn));
                trash.add(packet);
            }
        }
    }

    /// A packet of an application goes on the slot's open connection, or waits for room there.
    fn send(&mut self, seat: Seat, packet: Buffer, now: u64, report: &mut Events)
        requires there { IsThere self.old.ports.conns seat }
        requires of_it { packet.region ≡ self.old.region }
        requires short { length packet.picture.payload ≤ MAX_PAYLOAD - 9 }
        requires first { stalls_of seat.app self.old.ports.slots ≡ 0 }
        requires countable { IsCountable self.old.ports }
        requires report { report.old.items ≡ [] }
        ensures ports { self.new ≡ with_ports_at self.old (admitting_by (has_room (machine_at self.old.ports seat)) self.old.ports seat packet.picture now) }
        ensures report { report.new.items ≡ event.Sent seat.slot (terms_at self.old.ports seat).ordinal ∷ [] }
    {
        let (slot, ordinal) = (seat.slot, self.terms(seat).ordinal);
        report.push(Event::Sent { slot, ordinal });
        if let Err(buffer) = self.admit(seat, packet, now) {
            self.stall(seat, buffer);
        }
    }

    /// A connection begins on a slot whose application waits for nothing there.
    pub(crate) fn begin(&mut self, seat: Seat, prio: Prio, flags: u8, wish: Wish)
        requires there { IsThere self.old.ports.conns seat }
        requires due { (waiting seat.app self.old.ports.owed + wishes seat.app (terms_of self.old.ports)) + wished wish ≤ ANSWERS + wished (terms_at self.old.ports seat).wish }
        ensures ports { self.new ≡ with_ports_at self.old (begun self.old.ports seat prio flags wish) }
        ensures held { held self.new.ports ≡ held self.old.ports }
        ensures far { (n : ℕ) → AreFar n self.old.ports → AreFar n self.new.ports }
    {
        let mut terms = self.terms(seat);
        terms.prio = prio;
        terms.flags = flags;
        terms.wish = wish;
        terms.is_down = false;
        self.set_terms(seat, terms);
    }
}

/// The start of the n-th reliable connection of a node with this seed.
pub(crate) fn start_of(seed: u16, nth: u32) -> Seq
    ensures { result.0 ≡ start_of seed nth }
{
    Seq(((u64::from(seed) + 1000 * u64::from(nth)) % 65_536) as u16)
}

/// A machine is handed a packet. What it hands back joins the trash, and what it does not need any more.
fn hand(
    machine: &mut Rdp,
    head: RdpHead,
    packet: Buffer,
    now: u64,
    trash: &mut Pile,
    report: &mut Events,
) -> Change
    requires housed { IsHoused trash.old.region machine.old }
    requires of_it { packet.region ≡ trash.old.region }
    requires room { length trash.old.contents + length (rdp_numbers machine.old) + 1 ≤ trash.old.room }
    requires report { report.old.items ≡ [] }
    ensures machine { placed nowhere machine.new ≡ rested (after_packet head packet.picture.trace.tag (anywhere packet.picture) now (placed nowhere machine.old)) }
    ensures housed { IsHoused trash.old.region machine.new }
    ensures trash { trash.new ≡ with_contents trash.old (trash.old.contents ++ pictures (option_to_list (back_of (row_of (placed nowhere machine.old) head packet.picture.payload) (anywhere packet.picture))) ++ pictures (unneeded (after_packet head packet.picture.trace.tag (anywhere packet.picture) now (placed nowhere machine.old)))) }
    ensures size { length trash.new.contents + length (rdp_numbers machine.new) ≡ length trash.old.contents + length (rdp_numbers machine.old) + 1 }
    ensures change { result ≡ change_between machine.old.state (after_packet head packet.picture.trace.tag (anywhere packet.picture) now (placed nowhere machine.old)).state machine_why.Reset }
    ensures report { report.new.items ≡ handing_event (placed nowhere machine.old) packet.picture.trace.tag ∷ stray_events (back_of (row_of (placed nowhere machine.old) head packet.picture.payload) (anywhere packet.picture)) (is_stray (row_of (placed nowhere machine.old) head packet.picture.payload)) }
{
    sees_no_region();
    keeps_region();
    keeps_whole();
    conserves();
    let tag = packet.trace().tag;
    report.push(Event::Handed {
        nth: machine.nth(),
        peer: machine.peer(),
        tag,
        cur: machine.cur(),
        una: machine.una(),
    });
    let Result2 {
        back,
        change,
        stray,
    } = machine.handed(head, tag, packet, now);
    hand_back(back, stray, trash, report);
    let_go(machine, trash);
    change
}

/// A packet comes to a slot without a machine, which has no use for it.
fn hand_nobody(packet: Buffer, trash: &mut Pile, report: &mut Events)
    requires of_it { packet.region ≡ trash.old.region }
    requires room { length trash.old.contents < trash.old.room }
    requires report { report.old.items ≡ [] }
    ensures trash { trash.new ≡ with_contents trash.old (trash.old.contents ++ packet.picture ∷ []) }
    ensures report { report.new.items ≡ handing_event idle packet.picture.trace.tag ∷ event.Discarded discard.Stray ∷ [] }
{
    let tag = packet.trace().tag;
    report.push(Event::Handed {
        nth: 0,
        peer: None,
        tag,
        cur: 0,
        una: 0,
    });
    hand_back(Some(packet), true, trash, report);
}

/// A packet that a machine hands back joins the trash; where the machine had no use for it, it is discarded.
fn hand_back(back: Option<Buffer>, stray: bool, trash: &mut Pile, report: &mut Events)
    requires of_it { IsIn trash.old.region back }
    requires room { length trash.old.contents < trash.old.room }
    requires report { length report.old.items < MAX_EVENTS }
    ensures trash { trash.new ≡ with_contents trash.old (trash.old.contents ++ pictures (option_to_list back)) }
    ensures report { report.new.items ≡ report.old.items ++ stray_events back stray }
{
    if let Some(buffer) = back {
        if stray {
            report.push(Event::Discarded(Discard::Stray));
        }
        trash.add(buffer);
    }
}
