//! The steps of a node's ports, as steps of its router: what the ports let go joins the trash.

ghost use Rattle.std.specs.Prelude.{◌≡◌, ◌+◌, ◌-◌, ◌^◌, ◌<◌, ◌≤◌, ℕ, [], ◌∷◌, ◌++◌, length, None, Some, Ok, Err, IfErr, IfOk, IsTrue, MatchOption};
ghost use Rattle.csp_base.specs.declared.limits.TheConstants.{MAX_PAYLOAD};
ghost use Rattle.csp_conn.specs.Opening.{free_seat};
ghost use Rattle.csp_conn.specs.PlainConns.{IsThere};
ghost use Rattle.csp_deck.specs.Step.{times};
ghost use Rattle.csp_ports.specs.Asking.{answered, close, connect};
ghost use Rattle.csp_ports.specs.Counts.{AreFar, IsCountable};
ghost use Rattle.csp_ports.specs.Held.{held};
ghost use Rattle.csp_ports.specs.Packets.{accepted, handing, invited, submitting};
ghost use Rattle.csp_ports.specs.PlainPorts.{stalls_of, waiting};
ghost use Rattle.csp_ports.specs.Tasks.{delivered};
ghost use Rattle.csp_rdp_header.specs.declared.options.TheConstants.{MAX_WINDOW};
ghost use Rattle.csp_stack.specs.Comes.{ComesTo, IsServing};
ghost use Rattle.csp_stack.specs.Keeps.{Keeps};
ghost use Rattle.csp_stack.specs.Party.{IsClear, IsDelivering};
ghost use Rattle.csp_stack.specs.Router.{holds, flows_of};
ghost use Rattle.csp_stack.specs.Told.{absorbed, ported};
ghost use Rattle.csp_stack.specs.Turn.{timed};
ghost use Rattle.csp_stack.specs.declared.state.TheConstants.{TRASH_ROOM};

use crate::facts::Facts;
use crate::state::State;
use csp_base::{Prio, Seat};
use csp_buffer::Buffer;
use csp_conn::Connection;
use csp_deck::Events;
use csp_ports::{Invitation, MAX_HELD, Request};
use csp_rdp_header::RdpHead;

impl State {
    /// Its ports hold so many buffers at most.
    pub fn bounds(&self)
        ensures { length (held self.now.state.ports) ≤ MAX_HELD }
    {
        self.ports.bounds();
    }

    /// The timers are tried, where they have anything to do: what they report is kept for the turn's end.
    pub fn try_timers(&mut self, now: u64)
        requires room { length self.old.state.trash + length (held self.old.state.ports) ≤ TRASH_ROOM }
        ensures state { self.new ≡ record self.old { state = timed self.old.state now } }
        ensures quiet { self.new.state.trash ≡ [] → self.new.state.early ≡ [] }
        ensures numbers { (k : ℕ) → times k (holds self.new.state) ≡ times k (holds self.old.state) }
        ensures room { length self.new.state.trash + length (held self.new.state.ports) ≤ TRASH_ROOM }
        ensures far { (n : ℕ) → AreFar n self.old.state.ports → AreFar n self.new.state.ports }
        ensures apps { self.new.state.ports.conns.apps ≡ self.old.state.ports.conns.apps }
    {
        self.early.clear();
        if !self.ports.is_quiet(now) {
            self.ports.tick(now, &mut self.trash, &mut self.early);
        }
    }

    /// Whether nothing is to be done before a source is looked at: there is no trash, no packet that is to go
    /// out and no report, and the timers have nothing to do.
    pub fn is_still(&self, now: u64) -> bool
        ensures clear { IsTrue result → IsClear self.now.state }
        ensures still { IsTrue result → timed self.now.state now ≡ self.now.state }
    {
        self.trash.len() == 0
            && self.out.is_none()
            && self.early.is_empty()
            && self.ports.is_quiet(now)
    }

    /// The answer that was owed first is pushed.
    #[tactic(auto, using(crate::proofs::Keeping::ported_keeps))]
    pub fn answer(&mut self)
        requires room { length self.old.state.trash + length (held self.old.state.ports) ≤ TRASH_ROOM }
        requires countable { IsCountable self.old.state.ports }
        ensures told { ComesTo self.old self.new [] [] (ported self.old.state (answered self.old.state.ports)) }
        ensures keeps { (ifaces : ℕ) → Keeps ifaces self.old.state self.new.state [] }
    {
        self.ports.answer(&mut self.trash);
    }

    /// A packet that was taken out of a connection is delivered.
    #[tactic(auto, using(crate::proofs::Keeping::ported_keeps))]
    pub fn deliver(&mut self, seat: Seat, now: u64, report: &mut Events)
        requires there { IsThere self.old.state.ports.conns seat }
        requires taken { IsDelivering self.old.state seat }
        requires room { length self.old.state.trash + length (held self.old.state.ports) ≤ TRASH_ROOM }
        requires countable { IsCountable self.old.state.ports }
        requires unwritten { report.old.items ≡ [] }
        ensures told { ComesTo self.old self.new report.old.items report.new.items (ported self.old.state (delivered now seat self.old.state.ports)) }
        ensures keeps { (ifaces : ℕ) → Keeps ifaces self.old.state self.new.state [] }
    {
        self.ports.deliver(seat, now, &mut self.trash, report);
    }

    /// Hands a packet with this head, which was cut off, to the machine of a slot.
    #[tactic(auto, using(crate::proofs::Keeping::ported_keeps))]
    pub fn hand(&mut self, seat: Seat, head: RdpHead, packet: Buffer, now: u64, report: &mut Events)
        requires there { IsThere self.old.state.ports.conns seat }
        requires of_it { packet.region ≡ self.old.region }
        requires room { length self.old.state.trash + length (held self.old.state.ports) < TRASH_ROOM }
        requires countable { IsCountable self.old.state.ports }
        requires unwritten { report.old.items ≡ [] }
        ensures told { ComesTo self.old self.new report.old.items report.new.items (ported self.old.state (handing self.old.state.ports seat head packet.picture now)) }
        ensures keeps { (ifaces : ℕ) → Keeps ifaces self.old.state self.new.state (packet.picture.number ∷ []) }
    {
        self.ports
            .hand(seat, head, packet, now, &mut self.trash, report);
    }

    /// Hands a packet of an application to the reliable connection on its slot.
    #[tactic(auto, using(crate::proofs::Keeping::ported_keeps))]
    pub fn submit(&mut self, seat: Seat, packet: Buffer, now: u64, report: &mut Events)
        requires there { IsThere self.old.state.ports.conns seat }
        requires of_it { packet.region ≡ self.old.region }
        requires short { length packet.picture.payload ≤ MAX_PAYLOAD - 9 }
        requires alone { stalls_of seat.app self.old.state.ports.slots ≡ 0 }
        requires room { length self.old.state.trash + length (held self.old.state.ports) < TRASH_ROOM }
        requires countable { IsCountable self.old.state.ports }
        requires unwritten { report.old.items ≡ [] }
        ensures told { ComesTo self.old self.new report.old.items report.new.items (ported self.old.state (submitting self.old.state.ports seat packet.picture now)) }
        ensures keeps { (ifaces : ℕ) → Keeps ifaces self.old.state self.new.state (packet.picture.number ∷ []) }
    {
        self.ports
            .submit(seat, packet, now, &mut self.trash, report);
    }

    /// Makes a connection that an application asks for, or refuses it.
    #[tactic(auto, using(crate::proofs::Keeping::ported_keeps))]
    pub fn connect(&mut self, facts: &Facts, request: Request, now: u64, report: &mut Events)
        requires sound { IsServing facts.now self.old.state }
        requires there { IsThere self.old.state.ports.conns request.seat }
        requires first { waiting request.seat.app self.old.state.ports.owed ≡ 0 }
        requires countable { IsCountable self.old.state.ports }
        requires unwritten { report.old.items ≡ [] }
        ensures told { ComesTo self.old self.new report.old.items report.new.items (ported self.old.state (connect (flows_of facts.now) self.old.state.ports request now)) }
        ensures keeps { (ifaces : ℕ) → Keeps ifaces self.old.state self.new.state [] }
    {
        self.ports
            .connect(facts.own_flows(), request, now, &mut self.trash, report);
    }

    /// Ends a slot that an application asks to be closed.
    #[tactic(auto, using(crate::proofs::Keeping::ported_keeps))]
    pub fn close(&mut self, seat: Seat, now: u64)
        requires there { IsThere self.old.state.ports.conns seat }
        requires first { waiting seat.app self.old.state.ports.owed ≡ 0 }
        requires room { length self.old.state.trash + length (held self.old.state.ports) ≤ TRASH_ROOM }
        ensures told { ComesTo self.old self.new [] [] (ported self.old.state (close self.old.state.ports seat now)) }
        ensures keeps { (ifaces : ℕ) → Keeps ifaces self.old.state self.new.state [] }
    {
        self.ports.close(seat, now, &mut self.trash);
    }

    /// Opens a reliable connection by a packet that asks for one, in the least free slot of an application: the
    /// packet joins the trash. Where all slots are in use it is handed back.
    pub fn invite(
        &mut self,
        facts: &Facts,
        app: u8,
        connection: Connection,
        prio: Prio,
        flags: u8,
        invitation: Invitation,
        packet: Buffer,
        now: u64,
    ) -> Result<(), Buffer>
        requires sound { IsServing facts.now self.old.state }
        requires app { app < self.old.state.ports.conns.apps }
        requires of_it { packet.region ≡ self.old.region }
        requires countable { IsCountable self.old.state.ports }
        requires low { 1 ≤ invitation.options.window }
        requires high { invitation.options.window ≤ MAX_WINDOW }
        ensures told { MatchOption (free_seat self.old.state.ports.conns app) ((result ≡ Err packet) × (self.new ≡ self.old)) (λ seat. (result ≡ Ok tt) × ComesTo self.old self.new [] [] (absorbed packet.picture (ported self.old.state (invited (flows_of facts.now) invitation seat now (accepted self.old.state.ports seat connection prio flags))))) }
        ensures back { IfErr result (λ b. (b ≡ packet) × (self.new ≡ self.old)) }
        ensures keeps { IfOk result (λ _. (ifaces : ℕ) → Keeps ifaces self.old.state self.new.state (packet.picture.number ∷ [])) }
    {
        match self.ports.invite(
            facts.own_flows(),
            app,
            connection,
            prio,
            flags,
            invitation,
            now,
            &mut self.trash,
        ) {
            Some(_) => {
                self.trash.add(packet);
                Ok(())
            }
            None => Err(packet),
        }
    }
}
