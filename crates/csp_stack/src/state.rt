//! What the turns of a router change.

ghost use Rattle.std.specs.Prelude.{◌≡◌, ℕ, ◌+◌, ◌<◌, ◌≤◌, IfSome, [], ◌∷◌, ◌++◌, None, Some, length, map, nat_lt, IfOk, MatchOption, IsTrue, ◌↔◌};
ghost use Rattle.std.specs.Option.{option_map};
ghost use Rattle.csp_deck.specs.Step.{answer_numbers, item_numbers, times};
ghost use Rattle.csp_deck.specs.Regions.{IsAnswerFrom, IsItemOf};
ghost use Rattle.csp_log.specs.Pictures.{shown_answer, shown_item};
ghost use Rattle.csp_log.specs.declared.event.TheConstants.{MAX_EVENTS};
ghost use Rattle.csp_ports.specs.Held.{held};
ghost use Rattle.csp_route.specs.Routes.{route_of, IsWithin};
ghost use Rattle.csp_stack.specs.Comes.{ComesTo, leaving_of};
ghost use Rattle.csp_stack.specs.Config.{opening_state};
ghost use Rattle.csp_stack.specs.Readings.{buffer_in, item_in};
ghost use Rattle.csp_stack.specs.Keeps.{Keeps};
ghost use Rattle.csp_stack.specs.Router.{at_rest, drained, buffers, holds, out_buffers};
ghost use Rattle.csp_stack.specs.Told.{absorbed, discarded, leaving, spent, unchanged};

use crate::{Outgoing, Plan};
use csp_arena::RegionToken;
use csp_base::{Addr, MAX_APPS};
use csp_buffer::Buffer;
use csp_deck::{Answer, Discard, Event, Events, Item, Pile};
use csp_ports::{MAX_HELD, Ports};
use csp_route::{Row, Table};
use csp_service::Services;
use std::alloc::{AllocError, Global};
use std::marker::Model;

/// How many buffers the trash has room for: for all that the ports of a node hold, which may end at once, and
/// some more. Nothing is taken from a queue while there is trash.
pub const TRASH_ROOM: usize = 1_000;

const _: () = prove!(MAX_HELD < TRASH_ROOM);

/// The part of a router that its turns change. Contracts see it as a `State` and its region.
pub struct State {
    pub routes: Table,
    pub ports: Ports,
    pub services: Services,
    pub trash: Pile,
    pub out: Option<Outgoing>,
    pub early: Events,
    pub cursor: usize,
    pub doing: Plan,
}

impl Model for State {
    ghost use Rattle.std.specs.Coded.{codes};
    ghost use Rattle.csp_route.specs.Codes.{routes_code};
    ghost use Rattle.std.specs.Option.{option_map};
    ghost use Rattle.csp_stack.specs.Router.{StateAt};

    ghost Value = { StateAt };

    ghost coded = { Prim.hlevel (codes, routes_code) };

    ghost use Rattle.csp_stack.specs.Comes.{leaving_of};
    ghost use Rattle.csp_stack.specs.Inside.{IsState};

    ghost view = { λ s. record { region = s.trash.region; state = record { routes = s.routes; ports = s.ports.ports; services = s.services; trash = s.trash.contents; out = option_map leaving_of s.out; early = s.early.items; cursor = s.cursor; doing = s.doing } } };

    ghost invariant = { IsState };
}

impl State {
    /// The state before the first turn.
    pub fn open(
        alloc: Global,
        apps: u8,
        routes: Table,
        region: RegionToken,
    ) -> Result<State, AllocError>
        requires { apps ≤ MAX_APPS }
        ensures { IfOk result (λ s. s ≡ record { region = region.name; state = opening_state apps routes }) }
    {
        let services = Services::open(alloc)?;
        let trash = Pile::open(alloc, region.copy(), TRASH_ROOM)?;
        match Ports::open(alloc, apps, region) {
            Ok(ports) => Ok(State {
                routes,
                ports,
                services,
                trash,
                out: None,
                early: Events::new(),
                cursor: 0,
                doing: Plan::Rest,
            }),
            Err(error) => {
                trash.end();
                Err(error)
            }
        }
    }

    /// The row of the routing table that a packet to this address takes.
    pub fn route(&self, destination: Addr) -> Option<Row>
        ensures row { result ≡ route_of self.now.state.routes destination }
        ensures known { (count : ℕ) → IsWithin count self.now.state.routes → IfSome result (λ row. row.iface < count) }
    {
        self.routes.find(destination)
    }

    /// The buffer that an answer about the pool brings: one of the same region.
    pub fn buffer_of(&self, answer: Answer) -> Option<Buffer>
        requires fits { item_in (shown_answer answer) ≡ None }
        requires of_it { IsAnswerFrom self.now.region answer }
        ensures buffer { option_map (λ b. b.picture) result ≡ buffer_in (shown_answer answer) }
        ensures numbers { MatchOption result (answer_numbers (shown_answer answer) ≡ []) (λ b. answer_numbers (shown_answer answer) ≡ b.picture.number ∷ []) }
        ensures of_it { IfSome result (λ b. b.region ≡ self.now.region) }
    {
        match answer {
            Answer::Taken(buffer) | Answer::PoolFull(buffer) => Some(buffer),
            Answer::Full(_item) | Answer::Popped(_item) => unreachable!(),
            Answer::Nothing | Answer::NoBuffer | Answer::Given | Answer::Pushed | Answer::Empty =>
                None,
        }
    }

    /// The item that an answer about a queue brings: a packet in it is in a buffer of the same region.
    pub fn item_of(&self, answer: Answer) -> Option<Item>
        requires fits { buffer_in (shown_answer answer) ≡ None }
        requires of_it { IsAnswerFrom self.now.region answer }
        ensures item { option_map shown_item result ≡ item_in (shown_answer answer) }
        ensures numbers { MatchOption result (answer_numbers (shown_answer answer) ≡ []) (λ i. answer_numbers (shown_answer answer) ≡ item_numbers (shown_item i)) }
        ensures of_it { IfSome result (λ i. IsItemOf self.now.region i) }
    {
        match answer {
            Answer::Taken(_buffer) | Answer::PoolFull(_buffer) => unreachable!(),
            Answer::Full(item) | Answer::Popped(item) => Some(item),
            Answer::Nothing | Answer::NoBuffer | Answer::Given | Answer::Pushed | Answer::Empty =>
                None,
        }
    }

    /// A packet is discarded for this reason: its buffer joins the trash, and that is reported.
    #[tactic(auto, using(crate::proofs::Keeping::spent_keeps))]
    pub fn discard(&mut self, why: Discard, buffer: Buffer, report: &mut Events)
        requires trash { length self.old.state.trash < TRASH_ROOM }
        requires of_it { buffer.region ≡ self.old.region }
        requires room { length report.old.items < MAX_EVENTS }
        ensures told { ComesTo self.old self.new report.old.items report.new.items (discarded self.old.state why buffer.picture) }
        ensures keeps { (ifaces : ℕ) → Keeps ifaces self.old.state self.new.state (buffer.picture.number ∷ []) }
    {
        self.spend(Event::Discarded(why), buffer, report);
    }

    /// Of a packet nothing comes but a report: its buffer joins the trash.
    #[tactic(auto, using(crate::proofs::Keeping::spent_keeps))]
    pub fn spend(&mut self, event: Event, buffer: Buffer, report: &mut Events)
        requires trash { length self.old.state.trash < TRASH_ROOM }
        requires of_it { buffer.region ≡ self.old.region }
        requires room { length report.old.items < MAX_EVENTS }
        ensures told { ComesTo self.old self.new report.old.items report.new.items (spent self.old.state event buffer.picture) }
        ensures keeps { (ifaces : ℕ) → Keeps ifaces self.old.state self.new.state (buffer.picture.number ∷ []) }
    {
        self.trash.add(buffer);
        report.push(event);
    }

    /// The buffer of a packet of which nothing comes joins the trash.
    #[tactic(auto, using(crate::proofs::Keeping::absorbed_keeps))]
    pub fn absorb(&mut self, buffer: Buffer)
        requires trash { length self.old.state.trash < TRASH_ROOM }
        requires of_it { buffer.region ≡ self.old.region }
        ensures told { ComesTo self.old self.new [] [] (absorbed buffer.picture (unchanged self.old.state)) }
        ensures keeps { (ifaces : ℕ) → Keeps ifaces self.old.state self.new.state (buffer.picture.number ∷ []) }
    {
        self.trash.add(buffer);
    }

    /// A packet is to go out.
    #[tactic(auto, using(crate::proofs::Keeping::leaving_keeps))]
    pub fn leave(&mut self, packet: Outgoing)
        requires none { self.old.state.out ≡ None }
        requires of_it { packet.buffer.region ≡ self.old.region }
        ensures told { ComesTo self.old self.new [] [] (leaving self.old.state (leaving_of packet)) }
        ensures keeps { (ifaces : ℕ) → Keeps ifaces self.old.state self.new.state (packet.buffer.picture.number ∷ []) }
    {
        put(&mut self.out, packet);
    }

    /// Ends what the turn was, and says what that is. What the timers reported comes first.
    pub fn end_turn(&mut self, report: &mut Events) -> Plan
        requires unwritten { report.old.items ≡ [] }
        ensures was { result ≡ self.old.state.doing }
        ensures state { self.new ≡ record self.old { state = at_rest self.old.state } }
        ensures report { report.new.items ≡ self.old.state.early }
    {
        if !self.early.is_empty() {
            std::mem::swap(&mut self.early, report);
        }
        self.await_nothing()
    }

    /// What was awaited is awaited no more.
    fn await_nothing(&mut self) -> Plan
        ensures was { result ≡ self.old.state.doing }
        ensures state { self.new ≡ record self.old { state = record self.old.state { doing = Plan.Rest } } }
    {
        let doing = self.doing;
        self.doing = Plan::Rest;
        doing
    }

    /// A buffer is the first of the trash again.
    #[tactic(auto, using(crate::proofs::Keeping::kept_keeps))]
    pub fn keep(&mut self, buffer: Buffer)
        requires room { length self.old.state.trash < TRASH_ROOM }
        requires of_it { buffer.region ≡ self.old.region }
        ensures state { self.new ≡ record self.old { state = record self.old.state { trash = buffer.picture ∷ self.old.state.trash } } }
        ensures keeps { (ifaces : ℕ) → Keeps ifaces self.old.state self.new.state (buffer.picture.number ∷ []) }
    {
        self.trash.put_back(buffer);
    }

    /// Whether the buffer of this number is in it.
    #[tactic(auto, using(crate::proofs::Keeping::times_append))]
    pub fn holds(&self, number: u16) -> bool
        ensures { IsTrue result ↔ (0 < times number (holds self.now.state)) }
    {
        self.trash.holds(number) || is_out(&self.out, number) || self.ports.holds(number)
    }

    /// Hands out a buffer that is in it: the trash, then the packet that is to go out, then those of the ports.
    pub fn drain(&mut self) -> Option<Buffer>
        ensures buffers { MatchOption result ((buffers self.old.state ≡ []) × (self.new ≡ self.old)) (λ b. buffers self.old.state ≡ b.picture ∷ buffers self.new.state) }
        ensures of_it { IfSome result (λ b. b.region ≡ self.old.region) }
        ensures rest { self.new ≡ record self.old { state = drained self.old.state } }
        ensures fewer { length self.new.state.trash + length (held self.new.state.ports) ≤ length self.old.state.trash + length (held self.old.state.ports) }
        ensures apps { self.new.state.ports.conns.apps ≡ self.old.state.ports.conns.apps }
    {
        if let Some(buffer) = self.trash.pop() {
            self.rest();
            return Some(buffer);
        }
        if let Some(packet) = self.out.take() {
            self.rest();
            return Some(packet.into_buffer());
        }
        let buffer = self.ports.take_out()?;
        self.rest();
        Some(buffer)
    }

    /// Nothing is awaited any more.
    fn rest(&mut self)
        ensures { self.new ≡ record self.old { state = at_rest self.old.state } }
    {
        self.early.clear();
        self.doing = Plan::Rest;
    }

    /// Ends a state without a buffer.
    pub fn end(self)
        requires { buffers self.state ≡ [] }
    {
        let State {
            routes: _,
            ports,
            services: _,
            trash,
            out,
            early: _,
            cursor: _,
            doing: _,
        } = self;
        ports.end();
        trash.end();
        if let Some(_packet) = out {
            unreachable!();
        }
    }
}

/// Whether a packet that is to go out is in the buffer of this number.
fn is_out(out: &Option<Outgoing>, number: u16) -> bool
    ensures { result ≡ nat_lt 0 (times number (map (λ b. b.number) (out_buffers (option_map leaving_of out.now)))) }
{
    match out {
        Some(packet) => packet.buffer.number() == number,
        None => false,
    }
}

/// Puts a packet where none is.
fn put(out: &mut Option<Outgoing>, packet: Outgoing)
    requires { out.old ≡ None }
    ensures { out.new ≡ Some packet }
{
    let old = out.replace(packet);
    if let Some(_packet) = old {
        unreachable!();
    }
}
