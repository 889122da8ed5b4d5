//! A router, a bridge, an interface, an application, a link or a hub.

ghost use Rattle.std.specs.Prelude.{◌≡◌, ◌<◌, ◌↔◌, [], ◌∷◌, ◌-◌, IfSome, MatchOption, IsTrue};
ghost use Rattle.csp_deck.specs.Step.{times};
ghost use Rattle.csp_party.specs.Any.{plain, region_of, holds, drained, is_done, present_step};

use csp_app::App;
use csp_bridge::Bridge;
use csp_buffer::Buffer;
use csp_deck::{Answer, Circle, Events, Op, Party, QueueId, Spares};
use csp_hub::Hub;
use csp_iface::Iface;
use csp_link::Link;
use csp_stack::Stack;

/// A party of a node, its router or bridge, one of its interfaces or of its applications; or a link
/// between two nodes, or a hub between two to eight. A turn is the turn of that party.
pub enum AnyParty {
    /// The router.
    Router(Stack),
    /// The bridge.
    Bridge(Bridge),
    /// An interface.
    Iface(Iface),
    /// An application.
    App(App),
    /// A link.
    Link(Link),
    /// A hub.
    Hub(Hub),
}

impl Party for AnyParty {
    ghost use Rattle.std.specs.Prelude.{⊤};
    ghost use Rattle.csp_party.specs.Any.{plain, region_of, is_ready, is_waiting, awaits, has_ended, uses, count, needs, stocks, asks, asked, tells, events, holds, with_plain};

    ghost is_ready = { λ p now. is_ready (plain p) now };

    ghost is_waiting = { λ p now. is_waiting (plain p) now };

    ghost awaits = { λ p. awaits (plain p) };

    ghost has_ended = { λ p. has_ended (plain p) };

    ghost uses = { λ p. uses (plain p) };

    ghost region = { region_of };

    ghost count = { λ p. count (plain p) };

    ghost needs = { λ p. needs (plain p) };

    ghost stocks = { λ p now a spares. stocks (plain p) now a spares };

    ghost asks = { λ p now. asks (plain p) now };

    ghost asked = { λ p now. with_plain p (asked (plain p) now) };

    ghost tells = { λ p now a. with_plain p (tells (plain p) now a) };

    ghost events = { λ p now a. events (plain p) now a };

    ghost holds = { λ p. holds (plain p) };

    fn ask(&mut self, now: u64) -> Op {
        match self {
            AnyParty::Router(router) => router.ask(now),
            AnyParty::Bridge(bridge) => bridge.ask(now),
            AnyParty::Iface(iface) => iface.ask(now),
            AnyParty::App(app) => app.ask(now),
            AnyParty::Link(link) => link.ask(now),
            AnyParty::Hub(hub) => hub.ask(now),
        }
    }

    fn look(&mut self, now: u64) -> Option<QueueId> {
        match self {
            AnyParty::Router(router) => router.look(now),
            AnyParty::Bridge(bridge) => bridge.look(now),
            AnyParty::Iface(iface) => iface.look(now),
            AnyParty::App(app) => app.look(now),
            AnyParty::Link(link) => link.look(now),
            AnyParty::Hub(hub) => hub.look(now),
        }
    }

    fn circle(&self, now: u64) -> Circle {
        match self {
            AnyParty::Router(router) => router.circle(now),
            AnyParty::Bridge(bridge) => bridge.circle(now),
            AnyParty::Iface(iface) => iface.circle(now),
            AnyParty::App(app) => app.circle(now),
            AnyParty::Link(link) => link.circle(now),
            AnyParty::Hub(hub) => hub.circle(now),
        }
    }

    fn told(&mut self, answer: Answer, now: u64, report: &mut Events, spares: &mut Spares) {
        match self {
            AnyParty::Router(router) => router.told(answer, now, report, spares),
            AnyParty::Bridge(bridge) => bridge.told(answer, now, report, spares),
            AnyParty::Iface(iface) => iface.told(answer, now, report, spares),
            AnyParty::App(app) => app.told(answer, now, report, spares),
            AnyParty::Link(link) => link.told(answer, now, report, spares),
            AnyParty::Hub(hub) => hub.told(answer, now, report, spares),
        }
    }

    fn miss(&mut self, now: u64, report: &mut Events, spares: &mut Spares) {
        match self {
            AnyParty::Router(router) => router.miss(now, report, spares),
            AnyParty::Bridge(bridge) => bridge.miss(now, report, spares),
            AnyParty::Iface(iface) => iface.miss(now, report, spares),
            AnyParty::App(app) => app.miss(now, report, spares),
            AnyParty::Link(link) => link.miss(now, report, spares),
            AnyParty::Hub(hub) => hub.miss(now, report, spares),
        }
    }

    fn ended(&self) -> bool {
        match self {
            AnyParty::Router(router) => router.ended(),
            AnyParty::Bridge(bridge) => bridge.ended(),
            AnyParty::Iface(iface) => iface.ended(),
            AnyParty::App(app) => app.ended(),
            AnyParty::Link(link) => link.ended(),
            AnyParty::Hub(hub) => hub.ended(),
        }
    }

    fn boxes(&self) -> u8 {
        match self {
            AnyParty::Router(router) => router.boxes(),
            AnyParty::Bridge(bridge) => bridge.boxes(),
            AnyParty::Iface(iface) => iface.boxes(),
            AnyParty::App(app) => app.boxes(),
            AnyParty::Link(link) => link.boxes(),
            AnyParty::Hub(hub) => hub.boxes(),
        }
    }
}

impl AnyParty {
    /// Whether it holds the buffer of this number.
    pub fn holds(&self, number: u16) -> bool
        ensures { IsTrue result ↔ (0 < times number (holds (plain self.now))) }
    {
        match self {
            AnyParty::Router(router) => router.holds(number),
            AnyParty::Bridge(bridge) => bridge.holds(number),
            AnyParty::Iface(iface) => iface.holds(number),
            AnyParty::App(app) => app.holds(number),
            AnyParty::Link(link) => link.holds(number),
            AnyParty::Hub(hub) => hub.holds(number),
        }
    }

    /// Hands out a buffer that it holds. `None` exactly where it holds none.
    pub fn drain(&mut self) -> Option<Buffer>
        ensures holds { MatchOption result ((holds (plain self.old) ≡ []) × (self.new ≡ self.old)) (λ b. holds (plain self.old) ≡ b.picture.number ∷ holds (plain self.new)) }
        ensures of_it { IfSome result (λ b. b.region ≡ region_of self.old) }
        ensures region { region_of self.new ≡ region_of self.old }
        ensures first { plain self.new ≡ drained (plain self.old) }
    {
        match self {
            AnyParty::Router(router) => router.drain(),
            AnyParty::Bridge(bridge) => bridge.drain(),
            AnyParty::Iface(iface) => iface.drain(),
            AnyParty::App(app) => app.drain(),
            AnyParty::Link(link) => link.drain(),
            AnyParty::Hub(hub) => hub.drain(),
        }
    }

    /// Ends a party that holds no buffer.
    pub fn end(self)
        requires { holds (plain self) ≡ [] }
    {
        match self {
            AnyParty::Router(router) => router.end(),
            AnyParty::Bridge(bridge) => bridge.end(),
            AnyParty::Iface(iface) => iface.end(),
            AnyParty::App(app) => app.end(),
            AnyParty::Link(link) => link.end(),
            AnyParty::Hub(hub) => hub.end(),
        }
    }

    /// Whether it is no application, or one that has ended.
    pub fn is_done(&self) -> bool
        ensures { result ≡ is_done (plain self.now) }
    {
        match self {
            AnyParty::App(_) => self.ended(),
            AnyParty::Router(_)
            | AnyParty::Bridge(_)
            | AnyParty::Iface(_)
            | AnyParty::Link(_)
            | AnyParty::Hub(_) => true,
        }
    }

    /// The number of an application's present step, from 1; 0 where it has ended, and for every other party.
    pub fn step(&self) -> u32
        ensures { result ≡ present_step (plain self.now) }
    {
        match self {
            AnyParty::App(app) => app.step(),
            AnyParty::Router(_)
            | AnyParty::Bridge(_)
            | AnyParty::Iface(_)
            | AnyParty::Link(_)
            | AnyParty::Hub(_) => 0,
        }
    }
}
