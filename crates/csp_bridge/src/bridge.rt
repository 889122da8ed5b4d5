//! The bridge itself.

ghost use Rattle.std.specs.Prelude.{◌≡◌, ◌<◌, ◌↔◌, [], ◌∷◌, IsTrue, IfSome, MatchOption};
ghost use Rattle.csp_deck.specs.Step.{times};

use crate::doing::Doing;
use csp_arena::RegionToken;
use csp_buffer::Buffer;
use csp_deck::Hand;
use std::marker::Model;

/// A bridge: a party between two interfaces, which passes each packet of its inbox on to the interface
/// that it did not come in on. Contracts see it as plain numbers and pictures, and the region that its
/// buffers are of.
///
/// It must be spent by `end`, when it holds no buffer.
pub struct Bridge {
    pub(crate) trash: Hand,
    pub(crate) out: Hand,
    pub(crate) to: u8,
    pub(crate) doing: Doing,
}

impl Model for Bridge {
    ghost use Rattle.csp_bridge.specs.PlainBridge.{BridgeAt};

    ghost Value = { BridgeAt };

    ghost use Rattle.csp_bridge.specs.Room.{bridge_at, IsBridge};

    ghost view = { bridge_at };

    ghost invariant = { IsBridge };
}

impl Bridge {
    ghost use Rattle.csp_bridge.specs.Drained.{drained};
    ghost use Rattle.csp_bridge.specs.PlainBridge.{opening, buffers, holds, with_bridge};

    /// A bridge that has heard nothing yet, for buffers of this region. It takes no memory.
    pub fn new(region: RegionToken) -> Bridge
        ensures { result ≡ record { region = region.name; bridge = opening } }
    {
        Bridge {
            trash: Hand::empty(region.copy()),
            out: Hand::empty(region),
            to: 0,
            doing: Doing::Rest,
        }
    }

    /// Whether it holds the buffer of this number.
    #[tactic(auto, using(crate::proofs::StepLaws::holds_times))]
    pub fn holds(&self, number: u16) -> bool
        ensures { IsTrue result ↔ (0 < times number (holds self.now.bridge)) }
    {
        self.trash.holds(number) || self.out.holds(number)
    }

    /// Hands out a buffer that it holds. `None` exactly where it holds none.
    pub fn drain(&mut self) -> Option<Buffer>
        ensures buffers { MatchOption result ((buffers self.old.bridge ≡ []) × (self.new ≡ self.old)) (λ b. buffers self.old.bridge ≡ b.picture ∷ buffers self.new.bridge) }
        ensures holds { MatchOption result ((holds self.old.bridge ≡ []) × (self.new ≡ self.old)) (λ b. holds self.old.bridge ≡ b.picture.number ∷ holds self.new.bridge) }
        ensures of_it { IfSome result (λ b. b.region ≡ self.old.region) }
        ensures first { self.new ≡ with_bridge self.old (drained self.old.bridge) }
    {
        if let Some(buffer) = self.trash.take() {
            return Some(buffer);
        }
        self.out.take()
    }

    /// Ends the bridge, which holds no buffer.
    pub fn end(self)
        requires { holds self.bridge ≡ [] }
    {
        let Bridge {
            trash,
            out,
            to: _,
            doing: _,
        } = self;
        trash.end();
        out.end();
    }
}
