//! A bridge takes turns.

use crate::Bridge;
use csp_deck::{Circle, Party, Spares};
use csp_log::{Answer, Events, Op, QueueId};

impl Party for Bridge {
    ghost use Rattle.std.specs.Prelude.{⊤, false};
    ghost use Rattle.csp_bridge.specs.PlainBridge.{uses, holds, with_bridge};
    ghost use Rattle.csp_bridge.specs.Turns.{asks, asked, awaits, tells, events};

    ghost is_ready = { λ _ _. ⊤ };

    ghost is_waiting = { λ _ _. ⊤ };

    ghost awaits = { λ b. awaits b.bridge };

    ghost has_ended = { λ _. false };

    ghost uses = { λ b. uses b.bridge };

    ghost region = { λ b. b.region };

    ghost asks = { λ b now. asks b.bridge };

    ghost asked = { λ b now. with_bridge b (asked b.bridge) };

    ghost tells = { λ b now answer. with_bridge b (tells b.bridge answer) };

    ghost events = { λ b now answer. events b.bridge answer };

    ghost holds = { λ b. holds b.bridge };

    fn ask(&mut self, _now: u64) -> Op {
        self.ask_now()
    }

    fn look(&mut self, _now: u64) -> Option<QueueId> {
        self.look_now()
    }

    fn circle(&self, _now: u64) -> Circle {
        self.circle_now()
    }

    fn told(&mut self, answer: Answer, _now: u64, report: &mut Events, _spares: &mut Spares) {
        // Read for the checker alone, which then knows what holds of the fields before the call below.
        let _doing = &self.doing;
        self.told_now(answer, report)
    }

    fn ended(&self) -> bool {
        false
    }

    fn boxes(&self) -> u8 {
        0
    }
}
