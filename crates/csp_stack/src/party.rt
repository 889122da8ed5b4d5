//! The router takes turns.

use crate::Stack;
use crate::circle::circle;
use crate::turn::{begin, finish, look, miss};
use csp_deck::{Answer, Circle, Events, Op, Party, QueueId, Spares};
use csp_ports::counts;

impl Party for Stack {
    ghost use Rattle.std.specs.Prelude.{⊤, false};
    ghost use Rattle.csp_stack.specs.Party.{asks_of, asked_of, awaits_of, count_of, events_of, rules_of, told_of, waits_of};
    ghost use Rattle.csp_stack.specs.Router.{holds, with_router};

    ghost is_ready = { λ _ _. ⊤ };

    ghost is_waiting = { λ r now. waits_of r.router now };

    ghost awaits = { λ r. awaits_of r.router };

    ghost has_ended = { λ _. false };

    ghost uses = { λ r. rules_of r.router.facts };

    ghost count = { λ r. count_of r.router };

    ghost region = { λ r. r.region };

    ghost asks = { λ r now. asks_of r.router now };

    ghost asked = { λ r now. with_router r (asked_of r.router now) };

    ghost tells = { λ r now answer. with_router r (told_of r.router now answer) };

    ghost events = { λ r now answer. events_of r.router now answer };

    ghost holds = { λ r. holds r.router.state };

    fn ask(&mut self, now: u64) -> Op {
        counts();
        begin(&self.facts, &mut self.state, now)
    }

    fn look(&mut self, now: u64) -> Option<QueueId> {
        counts();
        look(&self.facts, &mut self.state, now)
    }

    fn circle(&self, now: u64) -> Circle {
        counts();
        circle(&self.facts, &self.state, now)
    }

    fn told(&mut self, answer: Answer, now: u64, report: &mut Events, _spares: &mut Spares) {
        counts();
        finish(&self.facts, &mut self.state, now, answer, report);
    }

    fn miss(&mut self, now: u64, report: &mut Events, _spares: &mut Spares) {
        counts();
        miss(&self.facts, &mut self.state, now, report);
    }

    fn ended(&self) -> bool {
        false
    }

    fn boxes(&self) -> u8 {
        0
    }
}
