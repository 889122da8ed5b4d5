//! A link takes turns.

use crate::Link;
use csp_deck::{Circle, Party, Spares};
use csp_log::{Answer, Events, Op, QueueId};

impl Party for Link {
    ghost use Rattle.std.specs.Prelude.{⊤, false, []};
    ghost use Rattle.csp_deck.specs.Regions.{nowhere};
    ghost use Rattle.csp_link.specs.PlainLink.{uses, count};
    ghost use Rattle.csp_link.specs.Stocking.{needs, stocks};
    ghost use Rattle.csp_link.specs.Turns.{asks, asked, awaits, tells, events};

    ghost is_ready = { λ _ _. ⊤ };

    ghost is_waiting = { λ _ _. ⊤ };

    ghost awaits = { awaits };

    ghost has_ended = { λ _. false };

    ghost uses = { uses };

    ghost count = { count };

    ghost needs = { needs };

    ghost stocks = { stocks };

    ghost region = { λ _. nowhere };

    ghost asks = { asks };

    ghost asked = { asked };

    ghost tells = { tells };

    ghost events = { events };

    ghost holds = { λ _. [] };

    #[tactic(auto, using(crate::proofs::Stocked::needs_asked))]
    fn ask(&mut self, now: u64) -> Op {
        self.ask_now(now)
    }

    #[tactic(auto, using(crate::proofs::Stocked::needs_asked))]
    fn look(&mut self, now: u64) -> Option<QueueId> {
        self.look_now(now)
    }

    fn circle(&self, now: u64) -> Circle {
        self.circle_now(now)
    }

    #[tactic(auto, using(crate::proofs::Stocked::needs_told))]
    fn told(&mut self, answer: Answer, now: u64, _report: &mut Events, spares: &mut Spares) {
        self.told_now(answer, now, spares)
    }

    fn miss(&mut self, _now: u64, _report: &mut Events, _spares: &mut Spares) {
        self.told_rest()
    }

    fn ended(&self) -> bool {
        false
    }

    fn boxes(&self) -> u8 {
        self.copies()
    }
}
