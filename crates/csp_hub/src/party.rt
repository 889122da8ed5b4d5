//! A hub takes turns.

use crate::Hub;
use csp_deck::{Circle, Party, Spares};
use csp_log::{Answer, Events, Op, QueueId};

impl Party for Hub {
    ghost use Rattle.std.specs.Prelude.{⊤, false, []};
    ghost use Rattle.csp_deck.specs.Regions.{nowhere};
    ghost use Rattle.csp_hub.specs.PlainHub.{uses, count};
    ghost use Rattle.csp_hub.specs.Asking.{asks, asked, awaits};
    ghost use Rattle.csp_hub.specs.Stocking.{needs, stocks};
    ghost use Rattle.csp_hub.specs.Telling.{tells, events};

    ghost is_ready = { λ _ _. ⊤ };

    ghost is_waiting = { λ _ _. ⊤ };

    ghost awaits = { awaits };

    ghost has_ended = { λ _. false };

    ghost uses = { uses };

    ghost count = { count };

    ghost needs = { needs };

    ghost stocks = { stocks };

    ghost region = { λ _. nowhere };

    ghost asks = { asks };

    ghost asked = { asked };

    ghost tells = { tells };

    ghost events = { events };

    ghost holds = { λ _. [] };

    #[tactic(auto, using(crate::proofs::Stocked::needs_asked, crate::proofs::Ends::uses_asked, crate::proofs::Ends::count_asked))]
    fn ask(&mut self, now: u64) -> Op {
        self.ask_now(now)
    }

    #[tactic(auto, using(crate::proofs::Stocked::needs_asked, crate::proofs::Ends::uses_asked, crate::proofs::Ends::count_asked))]
    fn look(&mut self, now: u64) -> Option<QueueId> {
        self.look_now(now)
    }

    fn circle(&self, now: u64) -> Circle {
        self.circle_now(now)
    }

    #[tactic(auto, using(crate::proofs::Stocked::needs_told, crate::proofs::Ends::uses_told, crate::proofs::Ends::count_tells))]
    fn told(&mut self, answer: Answer, now: u64, _report: &mut Events, spares: &mut Spares) {
        self.told_now(answer, now, spares)
    }

    #[tactic(auto, using(crate::proofs::Stocked::needs_told, crate::proofs::Ends::uses_told, crate::proofs::Ends::count_tells))]
    fn miss(&mut self, _now: u64, _report: &mut Events, _spares: &mut Spares) {
        self.told_rest()
    }

    fn ended(&self) -> bool {
        false
    }

    fn boxes(&self) -> u8 {
        self.most_boxes()
    }
}
