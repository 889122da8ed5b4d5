//! An interface takes turns.

use crate::Iface;
use csp_deck::{Circle, Party, Spares};
use csp_log::{Answer, Events, Op, QueueId};

impl Party for Iface {
    ghost use Rattle.std.specs.Prelude.{◌≡◌, ⊤, false};
    ghost use Rattle.csp_iface.specs.PlainIface.{uses, holds, with_iface};
    ghost use Rattle.csp_iface.specs.Asking.{asks, asked, awaits};
    ghost use Rattle.csp_iface.specs.Stocking.{stocks};
    ghost use Rattle.csp_iface.specs.Telling.{tells, events};
    ghost use Rattle.csp_iface.specs.declared.plan.IfacePlan.TheVariants as plan;

    ghost is_ready = { λ a _. a.iface.doing ≡ plan.Rest };

    ghost is_waiting = { λ _ _. ⊤ };

    ghost awaits = { λ a. awaits a.iface };

    ghost has_ended = { λ _. false };

    ghost uses = { λ a. uses a.iface };

    ghost count = { λ a. a.iface.serial };

    ghost region = { λ a. a.region };

    ghost needs = { λ _. 1 };

    ghost stocks = { λ a now answer spares. stocks a.iface now answer spares };

    ghost asks = { λ a now. asks a.iface now };

    ghost asked = { λ a now. with_iface a (asked a.iface now) };

    ghost tells = { λ a now answer. with_iface a (tells a.iface now answer) };

    ghost events = { λ a now answer. events a.iface now answer };

    ghost holds = { λ a. holds a.iface };

    fn ask(&mut self, _now: u64) -> Op {
        self.ask_now()
    }

    fn look(&mut self, _now: u64) -> Option<QueueId> {
        self.look_now()
    }

    fn circle(&self, _now: u64) -> Circle {
        self.circle_now()
    }

    fn told(&mut self, answer: Answer, now: u64, report: &mut Events, spares: &mut Spares) {
        // Read for the checker alone, which then knows what holds of the fields before the call below.
        let _doing = &self.doing;
        self.told_now(answer, now, report, spares)
    }

    fn miss(&mut self, now: u64, report: &mut Events, spares: &mut Spares) {
        // Read for the checker alone, which then knows what holds of the fields before the call below.
        let _doing = &self.doing;
        self.miss_now(now, report, spares)
    }

    fn ended(&self) -> bool {
        false
    }

    fn boxes(&self) -> u8 {
        1
    }
}
