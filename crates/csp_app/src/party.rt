//! An application takes turns.

use crate::App;
use csp_deck::{Circle, Party, Spares};
use csp_log::{Answer, Events, Op, QueueId};

impl Party for App {
    ghost use Rattle.std.specs.Prelude.{⊤};
    ghost use Rattle.csp_app.specs.PlainApp.{has_ended, uses, count, holds, with_app};
    ghost use Rattle.csp_app.specs.Asking.{asks, asked, awaits};
    ghost use Rattle.csp_app.specs.Telling.{tells, events};

    ghost is_ready = { λ _ _. ⊤ };

    ghost is_waiting = { λ _ _. ⊤ };

    ghost awaits = { λ a. awaits a.app };

    ghost has_ended = { λ a. has_ended a.app };

    ghost uses = { λ a. uses a.app };

    ghost count = { λ a. count a.app };

    ghost region = { λ a. a.region };

    ghost asks = { λ a now. asks a.app now };

    ghost asked = { λ a now. with_app a (asked a.app now) };

    ghost tells = { λ a now answer. with_app a (tells a.app now answer) };

    ghost events = { λ a now answer. events a.app now answer };

    ghost holds = { λ a. holds a.app };

    fn ask(&mut self, now: u64) -> Op {
        // Read for the checker alone, which then knows what holds of the fields before the call below.
        let _doing = &self.doing;
        self.ask_now(now)
    }

    fn look(&mut self, now: u64) -> Option<QueueId> {
        // Read for the checker alone, which then knows what holds of the fields before the call below.
        let _doing = &self.doing;
        self.look_now(now)
    }

    fn circle(&self, now: u64) -> Circle {
        self.circle_now(now)
    }

    fn told(&mut self, answer: Answer, now: u64, report: &mut Events, _spares: &mut Spares) {
        let _doing = &self.doing;
        self.told_now(answer, now, report)
    }

    fn miss(&mut self, now: u64, report: &mut Events, _spares: &mut Spares) {
        let _doing = &self.doing;
        self.told_empty(now, report)
    }

    fn ended(&self) -> bool {
        self.is_done()
    }

    fn boxes(&self) -> u8 {
        0
    }
}
