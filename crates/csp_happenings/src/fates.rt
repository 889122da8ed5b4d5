//! What becomes of a frame.

ghost use Rattle.std.specs.Prelude.{◌≡◌};
ghost use Rattle.csp_link.specs.Fates.{unharmed, afflicted};

use csp_link::FaultKind;
use std::marker::Model;

/// What becomes of a frame, by the plan of its link. Contracts see it as a link's own fate of a frame.
#[derive(Clone, Copy)]
pub struct Fate {
    /// It is lost.
    pub lost: bool,
    /// How many copies of it come besides.
    pub repeats: u8,
    /// How many rounds later it goes on.
    pub delay: u32,
    /// The bit that is changed.
    pub flip: Option<u32>,
}

impl Model for Fate {
    ghost use Rattle.csp_link.specs.declared.fates.Fate.{Fate as Known};

    ghost Value = { Known };

    ghost view = { λ f. record { lost = f.lost; repeats = f.repeats; delay = f.delay; flip = f.flip } };

    ghost inverse = { λ f. record { lost = f.lost; repeats = f.repeats; delay = f.delay; flip = f.flip } };
}

impl Fate {
    /// Nothing happens to it.
    pub(crate) fn unharmed() -> Fate
        ensures { result ≡ unharmed }
    {
        Fate {
            lost: false,
            repeats: 0,
            delay: 0,
            flip: None,
        }
    }

    /// With a fault more.
    pub(crate) fn with(self, kind: FaultKind) -> Fate
        ensures { result ≡ afflicted kind self }
    {
        match kind {
            FaultKind::Lose => Fate { lost: true, ..self },
            FaultKind::Repeat(repeats) => Fate { repeats, ..self },
            FaultKind::Delay(delay) => Fate { delay, ..self },
            FaultKind::Flip(bit) => Fate {
                flip: Some(bit),
                ..self
            },
        }
    }
}
