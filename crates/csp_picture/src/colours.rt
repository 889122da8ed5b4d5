//! The colours of frames.

ghost use Rattle.std.specs.Prelude.{◌≡◌, ◌<◌, length};
ghost use Rattle.csp_picture.specs.Colours.{colour_of, name_of, all_colours, is_harmed};
ghost use Rattle.csp_picture.specs.Style.{paint_of, tip_of};

use csp_happenings::Fate;

/// The colour of a frame, by what became of it.
#[derive(Clone, Copy)]
pub(crate) enum Colour {
    /// It came as it was, once and at once.
    Plain,
    /// It was lost.
    Lost,
    /// A bit of it was changed.
    Flipped,
    /// It came later.
    Delayed,
    /// It came more than once.
    Repeated,
    /// Its link took it before the window.
    Earlier,
}

/// All of them, in the order of the legend.
const COLOURS: [Colour; 6] = [
    Colour::Plain,
    Colour::Lost,
    Colour::Flipped,
    Colour::Delayed,
    Colour::Repeated,
    Colour::Earlier,
];

#[tactic(auto, unfolding(crate::specs::Colours::all_colours))]
/// All of them, in the order of the legend.
pub(crate) fn all_colours<'a>() -> &'a [Colour]
    ensures all { result.now ≡ all_colours }
    ensures few { length result.now < 100 }
{
    &COLOURS
}

impl Colour {
    /// The colour of a fate.
    pub(crate) fn of(fate: &Fate) -> Colour
        ensures { result ≡ colour_of fate.now }
    {
        if fate.lost {
            Colour::Lost
        } else if fate.flip.is_some() {
            Colour::Flipped
        } else if fate.delay > 0 {
            Colour::Delayed
        } else if fate.repeats > 0 {
            Colour::Repeated
        } else {
            Colour::Plain
        }
    }

    /// Its name.
    pub(crate) fn name(self) -> &'static str
        ensures { result.now ≡ name_of self }
    {
        match self {
            Colour::Plain => "plain",
            Colour::Lost => "lost",
            Colour::Flipped => "flipped",
            Colour::Delayed => "delayed",
            Colour::Repeated => "repeated",
            Colour::Earlier => "earlier",
        }
    }

    /// How it is mixed.
    pub(crate) fn paint(self) -> &'static str
        ensures { result.now ≡ paint_of self }
    {
        match self {
            Colour::Plain => "#1f5fbf",
            Colour::Lost => "#c62828",
            Colour::Flipped => "#8e24aa",
            Colour::Delayed => "#ef6c00",
            Colour::Repeated => "#2e7d32",
            Colour::Earlier => "#757575",
        }
    }

    /// What stands at the end of its lines.
    pub(crate) fn tip(self) -> &'static str
        ensures { result.now ≡ tip_of self }
    {
        match self {
            Colour::Lost => "M1 1L9 9M9 1L1 9",
            Colour::Plain
            | Colour::Flipped
            | Colour::Delayed
            | Colour::Repeated
            | Colour::Earlier => "M0 1L9 5L0 9z",
        }
    }
}

/// Whether a plan does anything to a frame of this fate.
pub(crate) fn is_harmed(fate: &Fate) -> bool
    ensures { result ≡ is_harmed fate.now }
{
    fate.lost || fate.flip.is_some() || fate.delay > 0 || fate.repeats > 0
}
