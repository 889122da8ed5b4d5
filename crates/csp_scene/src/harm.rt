//! What faults do, apart from how often, how long and where.

ghost use Rattle.std.specs.Prelude.{◌≡◌};
ghost use Rattle.csp_scene.specs.Faults.{harm_of};

use csp_link::FaultKind;

/// What a fault does to its frame.
#[derive(Clone, Copy, PartialEq, Eq, PartialOrd, Ord)]
pub(crate) enum Harm {
    /// It is lost.
    Lose,
    /// It arrives more than once.
    Repeat,
    /// It goes on later.
    Delay,
    /// A bit of it is changed.
    Flip,
}

impl Harm {
    /// What a fault of this kind does.
    pub(crate) fn of(kind: FaultKind) -> Harm
        ensures { result ≡ harm_of kind }
    {
        match kind {
            FaultKind::Lose => Harm::Lose,
            FaultKind::Repeat(_) => Harm::Repeat,
            FaultKind::Delay(_) => Harm::Delay,
            FaultKind::Flip(_) => Harm::Flip,
        }
    }
}
