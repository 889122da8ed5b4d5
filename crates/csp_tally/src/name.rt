//! A tally's name, handed about for contracts alone.

ghost use Rattle.std.specs.Prelude.{◌≡◌, ℕ};
ghost use Rattle.std.specs.Borrow.{ftrue};

use crate::Tally;
use std::marker::Model;

/// Names a tally to contracts. It takes no memory and owns nothing.
#[derive(Drop)]
pub struct TallyName {
    pub ghost name: { ℕ },
}

impl Model for TallyName {
    ghost also_owns = { λ _. ftrue };
}

// It owns nothing.
unsafe impl Send for TallyName {}

// It owns nothing.
unsafe impl Sync for TallyName {}

impl TallyName {
    /// The name of this tally.
    pub fn of(tally: &Tally) -> TallyName
        ensures { result.name ≡ tally.now.name }
    {
        TallyName {}
    }

    /// Another one of the same name.
    pub fn copy(&self) -> TallyName
        ensures { result ≡ self.now }
    {
        TallyName {}
    }
}
