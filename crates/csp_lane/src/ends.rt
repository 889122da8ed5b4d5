//! The two ends of a lane.

ghost use Rattle.std.specs.Prelude.{◌≡◌, IfSome, length};
ghost use Rattle.csp_lane.specs.Marks.{reached};

use crate::rule::Port;
use csp_tally::{Tally, TallyName, Witness};
use std::marker::Model;

/// The end that puts. A lane cannot be closed without it. Contracts see it as a `PlainEnd`.
#[derive(Drop)]
pub struct Producer {
    pub(crate) pass: Port,
    pub(crate) tally: Tally,
}

impl Model for Producer {
    ghost use Rattle.csp_lane.specs.Ends.{PlainEnd};

    ghost Value = { PlainEnd };

    ghost use Rattle.csp_lane.specs.Seen.{plain_producer, IsProducer};

    ghost view = { plain_producer };

    ghost invariant = { IsProducer };
}

/// The end that gets. A lane cannot be closed without it. Contracts see it as a `PlainEnd`.
#[derive(Drop)]
pub struct Consumer {
    pub(crate) pass: Port,
    pub(crate) tally: TallyName,
    pub(crate) heard: Option<Witness>,
}

impl Model for Consumer {
    ghost use Rattle.csp_lane.specs.Ends.{PlainEnd};

    ghost Value = { PlainEnd };

    ghost use Rattle.csp_lane.specs.Seen.{plain_consumer, IsConsumer};

    ghost view = { plain_consumer };

    ghost invariant = { IsConsumer };
}

impl Consumer {
    /// Names the tally of its lane.
    pub fn tally(&self) -> TallyName
        ensures { result.name ≡ self.now.tally }
    {
        self.tally.copy()
    }

    /// The last item that it got, as an item of another lane may tell of it: none before the first.
    pub fn heard(&mut self) -> Option<Witness>
        ensures same { self.new ≡ self.old }
        ensures name { IfSome result (λ w. w.name ≡ self.old.tally) }
        ensures count { reached result ≡ length self.old.items }
    {
        match &mut self.heard {
            Some(witness) => Some(witness.again()),
            None => None,
        }
    }
}
