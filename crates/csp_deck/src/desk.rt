//! What a turn writes on.

ghost use Rattle.std.specs.Prelude.{◌≡◌, [], IfOk};
ghost use Rattle.csp_log.specs.PlainDraft.{drafted};

use crate::{Draft, Events, OpShown};
use std::alloc::{AllocError, Global};

/// The draft of an entry and a list of events: one desk serves all turns of a world, or of a thread.
#[derive(Drop)]
pub struct Desk {
    /// What the turn asks and is answered.
    pub(crate) draft: Draft,
    /// What its party reports.
    pub(crate) report: Events,
}

impl Desk {
    /// A desk with its room, on which nothing is written.
    ///
    /// # Errors
    /// Want of memory.
    pub fn open(alloc: Global) -> Result<Desk, AllocError>
        ensures { IfOk result (λ d. (d.draft ≡ drafted OpShown.Nothing) × (d.report.items ≡ [])) }
    {
        Ok(Desk {
            draft: Draft::open(alloc)?,
            report: Events::new(),
        })
    }
}
