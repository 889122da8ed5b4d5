//! The inbox of a node.

ghost use Rattle.std.specs.Prelude.{◌≡◌, ◌<◌, IfOk};
ghost use Rattle.csp_inbox.specs.Passes.{opening_pass};
ghost use Rattle.csp_opening.specs.Opened.{IsMail};

use csp_arena::RegionToken;
use csp_ending::InboxRoom;
use csp_inbox::{Inbox, InboxPass};
use std::alloc::{AllocError, Global};
use std::sync::Wait;

/// An inbox, the pass that opened it, and the room that its end needs. It must be spent by `leave`, or taken apart.
pub(crate) struct Mail {
    /// The inbox.
    pub inbox: Inbox,
    /// The pass.
    pub pass: InboxPass,
    /// The room.
    pub room: InboxRoom,
}

impl Mail {
    /// An inbox with room for so many packets of each priority, for buffers of this region.
    pub(crate) fn open(alloc: Global, region: &RegionToken, count: u16) -> Result<Mail, AllocError>
        requires { 0 < count }
        ensures inbox { IfOk result (λ m. m.inbox.room ≡ count) }
        ensures pass { IfOk result (λ m. m.pass ≡ opening_pass m.inbox region.now.name) }
        ensures room { IfOk result (λ m. m.room ≡ count) }
    {
        let room = InboxRoom::open(alloc, count)?;
        match Inbox::open(alloc, region, count) {
            Ok((inbox, pass)) => Ok(Mail { inbox, pass, room }),
            Err(error) => {
                room.leave();
                Err(error)
            }
        }
    }

    /// Closes it.
    pub(crate) fn leave<R: Wait>(self, rt: &R)
        requires { IsMail self }
    {
        let Mail { inbox, pass, room } = self;
        room.close(rt, inbox, pass);
    }
}
