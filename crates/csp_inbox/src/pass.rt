//! The passes of an inbox.

use crate::rule::Port;
use std::marker::Model;

/// What one party knows of an inbox, which it needs to use it: the opening pass or one that was split off
/// with a mark. It has no bytes. An inbox cannot be closed without all of them. Contracts see it as a
/// `PlainPass`.
#[derive(Drop)]
pub struct InboxPass {
    pub(crate) critical: Port,
    pub(crate) high: Port,
    pub(crate) normal: Port,
    pub(crate) low: Port,
}

impl Model for InboxPass {
    ghost use Rattle.csp_inbox.specs.Passes.{PlainPass};

    ghost Value = { PlainPass };

    ghost use Rattle.csp_inbox.specs.Seen.{plain_pass, IsPass};

    ghost view = { plain_pass };

    ghost invariant = { IsPass };
}
