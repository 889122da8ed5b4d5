//! Which steps may share a slot of an application.

ghost use Rattle.std.specs.Prelude.{◌≡◌};
ghost use Rattle.std.specs.List.{list_any};
ghost use Rattle.csp_app.specs.Collecting.{collects_on};
ghost use Rattle.csp_app.specs.Placing.{plain_step};
ghost use Rattle.csp_scene.specs.Sharing.{sends_packets, sends_blobs, takes_packets, excludes, joins, AreUnmixed};

use csp_app::{Script, Step};

/// Whether a step sends packets on this slot, each as the step says.
fn sends_packets(step: &Step<'_>, slot: u8) -> bool
    ensures { result ≡ sends_packets slot (plain_step step.now) }
{
    match step {
        Step::Send { slot: own, .. } | Step::Burst { slot: own, .. } => *own == slot,
        _ => false,
    }
}

/// Whether a step sends a blob on this slot.
fn sends_blobs(step: &Step<'_>, slot: u8) -> bool
    ensures { result ≡ sends_blobs slot (plain_step step.now) }
{
    match step {
        Step::Blob { slot: own, .. } => *own == slot,
        _ => false,
    }
}

/// Whether a step waits for packets of this slot.
fn takes_packets(step: &Step<'_>, slot: u8) -> bool
    ensures { result ≡ takes_packets slot (plain_step step.now) }
{
    match step {
        Step::Recv { slot: own, .. } => *own == slot,
        _ => false,
    }
}

/// Whether a step collects the blobs of this slot.
fn collects_on(step: &Step<'_>, slot: u8) -> bool
    ensures { result ≡ collects_on slot (plain_step step.now) }
{
    match step {
        Step::Collect { slot: own, .. } => *own == slot,
        _ => false,
    }
}

/// Whether two steps never stand together in one application.
fn excludes(step: &Step<'_>, other: &Step<'_>) -> bool
    ensures { result ≡ excludes (plain_step step.now) (plain_step other.now) }
{
    match step {
        Step::Send { slot, .. } | Step::Burst { slot, .. } => sends_blobs(other, *slot),
        Step::Blob { slot, .. } => sends_packets(other, *slot),
        Step::Recv { slot, .. } => collects_on(other, *slot),
        Step::Collect { slot, .. } => takes_packets(other, *slot),
        _ => false,
    }
}

/// Whether no step that a step excludes stands together with another step, since that one uses the same slot in the
/// same way; nor with any, where a step excludes none.
fn joins(step: &Step<'_>, other: &Step<'_>) -> bool
    ensures { result ≡ joins (plain_step step.now) (plain_step other.now) }
{
    match step {
        Step::Send { slot, .. } | Step::Burst { slot, .. } => sends_packets(other, *slot),
        Step::Blob { slot, .. } => sends_blobs(other, *slot),
        Step::Recv { slot, .. } => takes_packets(other, *slot),
        Step::Collect { slot, .. } => collects_on(other, *slot),
        _ => true,
    }
}

/// Whether a step never stands together with one of these, which may stand together. The last of them that uses the
/// step's slot tells it.
#[tactic(auto, using(crate::proofs::Unmixed::excluded_at, crate::proofs::Unmixed::joined_at, crate::proofs::Unmixed::one_more))]
pub(crate) fn is_excluded(script: &Script, step: &Step<'_>) -> bool
    requires { AreUnmixed script.now }
    ensures { result ≡ list_any (excludes (plain_step step.now)) script.now }
{
    let mut number = script.len();
    while 0 < number {
        number -= 1;
        let other = script.step(number);
        if excludes(step, &other) {
            return true;
        }
        if joins(step, &other) {
            return false;
        }
    }
    false
}
