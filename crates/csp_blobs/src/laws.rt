//! What a record tells of blobs.

ghost use Rattle.std.specs.Prelude.{◌≡◌};
ghost use Rattle.csp_blobs.specs.Blobs.{AreCollected, IsBlobPrefix};
ghost use Rattle.csp_consistent.specs.Consistent.{IsConsistent};
ghost use Rattle.csp_record.specs.Passed.{passed};
ghost use Rattle.csp_record.specs.Record.{PlainRecord};
ghost use Rattle.csp_record.specs.Stale.{stale};
ghost use Rattle.csp_scene.specs.Ranges.{IsScene};
ghost use Rattle.csp_scene.specs.Scene.{PlainScene};

use csp_prefix::{applications_are_true, opens_on_slots, takes_a_prefix};
use csp_sfp::collects_a_prefix;

/// On each connection of a slot on which its script collects, an application tells of the blobs that a new collector makes of the
/// payloads that were taken there, by their lengths and CRCs, and of why it refuses payloads of these; and on no other of any.
pub fn applications_collect()
    ensures { AreCollected }
{
    applications_are_true();
}

/// In a record that is consistent with its scene and counts no stale copy and no changed packet: where an application collects on the
/// slot of a reliable connection, and what was sent on its peer's connection is a beginning of the pieces of some blobs, in order, it
/// tells there of a beginning of these blobs, each once and whole, and of no refusal.
pub fn collects_a_prefix_of_blobs()
    ensures { (scene : PlainScene) (r : PlainRecord) → IsScene scene → IsConsistent scene r → stale r ≡ 0 → passed r ≡ 0 → IsBlobPrefix scene r }
{
    applications_collect();
    takes_a_prefix();
    opens_on_slots();
    collects_a_prefix();
}
