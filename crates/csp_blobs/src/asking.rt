//! What an application asks of its router, and what the router sends on a connection that was asked for.

ghost use Rattle.std.specs.Prelude.{◌≡◌};
ghost use Rattle.csp_blobs.specs.Asking.{AnswerNoMore, AreBlobsWhole, SendWhatComes, TellsOfBlobs, WaitForAnswers};
ghost use Rattle.csp_causal.specs.Causal.{IsCausal};
ghost use Rattle.csp_consistent.specs.Consistent.{IsConsistent};
ghost use Rattle.csp_record.specs.Passed.{passed};
ghost use Rattle.csp_record.specs.Record.{PlainRecord};
ghost use Rattle.csp_record.specs.Stale.{stale};
ghost use Rattle.csp_scene.specs.Ranges.{IsScene};
ghost use Rattle.csp_scene.specs.Scene.{PlainScene};

use crate::laws::collects_a_prefix_of_blobs;
use crate::sending::sends_pieces;
use csp_prefix::opens_on_slots;

/// A router has at no time answered an application more often than that had asked.
pub fn answers_no_more()
    ensures { AnswerNoMore }
{}

/// An application puts nothing before all that it asked was answered.
pub fn waits_for_answers()
    ensures { WaitForAnswers }
{}

/// A router sends on a reliable connection a beginning of what its application gives it on the slot once the connection is open.
pub fn sends_what_comes()
    ensures { SendWhatComes }
{}

/// In a record that is consistent with its scene and causal, and counts no stale copy and no changed packet: where a receiver collects on the slot of a
/// reliable connection, and its peer's was asked for by an application that sends blobs alone on its slot, it tells a beginning of the blobs of the steps
/// that follow the `connect`, each once and whole, and no refusal.
pub fn blobs_come_whole()
    ensures { (scene : PlainScene) (r : PlainRecord) → IsScene scene → IsConsistent scene r → IsCausal r → stale r ≡ 0 → passed r ≡ 0 → AreBlobsWhole scene r }
{
    answers_no_more();
    waits_for_answers();
    sends_what_comes();
    sends_pieces();
    opens_on_slots();
    collects_a_prefix_of_blobs();
}

/// So a record that is consistent with its scene tells of blobs, where it counts no stale copy and no changed packet.
pub fn tells_of_blobs()
    ensures { (scene : PlainScene) (r : PlainRecord) → IsScene scene → IsConsistent scene r → stale r ≡ 0 → passed r ≡ 0 → TellsOfBlobs scene r }
{
    collects_a_prefix_of_blobs();
    blobs_come_whole();
}
