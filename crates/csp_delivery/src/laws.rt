//! What an interface on a hub accepts.

ghost use Rattle.csp_consistent.specs.Addressed.{AreHopsOut};
ghost use Rattle.csp_consistent.specs.Consistent.{IsConsistent};
ghost use Rattle.csp_delivery.specs.Delivery.{AreFirstsCopied, AreFirstsOfOthers};
ghost use Rattle.csp_delivery.specs.Hubs.{DeliverOnHubs};
ghost use Rattle.csp_ordinary.specs.Words.{HasWords};
ghost use Rattle.csp_record.specs.Record.{PlainRecord};
ghost use Rattle.csp_scene.specs.Ranges.{IsScene};
ghost use Rattle.csp_scene.specs.Scene.{PlainScene};

use csp_ordinary::arrives_as_sent;

/// In a record that is consistent with its scene no more first frames of a transmission come over a hub to an interface than the hub's
/// plan makes copies of that frame, and none of a transmission of its own, nor of an interface that is not at the hub.
pub fn copies_first_frames()
    ensures few { (scene : PlainScene) (r : PlainRecord) → IsScene scene → IsConsistent scene r → AreFirstsCopied scene r }
    ensures none { (scene : PlainScene) (r : PlainRecord) → IsScene scene → IsConsistent scene r → AreFirstsOfOthers scene r }
{}

/// And what an interface on a hub accepts names a transmission of another interface of that hub which goes to its node or to every node,
/// each at most as often as the plan makes copies of its first frame; where the run was ordinary on the hub, it is what was sent.
pub fn delivers_on_hubs()
    ensures { (scene : PlainScene) (r : PlainRecord) → IsScene scene → IsConsistent scene r → HasWords r → AreHopsOut r → DeliverOnHubs scene r }
{
    copies_first_frames();
    arrives_as_sent();
}
