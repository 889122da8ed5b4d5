//! What follows for a consistent record whose run was ordinary.

ghost use Rattle.csp_consistent.specs.Addressed.{AreHopsOut};
ghost use Rattle.csp_consistent.specs.Consistent.{IsConsistent};
ghost use Rattle.csp_consistent.specs.Reading.{entries_of, puts};
ghost use Rattle.csp_log.specs.declared.places.End.{End};
ghost use Rattle.csp_log.specs.declared.places.QueueId.TheVariants as queue;
ghost use Rattle.csp_ordinary.specs.AsSent.{IsPacketAsSent};
ghost use Rattle.csp_ordinary.specs.Ordinary.{AreSourcesApart, HasNoFlips, HasNoHubs, IsOrdinary, IsOrdinaryOn, IsUndamaged};
ghost use Rattle.csp_ordinary.specs.Words.{HasWords};
ghost use Rattle.csp_record.specs.Passed.{passed};
ghost use Rattle.csp_record.specs.Record.{PlainRecord};
ghost use Rattle.csp_log.specs.declared.who.Who.TheVariants as who;
ghost use Rattle.csp_scene.specs.Kept.{AreLinksAfter};
ghost use Rattle.csp_scene.specs.Ranges.{IsScene};
ghost use Rattle.csp_scene.specs.Scene.{PlainLink, PlainScene};
ghost use Rattle.std.specs.List.{AllByRecursion};
ghost use Rattle.std.specs.Prelude.{◌≡◌, ℕ, Some, [], length, slice_get};

/// Where no line of a scenario flips a bit, no link or hub harmed a frame.
pub fn undamaged_without_flips()
    ensures { (scene : PlainScene) (r : PlainRecord) → HasNoFlips scene → IsUndamaged scene r }
{}

/// Where no line of a scenario states a hub, the sources on each hub are apart.
pub fn apart_without_hubs()
    ensures { (scene : PlainScene) (r : PlainRecord) → HasNoHubs scene → AreSourcesApart scene r }
{}

/// In a record that is consistent with its scene, on a link or hub on which the run was ordinary, each packet that the interface at an
/// end put into its inbox has the header and the payload of the transmission that its origin names.
pub fn arrives_as_sent()
    ensures { (scene : PlainScene) (r : PlainRecord) → IsScene scene → IsConsistent scene r → HasWords r → AreHopsOut r → (number : ℕ) (l : PlainLink) (at : ℕ) (end : End) → slice_get scene.links number ≡ Some l → slice_get l.ends at ≡ Some end → IsOrdinaryOn r number l → AllByRecursion (IsPacketAsSent r) (puts queue.Inbox (entries_of r (who.Iface end.node end.iface))) }
{}

/// A record that is consistent with its scene, and whose run was ordinary, counts no packet that passed a link changed: each that an
/// interface handed to its inbox has the header and the payload of the transmission that its origin names.
pub fn passes_nothing()
    ensures { (scene : PlainScene) (r : PlainRecord) → IsScene scene → AreLinksAfter (length scene.nodes) [] scene.links → IsConsistent scene r → HasWords r → AreHopsOut r → IsOrdinary scene r → passed r ≡ 0 }
{}
