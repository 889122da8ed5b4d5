//! The end of a network's run.

ghost use Rattle.std.specs.Prelude.{[], length, map};
ghost use Rattle.csp_scene.specs.Kept.{AreLinksAfter};
ghost use Rattle.csp_scene.specs.Ranges.{IsScene};
ghost use Rattle.csp_scene.specs.Scene.{PlainScene};
ghost use Rattle.csp_standing.specs.Fabrics.{IsFabricOf};
ghost use Rattle.csp_telling.specs.Closed.{IsClosed};

use crate::parties::{end_parties, end_stores};
use crate::queues::end_queues;
use crate::retiring::retire;
use crate::times::rounds_of;
use csp_lists::weighs;
use csp_posts::{Post, are_finished};
use csp_record::Record;
use csp_standing::Fabric;
use csp_telling::returns_all;
use csp_topology::{joins_parties, names_parties_apart, puts_leaders_first, stays_home};
use std::sync::Wait;

/// Ends the run of a network with all its posts: what was left in each queue and what each place held is noted, every buffer is
/// taken back, and the memory of each node is given back. It takes no memory.
pub fn close_fabric<R: Wait>(rt: &R, fabric: Fabric, posts: Vec<Post>) -> Record
    requires { (scene : PlainScene) × IsScene scene × AreLinksAfter (length scene.nodes) [] scene.links × IsFabricOf scene fabric posts.items }
    ensures { (scene : PlainScene) → IsScene scene → AreLinksAfter (length scene.nodes) [] scene.links → IsFabricOf scene fabric posts.items → IsClosed scene (map (λ s. s.plain) posts.items) result }
{
    joins_parties();
    puts_leaders_first();
    names_parties_apart();
    returns_all();
    stays_home();
    weighs();
    let finished = are_finished(&posts);
    let Fabric {
        queues,
        mut stores,
        rooms,
        wires,
        mut notes,
        mut logs,
        mut retired,
    } = fabric;
    retire(posts, &mut retired);
    end_queues(
        rt,
        queues,
        rooms,
        &wires,
        &mut retired,
        &mut stores,
        &mut notes,
    );
    end_parties(retired, &mut stores, &mut logs, &mut notes);
    end_stores(stores, &mut notes);
    let rounds = rounds_of(&logs);
    let (left, held) = notes.into_lists();
    Record {
        parties: logs,
        left,
        held,
        rounds,
        finished,
    }
}
