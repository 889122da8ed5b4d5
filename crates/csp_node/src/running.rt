//! The run of a network, round by round, which threads share out.

ghost use Rattle.std.specs.Prelude.{◌≡◌, ◌+◌, ◌^◌, ◌<◌, ◌≤◌, ℕ, [], false, IfOk, OnOk, length, map};
ghost use Rattle.std.specs.List.{AllByRecursion};
ghost use Rattle.csp_causal.specs.Causal.{IsCausal};
ghost use Rattle.csp_consistent.specs.Threaded.{IsThreaded};
ghost use Rattle.csp_node.specs.Rounds.{HasRun, IsBetween, plains, weight};
ghost use Rattle.csp_node.specs.Runs.{HasStopped};
ghost use Rattle.csp_record.specs.Whole.{IsWhole};
ghost use Rattle.csp_scene.specs.Kept.{AreLinksAfter};
ghost use Rattle.csp_scene.specs.Ranges.{IsScene};
ghost use Rattle.csp_scene.specs.Scene.{PlainScene};
ghost use Rattle.csp_standing.specs.Fabrics.{IsFabricOf};
ghost use Rattle.csp_standing.specs.Played.{are_done};

use crate::Network;
use crate::laws::{makes_rounds, meets_ready, starts_rounds, tells_run};
use crate::logs::{make_room, weight};
use csp_posts::{Post, ROUND_TURNS, are_finished};
use csp_record::Record;
use csp_rounds::{Gate, rounds};
use csp_scene::{MAX_UNTIL, Scene};
use csp_topology::counts_parties;
use std::alloc::{AllocError, Global};
use std::sync::Wait;
use std::thread::Threads;

/// Runs a scene by rounds, in which so many workers share out the parties: before each round there is made room in each log, and all posts
/// meet. It ends where every application has ended; else where the entries of all logs weigh this much together; else after the scene's rounds.
///
/// # Errors
/// Want of memory; the network is closed then as at any other end.
pub fn run<R: Threads + Wait + Sync, G: Gate>(
    rt: &R,
    alloc: Global,
    scene: &Scene,
    workers: u32,
    gate: &G,
    limit: u64,
) -> Result<Record, AllocError>
    requires scene { IsScene scene.now }
    requires links { AreLinksAfter (length scene.now.nodes) [] scene.now.links }
    requires workers { 1 ≤ workers }
    requires limit { limit ≤ 2 ^ 31 }
    ensures threaded { IfOk result (λ r. IsThreaded scene.now r) }
    ensures causal { IfOk result IsCausal }
    ensures whole { IfOk result (λ r. IsWhole (map (λ n. n.buffers) scene.now.nodes) r) }
    ensures stopped { IfOk result (λ r. HasStopped scene.now.until limit r) }
{
    starts_rounds();
    tells_run();
    let (network, mut posts) = match Network::open(rt, alloc, scene) {
        Ok(opened) => opened,
        Err(error) => return Err(error),
    };
    let ran = make_rounds(
        rt,
        &network,
        posts.as_mut_slice(),
        scene,
        workers,
        gate,
        limit,
    );
    let record = network.close(rt, posts);
    match ran {
        Ok(()) => Ok(record),
        Err(error) => Err(error),
    }
}

/// Makes the rounds of a network in which nothing has happened.
///
/// # Errors
/// Want of memory.
fn make_rounds<R: Threads + Wait + Sync, G: Gate>(
    rt: &R,
    network: &Network,
    posts: &mut [Post],
    scene: &Scene,
    workers: u32,
    gate: &G,
    limit: u64,
) -> Result<(), AllocError>
    requires scene { IsScene scene.now }
    requires workers { 1 ≤ workers }
    requires limit { limit ≤ 2 ^ 31 }
    requires opened { IsBetween scene.now network.now.fabric limit 0 posts.old }
    ensures fabric { IsFabricOf scene.now network.now.fabric posts.new }
    ensures run { OnOk result (HasRun scene.now network.now.fabric limit posts.new) }
{
    counts_parties();
    for round in 0..u64::from(scene.until) {
        if are_finished(posts) {
            return Ok(());
        }
        if weight(posts) >= limit {
            return Ok(());
        }
        make_room(posts)?;
        make_round(rt, network, posts, workers, gate, round);
    }
    Ok(())
}

/// Makes one round: all posts meet, and then each takes its turns, all at this time.
fn make_round<R: Threads + Wait + Sync, G: Gate>(
    rt: &R,
    network: &Network,
    posts: &mut [Post],
    workers: u32,
    gate: &G,
    now: u64,
)
    requires between { (scene : PlainScene) × (limit : ℕ) × IsBetween scene network.now.fabric limit now posts.old }
    requires unfinished { are_done (plains posts.old) ≡ false }
    requires room { AllByRecursion (λ s. ROUND_TURNS ≤ s.spare) posts.old }
    requires workers { 1 ≤ workers }
    requires early { now < MAX_UNTIL }
    ensures { (scene : PlainScene) (limit : ℕ) → IsBetween scene network.now.fabric limit now posts.old → weight (plains posts.old) < limit → IsBetween scene network.now.fabric limit (now + 1) posts.new }
{
    meets_ready();
    makes_rounds();
    network.meet(posts);
    rounds(rt, &network.fabric.queues, posts, workers, gate, now);
}
