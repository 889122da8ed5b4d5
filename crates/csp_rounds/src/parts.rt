//! A round of a list of workers.

ghost use Rattle.std.specs.Prelude.{◌≡◌, ℕ, ◌*◌, ◌^◌, ◌/◌, ◌<◌, ◌≤◌, length};
ghost use Rattle.csp_rounds.specs.Rounds.{AreReady, HaveDone};

use crate::{Gate, Worker};
use std::sync::Wait;
use std::thread;
use std::thread::Threads;

/// Makes one round of each post of the list, which isn't empty, at the time `now`.
///
/// The list is cut into consecutive parts of `posts.len() / workers` posts, rounded up; the last part may be shorter,
/// and there may be fewer parts than workers. Worker k, counted from 0, passes the gate with k, makes one round of each
/// post of part k, in order, and then tells the gate with k that it is done.
///
/// The last worker is the caller, and each other one a new thread. Where no thread can be made, whoever asked for it
/// does that work itself, after its own; then a gate at which a worker waits for one before it isn't passed, unless
/// the gate gives up. All is done at the return, and nothing can be refused. No clause says that threads really run.
pub fn rounds<R: Threads + Wait + Sync, W: Worker, G: Gate>(
    rt: &R,
    shared: &W::Shared,
    posts: &mut [W],
    workers: u32,
    gate: &G,
    now: u64,
)
    requires posts { 0 < length posts.old }
    requires workers { 1 ≤ workers }
    requires ready { AreReady W.is_ready shared.now now posts.old }
    ensures done { HaveDone W.does shared.now now posts.old posts.new }
{
    let size = posts.len().div_ceil(workers as usize);
    let work = move |start: usize, part: &mut [W]|
        requires { (0 < size) × (start / size < 2 ^ 32) × AreReady W.is_ready shared.now now part.now }
        ensures { HaveDone W.does shared.entry.now now part.entry.now part.exit.now }
    { round_of_part(rt, shared, part, (start / size) as u32, gate, now) };
    thread::for_each_chunk_mut(rt, posts, size, &work);
}

/// The part of a round that the worker of this number makes.
fn round_of_part<R: Wait, W: Worker, G: Gate>(
    rt: &R,
    shared: &W::Shared,
    part: &mut [W],
    worker: u32,
    gate: &G,
    now: u64,
)
    requires { AreReady W.is_ready shared.now now part.old }
    ensures { HaveDone W.does shared.now now part.old part.new }
{
    gate.pass(worker);
    round_of_each(rt, shared, part, now);
    gate.done(worker);
}

/// One round of each of these posts, in order.
fn round_of_each<R: Wait, W: Worker>(rt: &R, shared: &W::Shared, posts: &mut [W], now: u64)
    requires { AreReady W.is_ready shared.now now posts.old }
    ensures { HaveDone W.does shared.now now posts.old posts.new }
{
    for post in posts {
        post.round(rt, shared, now);
    }
}
