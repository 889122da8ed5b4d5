//! The pass of a pool.

ghost use Rattle.std.specs.Prelude.{ℕ, List};
ghost use Rattle.std.specs.Borrow.{ftrue};
ghost use Rattle.csp_arena.specs.Cells.{RegionName};
ghost use Rattle.csp_pool.specs.Tallies.{Tally};

use csp_buffer::Buffer;
use csp_ring::Pass;
use std::marker::Model;

/// What a pass of a pool, or a note that goes from one pass to another, has done and knows. No value of it is made.
pub struct Hand {
    /// The region of the pool's buffers.
    pub ghost region: { RegionName },
    /// 1 of the opening pass, else 0.
    pub ghost opens: { ℕ },
    /// 1 of a pass that was split off, else 0.
    pub ghost part: { ℕ },
    /// How many passes were split off from it and not joined yet.
    pub ghost out: { ℕ },
    /// The numbers of the buffers that it put in, in order: of the opening pass also those at the opening.
    pub ghost put: { List ℕ },
    /// The numbers of the buffers that it took, in order.
    pub ghost taken: { List ℕ },
    /// What it tells and knows of the puts of all passes.
    pub ghost puts: { Tally },
    /// What it tells and knows of the takes of all passes.
    pub ghost takes: { Tally },
}

impl Model for Hand {
    ghost also_owns = { λ _. ftrue };
}

/// A pass of a pool: one thread's right to use it. It has no bytes.
///
/// Contracts see the pool's name and the `Hand`. Every pass of a pool but the one that opened it was split off from
/// that one, and the pool closes only once all have been joined again.
#[derive(Drop)]
pub struct PoolPass {
    pub(crate) pass: Pass<Buffer, Hand>,
}

impl Model for PoolPass {
    ghost use Rattle.std.specs.Prelude.{◌≡◌, []};
    ghost use Rattle.crossbeam_queue.specs.Passes.{view as seen};
    ghost use Rattle.csp_pool.specs.Hands.{IsLive};
    ghost use Rattle.csp_pool.specs.PlainPool.{PlainPass};

    ghost Value = { PlainPass };

    ghost view = { λ p. record { pool = p.pass.table_id; hand = seen p.pass } };

    ghost invariant = { λ p. (p.pass.me.1 ≡ []) × IsLive (seen p.pass) };
}
