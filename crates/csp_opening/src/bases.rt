//! The memory of a node and its pool.

ghost use Rattle.std.specs.Prelude.{◌≡◌, ◌<◌, ◌≤◌, IfOk};
ghost use Rattle.csp_opening.specs.Opened.{IsBase};

use csp_ending::Store;
use csp_pool::{Pool, PoolPass};
use std::alloc::{AllocError, Global};
use std::sync::Wait;

/// The memory of a node, and its pool with the pass that opened it. It must be spent by `leave`, or taken apart.
pub(crate) struct Base {
    /// The memory.
    pub store: Store,
    /// The pool, in which all its buffers are.
    pub pool: Pool,
    /// The pass.
    pub pass: PoolPass,
}

impl Base {
    /// Memory for so many buffers, with this room for those that come back, and a pool of them.
    pub(crate) fn open<R: Wait>(
        rt: &R,
        alloc: Global,
        count: u16,
        room: usize,
    ) -> Result<Base, AllocError>
        requires some { 0 < count }
        requires room { count ≤ room }
        ensures whole { IfOk result IsBase }
        ensures count { IfOk result (λ b. b.store.count ≡ count) }
        ensures room { IfOk result (λ b. b.store.room ≡ room) }
    {
        let (store, buffers) = Store::open(alloc, count, room)?;
        match Pool::open(rt, alloc, store.token(), buffers) {
            Ok((pool, pass)) => Ok(Base { store, pool, pass }),
            Err((error, buffers)) => {
                store.close(buffers);
                Err(error)
            }
        }
    }

    /// Closes both.
    pub(crate) fn leave<R: Wait>(self, rt: &R)
        requires { IsBase self }
    {
        let Base {
            mut store,
            pool,
            pass,
        } = self;
        let _places = store.end_pool(rt, pool, pass);
        store.leave();
    }
}
