//! How a pool is opened.

ghost use Rattle.std.specs.Prelude.{◌≡◌, ◌<◌, length, IfOk, IfErr};
ghost use Rattle.csp_buffer.specs.Memory.{AreAllOf};
ghost use Rattle.csp_pool.specs.Hands.{opening_hand};
ghost use Rattle.csp_pool.specs.PlainPool.{numbers};

use crate::hand::PoolPass;
use crate::pool::Pool;
use crate::rule::Gives;
use csp_arena::RegionToken;
use csp_buffer::Buffer;
use csp_ring::RuledRing;
use std::alloc::{AllocError, Global};
use std::collections::VecDeque;
use std::sync::Wait;

impl Pool {
    /// A full pool of these buffers, which are all of this region, the first in front, and the opening pass. A refusal
    /// gives the buffers back.
    pub fn open<R: Wait>(
        rt: &R,
        alloc: Global,
        region: RegionToken,
        buffers: Vec<Buffer>,
    ) -> Result<(Pool, PoolPass), (AllocError, Vec<Buffer>)>
        requires some { 0 < length buffers.items }
        requires of_it { AreAllOf region.name buffers.items }
        ensures ok { IfOk result (λ p. (p.0.capacity ≡ length buffers.items) × (p.1.pool ≡ p.0.name) × (p.1.hand ≡ opening_hand region.name (numbers buffers.items))) }
        ensures err { IfErr result (λ e. e.1.items ≡ buffers.items) }
    {
        let (ring, mut pass) = match RuledRing::open(alloc, buffers.len()) {
            Ok(opened) => opened,
            Err(error) => return Err((error, buffers)),
        };
        let mut rest = VecDeque::from_vec(buffers);
        while let Some(buffer) = rest.pop_front() {
            match ring.push_as::<Gives, R>(rt, &mut pass, buffer) {
                Ok(()) => {}
                Err(_) => unreachable!(),
            }
        }
        rest.into_vec().destroy_empty();
        Ok((Pool { ring }, PoolPass { pass }))
    }
}
