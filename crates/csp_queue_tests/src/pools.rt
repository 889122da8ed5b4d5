//! A pool alone, and between two threads.

ghost use Rattle.std.specs.Prelude.{◌≡◌, ◌+◌, ◌≤◌, IfOk, vec_len, vec_capacity};
ghost use Rattle.csp_pool.specs.PlainPool.{IsPassOf};

use csp_buffer::{Buffer, Memory};
use csp_pool::{Pool, PoolPass};
use std::alloc::{AllocError, Global};
use std::mem::ManuallyDrop;
use std::sync::Wait;
use std::test::*;
use std::thread;
use std::thread::Threads;

/// So often each thread takes and gives.
const TIMES: u32 = 1000;

/// The number of a buffer, which is spent.
fn spend(buffer: Buffer) -> u16 {
    let number = buffer.number();
    let _spent = unsafe { ManuallyDrop::new_unchecked(buffer) };
    number
}

/// Takes a buffer and gives it back, again and again, and says how often both went well.
fn take_and_give<R: Wait>(rt: &R, pool: &Pool, mut pass: PoolPass) -> (PoolPass, u32)
    requires { IsPassOf pool.now pass }
    ensures hand { IsPassOf pool.now result.0 × (result.0.hand.opens ≡ pass.hand.opens) × (result.0.hand.out ≡ pass.hand.out) × (result.0.hand.part ≡ pass.hand.part) }
    ensures count { result.1 ≤ 1000 }
{
    let mut times: u32 = 0;
    for _ in 0..TIMES {
        if let Some(buffer) = pool.take(rt, &mut pass) {
            match pool.give(rt, &mut pass, buffer) {
                Ok(()) => times += 1,
                Err(back) => {
                    spend(back);
                }
            }
        }
    }
    (pass, times)
}

/// Lets two threads take and give, ends the pool, and says how often it went well in each.
fn share<R: Threads + Wait + Sync>(
    rt: &R,
    pool: Pool,
    mut first: PoolPass,
    into: &mut Vec<Buffer>,
) -> (u32, u32)
    requires pass { IsPassOf pool first × (first.hand.opens ≡ 1) × (first.hand.out ≡ 0) × (first.hand.part ≡ 0) }
    requires room { vec_len into.old + pool.capacity ≤ vec_capacity into.old }
{
    let shared = &pool;
    let second = shared.split(&mut first);
    let ((mut first, one), (second, two)) = thread::join(
        rt,
        move ||
            requires { IsPassOf shared.now first × (first.hand.opens ≡ 1) × (first.hand.out ≡ 1) }
            ensures { IsPassOf shared.entry.now result.0 × (result.0.hand.opens ≡ 1) × (result.0.hand.out ≡ 1) }
        { take_and_give(rt, shared, first) },
        move ||
            requires { IsPassOf shared.now second × (second.hand.part ≡ 1) }
            ensures { IsPassOf shared.entry.now result.0 × (result.0.hand.part ≡ 1) }
        { take_and_give(rt, shared, second) },
    );
    shared.join(&mut first, second);
    pool.close(rt, first, into);
    (one, two)
}

/// How often each of the numbers 0 to 3 is there; the buffers are spent.
fn count(mut buffers: Vec<Buffer>) -> [u32; 4] {
    let mut counts = [0u32; 4];
    while let Some(buffer) = buffers.pop() {
        let place = usize::from(spend(buffer) % 4);
        counts[place] = counts[place].wrapping_add(1);
    }
    buffers.destroy_empty();
    counts
}

/// Takes once, and gives the number of the buffer, or 99 where there was none.
fn take_one<R: Wait>(rt: &R, pool: &Pool, pass: &mut PoolPass) -> u16
    requires { IsPassOf pool.now pass.old }
    ensures { IsPassOf pool.now pass.new × (pass.new.hand.opens ≡ pass.old.hand.opens) × (pass.new.hand.out ≡ pass.old.hand.out) }
{
    match pool.take(rt, pass) {
        Some(buffer) => spend(buffer),
        None => 99,
    }
}

/// What five takes give, one after the other, of a pool that is closed then.
fn take_five<R: Wait>(rt: &R, pool: Pool, mut pass: PoolPass, into: &mut Vec<Buffer>) -> [u16; 5]
    requires pass { IsPassOf pool pass × (pass.hand.opens ≡ 1) × (pass.hand.out ≡ 0) }
    requires room { vec_len into.old + pool.capacity ≤ vec_capacity into.old }
{
    let numbers = [
        take_one(rt, &pool, &mut pass),
        take_one(rt, &pool, &mut pass),
        take_one(rt, &pool, &mut pass),
        take_one(rt, &pool, &mut pass),
        take_one(rt, &pool, &mut pass),
    ];
    pool.close(rt, pass, into);
    numbers
}

/// A list with room for four, and a pool of four with its opening pass.
fn opened<R: Wait>(rt: &R, alloc: Global) -> Result<(Vec<Buffer>, Pool, PoolPass), AllocError>
    ensures { IfOk result (λ p. IsPassOf p.1 p.2 × (p.2.hand.opens ≡ 1) × (p.2.hand.out ≡ 0) × (p.2.hand.part ≡ 0) × (vec_len p.0 + p.1.capacity ≤ vec_capacity p.0)) }
{
    let into = Vec::with_capacity(alloc, 4)?;
    let (token, buffers) = match Memory::open(alloc, 4) {
        Ok((memory, buffers)) => {
            let token = memory.token();
            let _kept = unsafe { ManuallyDrop::new_unchecked(memory) };
            (token, buffers)
        }
        Err(error) => {
            into.destroy_empty();
            return Err(error);
        }
    };
    match Pool::open(rt, alloc, token, buffers) {
        Ok((pool, first)) => Ok((into, pool, first)),
        Err((error, buffers)) => {
            into.destroy_empty();
            count(buffers);
            Err(error)
        }
    }
}

#[test]
fn gives_in_order_and_then_none(rt: HostRuntime) -> Result<(), Fail> {
    let (mut into, pool, first) = opened(&rt, rt.alloc())?;
    let numbers = take_five(&rt, pool, first, &mut into);
    assert_eq!(rt; (numbers, count(into)), ([0, 1, 2, 3, 99], [0; 4]));
    Ok(())
}

#[test]
fn two_threads_give_back_what_they_take(rt: HostRuntime) -> Result<(), Fail> {
    let (mut into, pool, first) = opened(&rt, rt.alloc())?;
    let times = share(&rt, pool, first, &mut into);
    assert_eq!(rt; (times, count(into)), ((1000, 1000), [1, 1, 1, 1]));
    Ok(())
}
