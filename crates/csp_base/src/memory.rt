//! A source and a sink over memory, whose faults are those that they were told to have.

ghost use Rattle.std.specs.Prelude.{◌≡◌, ◌≢◌, ℕ, ◌+◌, ◌-◌, ◌<◌, ◌≤◌, ◌^◌, ◌↔◌, min, take, drop, List, [], ◌++◌, length, vec_len, slice_index, Some, Option, Ok, Err, IfOk, IsErr, OnOk, OnErr, Contains, ◌⊎◌};
ghost use Rattle.std.specs.Io.KnownBytes.{ReadConsumes, WriteAppends};
ghost use Rattle.csp_base.specs.Faults.{HasCause};
ghost use Rattle.csp_base.specs.Memory.{PlainSource, PlainSink};

use super::sink::Sink;
use super::source::{Failed, Source};
use std::alloc::{AllocError, Global};
use std::marker::Model;

/// A source that gives the bytes of a list, and fails the calls that it is told to fail.
#[derive(Drop)]
pub struct MemSource {
    bytes: Vec<u8>,
    at: usize,
    failing: Vec<u64>,
    calls: u64,
    faults: u64,
}

impl Model for MemSource {
    ghost Value = { PlainSource };

    ghost view = { λ s. record {
      left = drop s.at s.bytes.items;
      failing = s.failing.items;
      calls = s.calls;
      faults = s.faults;
    } };

    ghost invariant = { λ s. s.at ≤ vec_len s.bytes };
}

impl MemSource {
    /// A source of `bytes` that fails the calls whose numbers, from 0, stand in `failing`.
    pub fn new(bytes: Vec<u8>, failing: Vec<u64>) -> MemSource
        ensures { result ≡ record { left = bytes.items; failing = failing.items; calls = 0; faults = 0 } }
    {
        MemSource {
            bytes,
            at: 0,
            failing,
            calls: 0,
            faults: 0,
        }
    }

    /// How often it was read, up to 2^64 - 1.
    pub fn calls(&self) -> u64
        ensures { result ≡ self.now.calls }
    {
        self.calls
    }
}

impl Source for MemSource {
    ghost left = { λ s. Some s.left };

    ghost faults = { λ s. s.faults };

    fn read(&mut self, buf: &mut [u8]) -> Result<usize, Failed>
        ensures bound { IfOk result (λ n. n ≤ length buf.new) }
        ensures bytes { ReadConsumes (Some self.old.left) (Some self.new.left) result buf.new }
        ensures cause { HasCause self.old.faults self.new.faults result }
        ensures told { IsErr result ↔ Contains self.old.failing self.old.calls }
        ensures full { IfOk result (λ n. n ≡ min (length buf.new) (length self.old.left)) }
        ensures counted { self.new.calls ≡ min (self.old.calls + 1) (2 ^ 64 - 1) }
        ensures kept { self.new.failing ≡ self.old.failing }
    {
        let call = self.calls;
        self.calls = call.saturating_add(1);
        if self.failing.contains(&call) {
            self.faults = self.faults.saturating_add(1);
            return Err(Failed);
        }
        let count = copy_front(&self.bytes[self.at..], buf);
        self.at += count;
        Ok(count)
    }
}

/// Copies as many bytes as both have to the front of `to`, and answers how many.
fn copy_front(from: &[u8], to: &mut [u8]) -> usize
    ensures count { result ≡ min (length from.now) (length to.old) }
    ensures copied { take result to.new ≡ take result from.now }
    ensures rest { drop result to.new ≡ drop result to.old }
{
    let count = from.len().min(to.len());
    to[..count].copy_from_slice(&from[..count]);
    count
}

/// A sink that keeps what it takes in the room that it took at opening, takes at most `piece` bytes a
/// call, and fails the calls that it is told to fail and those for which no room is left.
#[derive(Drop)]
pub struct MemSink {
    room: Vec<u8>,
    filled: usize,
    piece: usize,
    failing: Vec<u64>,
    calls: u64,
    faults: u64,
}

impl Model for MemSink {
    ghost Value = { PlainSink };

    ghost view = { λ s. record {
      written = take s.filled s.room.items;
      room = vec_len s.room - s.filled;
      piece = s.piece;
      failing = s.failing.items;
      calls = s.calls;
      faults = s.faults;
    } };

    ghost invariant = { λ s. (s.filled ≤ vec_len s.room) × (0 < s.piece) };
}

impl MemSink {
    /// An empty sink with room for `room` bytes, that takes at most `piece` bytes a call and fails the
    /// calls whose numbers, from 0, stand in `failing`.
    pub fn open(
        alloc: Global,
        room: usize,
        piece: usize,
        failing: Vec<u64>,
    ) -> Result<MemSink, AllocError>
        requires { 0 < piece }
        ensures { IfOk result (λ s. s ≡ record { written = []; room = room; piece = piece; failing = failing.items; calls = 0; faults = 0 }) }
    {
        let room = vec![in alloc; 0; room]?;
        Ok(MemSink {
            room,
            filled: 0,
            piece,
            failing,
            calls: 0,
            faults: 0,
        })
    }

    /// The bytes written so far.
    pub fn written(&self) -> &[u8]
        ensures { result.now ≡ self.now.written }
    {
        &self.room[..self.filled]
    }

    /// How often it was written to, up to 2^64 - 1.
    pub fn calls(&self) -> u64
        ensures { result ≡ self.now.calls }
    {
        self.calls
    }
}

impl Sink for MemSink {
    ghost written = { λ s. Some s.written };

    ghost faults = { λ s. s.faults };

    fn write(&mut self, buf: &[u8]) -> Result<usize, Failed>
        requires { 0 < length buf.now }
        ensures some { IfOk result (λ n. 0 < n) }
        ensures bound { IfOk result (λ n. n ≤ length buf.now) }
        ensures bytes { WriteAppends (Some self.old.written) (Some self.new.written) result buf.now }
        ensures cause { HasCause self.old.faults self.new.faults result }
        ensures told { IsErr result ↔ (Contains self.old.failing self.old.calls ⊎ (self.old.room ≡ 0)) }
        ensures full { IfOk result (λ n. n ≡ min self.old.piece (min (length buf.now) self.old.room)) }
        ensures room { IfOk result (λ n. self.new.room + n ≡ self.old.room) }
        ensures counted { self.new.calls ≡ min (self.old.calls + 1) (2 ^ 64 - 1) }
        ensures kept { (self.new.failing ≡ self.old.failing) × (self.new.piece ≡ self.old.piece) }
    {
        let call = self.calls;
        self.calls = call.saturating_add(1);
        let told = self.failing.contains(&call);
        if told || self.filled == self.room.len() {
            self.faults = self.faults.saturating_add(1);
            return Err(Failed);
        }
        let most = self.piece.min(buf.len());
        let count = copy_at(&buf[..most], &mut self.room, self.filled);
        self.filled += count;
        Ok(count)
    }
}

/// Copies as many bytes as both have to `to` from place `at` on, and answers how many.
fn copy_at(from: &[u8], to: &mut [u8], at: usize) -> usize
    requires { at ≤ length to.old }
    ensures count { result ≡ min (length from.now) (length to.old - at) }
    ensures copied { take (at + result) to.new ≡ take at to.old ++ take result from.now }
{
    copy_front(from, &mut to[at..])
}
