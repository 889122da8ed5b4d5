//! What a worker passes before its part of a round, and tells after it.

/// A gate, which may hold a worker up. It decides which worker goes first, and nothing else.
pub trait Gate: Sync {
    /// Called by the worker of this number before its part of a round.
    fn pass(&self, worker: u32);

    /// Called by the worker of this number after its part of a round.
    fn done(&self, worker: u32);
}

/// The gate that holds nobody up.
#[derive(Clone, Copy)]
pub struct OpenGate;

impl Gate for OpenGate {
    fn pass(&self, _worker: u32) {}

    fn done(&self, _worker: u32) {}
}
