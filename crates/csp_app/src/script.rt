//! The script of an application.

ghost use Rattle.std.specs.Prelude.{◌≡◌, ◌^◌, ◌<◌, ◌++◌, ◌∷◌, [], IfOk, OnErr, MatchResult, length, slice_index_or};
ghost use Rattle.csp_app.specs.PlainStep.{bytes_of, IsOfPacket};
ghost use Rattle.csp_app.specs.Placing.{plain_step, place_after, placed_step};
ghost use Rattle.csp_app.specs.Collecting.{collects_on};
ghost use Rattle.csp_app.specs.Room.{take_steps};
ghost use Rattle.std.specs.List.{list_any};

use crate::placed::{Place, Placed};
use crate::step::Step;
use csp_base::Port;
use std::alloc::{AllocError, Global};
use std::marker::Model;

/// The steps of an application in order. The bytes of their packets stand in one list, one after the other, and
/// each step names its own by their place. Contracts see a list of steps, each with its bytes.
#[derive(Drop)]
pub struct Script {
    steps: Vec<Placed>,
    bytes: Vec<u8>,
}

impl Model for Script {
    ghost use Rattle.std.specs.Prelude.{List, map};
    ghost use Rattle.csp_app.specs.PlainStep.{PlainStep};
    ghost use Rattle.csp_app.specs.Placing.{placed_step, AreWithin};

    ghost Value = { List PlainStep };

    ghost view = { λ script. map (placed_step script.bytes.items) script.steps.items };

    ghost invariant = { λ script. AreWithin script.bytes.items script.steps.items };
}

impl Script {
    /// A script without a step. It takes no memory.
    pub fn new(alloc: Global) -> Script
        ensures { result ≡ [] }
    {
        Script {
            steps: Vec::new(alloc),
            bytes: Vec::new(alloc),
        }
    }

    /// How many steps it has.
    pub fn len(&self) -> usize
        ensures { result ≡ length self.now }
    {
        self.steps.len()
    }

    /// How many of its steps take a buffer to hold.
    #[tactic(auto, using(crate::proofs::Scripts::same_takes))]
    pub fn takes(&self) -> usize
        ensures { result ≡ take_steps self.now }
    {
        self.steps.iter().filter(|step| step.is_take()).count()
    }

    /// Whether one of its steps collects the blobs of this slot.
    #[tactic(auto, using(crate::proofs::Scripts::same_collects))]
    pub(crate) fn collects_on(&self, slot: u8) -> bool
        ensures { result ≡ list_any (collects_on slot) self.now }
    {
        any_collects(&self.steps, slot)
    }

    /// The step with this number, from 0.
    #[tactic(auto, using(crate::proofs::Scripts::within_at, crate::proofs::Scripts::placed_at))]
    #[inline(always)]
    pub fn step(&self, number: usize) -> Step<'_>
        requires { number < length self.now }
        ensures { plain_step result ≡ slice_index_or self.now number (plain_step result) }
    {
        self.steps[number].read(&self.bytes)
    }

    /// Adds a step at the end.
    ///
    /// # Errors
    /// Want of memory; the script is then as it was.
    #[tactic(auto, using(crate::proofs::Scripts::pushed_within))]
    pub fn push(&mut self, step: &Step<'_>) -> Result<(), AllocError>
        requires { IsOfPacket (plain_step step.now) }
        ensures { MatchResult result (λ _. self.new ≡ self.old ++ plain_step step.now ∷ []) (λ _. self.new ≡ self.old) }
    {
        // Named for the checker alone, which looks up a step's types by it.
        let _from: Option<Port> = None;
        self.steps.reserve(1)?;
        let place = add_bytes(&mut self.bytes, bytes_of(step))?;
        self.steps.push_reserved(Placed::of(step, place));
        Ok(())
    }

    /// A copy of it.
    ///
    /// # Errors
    /// Want of memory.
    pub fn copy(&self, alloc: Global) -> Result<Script, AllocError>
        ensures { IfOk result (λ copy. copy ≡ self.now) }
    {
        let steps = Vec::from_slice(alloc, &self.steps)?;
        let bytes = Vec::from_slice(alloc, &self.bytes)?;
        Ok(Script { steps, bytes })
    }
}

/// Whether one of these steps collects the blobs of this slot.
fn any_collects(steps: &[Placed], slot: u8) -> bool
    ensures { result ≡ list_any (λ x. collects_on slot (placed_step [] x)) steps.now }
{
    steps.iter().any(|step| step.collects_on(slot))
}

/// The bytes that a step gives for its packet, or none.
fn bytes_of<'a>(step: &Step<'a>) -> &'a [u8]
    ensures { result.now ≡ bytes_of (plain_step step.now) }
{
    match step {
        Step::Send { bytes, .. } | Step::Raw { bytes, .. } => bytes,
        Step::Take
        | Step::Give
        | Step::Bind { .. }
        | Step::Connect { .. }
        | Step::Burst { .. }
        | Step::Blob { .. }
        | Step::Recv { .. }
        | Step::Collect { .. }
        | Step::Close { .. }
        | Step::Wait { .. } => &[],
    }
}

/// Appends the bytes of a packet to a list, and says where they stand.
fn add_bytes(list: &mut Vec<u8>, bytes: &[u8]) -> Result<Place, AllocError>
    requires { length bytes.now < 2 ^ 16 }
    ensures added { IfOk result (λ place. (list.new.items ≡ list.old.items ++ bytes.now) × (place ≡ place_after list.old.items bytes.now)) }
    ensures kept { OnErr result (list.new.items ≡ list.old.items) }
{
    let place = Place {
        first: list.len(),
        len: bytes.len() as u16,
    };
    list.extend_from_slice(bytes)?;
    Ok(place)
}
