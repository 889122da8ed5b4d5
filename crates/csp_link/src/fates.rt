//! What a plan has for each frame of a direction.

ghost use Rattle.std.specs.Prelude.{◌≡◌, ◌≤◌, [], All, IfOk, OnOk, OnErr};
ghost use Rattle.csp_link.specs.Fates.{unharmed, afflicted, fate_at, most_copies, with_fault, fates_of, IsFault, IsKind};

use crate::{Fault, FaultKind, MAX_REPEATS};
use std::alloc::{AllocError, Global};
use std::collections::BTreeMap;
use std::marker::Model;

/// What happens to one frame.
#[derive(Clone, Copy)]
pub struct Fate {
    /// It is lost.
    pub lost: bool,
    /// How many copies of it come besides.
    pub repeats: u8,
    /// How many rounds later it goes on.
    pub delay: u32,
    /// The bit that is changed.
    pub flip: Option<u32>,
}

impl Fate {
    /// A frame that the plan does not name goes on as it is, once and at once.
    pub fn unharmed() -> Fate
        ensures { result ≡ unharmed }
    {
        Fate {
            lost: false,
            repeats: 0,
            delay: 0,
            flip: None,
        }
    }

    /// The fate of a frame with one fault more.
    pub fn with(self, kind: FaultKind) -> Fate
        ensures fate { result ≡ afflicted kind self }
        ensures few { self.repeats ≤ MAX_REPEATS → IsKind kind → result.repeats ≤ MAX_REPEATS }
    {
        match kind {
            FaultKind::Lose => Fate { lost: true, ..self },
            FaultKind::Repeat(repeats) => Fate { repeats, ..self },
            FaultKind::Delay(delay) => Fate { delay, ..self },
            FaultKind::Flip(bit) => Fate {
                flip: Some(bit),
                ..self
            },
        }
    }
}

/// The frames that a plan names, and what happens to each. Contracts see it as that finite map: its
/// entries, in the order of the frames.
#[derive(Drop)]
pub struct Fates {
    map: BTreeMap<u64, Fate>,
}

impl Model for Fates {
    ghost use Rattle.std.specs.Prelude.{List, ℕ, ◌≤◌, All};
    ghost use Rattle.std.specs.BTreeMap.{values};
    ghost use Rattle.csp_link.specs.declared.fates.Fate.{Fate};
    ghost use Rattle.csp_link.specs.declared.fault.TheConstants.{MAX_REPEATS};

    ghost Value = { List (ℕ × Fate) };

    ghost view = { λ f. f.map.entries };

    ghost invariant = { λ f. All (λ fate. fate.repeats ≤ MAX_REPEATS) (values f.map) };
}

impl Fates {
    /// What the faults of one direction say.
    ///
    /// # Errors
    /// Want of memory.
    pub fn open(alloc: Global, dir: u8, plan: &[Fault]) -> Result<Fates, AllocError>
        requires { All IsFault plan.now }
        ensures { IfOk result (λ f. f ≡ fates_of dir plan.now) }
    {
        let mut fates = Fates {
            map: BTreeMap::new(alloc),
        };
        for fault in plan {
            if fault.dir == dir {
                fates.add(*fault)?;
            }
        }
        Ok(fates)
    }

    /// Adds one fault.
    #[tactic(auto, using(crate::proofs::Named::all_named))]
    fn add(&mut self, fault: Fault) -> Result<(), AllocError>
        requires { IsFault fault }
        ensures { OnOk result (self.new ≡ with_fault self.old fault) }
    {
        let fate = self.of(fault.frame).with(fault.kind);
        self.map.insert(fault.frame, fate)?;
        Ok(())
    }

    /// What happens to the frame of this number.
    pub fn of(&self, frame: u64) -> Fate
        ensures fate { result ≡ fate_at self.now frame }
        ensures few { result.repeats ≤ MAX_REPEATS }
        ensures most { result.repeats ≤ most_copies self.now }
    {
        match self.map.get(&frame) {
            Some(fate) => *fate,
            None => Fate::unharmed(),
        }
    }

    /// The most copies that it adds to a frame.
    pub fn most_copies(&self) -> u8
        ensures { result ≡ most_copies self.now }
    {
        let mut most = 0u8;
        for (_, fate) in &self.map {
            most = most.max(fate.repeats);
        }
        most
    }
}
