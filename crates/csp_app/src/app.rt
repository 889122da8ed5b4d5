//! The application itself.

ghost use Rattle.std.specs.Prelude.{◌≡◌, ◌+◌, ◌^◌, ◌<◌, ◌≤◌, ◌↔◌, [], ◌∷◌, length, All, nat_lt, IsTrue, IfOk, IfSome, MatchOption};
ghost use Rattle.csp_deck.specs.Keeping.{number_in};
ghost use Rattle.csp_deck.specs.Step.{times};
ghost use Rattle.csp_app.specs.Room.{take_steps};

use crate::collecting::Collectors;
use crate::plan::AppPlan;
use crate::progress::Progress;
use crate::script::Script;
use crate::slot::{KnownSlot, fresh_slot};
use csp_arena::RegionToken;
use csp_base::SLOTS;
use csp_buffer::Buffer;
use csp_deck::{Hand, Pile};
use csp_log::UNMARKED;
use std::alloc::{AllocError, Global};
use std::marker::Model;

/// An application: a party that takes the steps of its script, and pops its `Down` for the packets
/// that come. Contracts see it as plain lists and numbers, and the region that its buffers are of.
///
/// It must be spent by `end`, when it holds no buffer.
pub struct App {
    pub(crate) number: u8,
    pub(crate) script: Script,
    pub(crate) progress: Progress,
    pub(crate) refused: bool,
    pub(crate) taken: Hand,
    pub(crate) made: Hand,
    pub(crate) mark: u8,
    pub(crate) held: Pile,
    pub(crate) slots: [KnownSlot; SLOTS],
    pub(crate) collectors: Collectors,
    pub(crate) doing: AppPlan,
}

impl Model for App {
    ghost use Rattle.csp_app.specs.PlainApp.{AppAt};

    ghost Value = { AppAt };

    ghost use Rattle.csp_app.specs.Room.{app_at, IsReady};

    ghost view = { app_at };

    ghost invariant = { IsReady };
}

impl App {
    ghost use Rattle.csp_app.specs.PlainApp.{opening, present_step, has_ended};
    ghost use Rattle.csp_app.specs.Collecting.{collectors_for, CollectsNothing};
    ghost use Rattle.csp_app.specs.Room.{IsStep};

    /// The application of this number at the start of its script, none of whose steps collects, with room for as many
    /// buffers as the script has `take` steps, all of this region.
    ///
    /// # Errors
    /// Want of memory.
    #[tactic(auto, using(crate::proofs::Collectors::without_collectors))]
    pub fn open(
        alloc: Global,
        number: u8,
        script: Script,
        region: RegionToken,
    ) -> Result<App, AllocError>
        requires few { length script + 1 < 2 ^ 32 }
        requires slots { All IsStep script }
        requires none { All CollectsNothing script }
        ensures { IfOk result (λ a. a ≡ record { region = region.name; app = opening number script }) }
    {
        App::with_sfp(alloc, number, script, region, [None, None, None, None])
    }

    /// The application of this number at the start of its script, with room for as many buffers as the script has
    /// `take` steps, all of this region, and with a collector for each slot that the script collects on, as it opened.
    ///
    /// # Errors
    /// Want of memory.
    pub fn with_sfp(
        alloc: Global,
        number: u8,
        script: Script,
        region: RegionToken,
        collectors: Collectors,
    ) -> Result<App, AllocError>
        requires few { length script + 1 < 2 ^ 32 }
        requires slots { All IsStep script }
        requires collectors { collectors ≡ collectors_for script }
        ensures { IfOk result (λ a. a ≡ record { region = region.name; app = opening number script }) }
    {
        let held = open_held(alloc, region.copy(), &script)?;
        Ok(App {
            number,
            script,
            progress: Progress::start(),
            refused: false,
            taken: Hand::empty(region.copy()),
            made: Hand::empty(region),
            mark: UNMARKED,
            held,
            slots: [fresh_slot(); SLOTS],
            collectors,
            doing: AppPlan::Rest,
        })
    }

    /// The number of its present step, from 1. It is one past the last where only a packet is still to
    /// be given back, and 0 where it has ended.
    pub fn step(&self) -> u32
        ensures { result ≡ present_step self.now.app }
    {
        if self.is_done() {
            0
        } else {
            self.progress.done as u32 + 1
        }
    }

    pub(crate) fn is_done(&self) -> bool
        ensures { result ≡ has_ended self.now.app }
    {
        self.script.len() <= self.progress.done && self.taken.is_empty()
    }
}

impl App {
    ghost use Rattle.csp_app.specs.Drained.{drained};
    ghost use Rattle.csp_app.specs.PlainApp.{buffers, holds, with_app};

    /// Whether it holds the buffer of this number.
    #[tactic(auto, using(crate::proofs::Counting::holds_times))]
    pub fn holds(&self, number: u16) -> bool
        ensures { IsTrue result ↔ (0 < times number (holds self.now.app)) }
    {
        self.has_in_hand(number) || self.held.holds(number)
    }

    /// Whether the packet to be given back or the one to be pushed has this number.
    fn has_in_hand(&self, number: u16) -> bool
        ensures { result ≡ nat_lt 0 (times number (number_in self.now.app.taken) + times number (number_in self.now.app.made)) }
    {
        self.taken.holds(number) || self.made.holds(number)
    }

    /// Hands out a buffer that it holds. `None` exactly where it holds none.
    pub fn drain(&mut self) -> Option<Buffer>
        ensures buffers { MatchOption result ((buffers self.old.app ≡ []) × (self.new ≡ self.old)) (λ b. buffers self.old.app ≡ b.picture ∷ buffers self.new.app) }
        ensures holds { MatchOption result ((holds self.old.app ≡ []) × (self.new ≡ self.old)) (λ b. holds self.old.app ≡ b.picture.number ∷ holds self.new.app) }
        ensures of_it { IfSome result (λ b. b.region ≡ self.old.region) }
        ensures first { self.new ≡ with_app self.old (drained self.old.app) }
    {
        if let Some(buffer) = self.taken.take() {
            return Some(buffer);
        }
        if let Some(buffer) = self.made.take() {
            return Some(buffer);
        }
        self.held.pop()
    }

    /// Ends the application, which holds no buffer.
    pub fn end(self)
        requires { holds self.app ≡ [] }
    {
        let App {
            number: _,
            script: _,
            progress: _,
            refused: _,
            taken,
            made,
            mark: _,
            held,
            slots: _,
            collectors: _,
            doing: _,
        } = self;
        taken.end();
        made.end();
        held.end();
    }
}

/// Room for as many buffers of this region as the script has `take` steps, and no more.
fn open_held(alloc: Global, region: RegionToken, script: &Script) -> Result<Pile, AllocError>
    ensures { IfOk result (λ p. p ≡ record { region = region.name; room = take_steps script.now; contents = [] }) }
{
    Pile::open(alloc, region, script.takes())
}
