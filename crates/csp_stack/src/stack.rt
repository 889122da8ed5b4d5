//! The router itself.

ghost use Rattle.std.specs.Prelude.{◌≡◌, ◌+◌, ◌<◌, [], ◌∷◌, None, Some, IfOk, IfSome, MatchOption, IsTrue, ◌↔◌};
ghost use Rattle.csp_deck.specs.Step.{times};
ghost use Rattle.csp_stack.specs.Config.{IsConfig, opening};
ghost use Rattle.csp_stack.specs.Router.{buffers, drained, holds, with_router};

use crate::StackConfig;
use crate::facts::Facts;
use crate::state::State;
use csp_arena::RegionToken;
use csp_buffer::Buffer;
use csp_service::Names;
use std::alloc::{AllocError, Global};
use std::marker::Model;

/// The router of a node. Contracts see it as a `RouterAt`: the region of its buffers, what its turns
/// do not change, and its state.
///
/// It takes no memory but at its opening. It is ended when it holds no buffer.
pub struct Stack {
    pub(crate) facts: Facts,
    pub(crate) state: State,
}

impl Model for Stack {
    ghost use Rattle.std.specs.Coded.{codes};
    ghost use Rattle.csp_route.specs.Codes.{routes_code};
    ghost use Rattle.csp_stack.specs.Router.{RouterAt};

    ghost Value = { RouterAt };

    ghost coded = { Prim.hlevel (codes, routes_code) };

    ghost use Rattle.csp_stack.specs.Party.{IsSound};

    ghost view = { λ s. record { region = s.state.region; router = record { facts = s.facts; state = s.state.state } } };

    ghost invariant = { λ s. IsSound s.facts s.state.state };
}

impl Stack {
    /// A router of this configuration, which holds no buffer and is at the start of its turns. Its
    /// buffers are to be of this region.
    ///
    /// # Errors
    /// Want of memory for the room of its trash, for answers owed, and for what its services keep.
    pub fn open(
        alloc: Global,
        config: StackConfig,
        region: RegionToken,
    ) -> Result<Stack, AllocError>
        requires { IsConfig config }
        ensures { IfOk result (λ r. r ≡ opening region.name config) }
    {
        let StackConfig {
            node,
            addr,
            name,
            seed,
            options,
            routes,
            ifaces,
            apps,
        } = config;
        let state = State::open(alloc, apps, routes, region)?;
        Ok(Stack {
            facts: Facts {
                node,
                addr,
                seed,
                options,
                apps,
                names: Names { node: name, ifaces },
            },
            state,
        })
    }

    /// Whether it holds the buffer of this number.
    pub fn holds(&self, number: u16) -> bool
        ensures { IsTrue result ↔ (0 < times number (holds self.now.router.state)) }
    {
        self.state.holds(number)
    }

    /// Hands out a buffer that it holds: the trash, then the packet that is to go out, then what its ports
    /// hold. `None` where it holds none.
    pub fn drain(&mut self) -> Option<Buffer>
        ensures buffers { MatchOption result ((buffers self.old.router.state ≡ []) × (self.new ≡ self.old)) (λ b. buffers self.old.router.state ≡ b.picture ∷ buffers self.new.router.state) }
        ensures holds { MatchOption result ((holds self.old.router.state ≡ []) × (self.new ≡ self.old)) (λ b. holds self.old.router.state ≡ b.picture.number ∷ holds self.new.router.state) }
        ensures of_it { IfSome result (λ b. b.region ≡ self.old.region) }
        ensures rest { self.new ≡ with_router self.old (record self.old.router { state = drained self.old.router.state }) }
    {
        self.state.drain()
    }

    /// Ends a router that holds no buffer.
    pub fn end(self)
        requires { holds self.router.state ≡ [] }
    {
        let Stack { facts: _, state } = self;
        state.end();
    }
}
