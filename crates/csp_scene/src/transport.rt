//! What `rdp` lines state.

ghost use Rattle.std.specs.Prelude.{◌≡◌, ◌<◌, map, OnOk, Ok, length};
ghost use Rattle.csp_scene.specs.Ranges.{AreOptions};
ghost use Rattle.csp_scene.specs.Transport.{given_options, is_tuned, with_rdp_at, state_rdp};
ghost use Rattle.csp_scene.specs.Kept.{IsSketch, Fits, Judged};

use crate::arguments::{number_at, word_at};
use crate::naming::router_named;
use crate::refusal::SceneKind;
use crate::sketch::{LineError, Sketch};
use crate::table::Form;
use csp_rdp_header::Options;

/// The options that an `rdp` line gives.
fn given_options(args: &[&[u8]]) -> Options
    requires { Fits Form.Rdp (map (λ word. word.now) args.now) }
    ensures value { result ≡ given_options (map (λ word. word.now) args.now) }
    ensures kept { AreOptions result }
{
    Options {
        window: number_at(Form::Rdp, args, 1),
        conn_timeout: number_at(Form::Rdp, args, 2),
        packet_timeout: number_at(Form::Rdp, args, 3),
        delayed: number_at(Form::Rdp, args, 4),
        ack_timeout: number_at(Form::Rdp, args, 5),
        ack_count: number_at(Form::Rdp, args, 6),
    }
}

impl Sketch {
    /// Whether the node in a place had its `rdp` line.
    fn is_tuned(&self, place: usize) -> bool
        ensures { result ≡ is_tuned self.now place }
    {
        self.tuned.iter().any(|other| *other == place)
    }

    /// Gives the node in a place these options, as its `rdp` line says.
    fn tune(&mut self, place: usize, options: Options) -> Result<(), LineError>
        requires kept { IsSketch self.old }
        requires node { place < length self.old.nodes }
        requires options { AreOptions options }
        ensures answer { Judged result self.new (Ok (with_rdp_at place options self.old)) }
        ensures kept { OnOk result (IsSketch self.new) }
    {
        let Ok(()) = self.tuned.push(place) else {
            return Err(LineError::NoMemory);
        };
        self.nodes[place].options = options;
        Ok(())
    }

    /// An `rdp` line.
    pub(crate) fn state_rdp(&mut self, args: &[&[u8]]) -> Result<(), LineError>
        requires kept { IsSketch self.old }
        requires fits { Fits Form.Rdp (map (λ word. word.now) args.now) }
        ensures answer { Judged result self.new (state_rdp self.old (map (λ word. word.now) args.now)) }
        ensures kept { OnOk result (IsSketch self.new) }
    {
        let Some(place) = router_named(&self.nodes, word_at(args, 0)) else {
            return Err(LineError::Kind(SceneKind::Unknown));
        };
        if self.is_tuned(place) {
            return Err(LineError::Kind(SceneKind::Twice));
        }
        self.tune(place, given_options(args))
    }
}
