//! What is asked of a scene, and its text.

ghost use Rattle.std.specs.Prelude.{◌≡◌, IfOk};
ghost use Rattle.csp_scene.specs.Ranges.{IsScene};
ghost use Rattle.csp_trace.specs.Modes.{asked_of};
ghost use Rattle.csp_trace.specs.Owes.{told};

use crate::mode::Mode;
use csp_exports::{EndName, Form, end_named, exported, unused};
use csp_log::End;
use csp_picture::{Window, picture};
use csp_record::Record;
use csp_scene::Scene;
use csp_timeline::timeline;
use std::alloc::{AllocError, Global};

/// What is asked of a scene.
#[derive(Drop)]
pub enum Asked<'a> {
    /// What happened, line by line.
    Timeline,
    /// The frames as a picture, of all rounds or of a window of them.
    Picture(Option<Window>),
    /// The frames that this end, which is so named, put on its link.
    Export(Form, EndName<'a>, End),
    /// What of it was of no use.
    Unused,
}

/// What a mode asks of a scene: nothing where it names an end that the scene lacks, or whose link carries something else.
pub(crate) fn asked_of<'a>(mode: &Mode<'a>, scene: &Scene) -> Option<Asked<'a>>
    ensures { result ≡ asked_of mode.now scene.now }
{
    match mode {
        Mode::Export(form, name) => match end_named(scene, *form, name) {
            Some(end) => Some(Asked::Export(*form, name.again(), end)),
            None => None,
        },
        Mode::Timeline => Some(Asked::Timeline),
        Mode::Picture(window) => Some(Asked::Picture(*window)),
        Mode::Unused => Some(Asked::Unused),
    }
}

/// The text of what is asked, of a scene and the record of its run.
pub(crate) fn told(
    alloc: Global,
    asked: &Asked,
    scene: &Scene,
    run: &Record,
) -> Result<Vec<u8>, AllocError>
    requires { IsScene scene.now }
    ensures { IfOk result (λ bytes. bytes.items ≡ told asked.now scene.now run.now) }
{
    match asked {
        Asked::Export(form, name, end) => exported(alloc, *form, name.link, *end, run),
        Asked::Timeline => timeline(alloc, scene, run),
        Asked::Picture(window) => picture(alloc, scene, run, *window),
        Asked::Unused => unused(alloc, scene, run),
    }
}
