//! An application of a node: a party that takes the steps of a script, one operation a turn.
#![tactic(auto)]

mod app;
mod asking;
mod collecting;
mod items;
mod packets;
mod party;
mod placed;
mod plan;
mod progress;
mod script;
mod slot;
mod step;
mod telling;

pub use app::App;
pub use collecting::{Collectors, open_collectors};
pub use script::Script;
pub use step::Step;
