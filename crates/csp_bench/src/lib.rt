//! What the programs of the bench share: the text that is read, the scene that it states and its run; what is answered, and
//! what is said of it on standard error.
#![tactic(auto)]

mod reading;
mod running;
mod saying;
mod status;
mod words;

pub use reading::{Refusal, read_scene, read_status};
pub use running::run_of;
pub use saying::{MAX_PROGRAM, say};
pub use status::{LimitKind, MAX_SCENARIO, Status};
pub use words::own_words;
