//! What can be seen of a run: from the program's words and the scenario's bytes to the bytes of what is asked, the line on
//! standard error and the exit status.
#![tactic(auto)]

mod asked;
mod command;
mod mode;
mod saying;
mod tracing;

pub use asked::Asked;
pub use command::trace_main;
pub use mode::Mode;
pub use saying::say;
