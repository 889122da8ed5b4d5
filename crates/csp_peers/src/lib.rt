//! What is handed to reliable connections: where the flows of a run are clear, packets of the connection's peer alone, near to where it
//! stands, so that such a run counts no stale copy; and where none is counted, none further ahead than the sender's window.
#![tactic(auto)]

mod laws;

pub use laws::{addresses_differ, counts_no_stale, keeps_window};
