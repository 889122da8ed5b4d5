//! The network of a scene: what holds of its posts and its queues, what turns and meetings keep of it, and what follows from it for
//! rounds and for the end of a run. What it is made of besides its parties: the queues that threads share, the memory of each node,
//! who uses which lane, and the room that the end of a run needs. And what its parties did and know between rounds: rounds and
//! meetings keep it, and at the end it says that no party overlooked what earlier rounds had put into its lanes and its inbox, and
//! what all takes and puts of its pool come to.
#![tactic(auto)]

mod between;
mod fabric;
mod keeping;
mod laws;
mod rounds;
mod shown;

pub use between::{goes_on, keeps_when_met, starts};
pub use fabric::{Fabric, NodeRooms, NodeStore};
pub use keeping::{meetings_keep_network, turns_keep_network};
pub use laws::{leads_nodes, opens_books, runs_parties, stands_in_scene, traces_posts};
pub use rounds::{keeps_logs, makes_a_round, makes_no_round, shows_rounds};
pub use shown::shows;
