//! The scenario language: a text to a scene, or to the line that is refused and why.
//!
//! `docs/scenario.md` has the language form by form. What a contract sees of a scene stands in
//! `specs/Scene.antt`, and which ranges its numbers have in `specs/Ranges.antt`.
#![tactic(auto)]

mod arguments;
mod checks;
mod faults;
mod harm;
mod joining;
mod judge;
mod limits;
mod links;
mod naming;
mod nodes;
mod reading;
mod refusal;
mod rows;
mod scenario;
mod schedule;
mod sharing;
mod sketch;
mod step_words;
mod steps;
mod table;
mod transport;

pub use csp_app::{Script, Step};
pub use csp_link::{Fault, FaultKind};
pub use csp_log::{End, LinkKind};
pub use csp_rdp_header::{MAX_WINDOW, Options};
pub use csp_sfp::{MAX_BLOB, MAX_SIZE};
pub use limits::{
    BRIDGE_LINKS, CRC_FLAG, DEFAULT_INBOX, DEFAULT_MTU, DEFAULT_PRIO, DEFAULT_SEED, FRAG_FLAG,
    LAST_FRAME, MAX_ADDR, MAX_COPIES, MAX_COUNT, MAX_DELAY, MAX_DEST, MAX_FAULTS, MAX_FLIP,
    MAX_HUB_NODES, MAX_INBOX, MAX_LINE, MAX_LINKS, MAX_MTU, MAX_NODES, MAX_OPTION, MAX_PORT,
    MAX_PRIO, MAX_RAW, MAX_ROUNDS, MAX_SEED, MAX_SEND, MAX_SHUFFLE, MAX_SLOT, MAX_STEPS, MAX_UNTIL,
    MIN_BUFFERS, MIN_INBOX, MIN_MTU, RDP_FLAG,
};
pub use reading::parse;
pub use refusal::{SceneError, SceneKind};
pub use scenario::{Move, Scene, SceneApp, SceneLink, SceneNode, Schedule};
