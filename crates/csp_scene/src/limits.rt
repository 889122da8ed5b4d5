//! How many of each thing a scenario may have, and which numbers its lines may give.

use csp_base::{MAX_FRAME, MAX_PAYLOAD, SLOTS};
use csp_header::FlagSet;
use csp_link::MAX_REPEATS;
use csp_log::{LINK_ENDS, MAX_DATA};

/// The most bytes that a line has.
pub const MAX_LINE: usize = 8192;

/// The most rounds that `until` may name.
pub const MAX_UNTIL: u32 = 100_000;

/// The greatest address of a node; the one above it is broadcast.
pub const MAX_ADDR: u32 = 30;

/// The most nodes of a scene, bridges among them.
pub const MAX_NODES: usize = 8;

/// The most links of a scene.
pub const MAX_LINKS: usize = 12;

/// The most nodes of a hub; the fewest are two.
pub const MAX_HUB_NODES: usize = LINK_ENDS;

/// How many links each bridge has.
pub const BRIDGE_LINKS: usize = 2;

/// The least that the longest payload of a link may be.
pub const MIN_MTU: u32 = 64;

/// The most that the longest payload of a link may be: that of a packet.
pub const MAX_MTU: u32 = MAX_PAYLOAD as u32;

/// The longest payload of a link whose line gives none.
pub const DEFAULT_MTU: u32 = 256;

/// The most faults that the plans of all links have together.
pub const MAX_FAULTS: usize = 10_000;

/// The greatest number of a frame that a fault may name; frames are counted from 1.
pub const LAST_FRAME: u32 = 4_294_967_295;

/// The most copies of a frame that a fault may add.
pub const MAX_COPIES: u32 = MAX_REPEATS as u32;

/// The most rounds by which a fault may delay a frame.
pub const MAX_DELAY: u32 = 100_000;

/// The greatest number of a bit that a fault may change: that of the last bit of the longest frame.
pub const MAX_FLIP: u32 = MAX_FRAME as u32 * 8 - 1;

/// The greatest seed of a schedule whose turns are drawn.
pub const MAX_SHUFFLE: u32 = 4_294_967_295;

/// The most steps of an application.
pub const MAX_STEPS: usize = 1000;

/// The fewest buffers that a node has; the most are `MAX_BUFFERS`.
pub const MIN_BUFFERS: u16 = 4;

/// The greatest seed of a node.
pub const MAX_SEED: u32 = 65_535;

/// The seed of a node whose line gives none.
pub const DEFAULT_SEED: u32 = 0;

/// The least room that a node's inbox has for each priority.
pub const MIN_INBOX: u32 = 1;

/// The most room that a node's inbox has for each priority.
pub const MAX_INBOX: u32 = 64;

/// The room of an inbox for each priority where the node's line gives none.
pub const DEFAULT_INBOX: u32 = 16;

/// The greatest number that an option of a node's reliable connections may be; the window is at most
/// `MAX_WINDOW`.
pub const MAX_OPTION: u32 = 4_294_967_295;

/// The greatest number of a slot of an application.
pub const MAX_SLOT: u32 = SLOTS as u32 - 1;

/// The greatest port.
pub const MAX_PORT: u32 = 63;

/// The greatest address that a connection may lead to: that of all nodes.
pub const MAX_DEST: u32 = MAX_ADDR + 1;

/// The greatest number of a priority, that of the least urgent.
pub const MAX_PRIO: u32 = 3;

/// The priority of a connection whose line gives none.
pub const DEFAULT_PRIO: u32 = 2;

/// The header's flag of a checksum at the payload's end.
pub const CRC_FLAG: u8 = FlagSet::CRC32.0;

/// The header's flag of the reliable transport.
pub const RDP_FLAG: u8 = FlagSet::RDP.0;

/// The header's flag of a packet that is a piece of a blob.
pub const FRAG_FLAG: u8 = FlagSet::FRAG.0;

/// The most packets that a step may send, and the most packets or blobs that it may wait for.
pub const MAX_COUNT: u32 = 32_767;

/// The most rounds that a step may wait.
pub const MAX_ROUNDS: u32 = 100_000;

/// The most bytes that a packet of a `send` or `burst` step has.
pub const MAX_SEND: u32 = MAX_DATA as u32;

/// The most bytes that a `raw` step's packet has.
pub const MAX_RAW: u32 = MAX_PAYLOAD as u32;
