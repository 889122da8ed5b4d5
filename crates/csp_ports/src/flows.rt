//! What a node's own reliable connections begin with.

use csp_rdp_header::Options;

/// What the reliable connections of a node begin with.
#[derive(Clone, Copy)]
pub struct OwnFlows {
    /// The node's place among the nodes, by which tags name it.
    pub node: u8,
    /// What the first sequence numbers are drawn from.
    pub seed: u16,
    /// The options of the connections that the node asks for.
    pub options: Options,
}
