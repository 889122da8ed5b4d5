//! The slots of a node's applications.

/// Names a slot of an application of a node.
#[derive(Clone, Copy)]
pub struct Seat {
    pub app: u8,
    pub slot: u8,
}
