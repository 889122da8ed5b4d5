//! What goes through a lane.

use csp_deck::Item;
use csp_tally::{Ticket, Witness};

/// An item, with its number among those that were put into the lane, and with what its sender had got of another lane.
/// The number and the note take no step and are seen by contracts alone.
pub struct Cargo {
    /// The item.
    pub(crate) item: Item,
    /// Its number.
    pub(crate) ticket: Ticket,
    /// The last item of another lane that its sender had got, where it had got one and tells.
    pub(crate) note: Option<Witness>,
}
