//! The picture of a run, which any browser shows: the nodes as columns, time downwards, and the frames that links carried as lines
//! from their sender's column to their receiver's, coloured by what became of them.
#![tactic(auto)]

mod colours;
mod elements;
mod laws;
mod legend;
mod places;
mod rows;
mod seen;
mod style;
mod whole;
mod words;

pub use laws::labels_stand_apart;
pub use seen::Window;
pub use whole::picture;
