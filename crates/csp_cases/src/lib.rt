//! Tables of cases, a line or two each: what is asked, and the answer that it should have. What an answer is says who
//! reads a table; here stand the form of the lines, words and texts inside of them, and the tables of a folder.
#![tactic(auto)]

mod case;
mod cases;
mod folder;
mod texts;
mod told_text;

pub use case::{Case, Steps, stepped};
pub use cases::{Answers, judged};
pub use folder::{judge_tables, names_of};
