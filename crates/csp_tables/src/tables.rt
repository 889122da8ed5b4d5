//! What the cases ask, by their first word.

mod buffer;
mod can;
mod command;
mod crc;
mod generated;
mod header;
mod kiss;
mod machine;
mod number;
mod ports;
mod rdp;
mod record;
mod route;
mod scene;
mod service;
mod sfp;
mod text;
mod window;

use csp_cases::{Answers, Case};

/// Formats and parts of a node, of the bench and of the program.
pub(crate) struct Tables;

impl Answers for Tables {
    /// Tells the answer to what a case asks. Its first word names who is asked.
    fn answer(&self, case: &mut Case) {
        match case.word() {
            "number" => number::answer(case),
            "text" => text::answer(case),
            "crc" => crc::answer(case),
            "header" => header::answer(case),
            "kiss" => kiss::answer(case),
            "can" => can::answer(case),
            "route" => route::answer(case),
            "cmp" => service::request(case),
            "rdp" => rdp::answer(case),
            "sfp" => sfp::answer(case),
            other => answer_of_part(case, other),
        }
    }
}

/// Tells the answer of a part of a node, of the bench or of the program.
fn answer_of_part(case: &mut Case, who: &str) {
    match who {
        "buffer" => buffer::answer(case),
        "ports" => ports::answer(case),
        "service" => service::answer(case),
        "window" => window::answer(case),
        "machine" => machine::answer(case),
        "stale" => record::stale(case),
        "passed" => record::passed(case),
        "weight" => record::weight(case),
        "scene" => scene::answer(case),
        "command" => command::answer(case),
        "gen" => generated::answer(case),
        _ => case.misread(),
    }
}
