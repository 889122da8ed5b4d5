//! `csptrace`: what can be seen of a run, over standard input and standard output.
#![tactic(auto)]

use csp_base::{ReadSource, WriteSink};
use csp_bench::own_words;
use csp_trace::{say, trace_main};
use std::process::ExitCode;
use std::{env, io};

fn main(rt: HostRuntime) -> ExitCode {
    let mut source = ReadSource::new(rt.reader());
    let mut sink = WriteSink::new(io::writer(&rt));
    let status = match own_words(rt.alloc(), env::args(&rt)) {
        Ok(words) => trace_main(rt.alloc(), words.as_slice(), &mut source, &mut sink),
        Err(status) => status,
    };
    let errors = rt.stderr();
    // The exit status tells the same, so nothing is lost where standard error takes nothing.
    let _ = say(status, &mut WriteSink::new(io::writer(&errors)));
    ExitCode::from(status.code())
}
