//! The files of the folder that the program is run in.

use std::fs::Files;
use std::{fs, io};

/// The bytes of the file of this name and ending.
pub(crate) fn bytes_of<R: Files + AllocGlobal + Clone>(
    rt: &R,
    name: &str,
    ending: &str,
) -> io::Result<Vec<u8>> {
    fs::read(rt, format!(in rt.alloc(); "{name}{ending}")?)
}
