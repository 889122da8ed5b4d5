//! The files of a folder, and the tables among them.

use crate::cases::{Answers, judged};
use std::fs::Files;
use std::{fs, io};

/// The names of the files of the present folder with this ending, without it, in alphabetical order.
pub fn names_of<R: Files + AllocGlobal + Clone + Drop>(
    rt: &R,
    ending: &str,
) -> io::Result<Vec<String>> {
    let mut names = Vec::new(rt.alloc());
    for entry in fs::read_dir(rt, ".")? {
        let entry = entry?;
        if let Some(name) = entry.file_name().strip_suffix(ending) {
            names.push(String::from_str(rt.alloc(), name)?)?;
        }
    }
    names.sort()?;
    Ok(names)
}

/// Prints of each table of the present folder, a file `NAME.table`, how many cases it has, and after it each case that
/// differs.
pub fn judge_tables<R: Files + Print + AllocGlobal + Clone + Drop, A: Answers>(
    rt: &R,
    who: &A,
) -> io::Result<()> {
    let names = names_of(rt, ".table")?;
    for name in names.as_slice() {
        let text = fs::read_to_string(rt, format!(in rt.alloc(); "{name}.table")?)?;
        let told = judged(rt.alloc(), who, text.as_str())?;
        print!(rt; "table {name}: {told}")?;
    }
    Ok(())
}
