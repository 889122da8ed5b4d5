//! What becomes of the words that the program was given.

ghost use Rattle.std.specs.Prelude.{◌≡◌, Err, IfOk, IfErr, drop};
ghost use Rattle.std.specs.IoError.{error_kind};
ghost use Rattle.std.specs.Vec.Iter.{into_iter_items};
ghost use Rattle.csp_bench.specs.Words.{status_without_words};

use crate::status::Status;
use std::alloc::{AllocError, Global};
use std::env::Args;
use std::io;
use std::io::ErrorKind;

/// The words of the command line without the first, which is the program's name, as std tells them. Std tells
/// none where memory was wanting, and where one of them is not UTF-8, which is answered as bad words.
pub fn own_words(alloc: Global, told: io::Result<Args>) -> Result<Vec<String>, Status>
    ensures words { IfOk told (λ all. IfOk result (λ words. words.items ≡ drop 1 (into_iter_items all))) }
    ensures memory { IfOk told (λ all. IfErr result (λ status. status ≡ Status.NoMemory)) }
    ensures untold { IfErr told (λ error. result ≡ Err (status_without_words (error_kind error))) }
{
    let all = match told {
        Ok(all) => all,
        Err(error) => return Err(status_without_words(error.kind())),
    };
    match without_name(alloc, all) {
        Ok(words) => Ok(words),
        Err(_) => Err(Status::NoMemory),
    }
}

/// All but the first of these words.
fn without_name(alloc: Global, all: Args) -> Result<Vec<String>, AllocError>
    ensures { IfOk result (λ words. words.items ≡ drop 1 (into_iter_items all)) }
{
    all.skip(1).collect(alloc)
}

/// The answer where std could not tell the words.
fn status_without_words(kind: ErrorKind) -> Status
    ensures { result ≡ status_without_words kind }
{
    match kind {
        ErrorKind::OutOfMemory => Status::NoMemory,
        _ => Status::Words,
    }
}
