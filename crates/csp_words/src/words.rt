//! Reads the words.

ghost use Rattle.std.specs.Prelude.{◌≡◌, ◌≢◌, ◌↔◌, ◌≤◌, ◌++◌, ℕ, Bool, Ok, Err, None, IfSome, [], ◌∷◌, map, codes};
ghost use Rattle.std.specs.Fmt.{decimal};
ghost use Rattle.std.specs.String.{string_bytes};
ghost use Rattle.csp_words.specs.Grammar.{AreGen, AreRun, command_of, tap_words};

use crate::grammar::{Command, DEFAULT_WORKERS, MAX_WORKERS, WordsError};
use csp_gen::MAX_PACKETS;
use csp_text::number;

/// The command that the words name. They don't hold the program's name. Every list of words outside the
/// grammar is refused, also one with a word more or less. It takes no memory.
pub fn command(words: &[String]) -> Result<Command, WordsError>
    ensures value { result ≡ command_of (map string_bytes words.now) }
    ensures sim { (result ≡ Ok Command.Sim) ↔ (map string_bytes words.now ≡ codes "sim" ∷ []) }
    ensures run { (workers : ℕ) → (result ≡ Ok (Command.Run workers)) ↔ AreRun workers (map string_bytes words.now) }
    ensures generated { (packets : ℕ) → (result ≡ Ok (Command.Gen packets)) ↔ AreGen packets (map string_bytes words.now) }
    ensures tap { (cover : Bool) → (result ≡ Ok (Command.Tap cover)) ↔ (map string_bytes words.now ≡ tap_words cover) }
    ensures refused { (result ≡ Err WordsError.Grammar) ↔ ((map string_bytes words.now ≢ codes "sim" ∷ []) × ((workers : ℕ) → ¬ AreRun workers (map string_bytes words.now)) × ((packets : ℕ) → ¬ AreGen packets (map string_bytes words.now)) × ((cover : Bool) → map string_bytes words.now ≢ tap_words cover)) }
{
    named(words)
}

/// The command that stands in the row of the grammar with these words.
fn named(words: &[String]) -> Result<Command, WordsError>
    ensures { result ≡ command_of (map string_bytes words.now) }
{
    match words {
        [word] => of_one(word.as_str().as_bytes()),
        [word, second] => of_two(word.as_str().as_bytes(), second.as_str().as_bytes()),
        [word, option, digits] => of_three(
            word.as_str().as_bytes(),
            option.as_str().as_bytes(),
            digits.as_str().as_bytes(),
        ),
        _ => Err(WordsError::Grammar),
    }
}

/// The command of one word.
fn of_one(word: &[u8]) -> Result<Command, WordsError>
    ensures { result ≡ command_of (word.now ∷ []) }
{
    if word == b"sim".as_slice() {
        Ok(Command::Sim)
    } else if word == b"run".as_slice() {
        Ok(Command::Run {
            workers: DEFAULT_WORKERS,
        })
    } else if word == b"tap".as_slice() {
        Ok(Command::Tap { cover: false })
    } else {
        Err(WordsError::Grammar)
    }
}

/// The command of two words.
fn of_two(word: &[u8], second: &[u8]) -> Result<Command, WordsError>
    ensures { result ≡ command_of (word.now ∷ second.now ∷ []) }
{
    if word == b"gen".as_slice() {
        generated(second)
    } else if word == b"run".as_slice() {
        run_with(second)
    } else if word == b"tap".as_slice() {
        tapped(second)
    } else {
        Err(WordsError::Grammar)
    }
}

/// The command of three words.
fn of_three(word: &[u8], option: &[u8], digits: &[u8]) -> Result<Command, WordsError>
    ensures { result ≡ command_of (word.now ∷ option.now ∷ digits.now ∷ []) }
{
    if word == b"run".as_slice() && option == b"--workers".as_slice() {
        run_by(digits)
    } else {
        Err(WordsError::Grammar)
    }
}

/// The command `gen` with this word for its number.
fn generated(digits: &[u8]) -> Result<Command, WordsError>
    ensures { result ≡ command_of (codes "gen" ∷ digits.now ∷ []) }
{
    match packets(digits) {
        Some(packets) => Ok(Command::Gen { packets }),
        None => Err(WordsError::Grammar),
    }
}

/// The command `tap` with this word for its option.
fn tapped(option: &[u8]) -> Result<Command, WordsError>
    ensures { result ≡ command_of (codes "tap" ∷ option.now ∷ []) }
{
    if option == b"--header".as_slice() {
        Ok(Command::Tap { cover: true })
    } else {
        Err(WordsError::Grammar)
    }
}

/// The command `run` with this word for its option.
fn run_with(option: &[u8]) -> Result<Command, WordsError>
    ensures { result ≡ command_of (codes "run" ∷ option.now ∷ []) }
{
    let Some(digits) = option.strip_prefix(b"--workers=".as_slice()) else {
        return Err(WordsError::Grammar);
    };
    match workers(digits) {
        Some(workers) => Ok(Command::Run { workers }),
        None => Err(WordsError::Grammar),
    }
}

/// The command `run --workers` with this word for the number.
fn run_by(digits: &[u8]) -> Result<Command, WordsError>
    ensures { result ≡ command_of (codes "run" ∷ codes "--workers" ∷ digits.now ∷ []) }
{
    match workers(digits) {
        Some(workers) => Ok(Command::Run { workers }),
        None => Err(WordsError::Grammar),
    }
}

/// How many packets a word asks for, exactly where it is a decimal number in their range.
fn packets(digits: &[u8]) -> Option<u32>
    ensures some { IfSome result (λ packets. AreGen packets (codes "gen" ∷ digits.now ∷ [])) }
    ensures none { result ≡ None → (packets : ℕ) → ¬ AreGen packets (codes "gen" ∷ digits.now ∷ []) }
{
    let packets = number(digits)?;
    if packets < 1 || packets > u64::from(MAX_PACKETS) {
        return None;
    }
    Some(packets as u32)
}

/// How many workers a word asks for, exactly where it is a decimal number in their range.
fn workers(digits: &[u8]) -> Option<u32>
    ensures some { IfSome result (λ workers. (1 ≤ workers) × (workers ≤ MAX_WORKERS) × (digits.now ≡ decimal workers)) }
    ensures none { result ≡ None → (workers : ℕ) → 1 ≤ workers → workers ≤ MAX_WORKERS → digits.now ≢ decimal workers }
{
    let workers = number(digits)?;
    if workers < 1 || workers > u64::from(MAX_WORKERS) {
        return None;
    }
    Some(workers as u32)
}
