//! A line judged as a whole against the lines before it.

ghost use Rattle.std.specs.Prelude.{◌≡◌, ◌||◌, ◌&&◌, not, List, map, Ok, Err, IsTrue, IfOk, IfSome, OnOk, if◌then◌else◌, ◌≤◌, MatchResult, find, length};
ghost use Rattle.std.specs.List.{list_any, list_all};
ghost use Rattle.std.specs.Option.{option_copied};
ghost use Rattle.csp_scene.specs.Table.{suits};
ghost use Rattle.csp_scene.specs.Checks.{has_count};
ghost use Rattle.csp_scene.specs.Naming.{is_hub_called};
ghost use Rattle.csp_scene.specs.Arguments.{word_at};
ghost use Rattle.csp_scene.specs.Rows.{begins, begins_step, begins_count, has_choice};
ghost use Rattle.csp_scene.specs.Judge.{is_printable, fit, row_for, is_comment, judge_words, judge, is_passed_over, begins_app};
ghost use Rattle.csp_text.specs.Cut.{words_of};
ghost use Rattle.csp_scene.specs.Kept.{IsSketch, Fits, FitsShape, Judged};

use crate::arguments::word_at;
use crate::limits::MAX_LINE;
use crate::naming::is_hub_called;
use crate::refusal::SceneKind;
use crate::rows::FormRow;
use crate::sketch::{LineError, Sketch};
use crate::table::Form;
use csp_text::words;
use std::alloc::Global;

fn is_printable(line: &[u8]) -> bool
    ensures { result ≡ list_all is_printable line.now }
{
    line.iter().all(|byte| *byte >= 0x20 && *byte <= 0x7E)
}

/// Whether a first word begins some line form.
fn is_known(table: &[FormRow], first: &[u8]) -> bool
    ensures { result ≡ list_any (begins first.now) table.now }
{
    table.iter().any(|row| row.begins(first))
}

/// Whether a first word begins a step.
fn is_step(table: &[FormRow], first: &[u8]) -> bool
    ensures { result ≡ list_any (begins_step first.now) table.now }
{
    table.iter().any(|row| row.begins_step(first))
}

/// Whether some choice of a first word's lines has so many further words.
fn is_count(table: &[FormRow], first: &[u8], count: usize) -> bool
    ensures { result ≡ list_any (begins_count first.now count) table.now }
{
    table.iter().any(|row| row.begins_count(first, count))
}

/// The first choice with this number of words that has its fixed words in their places, and may be
/// of a line whose first argument is the name of a hub, or is not.
fn choice<'a>(
    table: &'a [FormRow],
    on_hub: bool,
    first: &[u8],
    args: &[&[u8]],
) -> Option<&'a FormRow>
    ensures first { option_copied result ≡ find (λ row. suits on_hub row.form && has_choice first.now (map (λ word. word.now) args.now) row) table.now }
    ensures count { IfSome result (λ row. IsTrue (has_count row.now.shape (length args.now))) }
{
    table.iter().find(|row| row.form().suits(on_hub) && row.has_choice(first, args))
}

/// Which row a line is of, by its first word and the others; `in_app` says that a step may stand
/// here, and `on_hub` that the first of the others is the name of a hub.
fn row_for<'a>(
    table: &'a [FormRow],
    in_app: bool,
    on_hub: bool,
    first: &[u8],
    args: &[&[u8]],
) -> Result<&'a FormRow, SceneKind>
    ensures value { MatchResult result (λ row. row_for table.now in_app on_hub first.now (map (λ word. word.now) args.now) ≡ Ok row.now) (λ kind. row_for table.now in_app on_hub first.now (map (λ word. word.now) args.now) ≡ Err kind) }
    ensures fits { IfOk result (λ row. Fits row.now.form (map (λ word. word.now) args.now)) }
    ensures shape { IfOk result (λ row. FitsShape row.now.form row.now.shape (map (λ word. word.now) args.now)) }
{
    if !is_known(table, first) {
        return Err(SceneKind::Word);
    }
    if !in_app && is_step(table, first) {
        return Err(SceneKind::Place);
    }
    if !is_count(table, first, args.len()) {
        return Err(SceneKind::Count);
    }
    let Some(row) = choice(table, on_hub, first, args) else {
        return Err(SceneKind::Choice);
    };
    match row.fit(args) {
        Ok(()) => Ok(row),
        Err(kind) => Err(kind),
    }
}

/// Whether a line with this first word is a comment.
fn is_comment(first: &[u8]) -> bool
    ensures { result ≡ is_comment first.now }
{
    match first {
        [b'#', ..] => true,
        _ => false,
    }
}

/// Whether a step may stand after a line with these words, where `in_app` says that one may stand
/// before it.
fn stays_in_app(table: &[FormRow], in_app: bool, words: &[&[u8]]) -> bool
    ensures { result ≡ (if is_passed_over table.now (map (λ word. word.now) words.now) then in_app else begins_app (map (λ word. word.now) words.now)) }
{
    let Some(first) = words.first() else {
        return in_app;
    };
    if is_comment(first) || is_step(table, first) {
        return in_app;
    }
    *first == Form::App.word()
}

impl Sketch {
    /// Which row a line is of, by its words and the hubs that there are.
    fn row_of<'a>(
        &self,
        table: &'a [FormRow],
        in_app: bool,
        first: &[u8],
        args: &[&[u8]],
    ) -> Result<&'a FormRow, SceneKind>
        ensures value { MatchResult result (λ row. row_for table.now in_app (is_hub_called (word_at (map (λ word. word.now) args.now) 0) self.now.links) first.now (map (λ word. word.now) args.now) ≡ Ok row.now) (λ kind. row_for table.now in_app (is_hub_called (word_at (map (λ word. word.now) args.now) 0) self.now.links) first.now (map (λ word. word.now) args.now) ≡ Err kind) }
        ensures fits { IfOk result (λ row. Fits row.now.form (map (λ word. word.now) args.now)) }
        ensures shape { IfOk result (λ row. FitsShape row.now.form row.now.shape (map (λ word. word.now) args.now)) }
    {
        let on_hub = is_hub_called(&self.links, word_at(args, 0));
        row_for(table, in_app, on_hub, first, args)
    }

    /// Takes a line in, by its words. A line without words and a comment state nothing.
    fn judge_words(
        &mut self,
        alloc: Global,
        table: &[FormRow],
        in_app: bool,
        words: &[&[u8]],
    ) -> Result<(), LineError>
        requires { IsSketch self.old }
        ensures answer { Judged result self.new (judge_words table.now in_app self.old (map (λ word. word.now) words.now)) }
        ensures kept { OnOk result (IsSketch self.new) }
    {
        let Some((first, args)) = words.split_first() else {
            return Ok(());
        };
        if is_comment(first) {
            return Ok(());
        }
        match self.row_of(table, in_app, first, args) {
            Ok(row) => self.state(alloc, row.form(), row.shape(), args),
            Err(kind) => Err(LineError::Kind(kind)),
        }
    }

    /// Takes a line in, or says the first kind that fits it. `in_app` says that a step may stand
    /// here; the answer, that one may stand after the line.
    pub(crate) fn judge(
        &mut self,
        alloc: Global,
        table: &[FormRow],
        in_app: bool,
        line: &[u8],
    ) -> Result<bool, LineError>
        requires { IsSketch self.old }
        ensures answer { Judged result self.new (judge table.now in_app self.old line.now) }
        ensures stays { IfOk result (λ stays. stays ≡ (if is_passed_over table.now (words_of line.now) then in_app else begins_app (words_of line.now))) }
        ensures kept { OnOk result (IsSketch self.new) }
    {
        if !is_printable(line) {
            return Err(LineError::Kind(SceneKind::Byte));
        }
        if line.len() > MAX_LINE {
            return Err(LineError::Kind(SceneKind::Long));
        }
        match words(alloc, line) {
            Ok(words) => {
                self.judge_words(alloc, table, in_app, &words)?;
                Ok(stays_in_app(table, in_app, &words))
            }
            Err(_) => Err(LineError::NoMemory),
        }
    }
}
