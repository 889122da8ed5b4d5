//! All shapes that a line may have.

ghost use Rattle.std.specs.Prelude.{◌≡◌, ◌++◌, ◌==◌, ◌&&◌, ◌≤◌, List, Some, Ok, Err, IsTrue, IfOk, OnOk, MatchResult, length, map};
ghost use Rattle.std.specs.Str.{bytes_eq};
ghost use Rattle.csp_scene.specs.Table.{first_word, is_step, fixed_of, optional_of, with_options, shapes_of};
ghost use Rattle.csp_scene.specs.Rows.{PlainFormRow, row_of, rows_of, all_rows, begins, begins_step, begins_count, has_choice};
ghost use Rattle.csp_scene.specs.Checks.{has_count};
ghost use Rattle.csp_scene.specs.Judge.{fit};
ghost use Rattle.csp_scene.specs.Kept.{IsOneOf, IsShapeOf, Fits, FitsShape};

use crate::checks::{Check, has_count, whole_passes};
use crate::refusal::SceneKind;
use crate::table::{FORMS, Form, Group, Part};
use std::alloc::{AllocError, Global};
use std::marker::Model;

/// A line form with one choice of its optional words.
#[derive(Drop)]
pub(crate) struct FormRow {
    form: Form,
    shape: Vec<Part>,
}

impl Model for FormRow {
    ghost use Rattle.csp_scene.specs.Rows.{PlainFormRow};
    ghost use Rattle.csp_scene.specs.Kept.{IsShapeOf};

    ghost Value = { PlainFormRow };

    ghost view = { λ row. record { form = row.form; shape = row.shape.items } };

    ghost invariant = { λ row. IsShapeOf row.form row.shape.items };
}

impl FormRow {
    /// The form of its lines.
    pub(crate) fn form(&self) -> Form
        ensures { result ≡ self.now.form }
    {
        self.form
    }

    /// What stands after the first word in its lines.
    pub(crate) fn shape(&self) -> &[Part]
        ensures { result.now ≡ self.now.shape }
    {
        &self.shape
    }

    /// Whether a line with this first word may be of this row.
    pub(crate) fn begins(&self, first: &[u8]) -> bool
        ensures { result ≡ begins first.now self.now }
    {
        first == self.form.word()
    }

    /// The same, where the row is that of a step.
    pub(crate) fn begins_step(&self, first: &[u8]) -> bool
        ensures { result ≡ begins_step first.now self.now }
    {
        self.begins(first) && self.form.is_step()
    }

    /// Whether a line with this first word and so many further ones may be of this row.
    pub(crate) fn begins_count(&self, first: &[u8], count: usize) -> bool
        ensures { result ≡ begins_count first.now count self.now }
    {
        self.begins(first) && has_count(&self.shape, count)
    }

    /// Whether such a line may be of this row, and has its fixed words in their places.
    pub(crate) fn has_choice(&self, first: &[u8], args: &[&[u8]]) -> bool
        ensures { result ≡ has_choice first.now (map (λ word. word.now) args.now) self.now }
    {
        self.begins_count(first, args.len()) && whole_passes(Check::Fixed, &self.shape, args)
    }

    /// Whether the names and then the numbers of a line fit: one whose number of words and fixed
    /// words do.
    pub(crate) fn fit(&self, args: &[&[u8]]) -> Result<(), SceneKind>
        requires { IsTrue (has_count self.now.shape (length args.now)) }
        ensures value { MatchResult result (λ _. fit (map (λ word. word.now) args.now) (Some self.now) ≡ Ok self.now) (λ kind. fit (map (λ word. word.now) args.now) (Some self.now) ≡ Err kind) }
        ensures fits { OnOk result (Fits self.now.form (map (λ word. word.now) args.now)) }
        ensures shape { OnOk result (FitsShape self.now.form self.now.shape (map (λ word. word.now) args.now)) }
    {
        if !whole_passes(Check::Name, &self.shape, args) {
            return Err(SceneKind::Name);
        }
        if !whole_passes(Check::Number, &self.shape, args) {
            return Err(SceneKind::Number);
        }
        Ok(())
    }
}

/// Appends a row for each choice of the optional words.
fn push_choices(
    alloc: Global,
    rows: &mut Vec<FormRow>,
    form: Form,
    shape: &[Part],
    optional: &[Group],
) -> Result<(), AllocError>
    requires fixed { (more : List Part) × (shape.now ≡ fixed_of form ++ more) }
    requires among { (one : List Part) → IsOneOf (with_options shape.now optional.now) one → IsOneOf (shapes_of form) one }
    ensures { OnOk result (rows.new.items ≡ rows.old.items ++ map (row_of form) (with_options shape.now optional.now)) }
{
    match optional {
        [] => {
            let shape = Vec::from_slice(alloc, shape)?;
            rows.push(FormRow { form, shape })?;
        }
        [group, more @ ..] => {
            push_choices(alloc, rows, form, shape, more)?;
            let longer = group.after(alloc, shape)?;
            push_choices(alloc, rows, form, &longer, more)?;
        }
    }
    Ok(())
}

/// Appends all rows of a form.
fn push_rows(alloc: Global, rows: &mut Vec<FormRow>, form: Form) -> Result<(), AllocError>
    ensures { OnOk result (rows.new.items ≡ rows.old.items ++ rows_of form) }
{
    push_choices(alloc, rows, form, form.fixed(), form.optional())
}

/// The whole table.
pub(crate) fn all_rows(alloc: Global) -> Result<Vec<FormRow>, AllocError>
    ensures { IfOk result (λ rows. rows.items ≡ all_rows) }
{
    let mut rows = Vec::new(alloc);
    for form in FORMS.iter() {
        push_rows(alloc, &mut rows, *form)?;
    }
    Ok(rows)
}
