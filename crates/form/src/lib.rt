// The pass over form (document 01, "Lines and rows"): is this a program, and where does each part of it end. One pass
// serves both columns of the table of limits: that of a checked program, and that of the translator's input.
#![tactic(auto)]

ghost use Rattle.std.specs.Prelude.{◌≡◌, List, ◌++◌, ◌⊎◌, ◌+◌, ◌*◌, ◌%◌, ◌≤◌, length, drop};
ghost use Rattle.language.specs.Limits.{of_check, of_translator};
ghost use Rattle.language.specs.Results.{accept};
ghost use Rattle.language.specs.Rows.{rows_of};
ghost use Rattle.language.specs.Tree.{Class, classes_lines, Program};
ghost use Rattle.language.specs.Form.{at_end, form};
ghost use Rattle.language.specs.Tables.{program_ends};
ghost use Rattle.parsing.specs.Columns.{most_of};
ghost use Rattle.parsing.specs.Places.{rows_from, Ready};
ghost use Rattle.form.specs.Start.{start_read, Started};
ghost use Rattle.form.specs.Answers.{formed_of};

use language::{
    CLASS, LIMIT_REFUSAL, MOST_CLASSES, MOST_FIELDS, MOST_ROWS, NUMBERS_A_ROW, PLACE_REFUSAL,
    Refusal, START, letter_at,
};
use parsing::classes::pass_class;
use parsing::limits::Limits;
use parsing::lines::{check_row, is_letter, refusal_at};
use parsing::nodes::pass_body;

// What the pass finds of rows in form: how many classes there are, and the row of the S line.
#[derive(Clone, Copy)]
pub struct Formed {
    pub classes: u32,
    pub start: u32,
}

// Nothing may follow the start block.
fn finish(
    rows: &[u32],
    at: usize,
    classes: u32,
    start: u32,
    limits: Limits,
) -> Result<Formed, Refusal>
    requires { (length rows.now % 4 ≡ 0) × (at ≤ limits.rows) }
    ensures { (p : Program) → length p.classes ≡ classes → classes_lines p.classes ≡ start
        → result ≡ formed_of (at_end (most_of limits) (at + 1) (rows_from rows.now at) p) }
{
    if rows.len() <= at * NUMBERS_A_ROW {
        return Ok(Formed { classes, start });
    }
    check_row(rows, at, limits)?;
    Err(refusal_at(PLACE_REFUSAL, at))
}

// After the classes: the S line, the start block, the end.
fn pass_start(
    rows: &[u32],
    ends: &mut [u16],
    at: usize,
    classes: u32,
    limits: Limits,
) -> Result<Formed, Refusal>
    requires { Ready limits rows.now ends.old at }
    ensures { (cs : List Class) → length cs ≡ classes → classes_lines cs ≡ at →
        (result ≡ formed_of (start_read limits cs (at + 1) (rows_from rows.now at)))
        × Started cs ends.old at (start_read limits cs (at + 1) (rows_from rows.now at))
        ends.new }
{
    check_row(rows, at, limits)?;
    if letter_at(rows, at) != START {
        return Err(refusal_at(PLACE_REFUSAL, at));
    }
    ends[at] = (at + 1) as u16;
    let next = pass_body(rows, ends, at + 1, 1, limits)?;
    finish(rows, next, classes, at as u32, limits)
}

// The pass: classes, as long as C lines come, then the start. It fills the table of ends.
fn pass_form(rows: &[u32], ends: &mut [u16], limits: Limits) -> Result<Formed, Refusal>
    requires { (length rows.now % 4 ≡ 0) ×
        ((length rows.now ≤ 4 * length ends.old) ⊎ (limits.rows ≤ length ends.old)) }
    ensures { (result ≡ formed_of (form (most_of limits) (rows_of rows.now)))
        × ((p : Program) → form (most_of limits) (rows_of rows.now) ≡ accept p
        → ends.new ≡ program_ends p ++ drop (length (program_ends p)) ends.old) }
{
    let mut i = 0;
    let mut classes = 0u32;
    while is_letter(rows, i, CLASS, limits) {
        if limits.classes <= classes {
            return Err(refusal_at(LIMIT_REFUSAL, i));
        }
        i = pass_class(rows, ends, i, limits)?;
        classes += 1;
    }
    pass_start(rows, ends, i, classes, limits)
}

// The pass under the limits of a checked program.
pub fn check_form(rows: &[u32], ends: &mut [u16]) -> Result<Formed, Refusal>
    requires { (length rows.now % 4 ≡ 0) ×
        ((length rows.now ≤ 4 * length ends.old) ⊎ (of_check.rows ≤ length ends.old)) }
    ensures { (result ≡ formed_of (form of_check (rows_of rows.now)))
        × ((p : Program) → form of_check (rows_of rows.now) ≡ accept p
        → ends.new ≡ program_ends p ++ drop (length (program_ends p)) ends.old) }
{
    let limits = Limits {
        rows: MOST_ROWS as usize,
        classes: MOST_CLASSES,
        fields: u32::from(MOST_FIELDS),
        slots: 256,
        nesting: 128,
    };
    pass_form(rows, ends, limits)
}

// The pass under the limits of the translator's input.
pub fn check_translatable(rows: &[u32], ends: &mut [u16]) -> Result<Formed, Refusal>
    requires { (length rows.now % 4 ≡ 0) ×
        ((length rows.now ≤ 4 * length ends.old) ⊎ (of_translator.rows ≤ length ends.old)) }
    ensures { (result ≡ formed_of (form of_translator (rows_of rows.now)))
        × ((p : Program) → form of_translator (rows_of rows.now) ≡ accept p
        → ends.new ≡ program_ends p ++ drop (length (program_ends p)) ends.old) }
{
    let limits = Limits {
        rows: 680,
        classes: 62,
        fields: 16,
        slots: 32,
        nesting: 24,
    };
    pass_form(rows, ends, limits)
}
