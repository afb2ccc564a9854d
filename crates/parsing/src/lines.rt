// A row taken as a record, and lines of one letter: those that come, and the V lines of a block.
ghost use Rattle.std.specs.Prelude.{◌≡◌, true, ℕ, ◌+◌, ◌*◌, ◌%◌, ◌≤◌, ◌<◌, length, Ok, OnOk};
ghost use Rattle.std.proofs.lemmas.List.Edits.{sets};
ghost use Rattle.language.specs.Form.{locals};
ghost use Rattle.language.specs.Limits.{of_check};
ghost use Rattle.language.specs.Refusals.{refusal};
ghost use Rattle.language.specs.Tables.{next_rows};
ghost use Rattle.parsing.specs.Columns.{most_of};
ghost use Rattle.parsing.specs.Places.{rows_from, row_checked, standing, run, name_at, Ready, There};
ghost use Rattle.parsing.specs.Passes.{ToldLocals};

use super::limits::Limits;
use language::{
    CALL, FIELD, GET, LIMIT_REFUSAL, LINE_REFUSAL, LOCAL, METHOD, MOST_NAME, NUMBERS_A_ROW,
    PLACE_REFUSAL, Refusal, SET, letter_at,
};

// A refusal on the line of a row.
pub fn refusal_at(number: u32, at: usize) -> Refusal
    requires { at ≤ of_check.rows + of_check.parameters + 1 }
    ensures { result ≡ refusal number (at + 1) }
{
    Refusal {
        number,
        line: at as u32 + 1,
    }
}

// The name that a row gives, and 0 where its letter takes none.
// Kept: 0 is what document 01's table of letters, `Rows.name_of`, gives there, and no name is too small.
#[tactic(auto, using(crate::proofs::Places::name_other), unfolding(crate::specs::Places::name_at, language::specs::Rows::letter_among))]
fn name_of(code: u32, a: u32, b: u32) -> u32
    ensures { result ≡ name_at code a b }
{
    match code {
        FIELD | METHOD => b,
        GET | SET | CALL => a,
        _ => 0,
    }
}

// Can a record be taken from this row? If not: 3 past the end, 1 if it is malformed, 2 for a row too many or a name
// too large.
#[tactic(auto, using(crate::proofs::Places::row_past, crate::proofs::Places::row_malformed, crate::proofs::Places::row_over, crate::proofs::Places::row_named, crate::proofs::Places::row_taken))]
pub fn check_row(rows: &[u32], at: usize, limits: Limits) -> Result<(), Refusal>
    requires { (length rows.now % 4 ≡ 0) × (at ≤ limits.rows) }
    ensures { (result ≡ row_checked limits (at + 1) (rows_from rows.now at)) ×
        OnOk result (There limits rows.now at) }
{
    let i = at * NUMBERS_A_ROW;
    if rows.len() <= i {
        return Err(refusal_at(PLACE_REFUSAL, at));
    }
    let code = rows[i];
    let a = rows[i + 1];
    let b = rows[i + 2];
    if !language::is_row(code, a, b, rows[i + 3]) {
        return Err(refusal_at(LINE_REFUSAL, at));
    }
    if limits.rows <= at || MOST_NAME < name_of(code, a, b) {
        return Err(refusal_at(LIMIT_REFUSAL, at));
    }
    Ok(())
}

// Does a record of this letter stand here.
#[tactic(auto, using(crate::proofs::Places::here, crate::proofs::Places::standing_here, crate::proofs::Places::standing_refused))]
pub fn is_letter(rows: &[u32], at: usize, letter: u32, limits: Limits) -> bool
    requires { (length rows.now % 4 ≡ 0) × (at ≤ limits.rows) }
    ensures { (result ≡ standing limits letter (at + 1) (rows_from rows.now at)) ×
        (result ≡ true → There limits rows.now at) }
{
    check_row(rows, at, limits).is_ok() && letter_at(rows, at) == letter
}

// Passes the lines of a letter, as long as they come, and answers the row after them.
#[tactic(auto, using(crate::proofs::LineLaws::passing_start, crate::proofs::LineLaws::passing_step, crate::proofs::LineLaws::passing_end, crate::proofs::LineLaws::row_room))]
pub fn pass_lines(rows: &[u32], ends: &mut [u16], at: usize, letter: u32, limits: Limits) -> usize
    requires { Ready limits rows.now ends.old at }
    ensures { (result ≡ at + run limits letter (at + 1) (rows_from rows.now at))
        × (ends.new ≡ sets ends.old at (next_rows at (run limits letter (at + 1) (rows_from rows.now at))))
        × (result ≤ limits.rows) × (result * 4 ≤ length rows.now) }
{
    let mut i = at;
    // Kept: a `while` finds where the lines end; a `for` to the limit would need a second way out, past its last row.
    while is_letter(rows, i, letter, limits) {
        ends[i] = (i + 1) as u16;
        i += 1;
    }
    i
}

// Passes `count` V lines, with `slots` slots in scope before the first, and answers the row after them.
#[tactic(auto, using(crate::proofs::LineLaws::declaring_start, crate::proofs::LineLaws::declaring_refused, crate::proofs::LineLaws::declaring_other, crate::proofs::LineLaws::declaring_over, crate::proofs::LineLaws::declaring_step, crate::proofs::LineLaws::declaring_end, crate::proofs::LineLaws::row_room, crate::proofs::Places::here))]
pub fn pass_locals(
    rows: &[u32],
    ends: &mut [u16],
    at: usize,
    count: u32,
    slots: u32,
    limits: Limits,
) -> Result<usize, Refusal>
    requires { Ready limits rows.now ends.old at × (slots ≤ limits.slots) }
    ensures { ToldLocals limits rows.now
        ends.old at (locals (most_of limits) count slots (at + 1)
        (rows_from rows.now at)) result ends.new
        × ((next : ℕ) → result ≡ Ok next → slots + count ≤ limits.slots) }
{
    for n in 0..count {
        let i = at + n as usize;
        check_row(rows, i, limits)?;
        if letter_at(rows, i) != LOCAL {
            return Err(refusal_at(PLACE_REFUSAL, i));
        }
        if limits.slots <= slots + n {
            return Err(refusal_at(LIMIT_REFUSAL, i));
        }
        ends[i] = (i + 1) as u16;
    }
    Ok(at + count as usize)
}
