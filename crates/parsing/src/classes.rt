// The pass over methods and classes: their headings, their bodies.
ghost use Rattle.std.specs.Prelude.{ℕ, ◌+◌, ◌≤◌, length};
ghost use Rattle.language.specs.Rows.{Record};
ghost use Rattle.language.specs.Form.{body, method, methods};
ghost use Rattle.parsing.specs.Columns.{most_of};
ghost use Rattle.parsing.specs.Places.{rows_from, Ready, There};
ghost use Rattle.parsing.specs.Passes.{ToldMethod, ToldMethods, ToldClass, class_read};

use super::limits::Limits;
use super::lines::{is_letter, pass_lines, refusal_at};
use super::nodes::pass_body;
use language::{EFFECT, FIELD, LIMIT_REFUSAL, METHOD, MOST_PARAMETERS, PARAMETER, Refusal};

// Passes a method, whose M line stands here: its P lines, its X lines, its body.
fn pass_method(rows: &[u32], ends: &mut [u16], at: usize, limits: Limits) -> Result<usize, Refusal>
    requires { Ready limits rows.now ends.old at × There limits rows.now at }
    ensures { (x : Record) → ToldMethod limits rows.now
        ends.old at (method (most_of limits) (at + 1) x (rows_from rows.now (at + 1))) result
        ends.new }
{
    let effects = pass_lines(rows, ends, at + 1, PARAMETER, limits);
    let parameters = (effects - at - 1) as u32;
    if MOST_PARAMETERS < parameters {
        return Err(refusal_at(LIMIT_REFUSAL, at + 1 + MOST_PARAMETERS as usize));
    }
    let body = pass_lines(rows, ends, effects, EFFECT, limits);
    let next = pass_body(rows, ends, body, parameters + 1, limits)?;
    ends[at] = next as u16;
    Ok(next)
}

// Passes methods, as long as M lines come.
fn pass_methods(rows: &[u32], ends: &mut [u16], at: usize, limits: Limits) -> Result<usize, Refusal>
    requires { Ready limits rows.now ends.old at }
    ensures { (f : ℕ) → length (rows_from rows.now at) ≤ f → ToldMethods limits
        rows.now ends.old at (methods (most_of limits) f (at + 1)
        (rows_from rows.now at)) result ends.new }
{
    let mut i = at;
    while is_letter(rows, i, METHOD, limits) {
        i = pass_method(rows, ends, i, limits)?;
    }
    Ok(i)
}

// Passes a class, whose C line stands here: its F lines, its methods.
pub fn pass_class(
    rows: &[u32],
    ends: &mut [u16],
    at: usize,
    limits: Limits,
) -> Result<usize, Refusal>
    requires { Ready limits rows.now ends.old at × There limits rows.now at }
    ensures { (x : Record) → ToldClass limits rows.now
        ends.old at (class_read limits x (at + 1) (rows_from rows.now (at + 1))) result
        ends.new }
{
    let methods = pass_lines(rows, ends, at + 1, FIELD, limits);
    let next = pass_methods(rows, ends, methods, limits)?;
    ends[at] = next as u16;
    Ok(next)
}
