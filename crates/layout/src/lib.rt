// Walking over the lines of a heading: those of one letter, and those of a method.
#![tactic(auto)]

ghost use Rattle.std.specs.Prelude.{◌≡◌, ℕ, ◌+◌};
ghost use Rattle.language.specs.Layout.{Run};
ghost use Rattle.language.specs.Tree.{method_lines};
ghost use Rattle.layout.specs.Walks.{MethodStanding};

use language::{EFFECT, NUMBERS_A_ROW, PARAMETER, letter_at};

// How many rows from one on have a letter.
pub fn count_rows(rows: &[u32], r: usize, letter: u32) -> usize
    requires { (n : ℕ) × Run rows.now letter r n }
    ensures { Run rows.now letter r result }
{
    (r..rows.len() / NUMBERS_A_ROW)
        .position(|at| letter_at(rows, at) != letter)
        .unwrap()
}

// The row after a method's body.
pub fn skip_method(rows: &[u32], ends: &[u16], r: usize) -> usize
    requires { MethodStanding rows.now ends.now r }
    ensures { (w : MethodStanding rows.now ends.now r) → result ≡ r + method_lines
        w.method }
{
    let p = count_rows(rows, r + 1, PARAMETER);
    let x = count_rows(rows, r + 1 + p, EFFECT);
    ends[r + 1 + p + x] as usize
}
