// From rows to lines of text: the writer (document 01, "Lines and rows").
#![tactic(auto)]

ghost use Rattle.std.specs.Prelude.{ℕ, ◌≡◌, true, ◌⊎◌, ◌+◌, ◌*◌, ◌≤◌, ◌<◌, length};
ghost use Rattle.std.proofs.lemmas.List.Edits.{sets};
ghost use Rattle.language.specs.Rows.{numbers_after, row, is_row};
ghost use Rattle.language.specs.Alphabet.{ours};
ghost use Rattle.language.specs.Filling.{answer, buffer, tally, is_made, made_numbers};
ghost use Rattle.language.specs.TextLines.{line_text};
ghost use Rattle.language.specs.Texts.{write_rows};
ghost use Rattle.language.specs.Limits.{of_check};

use language::{
    LARGEST, LIMIT_REFUSAL, LINE_REFUSAL, MOST_ROWS, NUMBERS_A_ROW, ROOM_REFUSAL, Refusal,
};

// The bytes that a row's line has at most.
const MOST_BYTES: usize = 14;

// Rows up to these numbers have buffers of their own.
const FEW_ROWS: usize = 64;

const MANY_ROWS: usize = 1024;

const SMALL_ROOM: usize = MOST_BYTES * FEW_ROWS;

const MIDDLE_ROOM: usize = MOST_BYTES * MANY_ROWS;

const MOST_ROOM: usize = MOST_BYTES * MOST_ROWS as usize;

// Is this a row of a letter with `count` numbers: these in range, the rest 0.
// Kept: beside `language::is_row`, which would look the letter up again. Each arm tests all three numbers, which makes faster
// code than one test before the match.
#[tactic(auto, using(language::proofs::Rows::is_row_by))]
fn are_numbers(count: u32, a: u32, b: u32, c: u32) -> bool
    ensures { (code : ℕ) → numbers_after code ≡ count → result ≡ is_row (row code a b c) }
{
    match count {
        0 => a == 0 && b == 0 && c == 0,
        1 => a <= LARGEST && b == 0 && c == 0,
        2 => a <= LARGEST && b <= LARGEST && c == 0,
        _ => false,
    }
}

// Writes the line of a row at a place, and answers the place after it. Its letter has `count` numbers.
fn write_line(text: &mut [u8], at: usize, code: u32, count: u32, a: u32, b: u32) -> usize
    requires { (numbers_after code < 3) × (at + length (line_text ours code a b) ≤ length text.old)
        × (count ≡ numbers_after code) }
    ensures { (result ≡ at + length (line_text ours code a b)) ×
        (text.new ≡ sets text.old at (line_text ours code a b)) }
{
    text[at] = (code % 256) as u8;
    let mut end = at + 1;
    if 1 <= count {
        end = fields::write_number(text, end, a);
    }
    if 2 <= count {
        end = fields::write_number(text, end, b);
    }
    text[end] = b'\n';
    end + 1
}

// Writes the lines of rows into a text held aside, and answers how long it is or the first refusal.
// A line has 14 bytes at most, and there are 60,000 rows at most.
fn format_rows(rows: &[u32], held: &mut [u8]) -> Result<usize, Refusal>
    requires { (14 * length rows.now ≤ 4 * length held.old) ⊎ (14 * of_check.rows ≤ length held.old) }
    ensures { (result ≡ tally 1 0 (write_rows ours rows.now))
        × (is_made (write_rows ours rows.now) ≡ true
        → held.new ≡ sets held.old 0 (made_numbers (write_rows ours rows.now))) }
{
    if rows.len() % NUMBERS_A_ROW != 0 {
        return Err(Refusal {
            number: LINE_REFUSAL,
            line: 0,
        });
    }
    let mut end = 0;
    for at in 0..rows.len() / NUMBERS_A_ROW {
        if MOST_ROWS as usize <= at {
            return Err(Refusal {
                number: LIMIT_REFUSAL,
                line: MOST_ROWS + 1,
            });
        }
        let (code, a, b) = (
            language::letter_at(rows, at),
            language::first(rows, at),
            language::second(rows, at),
        );
        let count = language::count_numbers(code);
        if !are_numbers(count, a, b, rows[at * NUMBERS_A_ROW + 3]) {
            return Err(Refusal {
                number: LINE_REFUSAL,
                line: at as u32 + 1,
            });
        }
        end = write_line(held, end, code, count, a, b);
    }
    Ok(end)
}

// Writes rows as text: formatted first into a buffer held aside, of as many bytes as the parameter says, and copied where
// it fits, so that a refusal changes nothing.
fn write_held<const ROOM: usize>(rows: &[u32], text: &mut [u8]) -> Result<usize, Refusal>
    requires enough { (14 * length rows.now ≤ 4 * ROOM) ⊎ (14 * of_check.rows ≤ ROOM) }
    requires bounded { ROOM ≤ 14 * of_check.rows }
    ensures { (result ≡ answer 1 (write_rows ours rows.now) (length text.old))
        × (text.new ≡ buffer (write_rows ours rows.now) text.old) }
{
    let mut held = [0u8; ROOM];
    let count = format_rows(rows, &mut held)?;
    if text.len() < count {
        return Err(Refusal {
            number: ROOM_REFUSAL,
            line: 0,
        });
    }
    text[..count].copy_from_slice(&held[..count]);
    Ok(count)
}

// Writes rows as text. Few rows pay for a short buffer alone.
pub fn write_text(rows: &[u32], text: &mut [u8]) -> Result<usize, Refusal>
    ensures { (result ≡ answer 1 (write_rows ours rows.now) (length text.old))
        × (text.new ≡ buffer (write_rows ours rows.now) text.old) }
{
    if rows.len() <= FEW_ROWS * NUMBERS_A_ROW {
        write_held::<SMALL_ROOM>(rows, text)
    } else if rows.len() <= MANY_ROWS * NUMBERS_A_ROW {
        write_held::<MIDDLE_ROOM>(rows, text)
    } else {
        write_held::<MOST_ROOM>(rows, text)
    }
}
