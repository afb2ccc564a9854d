// From lines of text to rows: the reader (document 01, "Lines and rows").
#![tactic(auto)]

ghost use Rattle.std.specs.Prelude.{◌≡◌, true, [], ◌∷◌, ◌⊎◌, ◌+◌, ◌*◌, ◌≤◌, length, drop};
ghost use Rattle.std.proofs.lemmas.List.Edits.{sets};
ghost use Rattle.language.specs.Alphabet.{ours};
ghost use Rattle.language.specs.Filling.{answer, buffer, tally, is_made, made_numbers};
ghost use Rattle.language.specs.TextLines.{closed, line_of};
ghost use Rattle.language.specs.Texts.{read_text};
ghost use Rattle.text.specs.Places.{line_at};
ghost use Rattle.language.specs.Limits.{of_check, numbers_a_row};

use language::{
    LIMIT_REFUSAL, LINE_REFUSAL, Line, MOST_ROWS, NUMBERS_A_ROW, ROOM_REFUSAL, Refusal,
};

// Texts up to these lengths have buffers of their own. A line takes two bytes at least, so two numbers a byte are enough.
const SHORT_TEXT: usize = 512;

const MIDDLE_TEXT: usize = 8192;

const SHORT_ROOM: usize = 2 * SHORT_TEXT;

const MIDDLE_ROOM: usize = 2 * MIDDLE_TEXT;

// The numbers of the most rows that there may be.
const MOST_ROOM: usize = MOST_ROWS as usize * NUMBERS_A_ROW;

// The line feed that closes a line.
fn close_line(s: &[u8], at: usize, code: u32, first: u32, second: u32) -> Option<Line>
    ensures { result ≡ closed code first second at (drop at s.now) }
{
    if s.len() <= at || s[at] != b'\n' {
        return None;
    }
    Some(Line {
        code,
        first,
        second,
        end: at + 1,
    })
}

// The line at a place.
fn read_line(s: &[u8], at: usize) -> Option<Line>
    ensures { result ≡ line_at at (line_of ours (drop at s.now)) }
{
    if s.len() <= at {
        return None;
    }
    let code = u32::from(s[at]);
    match language::count_numbers(code) {
        0 => close_line(s, at + 1, code, 0, 0),
        1 => {
            let (first, end) = fields::read_number(s, at + 1)?;
            close_line(s, end, code, first, 0)
        }
        2 => {
            let (first, then) = fields::read_number(s, at + 1)?;
            let (second, end) = fields::read_number(s, then)?;
            close_line(s, end, code, first, second)
        }
        _ => None,
    }
}

// Stores a line's row of two numbers at a place.
fn put_row(rows: &mut [u32], i: usize, line: &Line)
    requires { i + 4 ≤ length rows.old }
    ensures { rows.new ≡ sets rows.old i (line.now.code ∷ line.now.first ∷ line.now.second ∷ 0 ∷ []) }
{
    rows[i] = line.code;
    rows[i + 1] = line.first;
    rows[i + 2] = line.second;
    rows[i + 3] = 0;
}

// Parses the lines of a text into rows held aside, and answers how many they are or the first refusal.
// A line takes two bytes at least, and there are 60,000 lines at most.
fn parse_lines(text: &[u8], held: &mut [u32]) -> Result<usize, Refusal>
    requires { (2 * length text.now ≤ length held.old) ⊎
        (numbers_a_row * of_check.rows ≤ length held.old) }
    ensures { (result ≡ tally 4 0 (read_text ours text.now))
        × (is_made (read_text ours text.now) ≡ true
        → held.new ≡ sets held.old 0 (made_numbers (read_text ours text.now))) }
{
    let mut at = 0;
    let mut line: u32 = 1;
    while at < text.len() {
        if MOST_ROWS < line {
            return Err(Refusal {
                number: LIMIT_REFUSAL,
                line,
            });
        }
        let Some(read) = read_line(text, at) else {
            return Err(Refusal {
                number: LINE_REFUSAL,
                line,
            });
        };
        put_row(held, (line as usize - 1) * NUMBERS_A_ROW, &read);
        at = read.end;
        line += 1;
    }
    Ok(line as usize - 1)
}

// Reads a text into rows: parsed first into a buffer held aside, of as many numbers as the parameter says, and copied
// where they fit, so that a refusal changes nothing.
fn read_held<const ROOM: usize>(text: &[u8], rows: &mut [u32]) -> Result<usize, Refusal>
    requires enough { (2 * length text.now ≤ ROOM) ⊎ (numbers_a_row * of_check.rows ≤ ROOM) }
    requires bounded { ROOM ≤ numbers_a_row * of_check.rows }
    ensures { (result ≡ answer 4 (read_text ours text.now) (length rows.old))
        × (rows.new ≡ buffer (read_text ours text.now) rows.old) }
{
    let mut held = [0u32; ROOM];
    let parsed = parse_lines(text, &mut held)?;
    if rows.len() / NUMBERS_A_ROW < parsed {
        return Err(Refusal {
            number: ROOM_REFUSAL,
            line: 0,
        });
    }
    let count = parsed * NUMBERS_A_ROW;
    rows[..count].copy_from_slice(&held[..count]);
    Ok(parsed)
}

// Reads a text into rows. A short text pays for a short buffer alone.
pub fn read_rows(text: &[u8], rows: &mut [u32]) -> Result<usize, Refusal>
    ensures { (result ≡ answer 4 (read_text ours text.now) (length rows.old))
        × (rows.new ≡ buffer (read_text ours text.now) rows.old) }
{
    if text.len() <= SHORT_TEXT {
        read_held::<SHORT_ROOM>(text, rows)
    } else if text.len() <= MIDDLE_TEXT {
        read_held::<MIDDLE_ROOM>(text, rows)
    } else {
        read_held::<MOST_ROOM>(text, rows)
    }
}
