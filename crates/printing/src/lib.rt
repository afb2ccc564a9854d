// The lines that the two programs print of answers (document 01, "Worked programs"), each written at a place of a lent output that has
// room for it.
// Kept: functions that write, no Display. Their contracts say which bytes stand at the place afterwards (`sets`) and which place comes next.
#![tactic(auto)]

ghost use Rattle.std.specs.Prelude.{◌≡◌, [], ◌∷◌, ◌+◌, ◌≤◌, length};
ghost use Rattle.std.proofs.lemmas.List.Edits.{sets};
ghost use Rattle.language.specs.Printed.{refusal_text, counts_text, number_text};
ghost use Rattle.printing.specs.Told.{value_text, end_text, ran_text, answer_text};

use language::{FALSE, NULL, Refusal, TRUE};
use machine::{End, Run};
use objects::Value;

// The bytes of what is printed: null, a truth value, an object, an exception, a refusal or stop, and the end of a line.
const NULL_BYTE: u8 = NULL as u8;

const TRUE_BYTE: u8 = TRUE as u8;

const FALSE_BYTE: u8 = FALSE as u8;

const OBJECT_BYTE: u8 = b'O';

const EXCEPTION_BYTE: u8 = b'E';

const STOP_BYTE: u8 = b'!';

const LINE_FEED: u8 = b'\n';

// Writes a letter at a place, and returns the place after it.
pub fn put_letter(out: &mut [u8], at: usize, letter: u8) -> usize
    requires { at + 1 ≤ length out.old }
    ensures { (result ≡ at + 1) × (out.new ≡ sets out.old at (letter ∷ [])) }
{
    out[at] = letter;
    at + 1
}

// Writes a letter and its number. A number has ten digits at most.
pub fn put_numbered(out: &mut [u8], at: usize, letter: u8, n: u32) -> usize
    requires { at + 12 ≤ length out.old }
    ensures { (result ≡ at + length (letter ∷ number_text n)) × (result ≤ at + 12)
        × (out.new ≡ sets out.old at (letter ∷ number_text n)) }
{
    out[at] = letter;
    fields::write_number(out, at + 1, n)
}

// Writes the line of a refusal.
pub fn put_refusal(out: &mut [u8], at: usize, number: u32, line: u32) -> usize
    requires { at + 24 ≤ length out.old }
    ensures { (result ≡ at + length (refusal_text number line)) × (result ≤ at + 24)
        × (out.new ≡ sets out.old at (refusal_text number line)) }
{
    let then = put_numbered(out, at, STOP_BYTE, number);
    let end = fields::write_number(out, then, line);
    out[end] = LINE_FEED;
    end + 1
}

// Writes a value.
pub fn put_value(out: &mut [u8], at: usize, value: Value) -> usize
    requires { at + 12 ≤ length out.old }
    ensures { (result ≡ at + length (value_text value)) × (result ≤ at + 12)
        × (out.new ≡ sets out.old at (value_text value)) }
{
    match value {
        Value::Null => put_letter(out, at, NULL_BYTE),
        Value::Truth(true) => put_letter(out, at, TRUE_BYTE),
        Value::Truth(false) => put_letter(out, at, FALSE_BYTE),
        Value::Object(j) => put_numbered(out, at, OBJECT_BYTE, j),
    }
}

// Writes how a run ended.
pub fn put_outcome(out: &mut [u8], at: usize, outcome: End) -> usize
    requires { at + 12 ≤ length out.old }
    ensures { (result ≡ at + length (end_text outcome)) × (result ≤ at + 12)
        × (out.new ≡ sets out.old at (end_text outcome)) }
{
    match outcome {
        End::Gave(v) => put_value(out, at, v),
        End::Raised(n) => put_numbered(out, at, EXCEPTION_BYTE, n),
        End::Stopped(stop) => put_numbered(out, at, STOP_BYTE, stop.number()),
    }
}

// Writes the counts of a run, to the end of its line.
pub fn put_counts(out: &mut [u8], at: usize, steps: u32, objects: u32, changes: u32) -> usize
    requires { at + 34 ≤ length out.old }
    ensures { (result ≡ at + length (counts_text steps objects changes)) × (result ≤ at + 34)
        × (out.new ≡ sets out.old at (counts_text steps objects changes)) }
{
    let first = fields::write_number(out, at, steps);
    let second = fields::write_number(out, first, objects);
    let end = fields::write_number(out, second, changes);
    out[end] = LINE_FEED;
    end + 1
}

// Writes the line of a run.
pub fn put_run(out: &mut [u8], at: usize, run: Run) -> usize
    requires { at + 46 ≤ length out.old }
    ensures { (result ≡ at + length (ran_text run)) × (result ≤ at + 46)
        × (out.new ≡ sets out.old at (ran_text run)) }
{
    let then = put_outcome(out, at, run.outcome);
    put_counts(out, then, run.steps, run.objects, run.changes)
}

// Writes the line of an answer.
pub fn put_answer(out: &mut [u8], at: usize, answer: Result<Run, Refusal>) -> usize
    requires { at + 46 ≤ length out.old }
    ensures { (result ≡ at + length (answer_text answer)) × (result ≤ at + 46)
        × (out.new ≡ sets out.old at (answer_text answer)) }
{
    match answer {
        Ok(run) => put_run(out, at, run),
        Err(refusal) => put_refusal(out, at, refusal.number, refusal.line),
    }
}
