// What the two programs read and print (document 01, "Worked programs"). Callers use `read_input`, which reads an input into a
// lent buffer of any length, and `translate_input` and `run_input`, which take any input and a lent output of any length. The
// other functions write into 8,192 bytes held aside, which are enough for every output. The two programs differ in what they make of
// the rows of an input, which is a trait.
#![tactic(auto)]

ghost use Rattle.std.specs.Prelude.{◌≡◌, ◌+◌, ◌≤◌, List, ℕ, length, take};
ghost use Rattle.std.specs.Io.KnownBytes.{Consumes};
ghost use Rattle.std.proofs.lemmas.List.Edits.{sets};
ghost use Rattle.language.specs.Results.{Checked, accept, bind_checked};
ghost use Rattle.language.specs.Filling.{answer, buffer};
ghost use Rattle.language.specs.Printed.{run_line, source_rows};
ghost use Rattle.language.specs.Printed.{plain_text, run_lines, translate_output, run_output};
ghost use Rattle.language.specs.Limits.{text_room, source_room};
ghost use Rattle.console.specs.Shown.{Shown, output};

use language::{NUMBERS_A_ROW, ROOM_REFUSAL, Refusal};
use printing::{put_answer, put_refusal};
use std::io::Read;

// What the programs hold: bytes of text, numbers of source rows and of plain rows, numbers of a store, and fuel.
const TEXT_ROOM: usize = 8192;

const SOURCE_ROOM: usize = 2720;

const PLAIN_ROOM: usize = 4000;

const STORE_ROOM: usize = 3000;

const PROGRAM_FUEL: u64 = 10000;

// Reads until the buffer is full, the input ends or a read fails, and returns how many bytes it put at the start of the
// buffer. Input that is closed or cannot be read counts as ended there.
pub fn read_input<R: Read>(reader: &mut R, buffer: &mut [u8]) -> usize
    ensures bound { result ≤ length buffer.new }
    ensures bytes { Consumes (R.remaining reader.old) (R.remaining reader.new) (take result buffer.new) }
{
    let mut filled = 0;
    while filled < buffer.len() {
        match reader.read(&mut buffer[filled..]) {
            Ok(0) => break,
            Ok(n) => filled += n,
            Err(_) => break,
        }
    }
    filled
}

// Runs rows over a store of zeros, and writes the line of the run.
fn put_line(out: &mut [u8], at: usize, rows: &[u32]) -> usize
    requires { at + 46 ≤ length out.old }
    ensures { (result ≡ at + length (run_line rows.now)) × (result ≤ at + 46)
        × (out.new ≡ sets out.old at (run_line rows.now)) }
{
    let mut store = [0u32; STORE_ROOM];
    let answer = runner::run_rows(rows, &mut store, PROGRAM_FUEL);
    put_answer(out, at, answer)
}

// The refusal of what has no room, on no line.
const NO_ROOM: Refusal = Refusal {
    number: ROOM_REFUSAL,
    line: 0,
};

// Reads an input into rows.
fn read_source(input: &[u8], rows: &mut [u32]) -> Result<usize, Refusal>
    requires { length rows.old ≡ source_room }
    ensures { (result ≡ answer 4 (source_rows input.now) (length rows.old))
        × (rows.new ≡ buffer (source_rows input.now) rows.old) }
{
    if TEXT_ROOM < input.len() {
        return Err(NO_ROOM);
    }
    reader::read_rows(input, rows)
}

// What a program makes of the rows of its input.
trait Program {
    // The text, or a refusal.
    ghost made: { List ℕ → Checked (List ℕ) };

    // Writes the text into the bytes held aside, and returns its length.
    fn write(rows: &[u32], out: &mut [u8]) -> Result<usize, Refusal>
        requires { length out.old ≡ text_room }
        ensures { Shown (made rows.now) result out.new };
}

// The translating program: the text of the plain rows.
struct Translating;

impl Program for Translating {
    ghost made = { plain_text };

    fn write(rows: &[u32], out: &mut [u8]) -> Result<usize, Refusal> {
        let mut plain = [0u32; PLAIN_ROOM];
        let n = translator::translate_rows(rows, &mut plain)?;
        writer::write_text(&plain[..n * NUMBERS_A_ROW], out)
    }
}

// The running program: the line of the run, then that of the run of the plain rows.
struct Running;

impl Program for Running {
    ghost made = { run_lines };

    fn write(rows: &[u32], out: &mut [u8]) -> Result<usize, Refusal> {
        let mut plain = [0u32; PLAIN_ROOM];
        let n = translator::translate_rows(rows, &mut plain)?;
        let then = put_line(out, 0, rows);
        Ok(put_line(out, then, &plain[..n * NUMBERS_A_ROW]))
    }
}

// Writes what a program makes of the rows of an input.
fn write_source<P: Program>(input: &[u8], out: &mut [u8]) -> Result<usize, Refusal>
    requires { length out.old ≡ text_room }
    ensures { Shown (bind_checked (source_rows input.now) P.made) result out.new }
{
    let mut rows = [0u32; SOURCE_ROOM];
    let n = read_source(input, &mut rows)?;
    P::write(&rows[..n * NUMBERS_A_ROW], out)
}

// Writes a program's output for an input into the bytes held aside, and returns its length. A refusal has a line of its own.
fn write_held<P: Program>(input: &[u8], out: &mut [u8]) -> usize
    requires { length out.old ≡ text_room }
    ensures { (take result out.new ≡ output P.made input.now) × (result ≤ length out.new) }
{
    match write_source::<P>(input, out) {
        Ok(n) => n,
        Err(r) => put_refusal(out, 0, r.number, r.line),
    }
}

// Copies a text to the start of the lent output and returns its length. Where it does not fit, returns refusal 13 and
// writes nothing.
fn hand_over(text: &[u8], out: &mut [u8]) -> Result<usize, Refusal>
    ensures { (result ≡ answer 1 (accept text.now) (length out.old))
        × (out.new ≡ buffer (accept text.now) out.old) }
{
    if out.len() < text.len() {
        return Err(NO_ROOM);
    }
    out[..text.len()].copy_from_slice(text);
    Ok(text.len())
}

// Writes a program's output for an input at the start of the lent output, and returns how many bytes that is.
fn write_output<P: Program>(input: &[u8], out: &mut [u8]) -> Result<usize, Refusal>
    ensures { (result ≡ answer 1 (accept (output P.made input.now)) (length out.old))
        × (out.new ≡ buffer (accept (output P.made input.now)) out.old) }
{
    let mut aside = [0u8; TEXT_ROOM];
    let n = write_held::<P>(input, &mut aside);
    hand_over(&aside[..n], out)
}

// Writes the translating program's output for an input at the start of the lent output, and returns how many bytes that
// is. Where it does not fit, returns refusal 13 and leaves the lent output unchanged.
#[tactic(auto, unfolding(language::specs::Printed::translate_output))]
pub fn translate_input(input: &[u8], out: &mut [u8]) -> Result<usize, Refusal>
    ensures { (result ≡ answer 1 (accept (translate_output input.now))
        (length out.old))
        × (out.new ≡ buffer (accept (translate_output input.now)) out.old) }
{
    write_output::<Translating>(input, out)
}

// Writes the running program's output for an input at the start of the lent output, and returns how many bytes that is.
// Where it does not fit, returns refusal 13 and leaves the lent output unchanged.
#[tactic(auto, unfolding(language::specs::Printed::run_output))]
pub fn run_input(input: &[u8], out: &mut [u8]) -> Result<usize, Refusal>
    ensures { (result ≡ answer 1 (accept (run_output input.now)) (length out.old))
        × (out.new ≡ buffer (accept (run_output input.now)) out.old) }
{
    write_output::<Running>(input, out)
}
