// Lines written into the buffer, where there is room for their numbers.
ghost use Rattle.std.specs.Prelude.{◌≡◌, ◌+◌, ◌*◌, ◌≤◌, ◌<◌, ◌∷◌, [], length, get_or, set};
ghost use Rattle.std.proofs.lemmas.List.Edits.{sets};
ghost use Rattle.emitters.specs.Lines.{most_numbers, all_numbers, plain_number, read_lines, slot_lines};
ghost use Rattle.emitters.specs.Writing.{Written, SomeTypes, TypesWritten, SomeFieldLines};
ghost use Rattle.emitters.specs.Writing.{FieldsWritten};

use language::{FIELD, GET, ID, IDENTITY, SLOT, Type, first, second};

// A number, where there is room for it.
fn put_number(out: &mut [u32], place: usize, number: u32)
    ensures { out.new ≡ set out.old place number }
{
    if place < out.len() {
        out[place] = number;
    }
}

// The numbers of one line, as far as there is room. Out of line and cold: the translator counts in an empty buffer and writes
// where all has room, so that no service gets here.
// Kept: one by one, and by value. A copy of a part makes the library for C need `memmove` besides `memcpy` and `memset`, and
// lines lent to a call are kept in memory, also where all have room.
#[cold]
#[inline(never)]
fn put_line(out: &mut [u32], place: usize, code: u32, a: u32, b: u32, c: u32)
    requires { place + 4 ≤ most_numbers }
    ensures { out.new ≡ sets out.old place (code ∷ a ∷ b ∷ c ∷ []) }
{
    put_number(out, place, code);
    put_number(out, place + 1, a);
    put_number(out, place + 2, b);
    put_number(out, place + 3, c);
}

// Lines one after another, as far as there is room.
#[inline(always)]
fn put_part(out: &mut [u32], place: usize, lines: &[[u32; 4]])
    requires { place + 4 * length lines.now ≤ most_numbers }
    ensures { out.new ≡ sets out.old place (all_numbers lines.now) }
{
    let mut end = place;
    for line in lines {
        put_line(out, end, line[0], line[1], line[2], line[3]);
        end += 4;
    }
}

// Lines one after another. Inlined: each caller knows how many lines it has, and where all have room they are copied at once.
#[inline(always)]
pub fn put(out: &mut [u32], place: usize, lines: &[[u32; 4]]) -> usize
    requires { place + 4 * length lines.now ≤ most_numbers }
    ensures { Written (all_numbers lines.now) out.old out.new place result }
{
    let numbers = lines.as_flattened();
    let end = place + numbers.len();
    if end <= out.len() {
        out[place..end].copy_from_slice(numbers);
    } else if place < out.len() {
        put_part(out, place, lines);
    }
    end
}

// Declared class types become Identity, bool stays.
pub fn plain_type(number: u32) -> u32
    ensures { result ≡ plain_number number }
{
    if number == Type::BOOL {
        Type::BOOL
    } else {
        IDENTITY
    }
}

// The name of the field whose F line is a row.
pub fn field_name(rows: &[u32], row: usize) -> u32
    requires { row * 4 + 2 < length rows.now }
    ensures { result ≡ get_or rows.now (row * 4 + 2) 0 }
{
    second(rows, row)
}

// Lines of a letter, each with the plain type of one of the rows from `at` on.
pub fn put_types(
    rows: &[u32],
    out: &mut [u32],
    place: usize,
    at: usize,
    count: usize,
    letter: u32,
) -> usize
    requires some_types { SomeTypes rows.now at count }
    requires count_bound { place + 4 * count ≤ most_numbers }
    ensures { TypesWritten rows.now at count letter out.old out.new
        place result }
{
    let mut end = place;
    for row in at..at + count {
        let t = plain_type(first(rows, row));
        end = put(out, end, &[[letter, t, 0, 0]]);
    }
    end
}

// The F lines from row `at` on, with plain types.
pub fn put_fields(rows: &[u32], out: &mut [u32], place: usize, at: usize, count: usize) -> usize
    requires some_field_lines { SomeFieldLines rows.now at count }
    requires count_bound { place + 4 * count ≤ most_numbers }
    ensures { FieldsWritten rows.now at count out.old out.new place result }
{
    let mut end = place;
    for row in at..at + count {
        let t = plain_type(first(rows, row));
        end = put(out, end, &[[FIELD, t, field_name(rows, row), 0]]);
    }
    end
}

// Slots from `slot` on, read.
pub fn put_reads(out: &mut [u32], place: usize, slot: u32, count: u32) -> usize
    requires { (place + 4 * count ≤ most_numbers) × (slot + count ≤ most_numbers) }
    ensures { Written (read_lines slot count) out.old out.new place result }
{
    let mut end = place;
    for s in slot..slot + count {
        end = put(out, end, &[[SLOT, s, 0, 0]]);
    }
    end
}

// A slot read; `this` is read as its `id`.
pub fn put_slot(out: &mut [u32], place: usize, slot: u32) -> usize
    requires { place + length (slot_lines slot) ≤ most_numbers }
    ensures { Written (slot_lines slot) out.old out.new place result }
{
    if slot == 0 {
        put(out, place, &[[GET, ID, 0, 0], [SLOT, 0, 0, 0]])
    } else {
        put(out, place, &[[SLOT, slot, 0, 0]])
    }
}
