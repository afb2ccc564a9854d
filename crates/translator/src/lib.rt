// The translation of rows: the check, then the translator's limits, reserved names and room (document 01, "Refusals and
// stops").
#![tactic(auto)]

ghost use Rattle.std.specs.Prelude.{◌≡◌, ◌+◌, ◌*◌, ◌/◌, ◌≤◌, length, replicate};
ghost use Rattle.language.specs.Filling.{answer, buffer};
ghost use Rattle.language.specs.Translation.{translation};
ghost use Rattle.language.specs.ClassTables.{class_width};
ghost use Rattle.language.specs.Limits.{of_check};
ghost use Rattle.language.specs.MethodTables.{method_width};
ghost use Rattle.passes.specs.Passes.{Room, ClassRoom, Stands};

use form::Formed;
use language::{ALL_CLASSES, LINE_REFUSAL, NUMBERS_A_ROW, Refusal, TABLE_LENGTH};
use passes::{
    ALL_METHOD_TABLE, ALL_ROWS, FEW_CLASSES, FEW_ENTRIES, FEW_METHOD_TABLE, FEW_NUMBERS, FEW_ROWS,
    FEW_TABLE, SHORT_METHOD_TABLE, SHORT_NUMBERS, SHORT_ROWS,
};

// After form, with class tables of its own, of so many numbers and so many entries: checks headings and bodies, then translates.
fn translate_classes<const TABLE: usize, const ENTRIES: usize>(
    rows: &[u32],
    ends: &[u16],
    methods: &mut [u16],
    lookups: &mut [u16],
    formed: Formed,
    out: &mut [u32],
) -> Result<usize, Refusal>
    requires stands { Stands rows.now ends.now formed.classes formed.start }
    requires room { Room rows.now ends.now methods.old }
    requires ends_in_bounds { length ends.now ≤ length lookups.old }
    requires class_room { ClassRoom (replicate TABLE 0) (replicate ENTRIES 0) formed.classes }
    requires tables_in_bounds { (TABLE ≤ (of_check.classes + 1) * class_width) × (ENTRIES ≤ of_check.classes + 1) }
    ensures { (result ≡ answer 4 (translation rows.now) (length out.old))
        × (out.new ≡ buffer (translation rows.now) out.old) }
{
    let mut tables = [0u16; TABLE];
    let mut above = [0u64; ENTRIES];
    passes::check_formed(
        rows,
        ends,
        &mut tables,
        &mut above,
        methods,
        lookups,
        formed.classes,
        formed.start,
    )?;
    plain::translate_checked(rows, ends, &tables, methods, lookups, out)
}

// The translation of whole rows, with tables of its own: ends and lookup classes for so many rows, and so many numbers for
// their methods. Form counts the classes before there are class tables: few classes pay for short ones alone.
fn translate_sized<const ROWS: usize, const METHODS: usize>(
    rows: &[u32],
    out: &mut [u32],
) -> Result<usize, Refusal>
    requires room { Room rows.now (replicate ROWS 0) (replicate METHODS 0) }
    requires sizes_in_bounds { (ROWS ≤ of_check.rows) × (METHODS ≤ of_check.rows / 3 * method_width) }
    ensures { (result ≡ answer 4 (translation rows.now) (length out.old))
        × (out.new ≡ buffer (translation rows.now) out.old) }
{
    let mut ends = [0u16; ROWS];
    let mut methods = [0u16; METHODS];
    let mut lookups = [0u16; ROWS];
    let formed = form::check_form(rows, &mut ends)?;
    let few = formed.classes <= FEW_CLASSES;
    if few {
        translate_classes::<FEW_TABLE, FEW_ENTRIES>(
            rows,
            &ends,
            &mut methods,
            &mut lookups,
            formed,
            out,
        )
    } else {
        translate_classes::<TABLE_LENGTH, ALL_CLASSES>(
            rows,
            &ends,
            &mut methods,
            &mut lookups,
            formed,
            out,
        )
    }
}

// Translates rows into plain rows. Few rows and few classes pay for short tables alone.
#[tactic(auto, using(passes::proofs::Passing::room_short, passes::proofs::Passing::room_few, passes::proofs::Passing::room_many))]
pub fn translate_rows(rows: &[u32], out: &mut [u32]) -> Result<usize, Refusal>
    ensures { (result ≡ answer 4 (translation rows.now) (length out.old))
        × (out.new ≡ buffer (translation rows.now) out.old) }
{
    if rows.len() % NUMBERS_A_ROW != 0 {
        return Err(Refusal {
            number: LINE_REFUSAL,
            line: 0,
        });
    }
    if rows.len() <= SHORT_NUMBERS {
        translate_sized::<SHORT_ROWS, SHORT_METHOD_TABLE>(rows, out)
    } else if rows.len() <= FEW_NUMBERS {
        translate_sized::<FEW_ROWS, FEW_METHOD_TABLE>(rows, out)
    } else {
        translate_sized::<ALL_ROWS, ALL_METHOD_TABLE>(rows, out)
    }
}
