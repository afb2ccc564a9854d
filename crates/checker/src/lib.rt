// The check of rows: their length, then form, headings and bodies (document 01, "Refusals and stops").
#![tactic(auto)]

ghost use Rattle.std.specs.Prelude.{◌≡◌, ◌+◌, ◌*◌, ◌/◌, ◌≤◌, length, replicate};
ghost use Rattle.language.specs.Limits.{of_check};
ghost use Rattle.language.specs.Verdict.{verdict};
ghost use Rattle.language.specs.ClassTables.{class_width};
ghost use Rattle.language.specs.MethodTables.{method_width};
ghost use Rattle.checker.specs.Answers.{verdict_case};
ghost use Rattle.passes.specs.Passes.{Room, ClassRoom, Stands, ChecksAbove};

use form::Formed;
use language::{ALL_CLASSES, LINE_REFUSAL, NUMBERS_A_ROW, Refusal, TABLE_LENGTH};
use passes::{
    ALL_METHOD_TABLE, ALL_ROWS, FEW_CLASSES, FEW_METHOD_TABLE, FEW_NUMBERS, FEW_ROWS, FEW_TABLE,
    SHORT_METHOD_TABLE, SHORT_NUMBERS, SHORT_ROWS, check_formed,
};

// After form, with a class table of its own, of so many numbers. The check reads no lookup classes: their table is empty.
fn check_classes<const TABLE: usize>(
    rows: &[u32],
    ends: &[u16],
    above: &mut [u64],
    methods: &mut [u16],
    formed: Formed,
) -> Result<u32, Refusal>
    requires stands { Stands rows.now ends.now formed.classes formed.start }
    requires room { Room rows.now ends.now methods.old }
    requires class_room { ClassRoom (replicate TABLE 0) above.old formed.classes }
    requires table_in_bounds { TABLE ≤ (of_check.classes + 1) * class_width }
    ensures { ChecksAbove rows.now above.new result }
{
    let mut tables = [0u16; TABLE];
    let mut lookups = [0u16; 0];
    check_formed(
        rows,
        ends,
        &mut tables,
        above,
        methods,
        &mut lookups,
        formed.classes,
        formed.start,
    )
}

// The check of whole rows, with tables of its own: ends for so many rows, and so many numbers for their methods. Form counts
// the classes before there is a class table: few classes pay for a short one alone.
fn check_sized<const ROWS: usize, const METHODS: usize>(
    rows: &[u32],
    above: &mut [u64],
) -> Result<u32, Refusal>
    requires room { Room rows.now (replicate ROWS 0) (replicate METHODS 0) }
    requires sizes_in_bounds { (ROWS ≤ of_check.rows) × (METHODS ≤ of_check.rows / 3 * method_width) }
    requires classes_in_bounds { of_check.classes + 1 ≤ length above.old }
    ensures { ChecksAbove rows.now above.new result }
{
    let mut ends = [0u16; ROWS];
    let mut methods = [0u16; METHODS];
    let formed = form::check_form(rows, &mut ends)?;
    let few = formed.classes <= FEW_CLASSES;
    if few {
        check_classes::<FEW_TABLE>(rows, &ends, above, &mut methods, formed)
    } else {
        check_classes::<TABLE_LENGTH>(rows, &ends, above, &mut methods, formed)
    }
}

// Checks rows with a lent table of superclasses, which tells of an accepted program which class stands below which.
// Few rows and few classes pay for short tables alone.
#[tactic(auto, using(passes::proofs::Passing::uneven, passes::proofs::Passing::refuses_above, passes::proofs::Passing::room_short, passes::proofs::Passing::room_few, passes::proofs::Passing::room_many))]
pub fn check_above(rows: &[u32], above: &mut [u64]) -> Result<u32, Refusal>
    requires { of_check.classes + 1 ≤ length above.old }
    ensures { ChecksAbove rows.now above.new result }
{
    if rows.len() % NUMBERS_A_ROW != 0 {
        return Err(Refusal {
            number: LINE_REFUSAL,
            line: 0,
        });
    }
    if rows.len() <= SHORT_NUMBERS {
        check_sized::<SHORT_ROWS, SHORT_METHOD_TABLE>(rows, above)
    } else if rows.len() <= FEW_NUMBERS {
        check_sized::<FEW_ROWS, FEW_METHOD_TABLE>(rows, above)
    } else {
        check_sized::<ALL_ROWS, ALL_METHOD_TABLE>(rows, above)
    }
}

// Checks rows.
pub fn check_rows(rows: &[u32]) -> Result<(), Refusal>
    ensures { result ≡ verdict_case (verdict rows.now) }
{
    let mut above = [0u64; ALL_CLASSES];
    check_above(rows, &mut above)?;
    Ok(())
}
