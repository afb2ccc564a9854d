// The run of whole rows with lent tables: form, the check of headings and bodies, evaluation (document 01, "Refusals and stops").
#![tactic(auto)]

ghost use Rattle.std.specs.Prelude.{◌≤◌, ◌+◌, ◌*◌, replicate};
ghost use Rattle.passes.specs.Passes.{Room, ClassRoom, Stands};
ghost use Rattle.running.specs.Answers.{Answers};
ghost use Rattle.language.specs.ClassTables.{class_width};
ghost use Rattle.language.specs.Limits.{most_fuel, of_check};

use form::Formed;
use language::{ALL_CLASSES, Refusal, TABLE_LENGTH};
use machine::Run;
use passes::{FEW_CLASSES, FEW_TABLE};

// After form, with class tables of its own, of so many numbers: checks headings and bodies, then runs. A run reads no lookup
// classes: their table is empty.
fn run_classes<const TABLE: usize>(
    rows: &[u32],
    ends: &[u16],
    methods: &mut [u16],
    formed: Formed,
    store: &mut [u32],
    fuel: u32,
) -> Result<Run, Refusal>
    requires stands { Stands rows.now ends.now formed.classes formed.start }
    requires room { Room rows.now ends.now methods.old }
    requires class_room { ClassRoom (replicate TABLE 0) (replicate (of_check.classes + 1) 0) formed.classes }
    requires table_in_bounds { TABLE ≤ (of_check.classes + 1) * class_width }
    requires fuel_le_most_fuel { fuel ≤ most_fuel }
    ensures { Answers rows.now fuel store.old store.new result }
{
    let mut tables = [0u16; TABLE];
    let mut above = [0u64; ALL_CLASSES];
    let mut lookups = [0u16; 0];
    passes::check_formed(
        rows,
        ends,
        &mut tables,
        &mut above,
        methods,
        &mut lookups,
        formed.classes,
        formed.start,
    )?;
    let run = machine::run_checked(rows, ends, &tables, &above, methods, store, fuel);
    Ok(run)
}

// Runs whole rows with lent tables. Form counts the classes before there are class tables: few classes pay for short ones alone.
pub fn run_whole(
    rows: &[u32],
    ends: &mut [u16],
    methods: &mut [u16],
    store: &mut [u32],
    fuel: u32,
) -> Result<Run, Refusal>
    requires room { Room rows.now ends.old methods.old }
    requires fuel_le_most_fuel { fuel ≤ most_fuel }
    ensures { Answers rows.now fuel store.old store.new result }
{
    let formed = form::check_form(rows, ends)?;
    let few = formed.classes <= FEW_CLASSES;
    if few {
        run_classes::<FEW_TABLE>(rows, ends, methods, formed, store, fuel)
    } else {
        run_classes::<TABLE_LENGTH>(rows, ends, methods, formed, store, fuel)
    }
}
