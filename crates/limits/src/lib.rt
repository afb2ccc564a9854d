// The translator's own refusals of accepted rows: what passes its limits, and the field names that it keeps for itself.
#![tactic(auto)]

ghost use Rattle.std.specs.Prelude.{◌≡◌, ◌*◌, ◌≤◌, length};
ghost use Rattle.emitters.specs.Writing.{SomeFieldLines};
ghost use Rattle.limits.specs.Standing.{SomeMethodsStand, MethodsPassed, SomeClassesStand};
ghost use Rattle.limits.specs.Bounds.{SomeCounted, FieldsLimited, FieldsFree, NamesFree, first_refused};
ghost use Rattle.limits.specs.Bounds.{SomeChecked, Limited};
ghost use Rattle.language.specs.Limits.{of_check, numbers_a_row};

use emitters::rows::field_name;
use form::Formed;
use language::{
    CLASS, COUNT_PLACE, FIELD, ID, IMP, LIMIT_REFUSAL, METHOD, RESERVED_REFUSAL, Refusal,
    class_entry, letter_at, second,
};

// How many rows the translator's input may have, and how many fields a class of it.
const ROW_LIMIT: usize = 680;

const FIELD_LIMIT: usize = 16;

// The row after the methods from row `at` on.
fn after_methods(rows: &[u32], ends: &[u16], at: usize) -> usize
    requires { SomeMethodsStand rows.now ends.now at }
    ensures { MethodsPassed rows.now ends.now at result }
{
    let mut row = at;
    while letter_at(rows, row) == METHOD {
        row = layout::skip_method(rows, ends, row);
    }
    row
}

// Refuses the first field over the limit, of the classes from row `at` on.
fn check_fields(rows: &[u32], ends: &[u16], tables: &[u16], at: usize) -> Result<(), Refusal>
    requires { SomeCounted rows.now ends.now tables.now at }
    ensures { FieldsLimited rows.now ends.now tables.now at result }
{
    let mut row = at;
    while letter_at(rows, row) == CLASS {
        let inherited = class_entry(tables, second(rows, row), COUNT_PLACE) as usize;
        let room = FIELD_LIMIT.saturating_sub(inherited);
        let fields = row + 1;
        let n = layout::count_rows(rows, fields, FIELD);
        if room < n {
            let line = (fields + room) as u32 + 1;
            return Err(Refusal {
                number: LIMIT_REFUSAL,
                line,
            });
        }
        row = after_methods(rows, ends, fields + n);
    }
    Ok(())
}

// Refuses the first of `count` F lines with a reserved name.
fn check_names(rows: &[u32], at: usize, count: usize) -> Result<(), Refusal>
    requires { SomeFieldLines rows.now at count × (length rows.now ≤ numbers_a_row * of_check.rows) }
    ensures { FieldsFree rows.now at count result }
{
    for row in at..at + count {
        let name = field_name(rows, row);
        if name == ID || name == IMP {
            return Err(Refusal {
                number: RESERVED_REFUSAL,
                line: row as u32 + 1,
            });
        }
    }
    Ok(())
}

// The same of the classes from row `at` on.
pub fn check_reserved(rows: &[u32], ends: &[u16], at: usize) -> Result<(), Refusal>
    requires { SomeClassesStand rows.now ends.now at }
    ensures { NamesFree rows.now ends.now at result }
{
    let mut row = at;
    while letter_at(rows, row) == CLASS {
        let fields = row + 1;
        let n = layout::count_rows(rows, fields, FIELD);
        check_names(rows, fields, n)?;
        row = after_methods(rows, ends, fields + n);
    }
    Ok(())
}

// Of the refusals of form and of fields the one on the earlier line.
fn first_refused(
    formed: Result<Formed, Refusal>,
    fields: Result<(), Refusal>,
) -> Result<(), Refusal>
    ensures { result ≡ first_refused formed fields }
{
    let Err(form) = formed else {
        return fields;
    };
    match fields {
        Err(field) if field.line < form.line => Err(field),
        _ => Err(form),
    }
}

// The translator's limits.
pub fn check_limits(rows: &[u32], ends: &[u16], tables: &[u16]) -> Result<(), Refusal>
    requires { SomeChecked rows.now ends.now tables.now }
    ensures { Limited rows.now ends.now tables.now result }
{
    let mut scratch = [0; ROW_LIMIT];
    let formed = form::check_translatable(rows, &mut scratch);
    first_refused(formed, check_fields(rows, ends, tables, 0))
}
