// The fields of a class: checked, and entered in its block of the table of classes.
ghost use Rattle.std.specs.Prelude.{◌≡◌, List, [], ◌∷◌, ◌++◌, ◌+◌, length, Ok};
ghost use Rattle.language.specs.Limits.{of_check};
ghost use Rattle.language.specs.Tree.{type_of_number, Class};
ghost use Rattle.language.specs.World.{is_declared_type};
ghost use Rattle.language.specs.Program.{world, is_state_type};
ghost use Rattle.language.specs.ClassTables.{rows_from};
ghost use Rattle.language.specs.Headings.{check_fields};
ghost use Rattle.language.specs.Results.{passed};
ghost use Rattle.language.specs.Refusals.{result_of};
ghost use Rattle.members.specs.Blocks.{Working};
ghost use Rattle.members.specs.Faults.{faulty, fault_of_field};
ghost use Rattle.members.specs.Ready.{StateReady, FieldReady, EnterReady, FieldsReady};

use super::STATE_KIND;
use language::{
    COUNT_PLACE, KIND_PLACE, KIND_REFUSAL, LIMIT_REFUSAL, MOST_FIELDS, NAME_REFUSAL, ROWS_PLACE,
    Refusal, Type, class_entry, first, second,
};

// Is this the number of a type that the program declares.
pub fn is_declared(t: u32, count: usize) -> bool
    ensures { (P : List Class) → count ≡ length P → result ≡ is_declared_type (world P) (type_of_number t) }
{
    t == Type::BOOL || t as usize <= count
}

// Is this the number of a state class.
pub fn is_state(tables: &[u16], t: u32) -> bool
    requires { StateReady tables.now t }
    ensures { (w : StateReady tables.now t) → result ≡ is_state_type w.P (type_of_number t) }
{
    t != Type::BOOL && class_entry(tables, t, KIND_PLACE) == STATE_KIND
}

// Checks the F line of a row.
pub fn check_field(
    rows: &[u32],
    tables: &[u16],
    r: usize,
    base: usize,
    count: usize,
) -> Result<(), Refusal>
    requires { FieldReady rows.now tables.now r base count }
    ensures { (w : FieldReady rows.now tables.now r base count) → result ≡
        result_of (λ u. u) (faulty (fault_of_field w.P w.fields w.field) (r + 1) passed) }
{
    let line = r as u32 + 1; // of the F line
    if MOST_FIELDS <= tables[base + COUNT_PLACE] {
        return Err(Refusal {
            number: LIMIT_REFUSAL,
            line,
        });
    }
    let t = first(rows, r);
    let name = second(rows, r) as usize;
    if !is_declared(t, count) || tables[base + name] != 0 {
        return Err(Refusal {
            number: NAME_REFUSAL,
            line,
        });
    }
    if is_state(tables, t) {
        return Err(Refusal {
            number: KIND_REFUSAL,
            line,
        });
    }
    Ok(())
}

// Enters the field of an F line.
pub fn enter_field(rows: &[u32], tables: &mut [u16], r: usize, base: usize)
    requires { EnterReady rows.now tables.old r base }
    ensures { (w : EnterReady rows.now tables.old r base) → Working w.P
        w.k tables.new (w.fields ++ (w.field ∷ [])) (w.rows ++ (r ∷ [])) w.methods }
{
    let name = second(rows, r) as usize;
    let n = tables[base + COUNT_PLACE];
    tables[base + name] = n + 1;
    tables[base + ROWS_PLACE + usize::from(n)] = r as u16;
    tables[base + COUNT_PLACE] = n + 1;
}

// Checks and enters the fields of a class.
pub fn check_fields(
    rows: &[u32],
    tables: &mut [u16],
    r: usize,
    n: usize,
    base: usize,
    count: usize,
) -> Result<(), Refusal>
    requires { FieldsReady rows.now tables.old r n base count }
    ensures { (w : FieldsReady rows.now tables.old r n base count)
        → (result ≡ result_of (λ u. u) (check_fields of_check w.P w.fields (r + 1) w.own))
        × (result ≡ Ok tt → Working w.P w.k tables.new (w.fields ++ w.own)
        (w.rows ++ rows_from r w.own) w.methods) }
{
    for at in r..r + n {
        check_field(rows, tables, at, base, count)?;
        enter_field(rows, tables, at, base);
    }
    Ok(())
}
