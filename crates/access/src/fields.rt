// Fields sought in the class of an expression: G and U.
ghost use Rattle.std.specs.Prelude.{◌≡◌, ◌≤◌, ◌<◌, set as replaced};
ghost use Rattle.access.specs.Fields.{field_in, PreField, got, got_classes, PreGet, PrePut};
ghost use Rattle.access.specs.Fields.{put, put_classes};

use language::{MEMBER_REFUSAL, ROWS_BEFORE, Refusal, TYPE_REFUSAL, Type, class_entry, first};
use types::{Program, Typed, Typing, apply, is_fitting, refused, typing_of};

// The type of the field of a name in a class, where it has one.
#[tactic(auto, unfolding(crate::specs::Fields::field_in))]
pub fn field_type(rows: &[u32], table: &[u16], class: u32, name: usize) -> Option<Type>
    requires { PreField rows.now table.now class name }
    ensures { result ≡ field_in rows.now table.now class name }
{
    let place = class_entry(table, class, name);
    if place == 0 {
        return None;
    }
    let row = class_entry(table, class, ROWS_BEFORE + place as usize) as usize;
    Some(Type::from_number(first(rows, row)))
}

// Notes the class in which the member of a row is sought, where the table has an entry for that row.
pub fn note(class_at: &mut [u16], at: usize, class: u32)
    requires { class ≤ 64 }
    ensures { class_at.new ≡ replaced class_at.old at class }
{
    if at < class_at.len() {
        class_at[at] = class as u16;
    }
}

// G: 9 where there is no class, 8 where there is no field.
#[tactic(auto, unfolding(crate::specs::Fields::got, crate::specs::Fields::got_classes, crate::specs::Fields::found_answer, crate::specs::Fields::noted))]
pub fn get(
    program: &Program,
    class_at: &mut [u16],
    at: usize,
    child: Typed,
) -> Result<Typed, Refusal>
    requires { PreGet program.now.rows.now program.now.table.now at child.typing }
    ensures { (result ≡ got program.now.rows.now program.now.table.now at child.typing child.effect) ×
        (class_at.new
        ≡ got_classes program.now.rows.now program.now.table.now class_at.old at child.typing) }
{
    let Typing::Class(class) = child.typing else {
        return Err(refused(TYPE_REFUSAL, at));
    };
    let Some(u) = field_type(
        program.rows,
        program.table,
        class,
        first(program.rows, at) as usize,
    ) else {
        return Err(refused(MEMBER_REFUSAL, at));
    };
    note(class_at, at, class);
    Ok(Typed {
        typing: typing_of(u),
        effect: child.effect,
    })
}

// U: 9, 8, 9. The value's effect is applied to the object's type before the field is sought.
#[tactic(auto, unfolding(crate::specs::Fields::put, crate::specs::Fields::put_classes, crate::specs::Fields::put_answer, crate::specs::Fields::put_noted, language::specs::Effects::join))]
pub fn set(
    program: &Program,
    class_at: &mut [u16],
    at: usize,
    object: Typed,
    value: Typed,
) -> Result<Typed, Refusal>
    requires { PrePut program.now.rows.now program.now.table.now program.now.above.now at object.typing value }
    ensures { (result ≡ put program.now.rows.now program.now.table.now
        program.now.above.now at object.typing object value)
        × (class_at.new
        ≡ put_classes program.now.rows.now program.now.table.now program.now.above.now
        class_at.old at object.typing value) }
{
    let Typing::Class(c) = object.typing else {
        return Err(refused(TYPE_REFUSAL, at));
    };
    let class = apply(program.table, value.effect, c);
    let Some(u) = field_type(
        program.rows,
        program.table,
        class,
        first(program.rows, at) as usize,
    ) else {
        return Err(refused(MEMBER_REFUSAL, at));
    };
    if !is_fitting(program.above, value.typing, u) {
        return Err(refused(TYPE_REFUSAL, at));
    }
    note(class_at, at, class);
    Ok(Typed {
        typing: value.typing,
        effect: object.effect | value.effect,
    })
}
