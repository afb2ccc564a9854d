// What each node of a body does with the types of its children.
ghost use Rattle.std.specs.Prelude.{◌≡◌, ◌+◌, ◌*◌, ◌≤◌, ◌<◌, length};
ghost use Rattle.typing.specs.Nodes.{null_tested, created, slot_read, cast_answer, assigned, PreAssign};
ghost use Rattle.typing.specs.Nodes.{changeable_in, can_change_in, PreOpen, PostOpen, PreChange, PostChange};
ghost use Rattle.typing.specs.Nodes.{PreChoice, PostChoice};
ghost use Rattle.types.specs.Tables.{In_row};

use language::{
    CHANGE_REFUSAL, KIND_PLACE, NAME_REFUSAL, NO_TYPE, ROOT_PLACE, Refusal, SLOT_REFUSAL,
    TYPE_REFUSAL, Type, class_entry, first, second,
};
use types::slots::{Scope, apply_all, current, fresh, join_slots, with_current};
use types::{Program, Typed, Typing, is_fitting, is_type, join_types, plain, refused, typing_of};

// The kinds of the classes whose objects change.
const ROOT_KIND: u32 = 1;

const STATE_KIND: u32 = 2;

// Z takes a class or null: 9.
#[tactic(auto, unfolding(crate::specs::Nodes::null_tested))]
pub fn test_null(child: Typed, at: usize) -> Result<Typed, Refusal>
    requires { at < 65536 }
    ensures { result ≡ null_tested at child.typing child.effect }
{
    match child.typing {
        Typing::Bool => Err(refused(TYPE_REFUSAL, at)),
        _ => Ok(Typed {
            typing: Typing::Bool,
            effect: child.effect,
        }),
    }
}

// W makes an object of a declared class: 4.
#[tactic(auto, unfolding(crate::specs::Nodes::created))]
pub fn create(rows: &[u32], at: usize, scope: Scope) -> Result<Typed, Refusal>
    requires { In_row rows.now at }
    ensures { result ≡ created rows.now scope.count at }
{
    let class = first(rows, at);
    if scope.count < class {
        return Err(refused(NAME_REFUSAL, at));
    }
    Ok(plain(Typing::Class(class)))
}

// I reads a slot in scope: 7.
#[tactic(auto, unfolding(crate::specs::Nodes::slot_read))]
pub fn read_slot(rows: &[u32], slots: &[u32], at: usize, scope: Scope) -> Result<Typed, Refusal>
    requires in_row { In_row rows.now at }
    requires size_in_bounds { scope.size ≤ length slots.now }
    ensures { result ≡ slot_read rows.now slots.now at scope.size }
{
    let k = first(rows, at) as usize;
    if scope.size <= k {
        return Err(refused(SLOT_REFUSAL, at));
    }
    let number = current(slots[k]);
    if number == NO_TYPE {
        return Err(refused(SLOT_REFUSAL, at));
    }
    Ok(plain(typing_of(Type::from_number(number))))
}

// K takes a class or null and gives its own class: 4, 9.
#[tactic(auto, unfolding(crate::specs::Nodes::cast_answer, crate::specs::Nodes::casted))]
pub fn cast(rows: &[u32], at: usize, scope: Scope, child: Typed) -> Result<Typed, Refusal>
    requires { In_row rows.now at }
    ensures { result ≡ cast_answer rows.now scope.count at child }
{
    let class = first(rows, at);
    if scope.count < class {
        return Err(refused(NAME_REFUSAL, at));
    }
    match child.typing {
        Typing::Bool => Err(refused(TYPE_REFUSAL, at)),
        _ => Ok(Typed {
            typing: Typing::Class(class),
            effect: child.effect,
        }),
    }
}

// A: 7, 9. The slot's current type stays; the result has the value's type.
#[tactic(auto, unfolding(crate::specs::Nodes::assigned))]
pub fn assign(
    program: &Program,
    slots: &[u32],
    at: usize,
    scope: Scope,
    child: Typed,
) -> Result<Typed, Refusal>
    requires { PreAssign program.now.rows.now program.now.above.now slots.now at scope.size child.typing }
    ensures { result ≡ assigned program.now.rows.now program.now.above.now slots.now at
        scope.size child }
{
    let k = first(program.rows, at) as usize;
    if k == 0 || scope.size <= k {
        return Err(refused(SLOT_REFUSAL, at));
    }
    let allowed = Type::from_number(current(slots[k]));
    if !is_fitting(program.above, child.typing, allowed) {
        return Err(refused(TYPE_REFUSAL, at));
    }
    Ok(child)
}

// Whether a class is a root or a state class.
#[tactic(auto, unfolding(crate::specs::Nodes::changeable_in))]
pub fn is_changeable(table: &[u16], class: u32) -> bool
    requires { class * 576 + 512 < length table.now }
    ensures { result ≡ changeable_in table.now class }
{
    class != Type::OBJECT
        && matches!(
            class_entry(table, class, KIND_PLACE),
            ROOT_KIND | STATE_KIND
        )
}

// Whether an object of one class can become one of another: each is a root or state class, under the same root.
#[tactic(auto, unfolding(crate::specs::Nodes::can_change_in))]
fn can_change(table: &[u16], class: u32, target: u32) -> bool
    requires { (class * 576 + 514 < length table.now) × (target * 576 + 514 < length table.now) }
    ensures { result ≡ can_change_in table.now class target }
{
    is_changeable(table, class)
        && is_changeable(table, target)
        && class_entry(table, class, ROOT_PLACE) == class_entry(table, target, ROOT_PLACE)
}

// R: 4, 7, 11. The root is applied to all slots, then the slot has the target's class.
pub fn change(
    program: &Program,
    slots: &mut [u32],
    at: usize,
    scope: Scope,
) -> Result<Typed, Refusal>
    requires { PreChange program.now.rows.now program.now.table.now slots.old scope.count at scope.size }
    ensures { PostChange program.now.rows.now program.now.table.now slots.old
        slots.new scope.count at scope.size result }
{
    let k = first(program.rows, at) as usize;
    let target = second(program.rows, at);
    if scope.count < target {
        return Err(refused(NAME_REFUSAL, at));
    }
    if scope.size <= k {
        return Err(refused(SLOT_REFUSAL, at));
    }
    let number = current(slots[k]);
    if number == NO_TYPE {
        return Err(refused(SLOT_REFUSAL, at));
    }
    if number == Type::BOOL || !can_change(program.table, number, target) {
        return Err(refused(CHANGE_REFUSAL, at));
    }
    let effect = classes::effect_of(class_entry(program.table, target, ROOT_PLACE));
    apply_all(program.table, slots, scope.size, effect);
    slots[k] = with_current(slots[k], target);
    Ok(Typed {
        typing: Typing::Class(target),
        effect,
    })
}

// J, after its arms: 9 for the condition, 9 for the join.
pub fn choice(
    program: &Program,
    slots: &mut [u32],
    at: usize,
    scope: Scope,
    condition: Typed,
    yes: Typed,
    no: Typed,
) -> Result<Typed, Refusal>
    requires { PreChoice program.now.table.now program.now.above.now slots.old at scope.size scope.top yes.typing
        no.typing }
    ensures { PostChoice program.now.table.now program.now.above.now slots.old
        slots.new at scope.size scope.top condition yes no result }
{
    let Typing::Bool = condition.typing else {
        return Err(refused(TYPE_REFUSAL, at));
    };
    let Some(typing) = join_types(program.table, program.above, yes.typing, no.typing) else {
        return Err(refused(TYPE_REFUSAL, at));
    };
    join_slots(program.table, program.above, slots, scope.size, scope.top);
    Ok(Typed {
        typing,
        effect: condition.effect | (yes.effect | no.effect),
    })
}

// The V lines of a block: each names bool or a declared class, 4, and makes a slot of its type.
pub fn open(
    rows: &[u32],
    slots: &mut [u32],
    at: usize,
    scope: Scope,
    v: usize,
) -> Result<(), Refusal>
    requires { PreOpen rows.now slots.old at scope.size v }
    ensures { PostOpen rows.now slots.old slots.new scope.count at
        scope.size v result }
{
    for i in 0..v {
        let number = first(rows, at + 1 + i);
        if !is_type(scope.count, number) {
            return Err(refused(NAME_REFUSAL, at + 1 + i));
        }
        slots[scope.size + i] = fresh(number);
    }
    Ok(())
}
