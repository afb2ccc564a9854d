// Methods sought in the class of an expression: Q.
ghost use Rattle.std.specs.Prelude.{◌≡◌, ◌<◌};
ghost use Rattle.access.specs.Calls.{no_method_for, all_fitting, PreFitting, PreInvoke, Invoked};

use super::fields::note;
use language::{
    MEMBER_REFUSAL, METHODS_FROM, PARAMETERS_PLACE, Refusal, TYPE_REFUSAL, Type, class_entry,
    first, second,
};
use types::slots::{Scope, apply_all};
use types::{Program, Typed, Typing, apply, is_fitting, refused, typing_at, typing_of};

// Q with more arguments than any method has parameters: 9 where the receiver is no class, else 8.
#[tactic(auto, unfolding(crate::specs::Calls::no_method_for))]
pub fn too_many(receiver: Typing, at: usize) -> Refusal
    requires { at < 65536 }
    ensures { result ≡ no_method_for at receiver }
{
    match receiver {
        Typing::Class(_) => refused(MEMBER_REFUSAL, at),
        _ => refused(TYPE_REFUSAL, at),
    }
}

// Whether the types stored from a place on fit the P lines from a row on.
pub fn are_fitting(
    rows: &[u32],
    above: &[u64],
    slots: &[u32],
    from: usize,
    row: usize,
    n: usize,
) -> bool
    requires { PreFitting rows.now above.now slots.now from row n }
    ensures { result ≡ all_fitting rows.now above.now slots.now from row n }
{
    (0..n).all(|i| {
        let declared = Type::from_number(first(rows, row + i));
        is_fitting(above, typing_at(slots[from + i]), declared)
    })
}

// Q, after its children: 9, 8 for the method, 8 for the count, 9. The method's effect comes last, and on all slots.
pub fn invoke(
    program: &Program,
    slots: &mut [u32],
    class_at: &mut [u16],
    at: usize,
    scope: Scope,
    receiver: Typed,
    effect: u64,
) -> Result<Typed, Refusal>
    requires { PreInvoke program.now.rows.now program.now.table.now program.now.above.now program.now.methods.now program.now.effects.now slots.old at
        scope receiver.typing effect }
    ensures { Invoked program.now.rows.now program.now.table.now program.now.above.now
        program.now.methods.now program.now.effects.now slots.old class_at.old at scope
        receiver.typing receiver.effect effect slots.new class_at.new result }
{
    let Typing::Class(c) = receiver.typing else {
        return Err(refused(TYPE_REFUSAL, at));
    };
    let class = apply(program.table, effect, c);
    let name = first(program.rows, at) as usize;
    let n = second(program.rows, at) as usize;
    let stored = class_entry(program.table, class, METHODS_FROM + name) as usize;
    let Some(number) = stored.checked_sub(1) else {
        return Err(refused(MEMBER_REFUSAL, at));
    };
    if program.method_entry(number, PARAMETERS_PLACE) != n {
        return Err(refused(MEMBER_REFUSAL, at));
    }
    let row = program.method_row(number);
    if !are_fitting(program.rows, program.above, slots, scope.top, row + 1, n) {
        return Err(refused(TYPE_REFUSAL, at));
    }
    let own = program.effects[number];
    apply_all(program.table, slots, scope.size, own);
    note(class_at, at, class);
    Ok(Typed {
        typing: typing_of(Type::from_number(first(program.rows, row))),
        effect: receiver.effect | effect | own,
    })
}
