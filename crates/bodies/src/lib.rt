// The pass over bodies: each method's body and the start block are typed, in line order.
#![tactic(auto)]

ghost use Rattle.bodies.specs.Whole.{PreEnter, PostEnter, PreMethodHere, PostMethodHere, BodiesReady};
ghost use Rattle.bodies.specs.Whole.{BodiesDone};

use expressions::expression;
use language::{
    BODY_PLACE, EFFECT_REFUSAL, METHOD_WIDTH, NO_TYPE, OWNER_PLACE, PARAMETERS_PLACE, Refusal,
    TYPE_REFUSAL, Type, first,
};
use types::slots::{HALF, Scope, fresh};
use types::{Program, is_fitting, is_within, refused};

// `this` where there is none.
const NO_THIS: u32 = NO_TYPE * HALF + NO_TYPE;

// The slots at the start of a method's body: `this`, then the parameters of the P lines from a row on.
fn enter(rows: &[u32], slots: &mut [u32], owner: u32, from: usize, n: usize)
    requires { PreEnter rows.now slots.old from n }
    ensures { PostEnter rows.now slots.old slots.new owner from n }
{
    slots[0] = fresh(owner);
    for i in 0..n {
        slots[1 + i] = fresh(first(rows, from + i));
    }
}

// The method of a number: its body, then on its M line the body's type, 9, and effect, 10.
fn method(
    program: &Program,
    slots: &mut [u32],
    class_at: &mut [u16],
    count: u32,
    width: usize,
    number: usize,
) -> Result<(), Refusal>
    requires { PreMethodHere program.now slots.old count width number }
    ensures { PostMethodHere program.now slots.old class_at.old slots.new class_at.new count width number result }
{
    let at = program.method_row(number);
    let owner = program.method_entry(number, OWNER_PLACE) as u32;
    let n = program.method_entry(number, PARAMETERS_PLACE);
    let body = program.method_entry(number, BODY_PLACE);
    enter(program.rows, slots, owner, at + 1, n);
    let scope = Scope {
        count,
        class: owner,
        size: n + 1,
        width,
        top: width,
    };
    let r = expression(program, slots, class_at, body, scope)?;
    if !is_fitting(
        program.above,
        r.typing,
        Type::from_number(first(program.rows, at)),
    ) {
        return Err(refused(TYPE_REFUSAL, at));
    }
    if !is_within(r.effect, program.effects[number]) {
        return Err(refused(EFFECT_REFUSAL, at));
    }
    Ok(())
}

// The pass: the methods in order, then the start block, which follows the S line at row `start`. There are
// `many` methods; `width` is how many slots may be in scope at most. Lookup classes are noted as far as
// `class_at` goes.
pub fn check_bodies(
    rows: &[u32],
    ends: &[u16],
    table: &[u16],
    above: &[u64],
    methods: &[u16],
    effects: &[u64],
    slots: &mut [u32],
    class_at: &mut [u16],
    count: u32,
    many: usize,
    start: usize,
    width: usize,
) -> Result<(), Refusal>
    requires { BodiesReady rows.now ends.now table.now above.now methods.now effects.now
        slots.old count many start width }
    ensures { BodiesDone rows.now ends.now table.now
        above.now methods.now effects.now slots.old
        class_at.old class_at.new count many start width result }
{
    let program = Program {
        rows,
        ends,
        table,
        above,
        methods,
        effects,
    };
    for i in 0..many {
        method(&program, slots, class_at, count, width, i)?;
    }
    slots[0] = NO_THIS;
    let scope = Scope {
        count,
        class: 0,
        size: 1,
        width,
        top: width,
    };
    expression(&program, slots, class_at, start + 1, scope)?;
    Ok(())
}
