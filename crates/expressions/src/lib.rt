// Types of expressions, as one cycle of functions: an expression, by its letter, with its children.
#![tactic(auto)]

ghost use Rattle.std.specs.Prelude.{◌≡◌, ◌*◌, ◌≤◌, get_or};
ghost use Rattle.language.specs.Rows.{code, B_block, J_choose, Q_call, U_set};
ghost use Rattle.expressions.specs.Cycle.{raised, Unary, PreNode, PostNode, PreNodes, PostNodes, PostGiven};

use access::fields::{get, set};
use access::methods::{invoke, too_many};
use language::{Refusal, first, letter_at, second};
use types::slots::{Scope, save, store_type, swap};
use types::{Program, Typed, Typing, plain};
use typing::nodes::{assign, cast, change, choice, create, open, read_slot, test_null};

// No method has more parameters.
const MOST_ARGUMENTS: usize = language::MOST_PARAMETERS as usize;

// An expression at row `at`.
#[cycle(arguments_block_call_choose_expression_items_unary_write)]
pub fn expression(
    program: &Program,
    slots: &mut [u32],
    class_at: &mut [u16],
    at: usize,
    scope: Scope,
) -> Result<Typed, Refusal>
    requires { PreNode program.now slots.old at scope }
    ensures { PostNode program.now slots.old class_at.old slots.new class_at.new at scope result }
{
    match letter_at(program.rows, at) {
        language::TRUE | language::FALSE => Ok(plain(Typing::Bool)),
        language::NULL => Ok(plain(Typing::Null)),
        language::SLOT => read_slot(program.rows, slots, at, scope),
        language::NEW => create(program.rows, at, scope),
        language::CHANGE => change(program, slots, at, scope),
        language::SET => write(program, slots, class_at, at, scope),
        language::CALL => call(program, slots, class_at, at, scope),
        language::CHOOSE => choose(program, slots, class_at, at, scope),
        language::BLOCK => block(program, slots, class_at, at, scope),
        _ => unary(program, slots, class_at, at, scope),
    }
}

// Z, G, K and A: the child, then the node.
#[cycle(arguments_block_call_choose_expression_items_unary_write)]
fn unary(
    program: &Program,
    slots: &mut [u32],
    class_at: &mut [u16],
    at: usize,
    scope: Scope,
) -> Result<Typed, Refusal>
    requires unary { Unary program.now.rows.now at }
    requires pre { PreNode program.now slots.old at scope }
    ensures { PostNode program.now slots.old class_at.old slots.new class_at.new at scope result }
{
    let child = expression(program, slots, class_at, at + 1, scope)?;
    match letter_at(program.rows, at) {
        language::IS_NULL => test_null(child, at),
        language::GET => get(program, class_at, at, child),
        language::CAST => cast(program.rows, at, scope, child),
        _ => assign(program, slots, at, scope, child),
    }
}

// U: the object, the value, then the node.
#[cycle(arguments_block_call_choose_expression_items_unary_write)]
fn write(
    program: &Program,
    slots: &mut [u32],
    class_at: &mut [u16],
    at: usize,
    scope: Scope,
) -> Result<Typed, Refusal>
    requires at_value { get_or program.now.rows.now (at * 4) 0 ≡ code U_set }
    requires pre { PreNode program.now slots.old at scope }
    ensures { PostNode program.now slots.old class_at.old slots.new class_at.new at scope result }
{
    let object = expression(program, slots, class_at, at + 1, scope)?;
    let next = program.ends[at + 1] as usize;
    let value = expression(program, slots, class_at, next, scope)?;
    set(program, class_at, at, object, value)
}

// Q: the receiver, the arguments, then the node. No method has more than 8 parameters.
#[cycle(arguments_block_call_choose_expression_items_unary_write)]
fn call(
    program: &Program,
    slots: &mut [u32],
    class_at: &mut [u16],
    at: usize,
    scope: Scope,
) -> Result<Typed, Refusal>
    requires at_value { get_or program.now.rows.now (at * 4) 0 ≡ code Q_call }
    requires pre { PreNode program.now slots.old at scope }
    ensures { PostNode program.now slots.old class_at.old slots.new class_at.new at scope result }
{
    let receiver = expression(program, slots, class_at, at + 1, scope)?;
    let next = program.ends[at + 1] as usize;
    let n = second(program.rows, at) as usize;
    if MOST_ARGUMENTS < n {
        items(program, slots, class_at, next, scope, n)?;
        return Err(too_many(receiver.typing, at));
    }
    let given = arguments(program, slots, class_at, next, scope, n)?;
    invoke(program, slots, class_at, at, scope, receiver, given)
}

// J: the condition, then both arms from the same slots.
#[cycle(arguments_block_call_choose_expression_items_unary_write)]
fn choose(
    program: &Program,
    slots: &mut [u32],
    class_at: &mut [u16],
    at: usize,
    scope: Scope,
) -> Result<Typed, Refusal>
    requires at_value { get_or program.now.rows.now (at * 4) 0 ≡ code J_choose }
    requires pre { PreNode program.now slots.old at scope }
    ensures { PostNode program.now slots.old class_at.old slots.new class_at.new at scope result }
{
    let condition = expression(program, slots, class_at, at + 1, scope)?;
    let first = program.ends[at + 1] as usize;
    save(slots, scope.size, scope.top);
    let arm = Scope {
        top: scope.top + scope.size,
        ..scope
    };
    let yes = expression(program, slots, class_at, first, arm)?;
    let second = program.ends[first] as usize;
    swap(slots, scope.size, scope.top);
    let no = expression(program, slots, class_at, second, arm)?;
    choice(program, slots, at, scope, condition, yes, no)
}

// B: its V lines, then its expressions.
#[cycle(arguments_block_call_choose_expression_items_unary_write)]
fn block(
    program: &Program,
    slots: &mut [u32],
    class_at: &mut [u16],
    at: usize,
    scope: Scope,
) -> Result<Typed, Refusal>
    requires at_value { get_or program.now.rows.now (at * 4) 0 ≡ code B_block }
    requires pre { PreNode program.now slots.old at scope }
    ensures { PostNode program.now slots.old class_at.old slots.new class_at.new at scope result }
{
    let v = first(program.rows, at) as usize;
    let n = second(program.rows, at) as usize;
    open(program.rows, slots, at, scope, v)?;
    let inner = Scope {
        size: scope.size + v,
        ..scope
    };
    items(program, slots, class_at, at + 1 + v, inner, n)
}

// n expressions in a row: the type of the last, null where there is none, and the effects joined.
#[cycle(arguments_block_call_choose_expression_items_unary_write)]
fn items(
    program: &Program,
    slots: &mut [u32],
    class_at: &mut [u16],
    at: usize,
    scope: Scope,
    n: usize,
) -> Result<Typed, Refusal>
    requires { PreNodes program.now slots.old at scope n }
    ensures { PostNodes program.now slots.old class_at.old slots.new class_at.new at scope n result }
{
    let mut so_far = plain(Typing::Null);
    let mut next = at;
    for _ in 0..n {
        let r = expression(program, slots, class_at, next, scope)?;
        so_far = Typed {
            typing: r.typing,
            effect: so_far.effect | r.effect,
        };
        next = program.ends[next] as usize;
    }
    Ok(so_far)
}

// n arguments in a row: their effects joined. Their types are stored from the scope's top on, each with the effects of the
// later ones applied.
#[cycle(arguments_block_call_choose_expression_items_unary_write)]
fn arguments(
    program: &Program,
    slots: &mut [u32],
    class_at: &mut [u16],
    at: usize,
    scope: Scope,
    n: usize,
) -> Result<u64, Refusal>
    requires width_le_top { scope.width ≤ scope.top }
    requires pre_list { PreNodes program.now slots.old at (raised scope n) n }
    ensures { PostGiven program.now slots.old class_at.old slots.new class_at.new at scope n result }
{
    let mut effect = 0;
    let mut next = at;
    for i in 0..n {
        let own = Scope {
            top: scope.top + i,
            ..scope
        };
        let r = expression(program, slots, class_at, next, own)?;
        store_type(program.table, slots, scope.top, i, r);
        effect |= r.effect;
        next = program.ends[next] as usize;
    }
    Ok(effect)
}
