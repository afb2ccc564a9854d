// The evaluator: the rows of a checked program, node by node, over a lent store.
#![tactic(auto)]

ghost use Rattle.std.specs.Prelude.{◌≡◌, true, ◌-◌, ◌*◌, get_or};
ghost use Rattle.objects.specs.Values.{answered};
ghost use Rattle.frames.specs.Slots.{frame_width};
ghost use Rattle.frames.specs.Nodes.{PreEval, PreEntered, PostNode, one_child};
ghost use Rattle.evaluator.specs.Evaluator.{PostEval, PreList, PreArgs, PostItems, PostArgs, nothing};
ghost use Rattle.evaluator.specs.Evaluator.{PreEnter, PostEnter};
ghost use Rattle.language.specs.Rows.{code, B_block, U_set, Q_call, J_choose};

use frames::{Place, SEGMENT};
use language::{BLOCK, CALL, CHOOSE, SET, first, letter_at, second};
use objects::{NULL, Program, SPENT, STUCK, Tally, Value};

// How many values may wait in a node: a receiver and arguments.
const WAITING: usize = language::MOST_PARAMETERS as usize + 1;

// The node at a row.
#[cycle(args_block_call_choose_enter_fresh_eval_items_one_child_set)]
pub fn eval(
    program: &Program,
    store: &mut [u32],
    slots: &mut [u64; SEGMENT],
    tally: &mut Tally,
    at: usize,
    place: &Place,
) -> u64
    requires { PreEval program.now.rows.now program.now.ends.now program.now.tables.now
        program.now.above.now program.now.methods.now store.old
        slots.old at place.now tally.old }
    ensures { PostEval program.now.rows.now program.now.ends.now program.now.tables.now
        program.now.above.now program.now.methods.now store.old slots.old
        store.new slots.new at place.now
        tally.old (answered result tally.new) }
{
    if frames::runs_out(tally) {
        return SPENT;
    }
    let letter = letter_at(program.rows, at);
    if frames::is_leaf(letter) {
        return frames::leaf(program, store, slots, tally, at, place);
    }
    match letter {
        BLOCK => block(program, store, slots, tally, at, place),
        CHOOSE => choose(program, store, slots, tally, at, place),
        CALL => call(program, store, slots, tally, at, place),
        SET => set(program, store, slots, tally, at, place),
        _ => one_child(program, store, slots, tally, at, place),
    }
}

// Z, G, K, A, entered.
#[cycle(args_block_call_choose_enter_fresh_eval_items_one_child_set)]
fn one_child(
    program: &Program,
    store: &mut [u32],
    slots: &mut [u64; SEGMENT],
    tally: &mut Tally,
    at: usize,
    place: &Place,
) -> u64
    requires pre_entered { PreEntered program.now.rows.now program.now.ends.now program.now.tables.now
        program.now.above.now program.now.methods.now store.old
        slots.old at place.now tally.old }
    requires at_value { one_child (get_or program.now.rows.now (at * 4) 0) ≡ true }
    ensures { PostNode program.now.rows.now program.now.ends.now program.now.tables.now
        program.now.above.now program.now.methods.now store.old slots.old
        store.new slots.new at place.now
        tally.old (answered result tally.new) }
{
    let n = eval(program, store, slots, tally, at + 1, place);
    if n >= STUCK {
        return n;
    }

    frames::apply(program, store, slots, tally, at, place, n)
}

// U, entered: the object, then the value.
#[cycle(args_block_call_choose_enter_fresh_eval_items_one_child_set)]
fn set(
    program: &Program,
    store: &mut [u32],
    slots: &mut [u64; SEGMENT],
    tally: &mut Tally,
    at: usize,
    place: &Place,
) -> u64
    requires pre_entered { PreEntered program.now.rows.now program.now.ends.now program.now.tables.now
        program.now.above.now program.now.methods.now store.old
        slots.old at place.now tally.old }
    requires at_value { get_or program.now.rows.now (at * 4) 0 ≡ code U_set }
    ensures { PostNode program.now.rows.now program.now.ends.now program.now.tables.now
        program.now.above.now program.now.methods.now store.old slots.old
        store.new slots.new at place.now
        tally.old (answered result tally.new) }
{
    let n = eval(program, store, slots, tally, at + 1, place);
    if n >= STUCK {
        return n;
    }

    let next = program.ends[at + 1] as usize;
    let n2 = eval(program, store, slots, tally, next, place);
    if n2 >= STUCK {
        return n2;
    }

    objects::save(
        program,
        store,
        tally,
        n,
        n2,
        first(program.rows, at) as usize,
    )
}

// J, entered: the condition, then one arm.
#[cycle(args_block_call_choose_enter_fresh_eval_items_one_child_set)]
fn choose(
    program: &Program,
    store: &mut [u32],
    slots: &mut [u64; SEGMENT],
    tally: &mut Tally,
    at: usize,
    place: &Place,
) -> u64
    requires pre_entered { PreEntered program.now.rows.now program.now.ends.now program.now.tables.now
        program.now.above.now program.now.methods.now store.old
        slots.old at place.now tally.old }
    requires at_value { get_or program.now.rows.now (at * 4) 0 ≡ code J_choose }
    ensures { PostNode program.now.rows.now program.now.ends.now program.now.tables.now
        program.now.above.now program.now.methods.now store.old slots.old
        store.new slots.new at place.now
        tally.old (answered result tally.new) }
{
    let n = eval(program, store, slots, tally, at + 1, place);
    if n >= STUCK {
        return n;
    }

    let Value::Truth(b) = objects::value_of(n) else {
        return STUCK;
    };
    let yes = program.ends[at + 1] as usize;
    if b {
        return eval(program, store, slots, tally, yes, place);
    }
    let no = program.ends[yes] as usize;
    eval(program, store, slots, tally, no, place)
}

// B, entered: its locals come after the slots in scope.
#[cycle(args_block_call_choose_enter_fresh_eval_items_one_child_set)]
fn block(
    program: &Program,
    store: &mut [u32],
    slots: &mut [u64; SEGMENT],
    tally: &mut Tally,
    at: usize,
    place: &Place,
) -> u64
    requires pre_entered { PreEntered program.now.rows.now program.now.ends.now program.now.tables.now
        program.now.above.now program.now.methods.now store.old
        slots.old at place.now tally.old }
    requires at_value { get_or program.now.rows.now (at * 4) 0 ≡ code B_block }
    ensures { PostNode program.now.rows.now program.now.ends.now program.now.tables.now
        program.now.above.now program.now.methods.now store.old slots.old
        store.new slots.new at place.now
        tally.old (answered result tally.new) }
{
    let rows = program.rows;
    let n = first(rows, at) as usize;
    let k = second(rows, at) as usize;
    frames::open_locals(rows, slots, at + 1, place.base + 1 + place.scope, n);
    let inner = Place {
        scope: place.scope + n,
        ..*place
    };
    items(program, store, slots, tally, at + 1 + n, &inner, k)
}

// n expressions in a row, of which the last one's value is asked; null where there is none.
#[cycle(args_block_call_choose_enter_fresh_eval_items_one_child_set)]
fn items(
    program: &Program,
    store: &mut [u32],
    slots: &mut [u64; SEGMENT],
    tally: &mut Tally,
    at: usize,
    place: &Place,
    n: usize,
) -> u64
    requires { PreList program.now.rows.now program.now.ends.now program.now.tables.now
        program.now.above.now program.now.methods.now store.old
        slots.old at place.now tally.old n }
    ensures { PostItems program.now.rows.now program.now.ends.now program.now.tables.now
        program.now.above.now program.now.methods.now store.old slots.old
        store.new slots.new at place.now
        tally.old n nothing (answered result tally.new) }
{
    let mut r = NULL;
    let mut next = at;
    for _ in 0..n {
        r = eval(program, store, slots, tally, next, place);
        if r >= STUCK {
            return r;
        }
        next = program.ends[next] as usize;
    }
    r
}

// n arguments, whose values go to the slots from the top on.
#[cycle(args_block_call_choose_enter_fresh_eval_items_one_child_set)]
fn args(
    program: &Program,
    store: &mut [u32],
    slots: &mut [u64; SEGMENT],
    tally: &mut Tally,
    at: usize,
    place: &Place,
    n: usize,
) -> u64
    requires { PreArgs program.now.rows.now program.now.ends.now program.now.tables.now
        program.now.above.now program.now.methods.now store.old
        slots.old at place.now tally.old n }
    ensures { PostArgs program.now.rows.now program.now.ends.now program.now.tables.now
        program.now.above.now program.now.methods.now store.old slots.old
        store.new slots.new at place.now
        tally.old n (answered result tally.new) }
{
    let mut r = NULL;
    let mut next = at;
    for slot in place.top..place.top + n {
        let waiting = Place {
            top: slot,
            ..*place
        };
        r = eval(program, store, slots, tally, next, &waiting);
        if r >= STUCK {
            return r;
        }
        slots[slot] = r;
        next = program.ends[next] as usize;
    }
    r
}

// Q, entered: receiver and arguments go to the top, where they are the slots of the method called.
#[cycle(args_block_call_choose_enter_fresh_eval_items_one_child_set)]
fn call(
    program: &Program,
    store: &mut [u32],
    slots: &mut [u64; SEGMENT],
    tally: &mut Tally,
    at: usize,
    place: &Place,
) -> u64
    requires pre_entered { PreEntered program.now.rows.now program.now.ends.now program.now.tables.now
        program.now.above.now program.now.methods.now store.old
        slots.old at place.now tally.old }
    requires at_value { get_or program.now.rows.now (at * 4) 0 ≡ code Q_call }
    ensures { PostNode program.now.rows.now program.now.ends.now program.now.tables.now
        program.now.above.now program.now.methods.now store.old slots.old
        store.new slots.new at place.now
        tally.old (answered result tally.new) }
{
    let rows = program.rows;
    let n = second(rows, at) as usize;
    let r = args(program, store, slots, tally, at + 1, place, n + 1);
    if r >= STUCK {
        return r;
    }

    let receiver = slots[place.top];
    let m = first(rows, at) as usize;
    match objects::find_body(program, store, tally, receiver, m, n, place.calls) {
        Err(outcome) => outcome,
        Ok(b) => {
            let size = program.ends[b] as usize - b;
            let width = frames::frame_width(size, n);
            if slots.len() < place.top + width + WAITING * frames::most_nested(size) {
                return enter_fresh(
                    program,
                    store,
                    slots,
                    tally,
                    b,
                    n,
                    place.top,
                    width,
                    place.calls + 1,
                );
            }
            let called = Place {
                base: place.top,
                scope: n,
                top: place.top + width,
                calls: place.calls + 1,
            };
            eval(program, store, slots, tally, b, &called)
        }
    }
}

// The same with slots of its own, which `this` and the arguments are copied to.
#[cycle(args_block_call_choose_enter_fresh_eval_items_one_child_set)]
fn enter_fresh(
    program: &Program,
    store: &mut [u32],
    slots: &[u64; SEGMENT],
    tally: &mut Tally,
    b: usize,
    n: usize,
    top: usize,
    width: usize,
    calls: u32,
) -> u64
    requires pre_enter { PreEnter program.now.rows.now program.now.ends.now program.now.tables.now
        program.now.above.now program.now.methods.now store.old slots.now
        b
        n top calls tally.old }
    requires width_value { width ≡ frame_width (get_or program.now.ends.now b 0 - b) n }
    ensures { PostEnter program.now.rows.now program.now.ends.now program.now.tables.now
        program.now.above.now program.now.methods.now store.old slots.now
        store.new slots.now b n top calls tally.old
        (answered result tally.new) }
{
    let mut fresh = [0u64; SEGMENT];
    frames::copy_call(slots, &mut fresh, top, n);
    let called = Place {
        base: 0,
        scope: n,
        top: width,
        calls,
    };
    eval(program, store, &mut fresh, tally, b, &called)
}
