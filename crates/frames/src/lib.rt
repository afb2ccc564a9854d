// The slots of the calls under way, and what evaluating a node does that needs no child evaluated.
// What is done to objects is in the crate objects. Slots are words in lent segments; outcomes are words, as there.
#![tactic(auto)]

ghost use Rattle.std.specs.Prelude.{◌≡◌, true, ◌+◌, ◌*◌, ◌≤◌, eqb, length, get_or};
ghost use Rattle.objects.specs.Values.{meaning, outcome, answered};
ghost use Rattle.objects.specs.Acts.{Written, IsWord};
ghost use Rattle.frames.specs.Slots.{Slots, Locals, Opened, PostRead, PostWrite, null_tested};
ghost use Rattle.frames.specs.Slots.{frame_width, most_nested};
ghost use Rattle.frames.specs.Nodes.{entered, no_child, PreLeaf, PostLeaf, PreApply, PostApply};
ghost use Rattle.language.specs.Rows.{code, R_change};

use language::{
    CAST, CHANGE, FALSE, GET, IS_NULL, NEW, NULL, SLOT, TRUE, first, letter_at, second,
};
use objects::{Program, STUCK, Tally, Value};

// How many slots a frame has at most, `this` included.
pub const FRAME_ROOM: usize = 264;

// How many nodes nest at most.
const MOST_NESTING: usize = 128;

// Slots are in segments of one length: a call that finds no room in one gets another, which has room for any call, at most
// 1,416 slots.
pub const SEGMENT: usize = 1920;

// Where the slots of the method under way stand: `this` at base, the others after it, of which scope are in scope;
// values that wait for a call are from top on; `calls` calls are active, and outside of any there is no `this`.
#[derive(Clone, Copy)]
pub struct Place {
    pub base: usize,
    pub scope: usize,
    pub top: usize,
    pub calls: u32,
}

// What stands in slot k.
fn read_slot(slots: &[u64], k: usize, place: Place) -> u64
    requires { Slots slots.now place }
    ensures { PostRead slots.now k place (outcome result) }
{
    if place.scope < k || k == 0 && place.calls == 0 {
        return STUCK;
    }
    slots[place.base + k]
}

// Slot k becomes a value, which is also the answer; where there is no such slot it is stuck.
fn write_slot(slots: &mut [u64], k: usize, w: u64, place: Place) -> u64
    requires { Slots slots.old place × IsWord w }
    ensures { PostWrite slots.old slots.new k (meaning w) place (outcome result) }
{
    if place.scope < k || k == 0 && place.calls == 0 {
        return STUCK;
    }
    slots[place.base + k] = w;
    w
}

// Z of a value: whether it is null. A truth value is neither null nor an object, and is stuck.
fn test_null(w: u64) -> u64
    ensures { outcome result ≡ null_tested (meaning w) }
{
    match objects::value_of(w) {
        Value::Null => objects::TRUE,
        Value::Truth(_) => STUCK,
        Value::Object(_) => objects::FALSE,
    }
}

// The locals of a block, whose V lines stand from a row on, get their first values in the slots from `from` on.
pub fn open_locals(rows: &[u32], slots: &mut [u64], row: usize, from: usize, n: usize)
    requires { Locals rows.now slots.old row from n }
    ensures { Opened rows.now slots.old slots.new row from n }
{
    for i in 0..n {
        slots[from + i] = objects::first_value(first(rows, row + i));
    }
}

// How many slots a call needs for `this`, n arguments and the locals of its body, which has `size` rows.
#[tactic(auto, unfolding(crate::specs::Slots::frame_width))]
pub fn frame_width(size: usize, n: usize) -> usize
    requires { n ≤ 8 }
    ensures { result ≡ frame_width size n }
{
    if size < MOST_NESTING {
        n + 1 + size
    } else {
        FRAME_ROOM
    }
}

// How many nodes nest at most in a body of `size` rows.
#[tactic(auto, unfolding(crate::specs::Slots::most_nested))]
pub fn most_nested(size: usize) -> usize
    ensures { result ≡ most_nested size }
{
    size.min(MOST_NESTING)
}

// `this` and n arguments, which stand from a place on, become the first slots of a fresh segment.
pub fn copy_call(slots: &[u64], fresh: &mut [u64], from: usize, n: usize)
    requires { (from + (n + 1) ≤ length slots.now) × (n + 1 ≤ length fresh.old) }
    ensures { Written fresh.old fresh.new 0 (n + 1)
        (λ i. get_or slots.now (from + i) 0) }
{
    fresh[..=n].copy_from_slice(&slots[from..=from + n]);
}

// One of the fuel is taken for a node; true where none is left.
#[tactic(auto, using(crate::proofs::Fuel::entered_none))]
pub fn runs_out(tally: &mut Tally) -> bool
    ensures value { result ≡ eqb tally.old.left 0 }
    ensures tally_after { tally.new ≡ entered tally.old }
{
    if tally.left == 0 {
        return true;
    }
    tally.left -= 1;
    false
}

// R of what stands in a slot.
fn reclassify(
    program: &Program,
    store: &mut [u32],
    slots: &[u64],
    tally: &mut Tally,
    at: usize,
    place: &Place,
) -> u64
    requires pre_leaf { PreLeaf program.now.rows.now program.now.tables.now store.old slots.now
        at place.now tally.old }
    requires at_value { get_or program.now.rows.now (at * 4) 0 ≡ code R_change }
    ensures { PostLeaf program.now.rows.now program.now.tables.now store.old
        slots.now store.new at place.now tally.old
        (answered result tally.new) }
{
    let rows = program.rows;
    let o = read_slot(slots, first(rows, at) as usize, *place);
    if o >= STUCK {
        return o;
    }
    objects::change_class(program, store, tally, o, second(rows, at))
}

// The letter of a node without children.
pub fn is_leaf(k: u32) -> bool
    ensures { result ≡ no_child k }
{
    matches!(k, TRUE | FALSE | NULL | SLOT | NEW | CHANGE)
}

// A node without children, entered.
pub fn leaf(
    program: &Program,
    store: &mut [u32],
    slots: &[u64],
    tally: &mut Tally,
    at: usize,
    place: &Place,
) -> u64
    requires pre_leaf { PreLeaf program.now.rows.now program.now.tables.now store.old slots.now
        at place.now tally.old }
    requires at_value { no_child (get_or program.now.rows.now (at * 4) 0) ≡ true }
    ensures { PostLeaf program.now.rows.now program.now.tables.now store.old
        slots.now store.new at place.now tally.old
        (answered result tally.new) }
{
    let rows = program.rows;
    match letter_at(rows, at) {
        TRUE => objects::TRUE,
        FALSE => objects::FALSE,
        NULL => objects::NULL,
        SLOT => read_slot(slots, first(rows, at) as usize, *place),
        NEW => objects::new_object(program, store, tally, first(rows, at)),
        _ => reclassify(program, store, slots, tally, at, place),
    }
}

// A node with one child, once that has a value.
pub fn apply(
    program: &Program,
    store: &[u32],
    slots: &mut [u64],
    tally: &Tally,
    at: usize,
    place: &Place,
    w: u64,
) -> u64
    requires { PreApply program.now.rows.now program.now.tables.now program.now.above.now store.now slots.old
        at place.now tally.now w }
    ensures { PostApply program.now.rows.now program.now.tables.now program.now.above.now
        store.now slots.old slots.new at place.now
        tally.now (meaning w) (outcome result) }
{
    let rows = program.rows;
    let a = first(rows, at);
    match letter_at(rows, at) {
        IS_NULL => test_null(w),
        GET => objects::load(program, store, tally, w, a as usize),
        CAST => objects::cast_object(program, store, tally, w, a),
        _ => write_slot(slots, a as usize, w, *place),
    }
}
