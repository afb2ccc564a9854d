// The acts on the objects of a lent store: W, R, G, U, K, and the method that Q seeks.
// A value is one word, its kind and its content; only read_value and write_value know how a store holds it. An outcome is one
// word too, so that it passes in a register: that of a value, or from STUCK on why there is none (specs/Values.antt).
#![tactic(auto)]

ghost use Rattle.std.specs.Prelude.{◌≡◌, true, ◌+◌, ◌*◌, ◌≤◌, ◌<◌, length, get_or, set};
ghost use Rattle.language.specs.Store.{value_number, value_of_number};
ghost use Rattle.objects.specs.Values.{word, meaning, case_of, reached, outcome, answered};
ghost use Rattle.objects.specs.Values.{Small, numbered};
ghost use Rattle.language.specs.State.{truth};
ghost use Rattle.objects.specs.Acts.{IsWord, First, Fill, Filled, field_type_in, Spot};
ghost use Rattle.objects.specs.Acts.{field_index};
ghost use Rattle.objects.specs.Holding.{first_value_of};
ghost use Rattle.objects.specs.declared.Reached.TheVariants.{At};
ghost use Rattle.objects.specs.Acts.{MethodsOf, target_in};
ghost use Rattle.objects.specs.Acts.{PreNew, PostNew, PreChange, PostChange, PreObject, PostLoad};
ghost use Rattle.objects.specs.Acts.{PostSave, PreCast, PostCast};
ghost use Rattle.objects.specs.Acts.{LetterFrom, SomeLetter, PreFind, PostFind};

use language::{
    BODY_PLACE, CLASS_WIDTH, COUNT_PLACE, DEEP_STOP, FULL_STOP, METHOD_WIDTH, METHODS_FROM,
    MOST_CALLS, MOST_OBJECTS, OBJECT_WIDTH, PARAMETERS_PLACE, ROOT_PLACE, ROWS_PLACE, SPENT_STOP,
    Type, class_entry, first, letter_at,
};

// A word is its kind times KIND and its content, which is below KIND. Null is 0; the truth values and the first word of an
// object, whose content is its number, from 1.
const KIND: u64 = 4294967296;

pub const NULL: u64 = 0;

pub const FALSE: u64 = KIND;

pub const TRUE: u64 = KIND + 1;

const OBJECT: u64 = 2 * KIND;

// Kept: an outcome as one word. As an enum it passed through memory, and 45 percent of the time of a run was at loads of its
// parts (docs/PERFORMANCE.md, "Runner").
// Why there is no value: no rule goes on, which no checked program reaches; the exceptions; the stops.
pub const STUCK: u64 = 4 * KIND;

pub const NULL_POINTER: u64 = STUCK + 1;

pub const BAD_CAST: u64 = STUCK + 2;

pub const SPENT: u64 = STUCK + SPENT_STOP as u64;

pub const DEEP: u64 = STUCK + DEEP_STOP as u64;

pub const FULL: u64 = STUCK + FULL_STOP as u64;

// A value. Object(j) is the j-th object made, from 1.
#[derive(Clone, Copy)]
pub enum Value {
    Null,
    Truth(bool),
    Object(u32),
}

// What a value leads to: nothing, as null; no object, as a truth value or an object that is not there; an object by its index
// in the store.
#[derive(Drop)]
pub enum Reached {
    Null,
    Nothing,
    At(usize),
}

// What a run counts: fuel left, objects made, changes of class.
#[derive(Clone, Copy)]
pub struct Tally {
    pub left: u32,
    pub made: u32,
    pub changes: u32,
}

// What a run reads of a checked program: its rows, where each node ends, and the tables of classes, of classes above each
// class, and of methods.
#[derive(Clone, Copy)]
pub struct Program<'a> {
    pub rows: &'a [u32],
    pub ends: &'a [u16],
    pub tables: &'a [u16],
    pub above: &'a [u64],
    pub methods: &'a [u16],
}

// The value that a stored number stands for.
fn decode(n: u32) -> Value
    ensures { result ≡ case_of (value_of_number n) }
{
    match n {
        0 => Value::Null,
        1 => Value::Truth(false),
        2 => Value::Truth(true),
        3..=4294967295 => Value::Object(n - 2),
    }
}

// The value of a word.
pub fn value_of(w: u64) -> Value
    ensures { result ≡ case_of (meaning w) }
{
    let content = w % KIND;
    match w / KIND {
        1 => Value::Truth(content == 1),
        2 => object_of(content as u32),
        _ => Value::Null,
    }
}

// The object of a number from 1; 0 is none.
fn object_of(j: u32) -> Value
    ensures { result ≡ case_of (numbered j) }
{
    match j {
        0 => Value::Null,
        _ => Value::Object(j),
    }
}

// The word of the value that a store has at an index.
fn read_value(store: &[u32], at: usize) -> u64
    requires { at < length store.now }
    ensures { result ≡ word (value_of_number (get_or store.now at 0)) }
{
    match decode(store[at]) {
        Value::Null => NULL,
        Value::Truth(b) => truth_word(b),
        Value::Object(j) => OBJECT + u64::from(j),
    }
}

// The word of a truth value.
pub fn truth_word(b: bool) -> u64
    ensures { result ≡ word (truth b) }
{
    if b { TRUE } else { FALSE }
}

// The stored number of null.
const NULL_NUMBER: u32 = 0;

// The stored number of a truth value.
fn truth_number(b: bool) -> u32
    ensures { result ≡ value_number (truth b) }
{
    if b { 2 } else { 1 }
}

// The store has at an index the value of a word.
fn write_value(store: &mut [u32], at: usize, w: u64)
    requires { (at < length store.old) × Small (meaning w) }
    ensures { store.new ≡ set store.old at (value_number (meaning w)) }
{
    store[at] = match value_of(w) {
        Value::Null => NULL_NUMBER,
        Value::Truth(b) => truth_number(b),
        Value::Object(j) => j + 2,
    };
}

// What a value leads to, where `made` objects are made.
fn reach(w: u64, made: u32) -> Reached
    requires { made ≤ 65535 }
    ensures { result ≡ reached made (meaning w) }
{
    match value_of(w) {
        Value::Null => Reached::Null,
        Value::Object(j) if j <= made => Reached::At((j - 1) as usize * OBJECT_WIDTH),
        _ => Reached::Nothing,
    }
}

// The word of the first value of a type: false for bool, else null.
pub fn first_value(t: u32) -> u64
    ensures { result ≡ word (first_value_of t) }
{
    if t == Type::BOOL { FALSE } else { NULL }
}

// The word of the first value of field i of class c.
fn first_of_field(rows: &[u32], tables: &[u16], c: usize, i: usize) -> u64
    requires { First rows.now tables.now c i }
    ensures { result ≡ word (first_value_of (field_type_in rows.now tables.now c i)) }
{
    let row = usize::from(tables[c * CLASS_WIDTH + ROWS_PLACE + i]);
    first_value(first(rows, row))
}

// The fields of the object at o from place `from` on get the first values that class c gives them, unused ones null.
fn fill(rows: &[u32], tables: &[u16], store: &mut [u32], o: usize, c: usize, from: usize)
    requires { Fill rows.now tables.now store.old o c from }
    ensures { Filled rows.now tables.now store.old store.new
        o c from }
{
    let count = usize::from(tables[c * CLASS_WIDTH + COUNT_PLACE]);
    let used = from.max(count);
    for i in from..used {
        write_value(store, o + 1 + i, first_of_field(rows, tables, c, i));
    }
    store[o + 1 + used..o + OBJECT_WIDTH].fill(NULL_NUMBER);
}

// W: a new object of class c.
pub fn new_object(program: &Program, store: &mut [u32], tally: &mut Tally, c: u32) -> u64
    requires { PreNew program.now.rows.now program.now.tables.now store.old c tally.old.made }
    ensures { PostNew program.now.rows.now program.now.tables.now store.old
        store.new c tally.old (answered result tally.new) }
{
    let made = tally.made;
    if made >= MOST_OBJECTS {
        return FULL;
    }
    let o = made as usize * OBJECT_WIDTH;
    if store.len() < o + OBJECT_WIDTH {
        return FULL;
    }
    fill(program.rows, program.tables, store, o, c as usize, 0);
    store[o] = c;
    tally.made += 1;
    OBJECT + (u64::from(made) + 1)
}

// R: an object changed to class d. The fields of its own class's root stay, the others have their first values; where d
// lacks them it is stuck.
pub fn change_class(program: &Program, store: &mut [u32], tally: &mut Tally, w: u64, d: u32) -> u64
    requires { PreChange program.now.rows.now program.now.tables.now store.old w d tally.old }
    ensures { PostChange program.now.rows.now program.now.tables.now store.old
        store.new (meaning w) d tally.old (answered result tally.new) }
{
    match reach(w, tally.made) {
        Reached::Null => w,
        Reached::Nothing => STUCK,
        Reached::At(o) => change_at(program, store, tally, w, o, d),
    }
}

// The same of the object at an index of the store.
fn change_at(
    program: &Program,
    store: &mut [u32],
    tally: &mut Tally,
    w: u64,
    o: usize,
    d: u32,
) -> u64
    requires pre_change { PreChange program.now.rows.now program.now.tables.now store.old w d tally.old }
    requires w_value { At o ≡ reached tally.old.made (meaning w) }
    ensures { PostChange program.now.rows.now program.now.tables.now store.old
        store.new (meaning w) d tally.old (answered result tally.new) }
{
    let tables = program.tables;
    let old = store[o];
    let root = class_entry(tables, old, ROOT_PLACE);
    let kept = class_entry(tables, root, COUNT_PLACE);
    let count = class_entry(tables, d, COUNT_PLACE);
    if count < kept {
        return STUCK;
    }
    fill(program.rows, tables, store, o, d as usize, kept as usize);
    store[o] = d;
    tally.changes += 1;
    w
}

// The index in the store of the field named f of the object at an index, if its class has it.
#[tactic(auto, unfolding(crate::specs::Acts::field_index))]
fn find_field(tables: &[u16], store: &[u32], o: usize, f: usize) -> Option<usize>
    requires { Spot tables.now store.now o f }
    ensures { result ≡ field_index tables.now store.now o f }
{
    match class_entry(tables, store[o], f) as usize {
        0 => None,
        place => Some(o + place),
    }
}

// G: the field named f of an object.
pub fn load(program: &Program, store: &[u32], tally: &Tally, w: u64, f: usize) -> u64
    requires pre_object { PreObject program.now.tables.now store.now tally.now.made }
    requires f_bound { f < 256 }
    ensures { PostLoad program.now.tables.now store.now (meaning w) f
        tally.now (outcome result) }
{
    match reach(w, tally.made) {
        Reached::Null => NULL_POINTER,
        Reached::Nothing => STUCK,
        Reached::At(o) => match find_field(program.tables, store, o, f) {
            Some(at) => read_value(store, at),
            None => STUCK,
        },
    }
}

// U: the field named f of an object becomes a value, which is also the answer.
pub fn save(program: &Program, store: &mut [u32], tally: &Tally, w: u64, v: u64, f: usize) -> u64
    requires pre_object { PreObject program.now.tables.now store.old tally.now.made }
    requires f_bound { (f < 256) × IsWord v }
    ensures { PostSave program.now.tables.now store.old store.new (meaning w)
        (meaning v) f tally.now (outcome result) }
{
    match reach(w, tally.made) {
        Reached::Null => NULL_POINTER,
        Reached::Nothing => STUCK,
        Reached::At(o) => match find_field(program.tables, store, o, f) {
            Some(at) => {
                write_value(store, at, v);
                v
            }
            None => STUCK,
        },
    }
}

// K: an object of class c or below passes, and so does null.
pub fn cast_object(program: &Program, store: &[u32], tally: &Tally, w: u64, c: u32) -> u64
    requires pre_cast { PreCast program.now.above.now store.now c tally.now.made }
    requires word { IsWord w }
    ensures { PostCast program.now.above.now store.now (meaning w) c
        tally.now (outcome result) }
{
    match reach(w, tally.made) {
        Reached::Null => w,
        Reached::Nothing => STUCK,
        Reached::At(o) if classes::is_below(program.above, store[o], c) => w,
        Reached::At(_) => BAD_CAST,
    }
}

// The first row, from a row on, with a letter.
pub fn find_letter(rows: &[u32], row: usize, letter: u32) -> usize
    requires { SomeLetter rows.now letter row }
    ensures { LetterFrom rows.now letter row result }
{
    let mut b = row;
    while letter_at(rows, b) != letter {
        b += 1;
    }
    b
}

// Q, once receiver and arguments have values: the row where the body of the receiver's method m begins, or the outcome of a
// call without one. With another number of arguments than the method has parameters the call is stuck.
pub fn find_body(
    program: &Program,
    store: &[u32],
    tally: &Tally,
    w: u64,
    m: usize,
    given: usize,
    calls: u32,
) -> Result<usize, u64>
    requires { PreFind program.now.tables.now program.now.methods.now store.now m tally.now.made }
    ensures { PostFind program.now.tables.now program.now.methods.now store.now (meaning w)
        m given tally.now calls result }
{
    match reach(w, tally.made) {
        Reached::Null => Err(NULL_POINTER),
        Reached::Nothing => Err(STUCK),
        Reached::At(o) => find_in(program.tables, program.methods, store[o], m, given, calls),
    }
}

// The body of method m of class c, where the call has as many arguments as it has parameters and may be made.
fn find_in(
    tables: &[u16],
    methods: &[u16],
    c: u32,
    m: usize,
    given: usize,
    calls: u32,
) -> Result<usize, u64>
    requires { MethodsOf tables.now methods.now c m }
    ensures { result ≡ target_in tables.now methods.now c m given calls }
{
    let number = class_entry(tables, c, METHODS_FROM + m) as usize;
    if number == 0 {
        return Err(STUCK);
    }
    let method = (number - 1) * METHOD_WIDTH;
    if usize::from(methods[method + PARAMETERS_PLACE]) != given {
        return Err(STUCK);
    }
    if calls >= MOST_CALLS {
        return Err(DEEP);
    }
    Ok(usize::from(methods[method + BODY_PLACE]))
}
