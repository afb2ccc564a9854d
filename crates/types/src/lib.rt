// Types as typing answers them: what fits what, joins, and effects applied to classes.
#![tactic(auto)]

ghost use Rattle.std.specs.Prelude.{get_or, ◌≡◌, suc, ◌+◌, ◌*◌, ◌≤◌, ◌<◌, length};
ghost use Rattle.language.specs.Effects.{within};
ghost use Rattle.language.specs.MethodTables.{method_width};
ghost use Rattle.language.specs.Refusals.{refusal};
ghost use Rattle.types.specs.Answers.{typed_case, case_of_number, case_number, names_type, stored_case};
ghost use Rattle.types.specs.Tables.{root_in, applied, is_fitting, nearest_from, CaseIn, PreNearest};
ghost use Rattle.types.specs.Tables.{joined_case, BothClasses};

use language::{METHOD_WIDTH, NO_TYPE, ROOT_PLACE, Refusal, SUPER_PLACE, Type, class_entry};

pub mod slots;

// The type of an expression: bool, a class, or null.
#[derive(Clone, Copy)]
pub enum Typing {
    Bool,
    Class(u32),
    Null,
}

// What typing answers of an expression that it accepts: its type, and its effect, a set of classes.
#[derive(Clone, Copy)]
pub struct Typed {
    pub typing: Typing,
    pub effect: u64,
}

// What the pass over bodies reads of a program: its rows, where each node ends, the tables of classes, of the classes above
// each class and of methods, and the effect of each method.
#[derive(Clone, Copy)]
pub struct Program<'a> {
    pub rows: &'a [u32],
    pub ends: &'a [u16],
    pub table: &'a [u16],
    pub above: &'a [u64],
    pub methods: &'a [u16],
    pub effects: &'a [u64],
}

impl Program<'_> {
    // The row of a method's M line.
    pub fn method_row(&self, number: usize) -> usize
        requires { number * method_width < length self.now.methods.now }
        ensures { result ≡ get_or self.now.methods.now (number * method_width) 0 }
    {
        usize::from(self.methods[number * METHOD_WIDTH])
    }

    // What stands at another place of a method's part in the table of methods.
    pub fn method_entry(&self, number: usize, place: usize) -> usize
        requires { number * method_width + place < length self.now.methods.now }
        ensures { result ≡ get_or self.now.methods.now (number * method_width + place) 0 }
    {
        usize::from(self.methods[number * METHOD_WIDTH + place])
    }
}

// A refusal on the line of row `at`.
pub fn refused(number: u32, at: usize) -> Refusal
    requires { at < 65536 }
    ensures { result ≡ refusal number (at + 1) }
{
    Refusal {
        number,
        line: at as u32 + 1,
    }
}

// A type with no effect.
pub fn plain(typing: Typing) -> Typed
    ensures { result ≡ typed_case typing 0 }
{
    Typed { typing, effect: 0 }
}

// A declared type as an expression has it.
#[tactic(auto, unfolding(crate::specs::Answers::case_of_number))]
pub fn typing_of(t: Type) -> Typing
    ensures { result ≡ case_of_number t.number }
{
    if t.number == Type::BOOL {
        Typing::Bool
    } else {
        Typing::Class(t.number)
    }
}

// The number that stands for a type where an argument waits; null's is 65,535.
pub fn number_of(t: Typing) -> u32
    ensures { result ≡ case_number t }
{
    match t {
        Typing::Bool => Type::BOOL,
        Typing::Class(c) => c,
        Typing::Null => NO_TYPE,
    }
}

// The answer's case for a stored number.
#[tactic(auto, unfolding(crate::specs::Answers::stored_case))]
pub fn typing_at(number: u32) -> Typing
    ensures { result ≡ stored_case number }
{
    if number == NO_TYPE {
        Typing::Null
    } else {
        typing_of(Type::from_number(number))
    }
}

// Whether a number is bool's or a declared class's.
#[tactic(auto, unfolding(crate::specs::Answers::names_type))]
pub fn is_type(count: u32, number: u32) -> bool
    ensures { result ≡ names_type count number }
{
    number == Type::BOOL || number <= count
}

// Whether every class of the first is in the second.
#[tactic(auto, unfolding(language::specs::Effects::within))]
pub fn is_within(inner: u64, outer: u64) -> bool
    ensures { result ≡ within inner outer }
{
    inner & outer == inner
}

// The class after an effect: a state class whose root is in it becomes that root.
#[tactic(auto, unfolding(crate::specs::Tables::applied))]
pub fn apply(table: &[u16], effect: u64, class: u32) -> u32
    requires { (class * 576 + 514 < length table.now) × (root_in table.now class ≤ 64) }
    ensures { result ≡ applied table.now effect class }
{
    let root = class_entry(table, class, ROOT_PLACE);
    if classes::is_member(effect, root) {
        root
    } else {
        class
    }
}

// Whether a value of an expression's type may stand where a type is declared: null fits every class and never bool.
#[tactic(auto, unfolding(crate::specs::Tables::is_fitting))]
pub fn is_fitting(above: &[u64], t: Typing, u: Type) -> bool
    requires case_in { CaseIn (length above.now) t }
    requires number_le_classes { (u.number ≡ 255 → ⊥) → u.number ≤ 64 }
    ensures { result ≡ is_fitting above.now t u.number }
{
    match t {
        Typing::Bool => u.number == Type::BOOL,
        Typing::Class(c) => u.number != Type::BOOL && classes::is_below(above, c, u.number),
        Typing::Null => u.number != Type::BOOL,
    }
}

// The nearest common superclass of two classes.
pub fn nearest(table: &[u16], above: &[u64], c: u32, d: u32) -> u32
    requires { PreNearest table.now above.now c d }
    ensures { result ≡ nearest_from table.now above.now (suc c) c d }
{
    let mut k = c;
    while !classes::is_below(above, d, k) {
        k = class_entry(table, k, SUPER_PLACE);
    }
    k
}

// The type of two arms together, where they have one.
#[tactic(auto, unfolding(crate::specs::Tables::joined_case))]
pub fn join_types(table: &[u16], above: &[u64], t: Typing, u: Typing) -> Option<Typing>
    requires { BothClasses table.now above.now t u }
    ensures { result ≡ joined_case table.now above.now t u }
{
    match (t, u) {
        (Typing::Bool, Typing::Bool) => Some(t),
        (Typing::Class(c), Typing::Class(d)) => Some(Typing::Class(nearest(table, above, c, d))),
        (Typing::Class(_), Typing::Null) => Some(t),
        (Typing::Null, Typing::Class(_)) | (Typing::Null, Typing::Null) => Some(u),
        _ => None,
    }
}
