// Slots as numbers: an effect applied to them, saved and joined at the arms of a choice.
ghost use Rattle.std.specs.Prelude.{◌≡◌, ℕ, ◌+◌, ◌≤◌, ◌<◌, length, get_or};
ghost use Rattle.types.specs.Answers.{current_in, declared_in, with_current, fresh_in};
ghost use Rattle.types.specs.Tables.{applied_number, applied_slot, joined_number, joined_slot};
ghost use Rattle.types.specs.Tables.{Applicable, PostStore, Changed, Saved, Swapped, PreJoin};
ghost use Rattle.types.specs.Tables.{PreNumbers};

use super::{Typed, apply, nearest, number_of};
use language::{NO_TYPE, Type};

// A slot has the number of its declared type in its upper half, and that of its current type in its lower. The numbers of
// types are below this one.
pub const HALF: u32 = 65536;

// Where typing stands in a body: how many classes are declared; the class in which the body stands, 0 in the start block; how
// many slots are in scope, and how many may be at most; where slots that are saved and arguments that wait begin.
#[derive(Clone, Copy)]
pub struct Scope {
    pub count: u32,
    pub class: u32,
    pub size: usize,
    pub width: usize,
    pub top: usize,
}

// The number of a slot's current type.
#[tactic(auto, unfolding(crate::specs::Answers::current_in))]
pub fn current(slot: u32) -> u32
    ensures { result ≡ current_in slot }
{
    slot % HALF
}

// The number of a slot's declared type.
#[tactic(auto, unfolding(crate::specs::Answers::declared_in))]
pub fn declared(slot: u32) -> u32
    ensures { result ≡ declared_in slot }
{
    slot / HALF
}

// The slot with another current type.
#[tactic(auto, unfolding(crate::specs::Answers::with_current, crate::specs::Answers::slot_of, crate::specs::Answers::declared_in))]
pub fn with_current(slot: u32, number: u32) -> u32
    ensures { result ≡ with_current slot number }
{
    declared(slot) * HALF + number % HALF
}

// A slot whose current type is its declared one.
#[tactic(auto, unfolding(crate::specs::Answers::fresh_in, crate::specs::Answers::slot_of))]
pub fn fresh(number: u32) -> u32
    ensures { result ≡ fresh_in number }
{
    number % HALF * HALF + number % HALF
}

// The number of a slot's type after an effect.
#[tactic(auto, unfolding(crate::specs::Tables::applied_number))]
pub fn apply_number(table: &[u16], effect: u64, number: u32) -> u32
    requires { Applicable table.now number }
    ensures { result ≡ applied_number table.now effect number }
{
    if number == Type::BOOL || number == NO_TYPE {
        number
    } else {
        apply(table, effect, number)
    }
}

// An effect applied to the slots in scope.
#[tactic(auto, unfolding(crate::specs::Tables::applied_slot))]
pub fn apply_all(table: &[u16], slots: &mut [u32], size: usize, effect: u64)
    requires size_in_bounds { size ≤ length slots.old }
    requires by_index { (k : ℕ) → k < size → Applicable table.now (current_in (get_or slots.old k 0)) }
    ensures { Changed slots.old slots.new size
        (λ k. applied_slot table.now effect (get_or slots.old k 0)) }
{
    for slot in &mut slots[..size] {
        *slot = with_current(*slot, apply_number(table, effect, current(*slot)));
    }
}

// Stores the type of an argument in slot `top + n`, after its effect on the types of the n arguments before
// it, which stand from `top` on.
pub fn store_type(table: &[u16], slots: &mut [u32], top: usize, n: usize, r: Typed)
    requires n_in_bounds { top + n < length slots.old }
    requires by_index { (k : ℕ) → k < n → Applicable table.now (get_or slots.old (top + k) 0) }
    ensures { PostStore table.now slots.old slots.new top n r }
{
    for number in &mut slots[top..top + n] {
        *number = apply_number(table, r.effect, *number);
    }
    slots[top + n] = number_of(r.typing);
}

// The number of a slot's type after two arms.
#[tactic(auto, unfolding(crate::specs::Tables::joined_number))]
pub fn join_number(table: &[u16], above: &[u64], a: u32, b: u32) -> u32
    requires { PreNumbers table.now above.now a b }
    ensures { result ≡ joined_number table.now above.now a b }
{
    if a == Type::BOOL || a == NO_TYPE || b == Type::BOOL || b == NO_TYPE {
        a
    } else {
        nearest(table, above, a, b)
    }
}

// The slots in scope are copied to a place above them.
pub fn save(slots: &mut [u32], size: usize, top: usize)
    requires { (top + size ≤ length slots.old) × (size ≤ top) }
    ensures { Saved slots.old slots.new top size }
{
    slots.copy_within(..size, top);
}

// The slots in scope change places with those saved.
pub fn swap(slots: &mut [u32], size: usize, top: usize)
    requires { (top + size ≤ length slots.old) × (size ≤ top) }
    ensures { Swapped slots.old slots.new top size }
{
    let (low, high) = slots.split_at_mut(top);
    low[..size].swap_with_slice(&mut high[..size]);
}

// The slots in scope join with those of the first arm, which were saved.
#[tactic(auto, unfolding(crate::specs::Tables::joined_slot))]
pub fn join_slots(table: &[u16], above: &[u64], slots: &mut [u32], size: usize, top: usize)
    requires { PreJoin table.now above.now slots.old size top }
    ensures { Changed slots.old slots.new size
        (λ k. joined_slot table.now above.now (get_or slots.old (top + k) 0)
        (get_or slots.old k 0)) }
{
    for i in 0..size {
        let first = slots[top + i];
        let second = slots[i];
        slots[i] = with_current(
            first,
            join_number(table, above, current(first), current(second)),
        );
    }
}
