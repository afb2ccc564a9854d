// The methods of a class: their headings checked, and their numbers entered in the tables.
ghost use Rattle.std.specs.Prelude.{◌≡◌, List, [], ℕ, ◌+◌, length, Ok};
ghost use Rattle.std.proofs.Math.Option.{some};
ghost use Rattle.language.specs.Limits.{of_check};
ghost use Rattle.language.specs.Tree.{Class};
ghost use Rattle.language.specs.Results.{passed};
ghost use Rattle.language.specs.Refusals.{result_of};
ghost use Rattle.language.specs.Effects.{effect_of_all};
ghost use Rattle.language.specs.ClassTables.{method_number};
ghost use Rattle.language.specs.Headings.{may_override, same_types, lines_within};
ghost use Rattle.language.specs.Headings.{check_parameters, check_effects, check_methods};
ghost use Rattle.members.specs.Answers.{headed};
ghost use Rattle.members.specs.Blocks.{Working};
ghost use Rattle.members.specs.Faults.{faulty, fault_of_method, fault_of_effect, check_heading};
ghost use Rattle.members.specs.Numbers.{Numbered, own_or, own_number, with_number};
ghost use Rattle.members.specs.Ready.{EffectLines};
ghost use Rattle.members.specs.Ready.{ClassLines, ParameterLines, OverrideReady, EffectReady};
ghost use Rattle.members.specs.Ready.{EffectsReady, NumberReady, MethodReady, MethodCounted};
ghost use Rattle.members.specs.Ready.{MethodsReady};

use super::ROOT_KIND;
use super::fields::is_declared;
use language::{
    BODY_PLACE, CLASS_WIDTH, EFFECT, KIND_PLACE, KIND_REFUSAL, METHOD, METHOD_WIDTH, METHODS_FROM,
    MOST_CLASSES, NAME_REFUSAL, OVERRIDE_REFUSAL, OWNER_PLACE, PARAMETER, PARAMETERS_PLACE,
    Refusal, Type, class_entry, first, letter_at, second,
};

// A method's heading in the rows: its M line's row, and how many P and X lines follow.
#[derive(Clone, Copy)]
pub struct Heading {
    pub row: usize,
    pub parameters: usize,
    pub effects: usize,
}

// The class whose methods are entered: its number, the number of its first method, and how many classes there are.
#[derive(Clone, Copy)]
pub struct Owner {
    pub class: usize,
    pub first: usize,
    pub classes: usize,
}

// The set of the classes on X lines.
pub fn effect_set(rows: &[u32], r: usize, n: usize) -> u64
    requires { ClassLines rows.now r n }
    ensures { (w : ClassLines rows.now r n) → result ≡ effect_of_all w.lines.effects }
{
    let mut set = 0;
    for at in r..r + n {
        set |= classes::effect_of(first(rows, at));
    }
    set
}

// Are the numbers of X lines classes of a set.
pub fn lines_within(rows: &[u32], r: usize, n: usize, set: u64) -> bool
    requires { EffectLines rows.now r n }
    ensures { (w : EffectLines rows.now r n) → result ≡ lines_within w.effects set }
{
    (r..r + n).all(|at| {
        let c = first(rows, at);
        c != Type::OBJECT && c <= MOST_CLASSES && classes::is_member(set, c)
    })
}

// Have two runs of P lines the same types.
pub fn same_types(rows: &[u32], p: usize, q: usize, n: usize) -> bool
    requires { ParameterLines rows.now p n × ParameterLines rows.now q n }
    ensures { (v : ParameterLines rows.now p n) →
        (w : ParameterLines rows.now q n) → result ≡ same_types v.types w.types }
{
    (0..n).all(|i| first(rows, p + i) == first(rows, q + i))
}

// May a method override the method of number n.
pub fn may_override(
    rows: &[u32],
    methods: &[u16],
    effects: &[u64],
    heading: Heading,
    n: usize,
) -> bool
    requires { OverrideReady rows.now methods.now effects.now heading.row heading.parameters
        heading.effects n }
    ensures { (w : OverrideReady rows.now methods.now effects.now heading.row heading.parameters
        heading.effects n) → result ≡ may_override w.method (some w.found) }
{
    let over = usize::from(methods[n * METHOD_WIDTH]);
    let from = heading.row + 1;
    first(rows, heading.row) == first(rows, over)
        && usize::from(methods[n * METHOD_WIDTH + PARAMETERS_PLACE]) == heading.parameters
        && same_types(rows, from, over + 1, heading.parameters)
        && lines_within(rows, from + heading.parameters, heading.effects, effects[n])
}

// Checks the M line of a method in a class.
pub fn check_method_line(
    rows: &[u32],
    tables: &[u16],
    methods: &[u16],
    effects: &[u64],
    heading: Heading,
    owner: Owner,
) -> Result<(), Refusal>
    requires { MethodCounted rows.now tables.now methods.now effects.now heading.row
        heading.parameters heading.effects owner.class owner.first owner.classes }
    ensures { (w : MethodCounted rows.now tables.now methods.now effects.now heading.row
        heading.parameters heading.effects owner.class owner.first owner.classes)
        → result ≡ result_of (λ u. u) (faulty (fault_of_method w.line.program.classes w.line.super
        w.line.before w.line.method) (heading.row + 1) passed) }
{
    let line = heading.row as u32 + 1;
    let name = second(rows, heading.row) as usize;
    let entry = usize::from(tables[owner.class * CLASS_WIDTH + METHODS_FROM + name]);
    // An entry above `first` is of a method declared in this class before.
    if !is_declared(first(rows, heading.row), owner.classes) || owner.first < entry {
        return Err(Refusal {
            number: NAME_REFUSAL,
            line,
        });
    }
    if entry == 0 || may_override(rows, methods, effects, heading, entry - 1) {
        return Ok(());
    }
    // The heading differs from the one that it overrides.
    Err(Refusal {
        number: OVERRIDE_REFUSAL,
        line,
    })
}

// Checks the P lines of a method.
pub fn check_parameters(rows: &[u32], r: usize, n: usize, count: usize) -> Result<(), Refusal>
    requires { ParameterLines rows.now r n }
    ensures { (w : ParameterLines rows.now r n) → (P : List Class) → count ≡ length P
        → result ≡ result_of (λ u. u) (check_parameters of_check P (r + 1) w.types) }
{
    for at in r..r + n {
        if !is_declared(first(rows, at), count) {
            return Err(Refusal {
                number: NAME_REFUSAL,
                line: at as u32 + 1,
            });
        }
    }
    Ok(())
}

// Checks the X line that names class c, after one that names `last`.
pub fn check_effect(
    tables: &[u16],
    c: u32,
    last: u32,
    count: usize,
    line: u32,
) -> Result<(), Refusal>
    requires { EffectReady tables.now count }
    ensures { (w : EffectReady tables.now count) → result ≡
        result_of (λ u. u) (faulty (fault_of_effect w.P last c) line passed) }
{
    if count < c as usize {
        return Err(Refusal {
            number: NAME_REFUSAL,
            line,
        });
    }
    if class_entry(tables, c, KIND_PLACE) != ROOT_KIND || c <= last {
        return Err(Refusal {
            number: KIND_REFUSAL,
            line,
        });
    }
    Ok(())
}

// Checks the X lines of a method.
pub fn check_effects(
    rows: &[u32],
    tables: &[u16],
    r: usize,
    n: usize,
    count: usize,
) -> Result<(), Refusal>
    requires { EffectsReady rows.now tables.now r n count }
    ensures { (w : EffectsReady rows.now tables.now r n count) → result ≡
        result_of (λ u. u) (check_effects of_check w.table.P 0 (r + 1) w.lines.effects) }
{
    let mut last = 0;
    for at in r..r + n {
        let c = first(rows, at);
        check_effect(tables, c, last, count, at as u32 + 1)?;
        last = c;
    }
    Ok(())
}

// Enters method `next`, of a class.
pub fn enter_method(
    rows: &[u32],
    methods: &mut [u16],
    effects: &mut [u64],
    heading: Heading,
    class: usize,
    next: usize,
)
    requires { NumberReady rows.now methods.old effects.old heading.row heading.parameters
        heading.effects class next }
    ensures { (w : NumberReady rows.now methods.old effects.old heading.row heading.parameters
        heading.effects class next)
        → Numbered w.program.classes methods.new effects.new (next + 1) }
{
    let at = next * METHOD_WIDTH;
    let from = heading.row + 1 + heading.parameters; // the first X line
    methods[at] = heading.row as u16;
    methods[at + OWNER_PLACE] = class as u16;
    methods[at + PARAMETERS_PLACE] = heading.parameters as u16;
    methods[at + BODY_PLACE] = (from + heading.effects) as u16;
    effects[next] = effect_set(rows, from, heading.effects);
}

// Checks and enters the method of the M line of row r, as number `next`.
pub fn check_method(
    rows: &[u32],
    tables: &mut [u16],
    methods: &mut [u16],
    effects: &mut [u64],
    r: usize,
    owner: Owner,
    next: usize,
) -> Result<(), Refusal>
    requires { MethodReady rows.now tables.old methods.old effects.old r owner.class owner.first
        next owner.classes }
    ensures { (w : MethodReady rows.now tables.old methods.old effects.old r owner.class owner.first
        next owner.classes)
        → (result ≡ result_of (λ u. u) (check_heading w.line.program.classes w.line.super w.line.before
        (r + 1) w.line.method))
        × (result ≡ Ok tt
        → Working w.line.program.classes owner.class tables.new w.line.fields w.line.rows
        (with_number w.line.method.name next (own_or w.line.own
        (method_number w.line.program.classes w.line.super)))
        × Numbered w.line.program.classes methods.new effects.new (next + 1)) }
{
    let np = layout::count_rows(rows, r + 1, PARAMETER);
    let nx = layout::count_rows(rows, r + 1 + np, EFFECT);
    let heading = Heading {
        row: r,
        parameters: np,
        effects: nx,
    };
    check_method_line(rows, tables, methods, effects, heading, owner)?;
    check_parameters(rows, r + 1, np, owner.classes)?;
    check_effects(rows, tables, r + 1 + np, nx, owner.classes)?;
    let name = second(rows, r) as usize;
    tables[owner.class * CLASS_WIDTH + METHODS_FROM + name] = (next + 1) as u16;
    enter_method(rows, methods, effects, heading, owner.class, next);
    Ok(())
}

// Checks and enters the methods of a class, and answers how many there are: the first of them, if there is one, is at
// row r.
pub fn check_methods(
    rows: &[u32],
    ends: &[u16],
    tables: &mut [u16],
    methods: &mut [u16],
    effects: &mut [u64],
    r: usize,
    owner: Owner,
) -> Result<u32, Refusal>
    requires { MethodsReady rows.now ends.now tables.old methods.old effects.old r owner.class
        owner.first owner.classes }
    ensures { (w : MethodsReady rows.now ends.now tables.old methods.old effects.old r owner.class
        owner.first owner.classes)
        → (result ≡ headed (length w.one.methods) (check_methods of_check w.program.classes w.super []
        (r + 1) w.one.methods))
        × ((n : ℕ) → result ≡ Ok n
        → Working w.program.classes owner.class tables.new w.fields w.rows
        (own_or (own_number owner.first w.one.methods) (method_number w.program.classes w.super))
        × Numbered w.program.classes methods.new effects.new
        (owner.first + length w.one.methods)) }
{
    let mut at = r;
    let mut next = owner.first;
    while letter_at(rows, at) == METHOD {
        check_method(rows, tables, methods, effects, at, owner, next)?;
        at = layout::skip_method(rows, ends, at);
        next += 1;
    }
    Ok((next - owner.first) as u32)
}
