// The pass over headings (document 01, "Headings"): classes as they are declared, each with its members.
#![tactic(auto)]

ghost use Rattle.std.specs.Prelude.{◌≡◌, ℕ, ◌+◌, length, Ok};
ghost use Rattle.std.proofs.Math.Option.{some};
ghost use Rattle.language.specs.Limits.{of_check};
ghost use Rattle.language.specs.Tree.{kind_of_number, class_lines};
ghost use Rattle.language.specs.Program.{world};
ghost use Rattle.language.specs.ClassTables.{ClassTables, method_number, field_rows};
ghost use Rattle.language.specs.MethodTables.{placed_methods, MethodTables};
ghost use Rattle.language.specs.Headings.{may_extend, check_class, headings};
ghost use Rattle.members.specs.Answers.{headed};
ghost use Rattle.members.specs.Blocks.{Lookups, Working};
ghost use Rattle.members.specs.Numbers.{Numbered};
ghost use Rattle.members.specs.Ready.{ClassHere};
ghost use Rattle.headings.specs.Ready.{ReadReady, StartReady, ClassReady};
ghost use Rattle.headings.specs.Ready.{ClassesReady, HeadingsReady};

use language::{
    CLASS, CLASS_WIDTH, FIELD, KIND_PLACE, KIND_REFUSAL, METHOD, NAME_REFUSAL, ROOT_PLACE, Refusal,
    SUPER_PLACE, first, letter_at, second,
};
use members::fields::check_fields;
use members::methods::{Owner, check_methods};
use members::{PLAIN_KIND, ROOT_KIND, STATE_KIND};

// The row after a class.
fn skip_class(rows: &[u32], ends: &[u16], r: usize) -> usize
    requires { ClassHere rows.now ends.now r }
    ensures { (w : ClassHere rows.now ends.now r) → result ≡ r + class_lines
        w.one }
{
    let n = layout::count_rows(rows, r + 1, FIELD);
    let mut at = r + 1 + n;
    while letter_at(rows, at) == METHOD {
        at = layout::skip_method(rows, ends, at);
    }
    at
}

// Reads the kind and the superclass of every class, and answers how many classes there are.
fn read_classes(rows: &[u32], ends: &[u16], tables: &mut [u16]) -> usize
    requires { ReadReady rows.now ends.now tables.old }
    ensures { (w : ReadReady rows.now ends.now tables.old) →
        (result ≡ length w.program.classes) × Lookups w.program.classes 1 tables.new }
{
    let mut k = 0;
    let mut r = 0;
    while letter_at(rows, r) == CLASS {
        k += 1;
        tables[k * CLASS_WIDTH + KIND_PLACE] = first(rows, r) as u16;
        tables[k * CLASS_WIDTH + SUPER_PLACE] = second(rows, r) as u16;
        r = skip_class(rows, ends, r);
    }
    k
}

// May a class of one kind extend one of another; Object is as a plain class.
fn may_extend(kind: u32, above: u32) -> bool
    ensures { result ≡ may_extend (kind_of_number kind) (some (kind_of_number above)) }
{
    match kind {
        PLAIN_KIND | ROOT_KIND => above == PLAIN_KIND,
        STATE_KIND => above == ROOT_KIND || above == STATE_KIND,
        _ => false,
    }
}

// Starts the block of a class as its superclass's, with its own root.
fn start_block(tables: &mut [u16], k: usize, over: usize, kind: u32)
    requires { StartReady tables.old k over kind }
    ensures { (w : StartReady tables.old k over kind)
        → Working w.P k tables.new ((world w.P).fields over) (field_rows w.P over)
        (method_number w.P over) }
{
    let base = k * CLASS_WIDTH;
    let from = over * CLASS_WIDTH;
    // Kept: loops that go up. `copy_within` goes down where it copies to a later place, which took longer.
    for i in 0..KIND_PLACE {
        tables[base + i] = tables[from + i];
    }
    for i in ROOT_PLACE..CLASS_WIDTH {
        tables[base + i] = tables[from + i];
    }
    if kind != STATE_KIND {
        tables[base + ROOT_PLACE] = k as u16;
    }
}

// Checks the class of the C line of row r, fills its block and enters its methods; answers how many they are.
fn check_class(
    rows: &[u32],
    ends: &[u16],
    tables: &mut [u16],
    methods: &mut [u16],
    effects: &mut [u64],
    r: usize,
    owner: Owner,
) -> Result<u32, Refusal>
    requires { ClassReady rows.now ends.now tables.old methods.old effects.old owner.class r
        owner.first owner.classes }
    ensures { (w : ClassReady rows.now ends.now tables.old methods.old effects.old owner.class r
        owner.first owner.classes)
        → (result ≡ headed (length w.one.methods) (check_class of_check w.program.classes owner.class
        (r + 1) w.one))
        × ((n : ℕ) → result ≡ Ok n → Lookups w.program.classes (owner.class + 1) tables.new
        × Numbered w.program.classes methods.new effects.new
        (owner.first + length w.one.methods)) }
{
    let kind = first(rows, r);
    let over = second(rows, r) as usize;
    let line = r as u32 + 1;
    if owner.class <= over {
        return Err(Refusal {
            number: NAME_REFUSAL,
            line,
        });
    }
    if !may_extend(kind, u32::from(tables[over * CLASS_WIDTH + KIND_PLACE])) {
        return Err(Refusal {
            number: KIND_REFUSAL,
            line,
        });
    }
    start_block(tables, owner.class, over, kind);
    let n = layout::count_rows(rows, r + 1, FIELD);
    check_fields(
        rows,
        tables,
        r + 1,
        n,
        owner.class * CLASS_WIDTH,
        owner.classes,
    )?;
    check_methods(rows, ends, tables, methods, effects, r + 1 + n, owner)
}

// Checks all classes in order and fills the tables; answers how many methods there are.
fn check_classes(
    rows: &[u32],
    ends: &[u16],
    tables: &mut [u16],
    above: &mut [u64],
    methods: &mut [u16],
    effects: &mut [u64],
    count: usize,
) -> Result<u32, Refusal>
    requires { ClassesReady rows.now ends.now tables.old above.old methods.old effects.old count }
    ensures { (w : ClassesReady rows.now ends.now tables.old
        above.old methods.old effects.old count)
        → (result ≡ headed (length (placed_methods w.program.classes)) (headings of_check w.program.classes))
        × ((n : ℕ) → result ≡ Ok n
        → ClassTables w.program.classes tables.new above.new
        × MethodTables w.program.classes methods.new effects.new) }
{
    let mut r = 0;
    let mut next = 0;
    for k in 1..=count {
        let owner = Owner {
            class: k,
            first: next,
            classes: count,
        };
        let many = check_class(rows, ends, tables, methods, effects, r, owner)?;
        let over = second(rows, r) as usize;
        above[k] = classes::effect_of(k as u32) | above[over];
        r = skip_class(rows, ends, r);
        next += many as usize;
    }
    Ok(next as u32)
}

// The pass over headings. Where it passes, the tables hold the classes and the methods, and it tells how many methods
// there are.
pub fn check_headings(
    rows: &[u32],
    ends: &[u16],
    tables: &mut [u16],
    above: &mut [u64],
    methods: &mut [u16],
    effects: &mut [u64],
) -> Result<u32, Refusal>
    requires { HeadingsReady rows.now ends.now tables.old above.old methods.old effects.old }
    ensures { (w : HeadingsReady rows.now ends.now tables.old
        above.old methods.old effects.old)
        → (result ≡ headed (length (placed_methods w.program.classes)) (headings of_check w.program.classes))
        × ((n : ℕ) → result ≡ Ok n
        → ClassTables w.program.classes tables.new above.new
        × MethodTables w.program.classes methods.new effects.new) }
{
    tables[..CLASS_WIDTH].fill(0);
    above[0] = 0;
    let count = read_classes(rows, ends, tables);
    check_classes(rows, ends, tables, above, methods, effects, count)
}
