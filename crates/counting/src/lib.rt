// Counts the labels of an ended run by the class they ended in, from the store of the run or through the Identities of
// the store that its plain run left (document 02, §1).
#![tactic(auto)]

ghost use Rattle.std.specs.Prelude.{◌≡◌, Bool, true, false, cond, ◌+◌, ◌*◌, ◌/◌, ◌≤◌, ◌<◌, length, drop};
ghost use Rattle.language.specs.Program.{world};
ghost use Rattle.language.specs.Refusals.{refusal};
ghost use Rattle.fleet.specs.Counts.{relates, run_counts, counts_through, count_told};
ghost use Rattle.fleet.specs.Counts.{class_refusal, first_place};
ghost use Rattle.classes.specs.Subclasses.{is_below};
ghost use Rattle.counting.specs.Knowing.{Knows, Knowing, Serves, declares};
ghost use Rattle.counting.specs.Labels.{class_made, implementor_ended, ended_at, added, labels_next};
ghost use Rattle.counting.specs.Labels.{counts_of, labels_told};
ghost use Rattle.language.specs.Limits.{of_check, object_width};

use fleet::Labels;
use language::{ALL_CLASSES, FICKLE, IDENTITY, OBJECT_WIDTH, Refusal, Type};

// What an object of a store says of a label: the class it ended in, that it is not a label, or that its class is not to be
// found.
#[derive(Clone, Copy)]
enum Ended {
    In(u32),
    NoLabel,
    Lost,
}

// How an object of a store tells of a label.
trait Reading {
    // Whether the store is a plain one.
    ghost plain: { Bool };

    // What an object among the first objects of a store says of a label.
    fn ended(store: &[u32], objects: u32, at: usize) -> Ended
        requires { (at < objects) × (objects ≤ length store.now / object_width) }
        ensures { result ≡ ended_at plain objects store.now (drop (object_width * at) store.now) };
}

// In the store of a run every object ended in its class.
struct RunStore;

// In a plain store the Identities stand for the source's objects, and the first field of each has the implementor.
struct PlainStore;

// The value of the first object that is made.
const FIRST_OBJECT: u32 = 3;

// The number of the refusal of a run.
pub const CLASS_REFUSAL: u32 = 18;

// The refusal of a run whose program, classes or store do not serve; a run by itself is the first of its fleet.
fn refused() -> Refusal
    ensures { result ≡ refusal class_refusal first_place }
{
    Refusal {
        number: CLASS_REFUSAL,
        line: 1,
    }
}

// Checks rows, and keeps which class stands below which: how many classes they declare, or that they are refused.
pub fn learn(rows: &[u32], above: &mut [u64]) -> Option<u32>
    requires { of_check.classes + 1 ≤ length above.old }
    ensures { Knows rows.now above.new result }
{
    checker::check_above(rows, above).ok()
}

// What is known of rows, after the rows before them: the same rows are not checked again.
pub fn know(rows: &[u32], before: &[u32], known: Option<u32>, above: &mut [u64]) -> Option<u32>
    requires { Knows before.now above.old known }
    ensures { Knows rows.now above.new result }
{
    if rows == before {
        return known;
    }
    learn(rows, above)
}

// Whether a program with so many classes declares a class; Object is declared by none.
fn is_declared(classes: u32, class: u32) -> bool
    ensures { result ≡ declares classes class }
{
    Type::OBJECT < class && class <= classes
}

// Whether a program declares both classes, and spoiled lies strictly below printed.
fn is_related(above: &[u64], classes: u32, printed: u32, spoiled: u32) -> bool
    requires { Serves above.now classes }
    ensures { (w : Serves above.now classes)
        → result ≡ relates (world w.program) printed spoiled }
{
    if !is_declared(classes, printed) || !is_declared(classes, spoiled) || spoiled == printed {
        return false;
    }
    classes::is_below(above, spoiled, printed)
}

// A count, and one more where a class is another or stands below it.
fn count_below(above: &[u64], count: u32, class: u32, over: u32) -> u32
    requires { (class < length above.now) × (over ≤ of_check.classes) × (count < 4294967295) }
    ensures { result ≡ cond (is_below above.now class over) (count + 1) count }
{
    if classes::is_below(above, class, over) {
        return count + 1;
    }
    count
}

// The class of the object that a value is; Object where it is none of the first objects of a store.
fn class_of(store: &[u32], objects: u32, value: u32) -> u32
    requires { objects ≤ length store.now / object_width }
    ensures { result ≡ class_made objects store.now value }
{
    match value.checked_sub(FIRST_OBJECT) {
        Some(made) if made < objects => store[OBJECT_WIDTH * made as usize],
        _ => Type::OBJECT,
    }
}

// What an implementor in a plain store says: the class of the source that it stands for. Other objects are no
// implementors.
fn implementor_ended(class: u32) -> Ended
    ensures { result ≡ implementor_ended class }
{
    match class.checked_sub(FICKLE) {
        Some(class) => Ended::In(class),
        None => Ended::Lost,
    }
}

impl Reading for RunStore {
    ghost plain = { false };

    fn ended(store: &[u32], _objects: u32, at: usize) -> Ended {
        Ended::In(store[OBJECT_WIDTH * at])
    }
}

impl Reading for PlainStore {
    ghost plain = { true };

    fn ended(store: &[u32], objects: u32, at: usize) -> Ended {
        let class = store[OBJECT_WIDTH * at];
        if class != IDENTITY {
            return Ended::NoLabel;
        }
        let held = class_of(store, objects, store[OBJECT_WIDTH * at + 1]);
        implementor_ended(held)
    }
}

// The labels so far, with what one more object says; none where the program lacks its class.
fn count_object(
    above: &[u64],
    classes: u32,
    printed: u32,
    spoiled: u32,
    ended: Ended,
    labels: Labels,
) -> Option<Labels>
    requires { Serves above.now classes × (printed ≤ of_check.classes) × (spoiled ≤ of_check.classes)
        × (labels.printed < 4294967295) × (labels.spoiled < 4294967295) }
    ensures { (w : Serves above.now classes)
        → result ≡ labels_told (added (world w.program) printed spoiled labels.printed labels.spoiled ended) }
{
    match ended {
        Ended::In(class) => {
            if classes < class {
                return None;
            }
            Some(Labels {
                printed: count_below(above, labels.printed, class, printed),
                spoiled: count_below(above, labels.spoiled, class, spoiled),
            })
        }
        Ended::NoLabel => Some(labels),
        Ended::Lost => None,
    }
}

// The labels among the first objects of a store, of a program that declares both classes.
fn count_objects<R: Reading>(
    above: &[u64],
    classes: u32,
    store: &[u32],
    objects: u32,
    printed: u32,
    spoiled: u32,
) -> Option<Labels>
    requires { Serves above.now classes × (printed ≤ of_check.classes) × (spoiled ≤ of_check.classes)
        × (objects ≤ length store.now / object_width) }
    ensures { (w : Serves above.now classes)
        → result ≡ labels_told (labels_next (world w.program) printed spoiled R.plain objects store.now
        objects store.now 0 0) }
{
    let mut labels = Labels {
        printed: 0,
        spoiled: 0,
    };
    for at in 0..objects as usize {
        let ended = R::ended(store, objects, at);
        labels = count_object(above, classes, printed, spoiled, ended, labels)?;
    }
    Some(labels)
}

// The labels of a run whose rows are known, by its store or by that of its plain run.
fn count_known<R: Reading>(
    known: Option<u32>,
    above: &[u64],
    store: &[u32],
    objects: u32,
    printed: u32,
    spoiled: u32,
) -> Result<Labels, Refusal>
    requires { Knowing above.now known }
    ensures { (w : Knowing above.now known)
        → result ≡ count_told (counts_of R.plain w.rows store.now objects printed spoiled) }
{
    let Some(classes) = known else {
        return Err(refused());
    };
    if store.len() / OBJECT_WIDTH < objects as usize
        || !is_related(above, classes, printed, spoiled)
    {
        return Err(refused());
    }
    count_objects::<R>(above, classes, store, objects, printed, spoiled).ok_or(refused())
}

// The labels of a run whose rows are known, by the store it left.
pub fn count_labels(
    known: Option<u32>,
    above: &[u64],
    store: &[u32],
    objects: u32,
    printed: u32,
    spoiled: u32,
) -> Result<Labels, Refusal>
    requires { Knowing above.now known }
    ensures { (w : Knowing above.now known)
        → result ≡ count_told (run_counts w.rows store.now objects printed spoiled) }
{
    count_known::<RunStore>(known, above, store, objects, printed, spoiled)
}

// The labels of a run of rows, by its store or by that of its plain run.
fn count_rows<R: Reading>(
    rows: &[u32],
    store: &[u32],
    objects: u32,
    printed: u32,
    spoiled: u32,
) -> Result<Labels, Refusal>
    ensures { result ≡ count_told (counts_of R.plain rows.now store.now objects printed spoiled) }
{
    let mut above = [0u64; ALL_CLASSES];
    let known = learn(rows, &mut above);
    count_known::<R>(known, &above, store, objects, printed, spoiled)
}

// The labels of a run of rows that made `objects` objects and left this store.
pub fn count_run(
    rows: &[u32],
    store: &[u32],
    objects: u32,
    printed: u32,
    spoiled: u32,
) -> Result<Labels, Refusal>
    ensures { result ≡ count_told (run_counts rows.now store.now objects printed spoiled) }
{
    count_rows::<RunStore>(rows, store, objects, printed, spoiled)
}

// The labels of a run of rows, through the store that a run of their plain program left with `objects` objects.
pub fn count_plain_run(
    rows: &[u32],
    store: &[u32],
    objects: u32,
    printed: u32,
    spoiled: u32,
) -> Result<Labels, Refusal>
    ensures { result ≡ count_told (counts_through rows.now store.now objects printed spoiled) }
{
    count_rows::<PlainStore>(rows, store, objects, printed, spoiled)
}
