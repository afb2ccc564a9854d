// The answer of a run: its number, the kind and the content of its value, and its counts.
ghost use Rattle.std.specs.Prelude.{◌≡◌};
ghost use Rattle.telling.specs.Cases.{packed_end, packed_run, kind_of, content_of, kind_left, content_left};
ghost use Rattle.telling.specs.Cases.{kind_told, content_told, steps_told, objects_told, changes_told};

use super::words::{pack, two_words};
use language::Refusal;
use machine::{End, Run};
use objects::Value;

// The number of an answer where the run ended in an exception.
const EXCEPTION: u32 = 1000;

// The kinds of values.
const NULL: u32 = 0;

const BOOL: u32 = 1;

const OBJECT: u32 = 2;

// The end of a run as one number, 0 where it is a value.
pub fn pack_end(e: End) -> u64
    ensures { result ≡ packed_end e }
{
    match e {
        End::Gave(_) => 0,
        End::Raised(n) => two_words(EXCEPTION, n),
        End::Stopped(stop) => two_words(stop.number(), 0),
    }
}

// The answer of a run as one number.
pub fn pack_run(answer: Result<Run, Refusal>) -> u64
    ensures { result ≡ packed_run answer }
{
    pack(answer.map(|run| pack_end(run.outcome)))
}

// The kind of a value.
pub fn kind_of(v: Value) -> u32
    ensures { result ≡ kind_of v }
{
    match v {
        Value::Null => NULL,
        Value::Truth(_) => BOOL,
        Value::Object(_) => OBJECT,
    }
}

// The content of a value.
pub fn content_of(v: Value) -> u32
    ensures { result ≡ content_of v }
{
    match v {
        Value::Null => 0,
        Value::Truth(b) => u32::from(b),
        Value::Object(j) => j,
    }
}

// Stores the kind and the content of the value in which a run ended, if it did.
pub fn put_value(end: End, kind: &mut u32, content: &mut u32)
    ensures kind_after { kind.new ≡ kind_left end kind.old }
    ensures content_after { content.new ≡ content_left end content.old }
{
    if let End::Gave(v) = end {
        *kind = kind_of(v);
        *content = content_of(v);
    }
}

// Stores them where the run was not refused.
pub fn tell_value(answer: Result<Run, Refusal>, kind: &mut u32, content: &mut u32)
    ensures kind_after { kind.new ≡ kind_told answer kind.old }
    ensures content_after { content.new ≡ content_told answer content.old }
{
    if let Ok(run) = answer {
        put_value(run.outcome, kind, content);
    }
}

// Stores the counts of a run where it was not refused.
pub fn tell_counts(
    answer: Result<Run, Refusal>,
    steps: &mut u32,
    objects: &mut u32,
    changes: &mut u32,
)
    ensures steps_after { steps.new ≡ steps_told answer steps.old }
    ensures objects_after { objects.new ≡ objects_told answer objects.old }
    ensures changes_after { changes.new ≡ changes_told answer changes.old }
{
    if let Ok(run) = answer {
        *steps = run.steps;
        *objects = run.objects;
        *changes = run.changes;
    }
}
