// The run of a checked program over a lent store: from the start block, with the first segment of slots, to the answer.
#![tactic(auto)]

ghost use Rattle.std.specs.Prelude.{◌≡◌};
ghost use Rattle.objects.specs.Values.{outcome, SmallOutcome};
ghost use Rattle.machine.specs.Runs.{PreRun, PostRun, end_told, stop_told, outcome_of};
ghost use Rattle.machine.specs.Runs.{PreChecked, PostChecked};

use frames::{FRAME_ROOM, Place, SEGMENT};
use language::{ALL_CLASSES, DEEP_STOP, FULL_STOP, SPENT_STOP, START};
use objects::{BAD_CAST, DEEP, FULL, NULL_POINTER, Program, SPENT, STUCK, Tally, Value};

// Why a run stopped: no fuel left for a node, a call too many, no room for an object, or no rule that goes on, which no
// checked program reaches.
#[derive(Clone, Copy, Debug, PartialEq, Eq)]
pub enum Stop {
    Spent,
    Deep,
    Full,
    Stuck,
}

impl Stop {
    // The number by which a stop is told.
    pub fn number(self) -> u32
        ensures { result ≡ stop_told self }
    {
        match self {
            Stop::Spent => SPENT_STOP,
            Stop::Deep => DEEP_STOP,
            Stop::Full => FULL_STOP,
            Stop::Stuck => 0,
        }
    }
}

// How a run of a checked program ended: with a value, whose objects count from 1, with an exception, or stopped.
// Kept: an exception is its number, which can be any in the definition (Rattle.language.specs.State, raised).
#[derive(Clone, Copy)]
pub enum End {
    Gave(Value),
    Raised(u32),
    Stopped(Stop),
}

// The answer to the caller: how the run ended, nodes entered, objects made, changes of class.
#[derive(Clone, Copy)]
pub struct Run {
    pub outcome: End,
    pub steps: u32,
    pub objects: u32,
    pub changes: u32,
}

// The start block, at a row, from the first state.
fn run_start(
    program: &Program,
    store: &mut [u32],
    slots: &mut [u64; SEGMENT],
    at: usize,
    fuel: u32,
) -> Run
    requires { PreRun program.now.rows.now program.now.ends.now program.now.tables.now
        program.now.above.now program.now.methods.now slots.old at }
    ensures { PostRun program.now.rows.now program.now.ends.now program.now.tables.now
        program.now.above.now program.now.methods.now store.old slots.old
        store.new at fuel result }
{
    let mut tally = Tally {
        left: fuel,
        made: 0,
        changes: 0,
    };
    let place = Place {
        base: 0,
        scope: 0,
        top: FRAME_ROOM,
        calls: 0,
    };
    let outcome = evaluator::eval(program, store, slots, &mut tally, at, &place);
    let steps = fuel - tally.left;
    Run {
        outcome: end_told(outcome),
        steps,
        objects: tally.made,
        changes: tally.changes,
    }
}

// How a run ended, for the caller. No checked program is stuck.
fn end_told(o: u64) -> End
    requires { SmallOutcome (outcome o) }
    ensures { result ≡ end_told (outcome_of (outcome o)) }
{
    if o < STUCK {
        return End::Gave(objects::value_of(o));
    }
    match o {
        NULL_POINTER | BAD_CAST => End::Raised((o - STUCK) as u32),
        SPENT => End::Stopped(Stop::Spent),
        DEEP => End::Stopped(Stop::Deep),
        FULL => End::Stopped(Stop::Full),
        _ => End::Stopped(Stop::Stuck),
    }
}

// The run of a checked program, with the first segment of slots.
pub fn run_checked(
    rows: &[u32],
    ends: &[u16],
    tables: &[u16],
    above: &[u64; ALL_CLASSES],
    methods: &[u16],
    store: &mut [u32],
    fuel: u32,
) -> Run
    requires { PreChecked rows.now ends.now tables.now above.now methods.now }
    ensures { PostChecked rows.now ends.now tables.now
        above.now methods.now store.old store.new fuel result }
{
    let mut slots = [0u64; SEGMENT];
    let start = objects::find_letter(rows, 0, START);
    let program = Program {
        rows,
        ends,
        tables,
        above,
        methods,
    };
    run_start(&program, store, &mut slots, start + 1, fuel)
}
