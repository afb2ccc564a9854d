// Demand 3 on the services themselves: rows are run, translated, and run as plain rows.
#![tactic(auto)]

ghost use Rattle.std.specs.Prelude.{◌*◌, ◌≤◌, length, take};
ghost use Rattle.running.specs.Answers.{Answers};
ghost use Rattle.demands.specs.Both.{RunsBoth};

use language::{NUMBERS_A_ROW, Refusal};
use machine::Run;

// How the rows ran, and how their plain rows ran; where they have none, the translator's refusal.
#[derive(Drop)]
pub struct Both {
    pub source: Result<Run, Refusal>,
    pub plain: Result<Run, Refusal>,
}

// The run of the plain rows that stand at the start of a buffer.
fn run_plain(plain: &[u32], count: usize, store: &mut [u32], fuel: u64) -> Result<Run, Refusal>
    requires { count * 4 ≤ length plain.now }
    ensures { Answers (take (count * 4) plain.now) fuel store.old
        store.new result }
{
    runner::run_rows(&plain[..count * NUMBERS_A_ROW], store, fuel)
}

// Runs rows, translates them, and runs the plain rows.
pub fn run_both(
    rows: &[u32],
    fuel: u64,
    plain_fuel: u64,
    store: &mut [u32],
    plain: &mut [u32],
    plain_store: &mut [u32],
) -> Both
    ensures { RunsBoth rows.now fuel plain_fuel store.old store.new
        plain.old plain.new plain_store.old plain_store.new result }
{
    let source = runner::run_rows(rows, store, fuel);
    match translator::translate_rows(rows, plain) {
        Ok(count) => Both {
            source,
            plain: run_plain(plain, count, plain_store, plain_fuel),
        },
        Err(refusal) => Both {
            source,
            plain: Err(refusal),
        },
    }
}
