// The run of rows over a lent store: length, fuel, tables by size, the run (document 01, "Refusals and stops").
#![tactic(auto)]

ghost use Rattle.std.specs.Prelude.{◌≤◌, ◌*◌, ◌/◌, replicate};
ghost use Rattle.passes.specs.Passes.{Room};
ghost use Rattle.running.specs.Answers.{Answers};
ghost use Rattle.language.specs.Limits.{most_fuel, of_check};
ghost use Rattle.language.specs.MethodTables.{method_width};

use language::{LIMIT_REFUSAL, LINE_REFUSAL, NUMBERS_A_ROW, Refusal};
use machine::Run;
use passes::{
    ALL_METHOD_TABLE, ALL_ROWS, FEW_METHOD_TABLE, FEW_NUMBERS, FEW_ROWS, SHORT_METHOD_TABLE,
    SHORT_NUMBERS, SHORT_ROWS,
};
use running::run_whole;

// The most fuel of a run.
const MOST_FUEL: u64 = 100000000;

// The run of whole rows, with tables of its own: ends for so many rows, and so many numbers for their methods.
fn run_sized<const ROWS: usize, const METHODS: usize>(
    rows: &[u32],
    store: &mut [u32],
    fuel: u32,
) -> Result<Run, Refusal>
    requires room { Room rows.now (replicate ROWS 0) (replicate METHODS 0) }
    requires sizes_in_bounds { (ROWS ≤ of_check.rows) × (METHODS ≤ of_check.rows / 3 * method_width) }
    requires fuel_le_most_fuel { fuel ≤ most_fuel }
    ensures { Answers rows.now fuel store.old store.new result }
{
    let mut ends = [0u16; ROWS];
    let mut methods = [0u16; METHODS];
    run_whole(rows, &mut ends, &mut methods, store, fuel)
}

// Runs rows. Few rows and few classes pay for short tables alone.
#[tactic(auto, using(passes::proofs::Passing::room_short, passes::proofs::Passing::room_few, passes::proofs::Passing::room_many))]
pub fn run_rows(rows: &[u32], store: &mut [u32], fuel: u64) -> Result<Run, Refusal>
    ensures { Answers rows.now fuel store.old store.new result }
{
    if rows.len() % NUMBERS_A_ROW != 0 {
        return Err(Refusal {
            number: LINE_REFUSAL,
            line: 0,
        });
    }
    if fuel > MOST_FUEL {
        return Err(Refusal {
            number: LIMIT_REFUSAL,
            line: 0,
        });
    }
    let fuel = fuel as u32;
    if rows.len() <= SHORT_NUMBERS {
        run_sized::<SHORT_ROWS, SHORT_METHOD_TABLE>(rows, store, fuel)
    } else if rows.len() <= FEW_NUMBERS {
        run_sized::<FEW_ROWS, FEW_METHOD_TABLE>(rows, store, fuel)
    } else {
        run_sized::<ALL_ROWS, ALL_METHOD_TABLE>(rows, store, fuel)
    }
}
