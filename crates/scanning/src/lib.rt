// The lines of a fleet's runs (document 02, §1), judged in order and summed by windows of models: a scan ends at the first that is
// refused.
#![tactic(auto)]

ghost use Rattle.std.specs.Prelude.{◌≡◌, ℕ, List, ◌-◌, ◌*◌, ◌/◌, ◌≤◌, ◌<◌, length, take, drop};
ghost use Rattle.fleet.specs.Counts.{run_counts, count_told, class_refusal};
ghost use Rattle.fleet.specs.Fleet.{runs_of, lines_of_runs};
ghost use Rattle.counting.specs.Knowing.{Knows, Knowing};
ghost use Rattle.counted.specs.Scanning.{Modelled};

use counted::{Lines, SUM_REFUSAL, Scan};
use counting::CLASS_REFUSAL;
use fleet::{Counted, Labels};
use language::{ALL_CLASSES, NUMBERS_A_ROW, OBJECT_WIDTH, Refusal};

// How many numbers a run has: model, rows, objects, printed, spoiled, cents.
pub const RUN_SIZE: usize = 6;

// What is known of a run's rows, which follow those of the run before.
fn know_next(
    programs: &[u32],
    before: usize,
    at: usize,
    end: usize,
    known: Option<u32>,
    above: &mut [u64],
) -> Option<u32>
    requires before_le_at { (before ≤ at) × (at ≤ end) × (end ≤ length programs.now) }
    requires knows { Knows (take (at - before) (drop before programs.now)) above.old known }
    ensures { Knows (take (end - at) (drop at programs.now)) above.new result }
{
    counting::know(&programs[at..end], &programs[before..at], known, above)
}

// The labels of a run whose rows are known and whose objects begin at a place of the stores.
fn count_next(
    known: Option<u32>,
    above: &[u64],
    stores: &[u32],
    from: usize,
    objects: u32,
    printed: u32,
    spoiled: u32,
) -> Result<Labels, Refusal>
    requires from_in_bounds { from ≤ length stores.now }
    requires knowing { Knowing above.now known }
    ensures { (w : Knowing above.now known)
        → result ≡ count_told (run_counts w.rows (drop from stores.now) objects printed spoiled) }
{
    counting::count_labels(known, above, &stores[from..], objects, printed, spoiled)
}

// How many runs numbers are.
fn count_runs(runs: &[u32]) -> usize
    ensures value { result ≡ length runs.now / 6 }
    ensures upper_bound { result ≤ 4611686018427387904 }
    ensures modelled { (P S : List ℕ) → Modelled (lines_of_runs (runs_of runs.now) P S) }
{
    runs.len() / RUN_SIZE
}

// The runs of a fleet, six numbers each, with their programs one after another, and so their stores. The rows and objects of each
// run follow those of the run before.
#[derive(Clone, Copy)]
pub struct FleetLines<'a> {
    pub runs: &'a [u32],
    pub programs: &'a [u32],
    pub stores: &'a [u32],
}

impl<'a> Lines for FleetLines<'a> {
    ghost lines = { λ s. lines_of_runs (runs_of s.runs.now) s.programs.now s.stores.now };

    ghost refusal = { class_refusal };

    fn count(&self) -> usize {
        count_runs(self.runs)
    }

    fn scan(
        &self,
        limit: usize,
        low: u64,
        table: &mut [u32],
        heads: &mut [u16],
        nexts: &mut [u16],
    ) -> Scan {
        let runs = self.runs;
        let programs = self.programs;
        let mut above = [0u64; ALL_CLASSES];
        let mut known = None;
        let mut before = 0;
        let mut at = 0;
        let mut from = 0;
        let mut window = sums::open_window(table, heads, nexts);
        for place in 0..limit {
            let model = runs[place * RUN_SIZE];
            let rows = runs[place * RUN_SIZE + 1] as usize;
            let objects = runs[place * RUN_SIZE + 2];
            let printed = runs[place * RUN_SIZE + 3];
            let spoiled = runs[place * RUN_SIZE + 4];
            let cents = runs[place * RUN_SIZE + 5];
            if (programs.len() - at) / NUMBERS_A_ROW < rows {
                return Scan::refused(place, CLASS_REFUSAL, window);
            }
            let end = at + rows * NUMBERS_A_ROW;
            known = know_next(programs, before, at, end, known, &mut above);
            let count = count_next(known, &above, self.stores, from, objects, printed, spoiled);
            let labels = match count {
                Ok(labels) => labels,
                Err(refusal) => return Scan::refused(place, refusal.number, window),
            };
            let line = Counted {
                model,
                printed: labels.printed,
                spoiled: labels.spoiled,
                cents,
            };
            let Some(taken) = sums::take(table, heads, nexts, low, window, line) else {
                return Scan::refused(place, SUM_REFUSAL, window);
            };
            window = taken;
            before = at;
            at = end;
            from += objects as usize * OBJECT_WIDTH;
        }
        Scan::whole(limit, window)
    }
}
