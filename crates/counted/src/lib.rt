// The lines that a report is made of, and counted lines as such (document 02, §1): lines are judged in order, up to the first that
// is refused, and summed by windows of models.
#![tactic(auto)]

ghost use Rattle.std.specs.Prelude.{◌≡◌, ℕ, List, ◌≤◌, ◌<◌, length};
ghost use Rattle.std.proofs.Math.Option.{Option};
ghost use Rattle.fleet.specs.Ranking.{Counted};
ghost use Rattle.fleet.specs.Fleet.{counted_lines};
ghost use Rattle.counted.specs.Scanning.{Modelled, Scanned};
ghost use Rattle.language.specs.Limits.{line_refusal};
ghost use Rattle.sums.specs.Window.{Sized};

use fleet::{Counted, LINE_SIZE};
use language::LINE_REFUSAL;
use sums::Window;

// The refusal of a line that takes a sum past the largest.
pub const SUM_REFUSAL: u32 = 17;

// How many lines count, the refusal of the next one, if it is refused, and the window of models that was summed.
#[derive(Clone, Copy)]
pub struct Scan {
    pub place: usize,
    pub refusal: Option<u32>,
    pub window: Window,
}

impl Scan {
    // What a scan tells that ends before a line that is refused.
    pub fn refused(place: usize, number: u32, window: Window) -> Scan
        ensures { (result.place ≡ place) × (result.refusal ≡ Some number) × (result.window ≡ window) }
    {
        Scan {
            place,
            refusal: Some(number),
            window,
        }
    }

    // What a scan tells that ends at its limit.
    pub fn whole(limit: usize, window: Window) -> Scan
        ensures { (result.place ≡ limit) × (result.refusal ≡ None) × (result.window ≡ window) }
    {
        Scan {
            place: limit,
            refusal: None,
            window,
        }
    }
}

// Lines that a report is made of.
pub trait Lines {
    // The lines, and the number with which one is refused that does not count.
    ghost lines: { Self → List (Option Counted) };

    ghost refusal: { ℕ };

    // How many lines there are.
    fn count(&self) -> usize
        ensures value { result ≡ length (lines self.now) }
        ensures upper_bound { result ≤ 4611686018427387904 }
        ensures modelled { Modelled (lines self.now) };

    // Sums lines up to a limit, of models from `low` on.
    fn scan(
        &self,
        limit: usize,
        low: u64,
        table: &mut [u32],
        heads: &mut [u16],
        nexts: &mut [u16],
    ) -> Scan
        requires limit_in_bounds { (limit ≤ length (lines self.now)) × (low < 4294967296) }
        requires sized { Sized table.old heads.old nexts.old }
        ensures { Scanned refusal (lines self.now) limit low
            table.old heads.old nexts.old
            table.new heads.new nexts.new result };
}

// How many counted lines numbers are.
fn count_lines(counts: &[u32]) -> usize
    ensures value { result ≡ length (counted_lines counts.now) }
    ensures upper_bound { result ≤ 4611686018427387904 }
    ensures modelled { Modelled (counted_lines counts.now) }
{
    counts.len() / LINE_SIZE
}

// Counted lines, four numbers each.
#[derive(Clone, Copy)]
pub struct CountedLines<'a> {
    pub counts: &'a [u32],
}

impl<'a> Lines for CountedLines<'a> {
    ghost lines = { λ s. counted_lines s.counts.now };

    ghost refusal = { line_refusal };

    fn count(&self) -> usize {
        count_lines(self.counts)
    }

    fn scan(
        &self,
        limit: usize,
        low: u64,
        table: &mut [u32],
        heads: &mut [u16],
        nexts: &mut [u16],
    ) -> Scan {
        let mut window = sums::open_window(table, heads, nexts);
        for place in 0..limit {
            let line = Counted::at(self.counts, place);
            if line.printed < line.spoiled {
                return Scan::refused(place, LINE_REFUSAL, window);
            }
            let Some(taken) = sums::take(table, heads, nexts, low, window, line) else {
                return Scan::refused(place, SUM_REFUSAL, window);
            };
            window = taken;
        }
        Scan::whole(limit, window)
    }
}
