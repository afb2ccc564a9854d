// The report of counted lines, or of the runs of a fleet (document 02, §1). The sums are taken by windows of models: those of a
// window stand in a table of fixed length, and most fleets have one window. Where there are more, all are judged and measured
// before the first byte is written; then the lines of each window are merged into those that stand in the report.
#![tactic(auto)]

ghost use Rattle.std.specs.Prelude.{◌≡◌, ℕ, ◌+◌, ◌*◌, ◌≤◌, ◌<◌, List, ◌++◌, length, drop};
ghost use Rattle.std.proofs.Math.Option.{Option};
ghost use Rattle.language.specs.Filling.{buffer};
ghost use Rattle.fleet.specs.Ranking.{Counted, lines_of, ranked, report_of, report_answer};
ghost use Rattle.fleet.specs.Entries.{entries};
ghost use Rattle.fleet.specs.Fleet.{fleet_report, models_report};
ghost use Rattle.fleet.specs.LineLists.{merged};
ghost use Rattle.counted.specs.Scanning.{Modelled};
ghost use Rattle.ranking.specs.Judging.{Lent, Measured, Judging, JudgesNext, SomeNext, Standing};
ghost use Rattle.ranking.specs.Judging.{Stands, Ready, Serving};
ghost use Rattle.ranking.specs.Judging.{SomeWhole, Whole, Fits, Written, Reports};
ghost use Rattle.sums.specs.Window.{Sized};

use counted::{CountedLines, Lines, Scan};
use fleet::{Fault, LINE_SIZE};
use language::{LINE_REFUSAL, ROOM_REFUSAL};
use scanning::{FleetLines, RUN_SIZE};
use sums::ALL_MODELS;

// How many lines count, the refusal of the next one, if it is refused, and how many bytes are left by the report, if it fits.
#[derive(Clone, Copy)]
pub struct Judged {
    pub place: usize,
    pub refusal: Option<u32>,
    pub room: Option<usize>,
}

// How many lines pay for short tables alone. These have as many models, and as many chains of models.
const FEW_LINES: usize = 256;

const FEW_NUMBERS: usize = LINE_SIZE * FEW_LINES;

// How many models a window has at most, and how many chains they are in.
const WINDOW_MODELS: usize = 10000;

const WINDOW_CHAINS: usize = 16384;

const WINDOW_NUMBERS: usize = LINE_SIZE * WINDOW_MODELS;

// The room that the lines of the sums in a table leave, if they fit.
fn use_room(room: Option<usize>, table: &[u32], count: usize) -> Option<usize>
    requires { (count * 4 ≤ length table.now) × (count ≤ 65535) }
    ensures { (bytes : ℕ) (ds : List Counted) → Measured bytes room ds
        → Measured bytes result (ds ++ entries table.now count) }
{
    let left = room?;
    left.checked_sub(reports::measure(table, count))
}

// Judges one more window by its scan.
fn judge_window(j: Judged, s: Scan, table: &[u32]) -> Judged
    requires { SomeNext j table.now s }
    ensures { (number : ℕ) (ls : List (Option Counted)) (bytes low : ℕ)
        → JudgesNext number ls bytes low j table.now s
        → Judging number ls bytes s.window.end result }
{
    if s.refusal.is_some() {
        return Judged {
            place: s.place,
            refusal: s.refusal,
            room: None,
        };
    }
    if j.refusal.is_some() {
        return j;
    }
    Judged {
        place: j.place,
        refusal: None,
        room: use_room(j.room, table, s.window.count),
    }
}

// Judges all lines by windows of models, and measures their report.
fn judge_windows<L: Lines>(
    lines: &L,
    bytes: usize,
    table: &mut [u32],
    heads: &mut [u16],
    nexts: &mut [u16],
) -> Judged
    requires { Sized table.old heads.old nexts.old }
    ensures judging { Judging L.refusal (L.lines lines.now) bytes 4294967296 result }
    ensures place_bound { result.place ≤ 4611686018427387904 }
    ensures modelled { Modelled (L.lines lines.now) }
{
    let mut j = Judged {
        place: lines.count(),
        refusal: None,
        room: Some(bytes),
    };
    let mut low = 0;
    while low < ALL_MODELS {
        let s = lines.scan(j.place, low, table, heads, nexts);
        j = judge_window(j, s, table);
        low = s.window.end;
    }
    j
}

// Merges the lines of the sums in a table into those that stand in the report, and answers how long they are then.
fn merge_window(
    report: &mut [u8],
    have: usize,
    table: &[u32],
    order: &mut [u16],
    spare: &mut [u16],
    count: usize,
) -> usize
    requires ready { Ready table.now order.old spare.old count }
    requires stands { Stands report.old have }
    requires count_in_bounds { have + length (lines_of (entries table.now count)) ≤ length report.old }
    ensures value { result ≡ have + length (lines_of (entries table.now count)) }
    ensures report_after { (es : List Counted) → Standing report.old have es
        → report.new ≡ lines_of (merged es (ranked (entries table.now count)))
        ++ drop result report.old }
{
    ordering::rank(table, order, spare, count);
    reports::merge_lines(report, have, table, order, count)
}

// The report of the one window that all models are in.
fn report_window(
    s: Scan,
    report: &mut [u8],
    table: &[u32],
    heads: &mut [u16],
    nexts: &mut [u16],
) -> Result<usize, Fault>
    requires { SomeWhole table.now heads.old nexts.old s }
    ensures { (number : ℕ) (ls : List (Option Counted))
        → Whole number ls table.now heads.old nexts.old s
        → (result ≡ report_answer (report_of number ls) (length report.old))
        × (report.new ≡ buffer (report_of number ls) report.old) }
{
    if let Some(number) = s.refusal {
        return Err(Fault {
            number,
            place: s.place + 1,
        });
    }
    let count = s.window.count;
    if report.len() < reports::measure(table, count) {
        return Err(Fault {
            number: ROOM_REFUSAL,
            place: 0,
        });
    }
    Ok(merge_window(report, 0, table, heads, nexts, count))
}

// Writes the lines of all windows, which are judged and fit.
fn write_windows<L: Lines>(
    lines: &L,
    report: &mut [u8],
    table: &mut [u32],
    heads: &mut [u16],
    nexts: &mut [u16],
) -> usize
    requires lent { Lent table.old heads.old nexts.old }
    requires fits { Fits (L.lines lines.now) (length report.old) }
    ensures { Written (L.lines lines.now) report.old report.new result }
{
    let n = lines.count();
    let mut low = 0;
    let mut have = 0;
    while low < ALL_MODELS {
        let s = lines.scan(n, low, table, heads, nexts);
        have = merge_window(report, have, table, heads, nexts, s.window.count);
        low = s.window.end;
    }
    have
}

// The report of lines whose models take several windows.
fn report_windows<L: Lines>(
    lines: &L,
    report: &mut [u8],
    table: &mut [u32],
    heads: &mut [u16],
    nexts: &mut [u16],
) -> Result<usize, Fault>
    requires { Lent table.old heads.old nexts.old }
    ensures { Reports L.refusal (L.lines lines.now) report.old report.new result }
{
    let j = judge_windows(lines, report.len(), table, heads, nexts);
    if let Some(number) = j.refusal {
        return Err(Fault {
            number,
            place: j.place + 1,
        });
    }
    if j.room.is_some() {
        return Ok(write_windows(lines, report, table, heads, nexts));
    }
    Err(Fault {
        number: ROOM_REFUSAL,
        place: 0,
    })
}

// The report of lines, with tables that are lent. Once a window is summed, the chains' slices serve for the order.
fn report_lines<L: Lines>(
    lines: &L,
    report: &mut [u8],
    table: &mut [u32],
    heads: &mut [u16],
    nexts: &mut [u16],
) -> Result<usize, Fault>
    requires { Lent table.old heads.old nexts.old }
    ensures { Reports L.refusal (L.lines lines.now) report.old report.new result }
{
    let n = lines.count();
    let s = lines.scan(n, 0, table, heads, nexts);
    if s.window.end == ALL_MODELS {
        return report_window(s, report, table, heads, nexts);
    }
    report_windows(lines, report, table, heads, nexts)
}

// The report of lines, with tables for windows of so many models, in so many chains.
fn report_in<L: Lines, const NUMBERS: usize, const CHAINS: usize, const MODELS: usize>(
    lines: &L,
    report: &mut [u8],
) -> Result<usize, Fault>
    requires { Serving NUMBERS CHAINS MODELS }
    ensures { Reports L.refusal (L.lines lines.now) report.old report.new result }
{
    let mut table = [0u32; NUMBERS];
    let mut heads = [0u16; CHAINS];
    let mut nexts = [0u16; MODELS];
    report_lines(lines, report, &mut table, &mut heads, &mut nexts)
}

// The report of lines.
fn report_any<L: Lines>(lines: &L, report: &mut [u8]) -> Result<usize, Fault>
    ensures { Reports L.refusal (L.lines lines.now) report.old report.new result }
{
    if lines.count() <= FEW_LINES {
        return report_in::<L, FEW_NUMBERS, FEW_LINES, FEW_LINES>(lines, report);
    }
    report_in::<L, WINDOW_NUMBERS, WINDOW_CHAINS, WINDOW_MODELS>(lines, report)
}

// The report over counted lines, four numbers each: model, printed, spoiled, cents.
pub fn rank_models(counts: &[u32], report: &mut [u8]) -> Result<usize, Fault>
    ensures value { result ≡ report_answer (models_report counts.now) (length report.old) }
    ensures report_after { report.new ≡ buffer (models_report counts.now) report.old }
{
    if counts.len() % LINE_SIZE != 0 {
        return Err(Fault {
            number: LINE_REFUSAL,
            place: 0,
        });
    }
    report_any(&CountedLines { counts }, report)
}

// The report over a fleet of ended runs, six numbers each: model, rows, objects, printed, spoiled, cents.
pub fn report_fleet(
    runs: &[u32],
    programs: &[u32],
    stores: &[u32],
    report: &mut [u8],
) -> Result<usize, Fault>
    ensures value { result ≡ report_answer (fleet_report runs.now programs.now stores.now)
        (length report.old) }
    ensures report_after { report.new ≡ buffer (fleet_report runs.now programs.now stores.now) report.old }
{
    if runs.len() % RUN_SIZE != 0 {
        return Err(Fault {
            number: LINE_REFUSAL,
            place: 0,
        });
    }
    let lines = FleetLines {
        runs,
        programs,
        stores,
    };
    report_any(&lines, report)
}
