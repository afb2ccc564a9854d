// The labels of runs, and reports over fleets, under their C names.
ghost use Rattle.std.specs.Prelude.{◌≡◌, length};
ghost use Rattle.language.specs.Filling.{buffer};
ghost use Rattle.fleet.specs.Counts.{run_counts, counts_through, count_told};
ghost use Rattle.fleet.specs.Ranking.{report_answer};
ghost use Rattle.fleet.specs.Fleet.{fleet_report, models_report};
ghost use Rattle.packing.specs.Packed.{packed_count, printed_after, spoiled_after, report_number};
ghost use Rattle.packing.specs.Packed.{report_told};

use telling::fleets::{tell_labels, tell_report};
use telling::words::pack;

// Counts the labels of a run. A refused one leaves the counts as they were.
#[unsafe(no_mangle)]
pub extern "C" fn fickle_count_run(
    rows: &[u32],
    store: &[u32],
    objects: u32,
    printed: u32,
    spoiled: u32,
    printed_labels: &mut u32,
    spoiled_labels: &mut u32,
) -> u64
    ensures value { result ≡ packed_count (count_told
        (run_counts rows.now store.now objects printed spoiled)) }
    ensures printed_labels_after { printed_labels.new ≡ printed_after (count_told (run_counts rows.now
        store.now objects printed spoiled)) printed_labels.old }
    ensures spoiled_labels_after { spoiled_labels.new ≡ spoiled_after (count_told (run_counts rows.now
        store.now objects printed spoiled)) spoiled_labels.old }
{
    let count = counting::count_run(rows, store, objects, printed, spoiled);
    tell_labels(count, printed_labels, spoiled_labels);
    pack(count.map(|_| 0))
}

// Counts the labels of a run through the store that its plain run left.
#[unsafe(no_mangle)]
pub extern "C" fn fickle_count_plain_run(
    rows: &[u32],
    store: &[u32],
    objects: u32,
    printed: u32,
    spoiled: u32,
    printed_labels: &mut u32,
    spoiled_labels: &mut u32,
) -> u64
    ensures value { result ≡ packed_count (count_told
        (counts_through rows.now store.now objects printed spoiled)) }
    ensures printed_labels_after { printed_labels.new ≡ printed_after
        (count_told (counts_through rows.now
        store.now objects printed spoiled)) printed_labels.old }
    ensures spoiled_labels_after { spoiled_labels.new ≡ spoiled_after
        (count_told (counts_through rows.now
        store.now objects printed spoiled)) spoiled_labels.old }
{
    let count = counting::count_plain_run(rows, store, objects, printed, spoiled);
    tell_labels(count, printed_labels, spoiled_labels);
    pack(count.map(|_| 0))
}

// The report over counted lines. Stores how many bytes were written, or a refusal's line, and returns its number.
#[unsafe(no_mangle)]
pub extern "C" fn fickle_rank_models(counts: &[u32], report: &mut [u8], told: &mut u64) -> u32
    ensures value { result ≡ report_number (report_answer (models_report counts.now)
        (length report.old)) }
    ensures told_after { told.new ≡ report_told (report_answer (models_report counts.now)
        (length report.old)) }
    ensures report_after { report.new ≡ buffer (models_report counts.now) report.old }
{
    tell_report(ranking::rank_models(counts, report), told)
}

// The report over a fleet of ended runs, answered in the same way.
#[unsafe(no_mangle)]
pub extern "C" fn fickle_report_fleet(
    runs: &[u32],
    programs: &[u32],
    stores: &[u32],
    report: &mut [u8],
    told: &mut u64,
) -> u32
    ensures value { result ≡ report_number (report_answer
        (fleet_report runs.now programs.now
        stores.now) (length report.old)) }
    ensures told_after { told.new ≡ report_told (report_answer (fleet_report runs.now
        programs.now stores.now) (length report.old)) }
    ensures report_after { report.new ≡ buffer (fleet_report runs.now programs.now
        stores.now) report.old }
{
    tell_report(ranking::report_fleet(runs, programs, stores, report), told)
}
