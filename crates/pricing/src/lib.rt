// The services on price terms (document 02, §11): the price of a model on a day or date, and the report of a month.
#![tactic(auto)]

ghost use Rattle.std.specs.Prelude.{◌≡◌, true, ℕ, ◌+◌, ◌≤◌, ◌<◌, length, get_or, None};
ghost use Rattle.std.proofs.Math.Option.{Option};
ghost use Rattle.std.proofs.lemmas.List.Edits.{sets};
ghost use Rattle.language.specs.Results.{accept};
ghost use Rattle.language.specs.Filling.{answer, buffer};
ghost use Rattle.prices.specs.Terms.{terms_of};
ghost use Rattle.prices.specs.Prices.{term_on, told_price, price_on_day, price_on_date};
ghost use Rattle.prices.specs.Calendar.{last_day};
ghost use Rattle.prices.specs.Reports.{days_from, price_run, price_runs, run_line, run_lines};
ghost use Rattle.prices.specs.Reports.{days_report, price_report};
ghost use Rattle.pricing.specs.Runs.{Priced, RunAt, has_price, price_kept, unless_refused, most_report};

use language::{ROOM_REFUSAL, Refusal};
use prices::Price;
use terms::{Days, Entry, MOST_DAYS};

// The last day of the range, and the refusal of a day, date or month that is not in the calendar or range.
const LAST_DAY: u32 = 65535;

const NO_DAY: Refusal = Refusal {
    number: 24,
    line: 0,
};

// The bytes of the longest report: a line of at most 18 for each day of the longest month.
const MOST_REPORT: usize = 18 * MOST_DAYS;

// Writes the line of a run at a place, and returns the place after it.
fn write_run(held: &mut [u8], at: usize, first: u32, last: u32, cents: u32) -> usize
    requires { at + length (run_line (price_run first last cents)) ≤ length held.old }
    ensures { (result ≡ at + length (run_line (price_run first last cents))) ×
        (held.new ≡ sets held.old at (run_line (price_run first last cents))) }
{
    let then = fields::write_decimal(held, at, first);
    let next = fields::write_number(held, then, last);
    let end = fields::write_number(held, next, cents);
    held[end] = b'\n';
    end + 1
}

// Whether a term is kept of a day, with this price.
fn has_price(kept: Option<Entry>, cents: u32) -> bool
    ensures { result ≡ has_price kept cents }
{
    kept.is_some_and(|entry| entry.cents == cents)
}

// The place after the run with a price that begins at place i of a table.
fn find_end(table: &[Option<Entry>], i: usize, count: usize, cents: u32) -> usize
    requires { (count ≤ length table.now) × (i < count) × (has_price (get_or table.now i None) cents ≡ true) }
    ensures { RunAt table.now count cents i result }
{
    for j in i + 1..count {
        if !has_price(table[j], cents) {
            return j;
        }
    }
    count
}

// Writes the lines of the runs of a table, and returns how long they are. A line has at most 18 bytes, and there are at
// most 31 days.
fn write_runs(table: &[Option<Entry>], days: Days, held: &mut [u8]) -> usize
    requires { (most_report ≤ length held.old) ×
        ((price : ℕ → Option ℕ) × Priced price days.first days.count table.now)
        × (days.first + days.count ≤ last_day + 1) }
    ensures { (result ≤ most_report) × ((price : ℕ → Option ℕ) → Priced price days.first days.count table.now
        → (result ≡ length (run_lines (price_runs price days.first days.count)))
        × (held.new ≡ sets held.old 0 (run_lines (price_runs price days.first days.count)))) }
{
    let mut i = 0;
    let mut at = 0;
    while i < days.count {
        let Some(entry) = table[i] else {
            i += 1;
            continue;
        };
        let end = find_end(table, i, days.count, entry.cents);
        let (first, last) = (days.first + i as u32, days.first + end as u32 - 1);
        at = write_run(held, at, first, last, entry.cents);
        i = end;
    }
    at
}

// Writes the lines of the runs of a table into a report. They are written aside first, and copied if they fit, so that a
// refusal changes nothing.
fn write_report(table: &[Option<Entry>], days: Days, report: &mut [u8]) -> Result<usize, Refusal>
    requires in_range { days.first + days.count ≤ last_day + 1 }
    requires priced { (price : ℕ → Option ℕ) × Priced price days.first days.count table.now }
    ensures { (price : ℕ → Option ℕ) → Priced price days.first days.count table.now
        → (result
        ≡ answer 1 (accept (run_lines (price_runs price days.first days.count))) (length report.old))
        × (report.new
        ≡ buffer (accept (run_lines (price_runs price days.first days.count))) report.old) }
{
    let mut held = [0u8; MOST_REPORT];
    let n = write_runs(table, days, &mut held);
    if report.len() < n {
        return Err(Refusal {
            number: ROOM_REFUSAL,
            line: 0,
        });
    }
    report[..n].copy_from_slice(&held[..n]);
    Ok(n)
}

// Why no day is told or reported, whatever the model, where a day, date or month is refused: the terms, which are read for
// no day, are refused first.
fn refuse_day(terms: &[u8]) -> Refusal
    ensures { result ≡ unless_refused (terms_of terms.now) }
{
    let none = Days { first: 0, count: 0 };
    match terms::scan_terms(terms, 0, none) {
        Ok(_) => NO_DAY,
        Err(refusal) => refusal,
    }
}

// The price of a day, by what is kept of the term that rules on it.
fn price_kept(kept: Option<Entry>) -> Option<Price>
    ensures { result ≡ price_kept kept }
{
    let Entry { line, cents, .. } = kept?;
    Some(Price { cents, line })
}

// The price of a model on a day in range: the terms are read for that day alone.
fn price_within(terms: &[u8], model: u32, day: u32) -> Result<Option<Price>, Refusal>
    requires { day ≤ last_day }
    ensures { result ≡ told_price (term_on terms.now model (accept day)) }
{
    let scanned = terms::scan_terms(
        terms,
        model,
        Days {
            first: day,
            count: 1,
        },
    )?;
    Ok(price_kept(scanned.table[0]))
}

// The price of a model on a day.
pub fn price_on_day(terms: &[u8], model: u32, day: u32) -> Result<Option<Price>, Refusal>
    ensures { result ≡ price_on_day terms.now model day }
{
    if LAST_DAY < day {
        return Err(refuse_day(terms));
    }
    price_within(terms, model, day)
}

// The price of a model on a date.
pub fn price_on_date(
    terms: &[u8],
    model: u32,
    year: u32,
    month: u32,
    day: u32,
) -> Result<Option<Price>, Refusal>
    ensures { result ≡ price_on_date terms.now model year month day }
{
    match calendar::day_of_date(year, month, day) {
        Ok(n) => price_within(terms, model, n),
        Err(_) => Err(refuse_day(terms)),
    }
}

// The report of some days.
fn report_days(terms: &[u8], model: u32, days: Days, report: &mut [u8]) -> Result<usize, Refusal>
    requires { days.first + days.count ≤ last_day + 1 }
    ensures { (result ≡ answer 1 (days_report terms.now model (accept (days_from days.first days.count)))
        (length report.old))
        × (report.new ≡ buffer (days_report terms.now model (accept (days_from days.first days.count)))
        report.old) }
{
    let scanned = terms::scan_terms(terms, model, days)?;
    write_report(&scanned.table, days, report)
}

// The report of a model and a month.
pub fn report_prices(
    terms: &[u8],
    model: u32,
    year: u32,
    month: u32,
    report: &mut [u8],
) -> Result<usize, Refusal>
    ensures { (result ≡ answer 1 (price_report terms.now model year month)
        (length report.old))
        × (report.new ≡ buffer (price_report terms.now model year month)
        report.old) }
{
    let most = calendar::days_in(year, month);
    let Ok(first) = calendar::day_of_date(year, month, 1) else {
        return Err(refuse_day(terms));
    };
    let Ok(last) = calendar::day_of_date(year, month, most) else {
        return Err(refuse_day(terms));
    };
    let count = (last + 1 - first) as usize;
    report_days(terms, model, Days { first, count }, report)
}
