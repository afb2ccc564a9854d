// The calendar, prices and their reports under their C names.
ghost use Rattle.std.specs.Prelude.{◌≡◌, length};
ghost use Rattle.language.specs.Filling.{answer, buffer};
ghost use Rattle.prices.specs.Calendar.{day_answer, date_answer};
ghost use Rattle.prices.specs.Prices.{price_on_day, price_on_date};
ghost use Rattle.prices.specs.Reports.{price_report};
ghost use Rattle.packing.specs.Packed.{packed, packed_day, packed_date, year_after, month_after};
ghost use Rattle.packing.specs.Packed.{day_after, TellsPrice};

use telling::price_terms::{tell_date, tell_price};
use telling::words::pack;

// The number of the day that has a date.
#[unsafe(no_mangle)]
pub extern "C" fn fickle_day_of_date(year: u32, month: u32, day: u32) -> u64
    ensures { result ≡ packed_day (day_answer year month day) }
{
    pack(calendar::day_of_date(year, month, day).map(u64::from))
}

// The date of a day. A refusal leaves the three numbers as they were.
#[unsafe(no_mangle)]
pub extern "C" fn fickle_date_of_day(
    day: u32,
    year: &mut u32,
    month: &mut u32,
    of_month: &mut u32,
) -> u64
    ensures value { result ≡ packed_date (date_answer day) }
    ensures year_after { year.new ≡ year_after (date_answer day) year.old }
    ensures month_after { month.new ≡ month_after (date_answer day) month.old }
    ensures of_month_after { of_month.new ≡ day_after (date_answer day) of_month.old }
{
    tell_date(calendar::date_of_day(day), year, month, of_month)
}

// The price of a model on a day, and the line of its term. Both stay as they were where there is none.
#[unsafe(no_mangle)]
pub extern "C" fn fickle_price_on_day(
    terms: &[u8],
    model: u32,
    day: u32,
    cents: &mut u32,
    line: &mut u32,
) -> u64
    ensures { TellsPrice (price_on_day terms.now model day) result cents.old
        cents.new line.old line.new }
{
    tell_price(pricing::price_on_day(terms, model, day), cents, line)
}

// The price of a model on a date, returned in the same way.
#[unsafe(no_mangle)]
pub extern "C" fn fickle_price_on_date(
    terms: &[u8],
    model: u32,
    year: u32,
    month: u32,
    day: u32,
    cents: &mut u32,
    line: &mut u32,
) -> u64
    ensures { TellsPrice (price_on_date terms.now model year month day) result
        cents.old
        cents.new line.old line.new }
{
    tell_price(
        pricing::price_on_date(terms, model, year, month, day),
        cents,
        line,
    )
}

// The report of a model's prices in a month.
#[unsafe(no_mangle)]
pub extern "C" fn fickle_report_prices(
    terms: &[u8],
    model: u32,
    year: u32,
    month: u32,
    report: &mut [u8],
) -> u64
    ensures value { result ≡ packed (answer 1 (price_report terms.now model year month)
        (length report.old)) }
    ensures report_after { report.new ≡ buffer (price_report terms.now model year month)
        report.old }
{
    pack(pricing::report_prices(terms, model, year, month, report).map(|n| n as u64))
}
