// The Gregorian calendar (document 02, §11): the day of a date, the date of a day.
#![tactic(auto)]

ghost use Rattle.std.specs.Prelude.{◌≡◌, ◌-◌, ◌≤◌, ◌<◌};
ghost use Rattle.prices.specs.Calendar.{last_day, months, is_leap, days_in, day_answer, date_answer};
ghost use Rattle.prices.specs.Numbering.{year_start, month_start};
ghost use Rattle.calendar.specs.Found.{most_years, common_year, year_like, YearOf, MonthOf};

use language::Refusal;
use prices::Date;

// The refusal of a day or date that is not in the calendar or range, the last day of the range, the years of its first and
// last day, and the months of a year.
const NO_DATE: Refusal = Refusal {
    number: 24,
    line: 0,
};

const LAST_DAY: u32 = 65535;

const FIRST_YEAR: u32 = 2000;

const LAST_YEAR: u32 = 2179;

const MONTHS: u32 = 12;

// Whether a year is a leap year.
#[tactic(auto, unfolding(prices::specs::Calendar::is_leap))]
fn is_leap(year: u32) -> bool
    ensures { result ≡ is_leap year }
{
    year % 400 == 0 || (year % 100 != 0 && year % 4 == 0)
}

// The number of days of a month.
#[tactic(auto, unfolding(prices::specs::Calendar::days_in))]
pub fn days_in(year: u32, month: u32) -> u32
    ensures { result ≡ days_in year month }
{
    match month {
        2 if is_leap(year) => 29,
        2 => 28,
        4 | 6 | 9 | 11 => 30,
        _ => 31,
    }
}

// The number of days of the first y years from 2000 on: 365 for each, one more for every fourth, beginning with 2000, and
// one fewer if 2100 is among them, which is not a leap year.
fn year_start(y: u32) -> u32
    requires { y ≤ most_years }
    ensures { result ≡ year_start y }
{
    let days = 365 * y + (y + 3) / 4;
    if 100 < y { days - 1 } else { days }
}

// The number of days before a month in a year that is not a leap year. If February had 30 days, the months would begin
// where 367 days shared out evenly among twelve months put them; it has 2 fewer, so later months begin 2 days earlier.
fn days_before(month: u32) -> u32
    requires { (1 ≤ month) × (month ≤ months) }
    ensures { result ≡ month_start common_year (month - 1) }
{
    let days = (367 * month - 362) / 12;
    if month < 3 { days } else { days - 2 }
}

// The number of days before a month in its year. In a leap year it is one more from March on.
fn month_start(leap: bool, month: u32) -> u32
    requires { (1 ≤ month) × (month ≤ months) }
    ensures { result ≡ month_start (year_like leap) (month - 1) }
{
    let days = days_before(month);
    if leap && 3 <= month { days + 1 } else { days }
}

// The day of a date. A date is refused that is not in the calendar or whose day is not in range.
pub fn day_of_date(year: u32, month: u32, day: u32) -> Result<u32, Refusal>
    ensures { result ≡ day_answer year month day }
{
    if month == 0 || MONTHS < month || day == 0 || days_in(year, month) < day {
        return Err(NO_DATE);
    }
    if year < FIRST_YEAR || LAST_YEAR < year {
        return Err(NO_DATE);
    }
    let n = year_start(year - FIRST_YEAR) + month_start(is_leap(year), month) + (day - 1);
    if LAST_DAY < n {
        return Err(NO_DATE);
    }
    Ok(n)
}

// The year of a day, counted from 2000. Four years have 1,461 days, or one fewer where a century ends among them, so it is
// year 4 · day / 1461 or the next.
fn find_year(day: u32) -> u32
    requires { day ≤ last_day }
    ensures { YearOf day result }
{
    let y = 4 * day / 1461;
    if day < year_start(y + 1) { y } else { y + 1 }
}

// The month of the day that `rest` days of its year precede. A month has fewer than 32 days, and about 30 on average, so it
// is the month after the first rest / 32 months or the next.
fn find_month(leap: bool, rest: u32) -> u32
    requires { rest < month_start (year_like leap) months }
    ensures { MonthOf (year_like leap) rest result }
{
    let month = rest / 32 + 1;
    if month < MONTHS && month_start(leap, month + 1) <= rest {
        month + 1
    } else {
        month
    }
}

// The date of a day. A day is refused that is not in range.
pub fn date_of_day(day: u32) -> Result<Date, Refusal>
    ensures { result ≡ date_answer day }
{
    if LAST_DAY < day {
        return Err(NO_DATE);
    }
    let y = find_year(day);
    let rest = day - year_start(y);
    let year = FIRST_YEAR + y;
    let leap = is_leap(year);
    let month = find_month(leap, rest);
    let day = rest - month_start(leap, month) + 1;
    Ok(Date { year, month, day })
}
