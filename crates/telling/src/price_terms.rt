// The calendar, and prices.
ghost use Rattle.std.specs.Prelude.{◌≡◌};
ghost use Rattle.packing.specs.Packed.{packed_date, year_after, month_after, day_after, TellsPrice};

use super::words::pack;
use language::Refusal;
use prices::{Date, Price};

// Stores the date of a day where there is one, and returns the answer as one number.
pub fn tell_date(
    date: Result<Date, Refusal>,
    year: &mut u32,
    month: &mut u32,
    of_month: &mut u32,
) -> u64
    ensures value { result ≡ packed_date date }
    ensures year_after { year.new ≡ year_after date year.old }
    ensures month_after { month.new ≡ month_after date month.old }
    ensures of_month_after { of_month.new ≡ day_after date of_month.old }
{
    if let Ok(d) = date {
        *year = d.year;
        *month = d.month;
        *of_month = d.day;
    }
    pack(date.map(|_| 0))
}

// The number that is returned of a price: whether there is one.
const PRICED: u64 = 1;

const UNPRICED: u64 = 0;

// Stores a price where there is one, and returns the answer as one number.
pub fn tell_price(price: Result<Option<Price>, Refusal>, cents: &mut u32, line: &mut u32) -> u64
    ensures { TellsPrice price result cents.old cents.new line.old
        line.new }
{
    if let Ok(Some(p)) = price {
        *cents = p.cents;
        *line = p.line;
    }
    pack(price.map(|p| if p.is_some() { PRICED } else { UNPRICED }))
}
