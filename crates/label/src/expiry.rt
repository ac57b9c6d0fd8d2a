ghost use Rattle.std.specs.Prelude.{◌≡◌, ◌≤◌, ◌↔◌, ℤ, pos, IsTrue, Ok};
ghost use Rattle.jiff.specs.Words.{days_in_month};
ghost use Rattle.label.specs.Days.{is_business_day, is_day, dated_day};
ghost use Rattle.label.specs.Expiry.{full_year as full_year_lem, day_in_month, expiry_read, expiry_text, IsExpiry};

use crate::Day;
use crate::day::DateParts;
use crate::digits::{digit, two_digits};
use jiff::civil::Date;
use values::{LabelFault, are_digits};

/// The expiry day that the digits YYMMDD name on a business day, by the data of Application Identifier (17) in the
/// GS1 General Specifications: the year lies from 49 years before to 50 years after that of `today`, and DD 00 is the
/// last day of the month.
///
/// The first of these faults: `CutShort` unless there are six bytes, `NotADigit`, `NoSuchDate`.
#[tactic(auto, unfolding(crate::specs::Expiry::expiry_read))]
pub fn expiry_of(yymmdd: &[u8], today: Day) -> Result<Day, LabelFault>
    requires { IsTrue (is_business_day today) }
    ensures value { result ≡ expiry_read today yymmdd.now }
    ensures rule { (expiry : ℤ) → (result ≡ Ok expiry) ↔ IsExpiry today yymmdd.now expiry }
{
    if yymmdd.len() != 6 {
        return Err(LabelFault::CutShort);
    }
    if !are_digits(yymmdd) {
        return Err(LabelFault::NotADigit);
    }
    let year = full_year(today.year(), two_digits(yymmdd, 0));
    let day = day_of_month(year, two_digits(yymmdd, 2), two_digits(yymmdd, 4));
    day.ok_or(LabelFault::NoSuchDate)
}

/// The day as YYMMDD, with the day of the month even where it is the last.
pub(crate) fn expiry_digits(day: Day) -> [u8; 6]
    ensures text { result ≡ expiry_text day }
    ensures range { IsTrue (is_day day) }
{
    let DateParts { year, month, day } = day.date();
    [
        digit(year / 10),
        digit(year),
        digit(month / 10),
        digit(month),
        digit(day / 10),
        digit(day),
    ]
}

// The year with these last two digits from 49 years before to 50 years after the present one.
fn full_year(now: u32, last_two: u32) -> u32
    requires from { 49 ≤ now }
    requires to { now ≤ 9999 }
    requires small { last_two ≤ 9999 }
    ensures value { result ≡ full_year_lem now last_two }
    ensures bound { result ≤ 10_098 }
{
    let first = now - 49;
    first + (100 + last_two - first % 100) % 100
}

// The day of a date, where day 00 is the last of the month.
fn day_of_month(year: u32, month: u32, day: u32) -> Option<Day>
    ensures { result ≡ dated_day year month (day_in_month year month day) }
{
    if day == 0 {
        last_of_month(year, month)
    } else {
        Day::from_date(year, month, day)
    }
}

fn last_of_month(year: u32, month: u32) -> Option<Day>
    ensures { result ≡ dated_day year month (days_in_month (pos year) month) }
{
    if year > 9999 || month > 12 {
        return None;
    }
    match Date::new(year as i16, month as i8, 1) {
        Ok(first) => Day::from_date(year, month, first.days_in_month() as u32),
        Err(_) => None,
    }
}
