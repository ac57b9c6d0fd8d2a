ghost use Rattle.std.specs.Prelude.{◌≡◌, ◌≤◌, ◌<◌, ◌+◌, ℤ, IsTrue, Some, IfSome};
ghost use Rattle.jiff.specs.Words.{epoch_day};
ghost use Rattle.values.specs.Values.{checked};
ghost use Rattle.label.specs.Days.{is_day, is_business_day, date_of, year_of_day, dated_day, day_text, parsed_day, is_day_form};

use crate::digits::{digit, two_digits};
use jiff::civil::Date;
use std::marker::Model;
use values::are_digits;

/// A day of the proleptic Gregorian calendar, from 1951-01-01 to 2249-12-31.
///
/// Contracts see the day number: days since 1970-01-01, negative before it.
#[derive(Clone, Copy, PartialEq, Eq, PartialOrd, Ord, Debug)]
pub struct Day {
    number: i32,
}

impl Model for Day {
    ghost use Rattle.std.specs.Prelude.{ℤ, IsTrue};
    ghost use Rattle.label.specs.Days.{is_day};

    ghost Value = { ℤ };

    ghost view = { λ v. v.number };

    ghost invariant = { λ v. IsTrue (is_day v.number) };

    ghost inverse = { λ n. record { number = n } };
}

/// A day that books may stand at, from 2000-01-01 to 2199-12-31.
///
/// Contracts see the day number, as for `Day`.
#[derive(Clone, Copy, PartialEq, Eq, PartialOrd, Ord, Debug)]
pub struct BusinessDay {
    number: i32,
}

impl Model for BusinessDay {
    ghost use Rattle.std.specs.Prelude.{ℤ, IsTrue};
    ghost use Rattle.label.specs.Days.{is_business_day};

    ghost Value = { ℤ };

    ghost view = { λ v. v.number };

    ghost invariant = { λ v. IsTrue (is_business_day v.number) };

    ghost inverse = { λ n. record { number = n } };
}

/// The year, the month and the day of the month.
#[derive(Clone, Copy)]
pub(crate) struct DateParts {
    pub year: u32,
    pub month: u32,
    pub day: u32,
}

impl Day {
    /// The day with this number, if it lies from 1951-01-01 to 2249-12-31.
    pub fn new(number: i64) -> Option<Day>
        ensures { result ≡ checked is_day number }
    {
        if -6940 <= number && number <= 102_267 {
            Some(Day {
                number: number as i32,
            })
        } else {
            None
        }
    }

    /// The day number: days since 1970-01-01.
    pub fn number(self) -> i32
        ensures value { result ≡ self }
        ensures range { IsTrue (is_day result) }
    {
        self.number
    }

    /// The day of a date, if the calendar has it and it lies from 1951-01-01 to 2249-12-31.
    pub(crate) fn from_date(year: u32, month: u32, day: u32) -> Option<Day>
        ensures { result ≡ dated_day year month day }
    {
        if year > 9999 || month > 12 || day > 31 {
            return None;
        }
        match Date::new(year as i16, month as i8, day as i8) {
            Ok(date) => Day::new(date.to_plain().to_unix_epoch_day() as i64),
            Err(_) => None,
        }
    }

    /// True exactly for the days from 2000-01-01 to 2199-12-31.
    pub fn is_business(self) -> bool
        ensures { result ≡ is_business_day self }
    {
        10_957 <= self.number && self.number <= 84_005
    }

    /// The day that a text `YYYY-MM-DD` names, if it names one from 1951-01-01 to 2249-12-31.
    pub fn parse(text: &[u8]) -> Option<Day>
        ensures value { result ≡ parsed_day text.now }
        ensures written { IfSome result (λ day. day_text day ≡ text.now) }
        ensures every { (day : ℤ) → IsTrue (is_day day) → text.now ≡ day_text day → result ≡ Some day }
    {
        if !has_day_form(text) {
            return None;
        }
        let year = 100 * two_digits(text, 0) + two_digits(text, 2);
        Day::from_date(year, two_digits(text, 5), two_digits(text, 8))
    }

    /// The day as `YYYY-MM-DD`.
    pub fn text(self) -> [u8; 10]
        ensures { result ≡ day_text self }
    {
        let DateParts { year, month, day } = self.date();
        [
            digit(year / 1000),
            digit(year / 100),
            digit(year / 10),
            digit(year),
            b'-',
            digit(month / 10),
            digit(month),
            b'-',
            digit(day / 10),
            digit(day),
        ]
    }

    /// The year, from 1951 to 2249.
    pub(crate) fn year(self) -> u32
        ensures value { result ≡ year_of_day self }
        ensures bound { result ≤ 2249 }
    {
        self.date().year
    }

    pub(crate) fn date(self) -> DateParts
        ensures year { result.year ≡ (date_of self).year }
        ensures month { result.month ≡ (date_of self).month }
        ensures day { result.day ≡ (date_of self).day }
        ensures in_range { result.year ≤ 2249 }
    {
        let date = self.civil().to_plain();
        DateParts {
            year: date.year as u32,
            month: u32::from(date.month),
            day: u32::from(date.day),
        }
    }

    fn civil(self) -> Date
        ensures value { epoch_day result ≡ self }
        ensures range { IsTrue (is_day self) }
    {
        let epoch = jiff::civil::date(1970, 1, 1).to_plain();
        match epoch.checked_add(self.number as i64) {
            Ok(plain) => Date::from_plain(plain),
            Err(_) => jiff::civil::date(1970, 1, 1),
        }
    }
}

impl BusinessDay {
    /// The business day, if the day is one: from 2000-01-01 to 2199-12-31.
    pub fn new(day: Day) -> Option<BusinessDay>
        ensures { result ≡ checked is_business_day day }
    {
        if day.is_business() {
            Some(BusinessDay { number: day.number })
        } else {
            None
        }
    }

    /// The business day as a day.
    pub fn day(self) -> Day
        ensures value { result ≡ self }
        ensures business { IsTrue (is_business_day result) }
    {
        Day {
            number: self.number,
        }
    }
}

// Ten bytes: four digits, a dash, two digits, a dash, two digits.
fn has_day_form(text: &[u8]) -> bool
    ensures { result ≡ is_day_form text.now }
{
    if text.len() != 10 {
        return false;
    }
    let dashes = text[4] == b'-' && text[7] == b'-';
    let digits = are_digits(&text[..4]) && are_digits(&text[5..7]) && are_digits(&text[8..]);
    dashes && digits
}
