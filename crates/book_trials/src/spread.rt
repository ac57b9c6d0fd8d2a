//! Exchanges about many items, or many numbers, at once.

use crate::exchange::answers_line;
use house::House;
use sqlite::Alter;
use std::alloc::Global;

/// An exchange about many: at `@` stands what is written of each number, with a mark between each two.
#[derive(Clone, Copy)]
pub struct Spread {
    pub line: &'static str,
    /// What is written of a number: the GTIN of an item stands at each `#`, and the number itself, of at least three digits, at
    /// each `~`.
    pub written: &'static str,
    pub between: &'static str,
    /// How many numbers there are, from 0 on.
    pub count: u64,
}

// The GTIN of a number: ten digits, the last three of the number, and the check digit.
fn gtin(alloc: Global, number: u64) -> Option<String> {
    let (hundreds, tens, ones) = (number / 100 % 10, number / 10 % 10, number % 10);
    let check = (10 - (48 + 3 * hundreds + tens + 3 * ones) % 10) % 10;
    let text = format!(in alloc; "0950600013{hundreds}{tens}{ones}{check}");
    text.ok()
}

// What is written of a number.
fn of_number(alloc: Global, written: &str, number: u64) -> Option<String> {
    let item = gtin(alloc, number)?;
    let text = written.replace(alloc, '#', item.as_str()).ok()?;
    let digits = format!(in alloc; "{number:03}").ok()?;
    text.as_str().replace(alloc, '~', digits.as_str()).ok()
}

/// What is written of so many numbers, with a mark between each two.
pub fn of_numbers(alloc: Global, written: &str, between: &str, count: u64) -> Option<String> {
    let mut all = String::new(alloc);
    for number in 0..count {
        if number != 0 {
            all.push_str(between).ok()?;
        }
        let one = of_number(alloc, written, number)?;
        all.push_str(one.as_str()).ok()?;
    }
    Some(all)
}

/// The line of the exchange.
pub fn line_of(alloc: Global, row: &Spread) -> Option<String> {
    let all = of_numbers(alloc, row.written, row.between, row.count)?;
    row.line.replace(alloc, '@', all.as_str()).ok()
}

/// Whether the house answers each of so many requests, one about each number, by an act: the first has this number.
pub fn acts_on_each<S: Alter>(
    alloc: Global,
    house: &mut House<S>,
    written: &str,
    count: u64,
    first: u64,
) -> bool {
    let mut is_so = true;
    for number in 0..count {
        is_so = acts_on(alloc, house, written, number, first.saturating_add(number)) && is_so;
    }
    is_so
}

fn acts_on<S: Alter>(
    alloc: Global,
    house: &mut House<S>,
    written: &str,
    number: u64,
    act: u64,
) -> bool {
    match of_act(alloc, written, number, act) {
        Some(line) => answers_line(alloc, house, line.as_str()),
        None => false,
    }
}

/// What is written of a number and of an act, whose number stands at each `^`.
pub fn of_act(alloc: Global, written: &str, number: u64, act: u64) -> Option<String> {
    let text = of_number(alloc, written, number)?;
    let act = format!(in alloc; "{act}").ok()?;
    text.as_str().replace(alloc, '^', act.as_str()).ok()
}
