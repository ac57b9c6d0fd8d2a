//! How a lot stands on a business day, and whether it may be shipped.

ghost use Rattle.std.specs.Prelude.{◌≡◌, ◌≤◌, not, ◌&&◌, pos, ◌+ℤ◌};
ghost use Rattle.values.specs.Values.{LEAST_DAYS_MAX};
ghost use Rattle.machine.specs.Standing.{is_expired as is_expired_lem, is_short_dated as is_short_dated_lem};
ghost use Rattle.row_rules.specs.Status.{status_seen, may_ship as may_ship_lem, is_past_row, is_below_row, days_in, least_seen, earliest_seen};

use crate::row_search::{find_row, has_row};
use commands::{LeastRow, LotRow, LotStatus, RecallRow};
use label::{BusinessDay, Day};
use values::Gtin;

/// How the lot stands, where its item asks for so many days. A recalled lot may be held too, and
/// either may be expired.
pub fn lot_status(day: BusinessDay, days: u16, recalls: &[RecallRow], lot: &LotRow) -> LotStatus
    requires { days ≤ LEAST_DAYS_MAX }
    ensures { result ≡ status_seen day days recalls.now lot.now }
{
    if has_row(recalls, &lot.lot) {
        LotStatus::Recalled
    } else if lot.held {
        LotStatus::Held
    } else if is_expired(day.day(), lot.expiry) {
        LotStatus::Expired
    } else if is_short_dated(day, days, lot.expiry) {
        LotStatus::ShortDated
    } else {
        LotStatus::Free
    }
}

/// How many days the rows ask for an item.
pub fn least_days(rows: &[LeastRow], gtin: &Gtin) -> u16
    ensures value { result ≡ least_seen rows.now gtin.now }
    ensures limit { result ≤ LEAST_DAYS_MAX }
{
    days_of(find_row(rows, gtin))
}

fn days_of(row: Option<LeastRow>) -> u16
    ensures value { result ≡ days_in row }
    ensures limit { result ≤ LEAST_DAYS_MAX }
{
    match row {
        None => 0,
        Some(row) => row.days.days(),
    }
}

/// The earliest expiry that a lot of the item must have on the day.
pub fn earliest(day: BusinessDay, rows: &[LeastRow], gtin: &Gtin) -> Day
    ensures { result ≡ earliest_seen day rows.now gtin.now }
{
    earliest_of(day, find_row(rows, gtin))
}

/// The same where this is the row of the item.
pub fn earliest_of(day: BusinessDay, row: Option<LeastRow>) -> Day
    ensures { result ≡ day +ℤ pos (days_in row) }
{
    later(day, days_of(row))
}

// The day so many days later. That of the last business day is a day still.
fn later(day: BusinessDay, days: u16) -> Day
    requires { days ≤ LEAST_DAYS_MAX }
    ensures { result ≡ day +ℤ pos days }
{
    Day::new(i64::from(day.day().number()) + i64::from(days)).unwrap()
}

/// Whether the lot may be shipped, where this is the earliest expiry that ships: it is neither
/// recalled nor held, and expires no earlier.
pub fn may_ship(earliest: Day, recalls: &[RecallRow], lot: &LotRow) -> bool
    ensures { result ≡ may_ship_lem earliest recalls.now lot.now }
{
    is_shippable(earliest, has_row(recalls, &lot.lot), lot)
}

/// The same where it is known whether the lot is recalled.
pub fn is_shippable(earliest: Day, recalled: bool, lot: &LotRow) -> bool
    ensures { result ≡ not recalled && not lot.now.held && not (is_expired_lem earliest lot.now.expiry) }
{
    let early = is_expired(earliest, lot.expiry);
    !recalled && !lot.held && !early
}

/// Whether what expires on a day is expired. On that day itself it is not.
pub fn is_expired(day: Day, expiry: Day) -> bool
    ensures { result ≡ is_expired_lem day expiry }
{
    expiry.number() < day.number()
}

// Whether what expires on a day has fewer days left, though it is not expired.
fn is_short_dated(day: BusinessDay, days: u16, expiry: Day) -> bool
    requires { days ≤ LEAST_DAYS_MAX }
    ensures { result ≡ is_short_dated_lem day days expiry }
{
    let expired = is_expired(day.day(), expiry);
    let early = is_expired(later(day, days), expiry);
    !expired && early
}

/// Whether there is a row of the lot, and it is expired on the day.
pub fn is_past(row: Option<LotRow>, day: Day) -> bool
    ensures { result ≡ is_past_row row day }
{
    match row {
        None => false,
        Some(k) => is_expired(day, k.expiry),
    }
}

/// Whether there is a row of the lot, and it has fewer days left, though it is not expired.
pub fn is_below(row: Option<LotRow>, day: BusinessDay, days: u16) -> bool
    requires { days ≤ LEAST_DAYS_MAX }
    ensures { result ≡ is_below_row row day days }
{
    match row {
        None => false,
        Some(k) => is_short_dated(day, days, k.expiry),
    }
}
