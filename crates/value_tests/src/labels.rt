//! Days and their numbers, and the label that is written of a lot.

ghost use Rattle.std.specs.Prelude.{IsTrue};
ghost use Rattle.label.specs.Days.{is_business_day};

use label::{BusinessDay, Day, Label, read, write};
use std::process::Abort;
use values::{Gtin, Lot};

/// 2026-05-04.
pub(crate) fn today(rt: &impl Abort) -> Day
    ensures { IsTrue (is_business_day result) }
{
    let day = Day::parse(b"2026-05-04").expect(rt, "a day");
    assert!(rt; day.is_business());
    day
}

// A day, and its number.
static NUMBERS: [(&str, i32); 6] = [
    ("1951-01-01", -6_940),
    ("1970-01-01", 0),
    ("2000-01-01", 10_957),
    ("2026-05-04", 20_577),
    ("2199-12-31", 84_005),
    ("2249-12-31", 102_267),
];

#[test]
fn numbers_days(rt: HostRuntime) {
    for row in NUMBERS.as_slice() {
        let day = Day::parse(row.0.as_bytes()).expect(&rt, "a day");
        assert!(rt; day.number() == row.1, "{}", row.0);
        assert!(rt; Day::new(row.1 as i64) == Some(day), "{}", row.0);
    }
    assert!(rt; Day::parse(b"2026-5-04").is_none());
    assert!(rt; Day::new(84_005).and_then(BusinessDay::new).is_some());
    assert!(rt; Day::new(84_006).and_then(BusinessDay::new).is_none());
}

#[test]
fn writes_a_label(rt: HostRuntime) {
    let label = Label {
        gtin: Gtin::new(b"09506000134352").ok().expect(&rt, "a GTIN"),
        lot: Lot::new(b"AB12").ok().expect(&rt, "a lot"),
        expiry: Day::parse(b"2026-09-30").expect(&rt, "a day"),
    };
    let text = write(rt.alloc(), &label).ok().expect(&rt, "memory");
    assert!(rt; text.as_slice() == b"01095060001343521726093010AB12".as_slice());
    assert!(rt; read(text.as_slice(), today(&rt)) == Ok(label));
}
