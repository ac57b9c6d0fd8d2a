//! How many rows that are known are kept: bins by their names, and all urgent orders.

use commands::{BinKind, BinRow, UrgentRow};
use rows_in_memory::{KnownRows, WEIGHT_MAX};
use std::alloc::Global;
use std::process::Abort;
use values::{Name, TextKey};

type BinsKnown = KnownRows<Name, TextKey, BinRow>;

fn numbered(rt: &impl Abort, alloc: Global, number: u64) -> Name {
    let text = format!(in alloc; "B-{number}").ok().expect(rt, "memory");
    Name::new(text.as_bytes()).expect(rt, "a name")
}

fn keep(rt: &impl Abort, alloc: Global, known: &mut BinsKnown, number: u64) {
    let name = numbered(rt, alloc, number);
    let mut own = Vec::new(alloc);
    assert!(rt;
        own.push(BinRow {
            name,
            kind: BinKind::Hold
        })
        .is_ok()
    );
    known.keep(&name, own);
}

// Lists of one row weigh two each, so 32,768 of them are at the bound of 65,536. With one more than that all are forgotten.
#[test]
fn what_is_known_has_a_bound(rt: HostRuntime) {
    let alloc = rt.alloc();
    assert!(rt; WEIGHT_MAX == 65_536);
    let mut known: BinsKnown = KnownRows::new(alloc);
    for number in 0..32_769 {
        keep(&rt, alloc, &mut known, number);
    }
    assert!(rt; known.rows_of(&numbered(&rt, alloc, 0)).is_some());
    assert!(rt; known.rows_of(&numbered(&rt, alloc, 32_768)).is_some());
    keep(&rt, alloc, &mut known, 32_769);
    assert!(rt; known.rows_of(&numbered(&rt, alloc, 0)).is_none());
    assert!(rt; known.rows_of(&numbered(&rt, alloc, 32_768)).is_none());
    assert!(rt; known.rows_of(&numbered(&rt, alloc, 32_769)).is_some());
}

type UrgentsKnown = KnownRows<Name, TextKey, UrgentRow>;

fn urgent_by(rt: &impl Abort, alloc: Global, number: u64, act: u64) -> UrgentRow {
    UrgentRow {
        order: numbered(rt, alloc, number),
        act,
    }
}

fn urgent(rt: &impl Abort, alloc: Global, number: u64) -> UrgentRow {
    urgent_by(rt, alloc, number, 1)
}

// How many rows of the order are known, if it is known which.
fn rows_of(rt: &impl Abort, alloc: Global, known: &UrgentsKnown, number: u64) -> Option<usize> {
    let rows = known.rows_of(&numbered(rt, alloc, number))?;
    Some(rows.len())
}

fn keep_all(rt: &impl Abort, alloc: Global, known: &mut UrgentsKnown, count: u64) {
    let mut rows = Vec::new(alloc);
    for number in 0..count {
        assert!(rt; rows.push(urgent(rt, alloc, number)).is_ok());
    }
    known.keep_all(rows.as_slice());
}

// Where all rows are known, an order without a list is known to have none, until it gets one, and again once that is emptied.
// Once lists are sought alone, it is not worth reading all rows.
#[test]
fn all_rows_are_known(rt: HostRuntime) {
    let alloc = rt.alloc();
    let mut known: UrgentsKnown = KnownRows::new(alloc);
    assert!(rt; known.wants_all());
    assert!(rt; rows_of(&rt, alloc, &known, 0).is_none());
    keep_all(&rt, alloc, &mut known, 2);
    assert!(rt; !known.wants_all());
    assert!(rt; rows_of(&rt, alloc, &known, 1) == Some(1));
    assert!(rt; rows_of(&rt, alloc, &known, 2) == Some(0));
    known.put(&urgent(&rt, alloc, 2));
    assert!(rt; rows_of(&rt, alloc, &known, 2) == Some(1));
    known.empty(&numbered(&rt, alloc, 2));
    assert!(rt; rows_of(&rt, alloc, &known, 2) == Some(0));
    assert!(rt; !known.wants_all());
    known.drop_row(&urgent(&rt, alloc, 1));
    assert!(rt; rows_of(&rt, alloc, &known, 1) == Some(0));
    known.forget(&numbered(&rt, alloc, 2));
    assert!(rt; known.wants_all());
    assert!(rt; rows_of(&rt, alloc, &known, 0) == Some(1));
    assert!(rt; rows_of(&rt, alloc, &known, 3).is_none());
    known.seek_alone();
    assert!(rt; !known.wants_all());
}

// 32,768 of one row each are at the bound. With one more the lists are known, and not that they have all rows. These were then
// too many, also once they are forgotten.
#[test]
fn all_rows_have_a_bound(rt: HostRuntime) {
    let alloc = rt.alloc();
    let mut known: UrgentsKnown = KnownRows::new(alloc);
    keep_all(&rt, alloc, &mut known, 32_768);
    assert!(rt; rows_of(&rt, alloc, &known, 32_768) == Some(0));
    known.put_all(&[urgent(&rt, alloc, 32_768)]);
    assert!(rt; known.wants_all());
    keep_all(&rt, alloc, &mut known, 32_769);
    assert!(rt; rows_of(&rt, alloc, &known, 32_768) == Some(1));
    assert!(rt; rows_of(&rt, alloc, &known, 32_769).is_none());
    assert!(rt; !known.wants_all());
    known.keep(&numbered(&rt, alloc, 32_769), Vec::new(alloc));
    assert!(rt; rows_of(&rt, alloc, &known, 32_768).is_none());
    assert!(rt; !known.wants_all());
}

// A list that loses its last row weighs nothing any more where all rows are known, and is kept as an empty one where they are not.
#[test]
fn lists_without_rows_go(rt: HostRuntime) {
    let alloc = rt.alloc();
    let mut known: UrgentsKnown = KnownRows::new(alloc);
    keep_all(&rt, alloc, &mut known, 2);
    assert!(rt; known.weight == 4);
    known.lose_all(&[urgent(&rt, alloc, 1)]);
    assert!(rt; known.weight == 2);
    assert!(rt; rows_of(&rt, alloc, &known, 1) == Some(0));
    known.forget(&numbered(&rt, alloc, 1));
    known.lose_all(&[urgent(&rt, alloc, 0)]);
    assert!(rt; known.weight == 1);
    assert!(rt; rows_of(&rt, alloc, &known, 0) == Some(0));
}

// The act of the order's only row, if that is known.
fn act_of(rt: &impl Abort, alloc: Global, known: &UrgentsKnown, number: u64) -> Option<u64> {
    match known.rows_of(&numbered(rt, alloc, number))? {
        [only] => Some(only.act),
        _ => None,
    }
}

// A row that is set is all that is known of its order, also where nothing was; a later one takes its place, and others stay.
#[test]
fn a_row_that_is_set_is_known(rt: HostRuntime) {
    let alloc = rt.alloc();
    let mut known: UrgentsKnown = KnownRows::new(alloc);
    known.set_all(&[urgent(&rt, alloc, 0), urgent(&rt, alloc, 1)]);
    assert!(rt; act_of(&rt, alloc, &known, 0) == Some(1));
    assert!(rt; act_of(&rt, alloc, &known, 1) == Some(1));
    assert!(rt; rows_of(&rt, alloc, &known, 2).is_none());
    known.set_all(&[urgent_by(&rt, alloc, 0, 2)]);
    assert!(rt; act_of(&rt, alloc, &known, 0) == Some(2));
    assert!(rt; act_of(&rt, alloc, &known, 1) == Some(1));
    known.set_all(&[urgent_by(&rt, alloc, 0, 3), urgent_by(&rt, alloc, 0, 4)]);
    assert!(rt; act_of(&rt, alloc, &known, 0) == Some(4));
}
