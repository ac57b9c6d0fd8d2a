//! How many statements an act runs, and stock that is shown: a change that brings statements back changes a number here. Which
//! they are is told by docs/BOOKS.md ("One act", "What `Books` keeps in memory").

use crate::acting::acts_of;
use crate::books::{Trial, act, in_memory};
use crate::counting::Counts;
use sqlite::Alter;
use std::alloc::Global;
use std::process::Abort;
use store::Books;
use values::Gtin;

/// An act about each of some numbers, and how many statements each such act runs.
#[derive(Clone, Copy)]
struct Case {
    /// Its key and its command, with bars between the fields. The GTIN of an item stands at each `#`, the number at each `~`,
    /// and the lines of an order for five of each item at `@`.
    act: &'static str,
    /// From the first number up to the last.
    numbers: (u64, u64),
    reads: u64,
    writes: u64,
}

/// How many items there are, and lines of the order.
const ITEMS: u64 = 20;

// What is done before, of which nothing is counted.
static BEFORE: [(&str, u64); 3] = [
    ("K/B-1|BIN|A-01|STORE", 1),
    ("K/I-~|ITEM|#|Oat drink", ITEMS),
    ("D/D-1/1~|RECEIVE|#|L-1|2026-06-30|A-01|10", ITEMS),
];

// Each act looks its key up, and writes the row of the books and its key's row. All else that is read is known from then on.
static CASES: [Case; 6] = [
    // A receipt of a lot that is there. Beside the three: the stock and the card.
    Case {
        act: "D/D-2/1|RECEIVE|#|L-1|2026-06-30|A-01|10",
        numbers: (0, 1),
        reads: 1,
        writes: 4,
    },
    // One of a new lot. The lot is sought, and it is written too.
    Case {
        act: "D/D-2/2|RECEIVE|#|L-2|2026-07-31|A-01|10",
        numbers: (0, 1),
        reads: 2,
        writes: 5,
    },
    // An order of twenty lines. Sought are its lines: it has none, so there is no such order. All that is urgent is known.
    // Written are the order, and twenty lines and twenty reservations, five a statement.
    Case {
        act: "K/O-1|ORDER|O-1|Corner Shop@",
        numbers: (0, 1),
        reads: 2,
        writes: 11,
    },
    // The first pick for it. Sought is all that is reserved: all that is staged is known, and the line is among those of the
    // order. Written are the stock, the stage and what is reserved.
    Case {
        act: "K/P-~|PICK|O-1|#|L-1|A-01|5",
        numbers: (0, 1),
        reads: 2,
        writes: 5,
    },
    // The other picks. All that they seek beside their keys is known.
    Case {
        act: "K/P-~|PICK|O-1|#|L-1|A-01|5",
        numbers: (1, ITEMS),
        reads: 1,
        writes: 5,
    },
    // The shipment of the twenty lines. The stage is emptied by one statement, and one fills the lines; written are the order,
    // the shipment, and twenty lines of it and twenty of cards, five a statement.
    Case {
        act: "K/S-1|SHIP|O-1",
        numbers: (0, 1),
        reads: 1,
        writes: 14,
    },
];

// Orders that stay open, with a line of the first item.
static OPEN: (&str, u64) = ("K/R-~|ORDER|R-~|Corner Shop|09506000130002|1", 3);

// A row of a goods-in file that is not taken, since nobody took its item into the range.
const NOT_TAKEN: &str = "D/D-4/1|RECEIVE|04012345000016|L-1|2026-06-30|A-01|10";

// A receipt where no row is known. Beside its key are sought the open orders; of each of the three its lines; all that is urgent;
// all that is staged; the item, what it asks for, its recalls, its stock and its two lots; and the bin. The orders and their
// lines for the item were read with the open orders; the row of the books is read by its number.
static FIRST: Case = Case {
    act: "D/D-5/1|RECEIVE|#|L-1|2026-06-30|A-01|10",
    numbers: (0, 1),
    reads: 14,
    writes: 4,
};

// The GTIN of an item: ten digits, its number of three, and the check digit.
fn gtin(rt: &impl Abort, alloc: Global, number: u64) -> String {
    let (hundreds, tens, ones) = (number / 100 % 10, number / 10 % 10, number % 10);
    let check = (10 - (48 + 3 * hundreds + tens + 3 * ones) % 10) % 10;
    let text = format!(in alloc; "0950600013{hundreds}{tens}{ones}{check}");
    text.ok().expect(rt, "memory")
}

fn replaced(rt: &impl Abort, alloc: Global, text: &str, mark: char, by: &str) -> String {
    text.replace(alloc, mark, by).ok().expect(rt, "memory")
}

// The lines of an order for five of each item.
fn order_lines(rt: &impl Abort, alloc: Global) -> String {
    let mut lines = String::new(alloc);
    for number in 0..ITEMS {
        let line = format!(in alloc; "|{}|5", gtin(rt, alloc, number).as_str());
        assert!(rt;
            lines
                .push_str(line.ok().expect(rt, "memory").as_str())
                .is_ok()
        );
    }
    lines
}

// The line of an act about a number, behind a number and a day.
fn line(rt: &impl Abort, alloc: Global, written: &str, number: u64) -> String {
    let digits = format!(in alloc; "{number:03}").ok().expect(rt, "memory");
    let text = replaced(rt, alloc, written, '@', order_lines(rt, alloc).as_str());
    let text = replaced(
        rt,
        alloc,
        text.as_str(),
        '#',
        gtin(rt, alloc, number).as_str(),
    );
    let text = replaced(rt, alloc, text.as_str(), '~', digits.as_str());
    let text = replaced(rt, alloc, text.as_str(), '|', "\t");
    let line = format!(in alloc; "1\t2026-05-04\t{}", text.as_str());
    line.ok().expect(rt, "memory")
}

fn done<S: Alter>(
    rt: &impl Abort,
    alloc: Global,
    books: &mut Books<S>,
    written: &str,
    number: u64,
) {
    let line = line(rt, alloc, written, number);
    act(rt, alloc, books, line.as_bytes());
}

// An act about each of so many numbers.
fn all_done<S: Alter>(
    rt: &impl Abort,
    alloc: Global,
    books: &mut Books<S>,
    written: &str,
    count: u64,
) {
    for number in 0..count {
        done(rt, alloc, books, written, number);
    }
}

// Each act of a case runs so many statements.
fn is_case<S: Alter>(
    rt: &impl Abort,
    alloc: Global,
    books: &mut Books<S>,
    counts: &Counts,
    case: &Case,
) {
    let (first, last) = case.numbers;
    for number in first..last {
        done(rt, alloc, books, case.act, number);
        let found = counts.take();
        assert!(rt;
            found == (case.reads, case.writes),
            "{:?}: {found:?}",
            case.act
        );
    }
}

// The stock of the item of a number is shown by so many statements, all of which read.
fn is_shown_by<S: Alter>(
    rt: &impl Abort,
    alloc: Global,
    books: &mut Books<S>,
    counts: &Counts,
    number: u64,
    reads: u64,
) {
    let item = Gtin::new(gtin(rt, alloc, number).as_bytes())
        .ok()
        .expect(rt, "a GTIN");
    let view = books.stock(&item).ok().expect(rt, "stock");
    drop(view);
    let found = counts.take();
    assert!(rt; found == (reads, 0), "shown: {found:?}");
}

// No row is known after a goods-in file that is not taken.
fn forgets<S: Alter>(rt: &impl Abort, alloc: Global, books: &mut Books<S>) {
    let text = line(rt, alloc, NOT_TAKEN, 0);
    let rows = acts_of(rt, alloc, text.as_bytes());
    assert!(rt; rows.len() <= 1000);
    assert!(rt; books.act_all(rows.as_slice()).is_err());
    drop(rows);
}

// The first act over open orders.
fn is_first<S: Alter>(rt: &impl Abort, alloc: Global, books: &mut Books<S>, counts: &Counts) {
    let (written, count) = OPEN;
    all_done(rt, alloc, books, written, count);
    forgets(rt, alloc, books);
    counts.take();
    is_case(rt, alloc, books, counts, &FIRST);
}

// Each case is so.
fn are_cases<S: Alter>(rt: &impl Abort, alloc: Global, books: &mut Books<S>, counts: &Counts) {
    for case in CASES.as_slice() {
        is_case(rt, alloc, books, counts, case);
    }
}

/// The acts and the stock that is shown run as many statements as they say.
pub(crate) fn are_counted<S: Alter>(
    rt: &impl Abort,
    alloc: Global,
    books: &mut Books<S>,
    counts: &Counts,
) {
    for (written, count) in BEFORE.as_slice() {
        all_done(rt, alloc, books, *written, *count);
    }
    counts.take();
    are_cases(rt, alloc, books, counts);
    // All lots of the item. All else of it is known, and then these too. So it is of another item.
    is_shown_by(rt, alloc, books, counts, 0, 1);
    is_shown_by(rt, alloc, books, counts, 0, 0);
    is_shown_by(rt, alloc, books, counts, 1, 1);
    is_first(rt, alloc, books, counts);
}

#[test]
fn an_act_runs_so_many_statements(rt: HostRuntime) {
    in_memory(&rt, rt.alloc(), Trial::Counted);
}
