//! How often the files are read: what a request has read is not read again by the next.

use crate::deeds::{Deed, books_after, done, done_in, texts};
use book_trials::{History, Pair, Spread, line_of};
use std::process::Abort;

/// Lines about one, or about each of many: `#` is the GTIN of an item, and `~` the number.
#[derive(Clone, Copy)]
enum Asked {
    One(&'static str),
    /// A line for each.
    Each(&'static str),
    /// One line, in which each stands at `@`.
    Listed(&'static str),
}

impl Asked {
    fn written(self) -> Spread {
        match self {
            Asked::One(line) => spread_of(line, "", "", 0),
            Asked::Each(written) => spread_of("@", written, "\n", MANY),
            Asked::Listed(line) => spread_of(line, r##"{"gtin":"#","qty":1}"##, ",", MANY),
        }
    }
}

fn spread_of(
    line: &'static str,
    written: &'static str,
    between: &'static str,
    count: u64,
) -> Spread {
    Spread {
        line,
        written,
        between,
        count,
    }
}

/// Books, and a request that changes nothing: one that is refused, or a query.
#[derive(Clone, Copy)]
struct Case {
    /// What is done before it.
    before: &'static [Asked],
    asked: Asked,
    /// What its answer begins with.
    answered: &'static str,
    /// How many pages it reads the first time and not the second, at least: two for each row that is found by a key, which
    /// are those of the index and of the table, where each row stands apart.
    saved: u64,
}

/// How many there are of what is many.
const MANY: u64 = 20;

const ITEMS: Asked = Asked::Each(r##"POST /items {"key":"I-~","gtin":"#","name":"Item ~"}"##);

const ONE_LOT: Asked = Asked::One(
    r#"POST /receipts {"delivery":"D-2","line":1,"label":"01095060001343521726063010L1","bin":"A-01","qty":1}"#,
);

const MOVED: Asked = Asked::One(
    r#"POST /moves {"key":"W-2","gtin":"09506000134352","lot":"L1","from":"A-01","to":"A-02","qty":99}"#,
);

const ORDERED: Asked = Asked::Listed(
    r#"POST /orders {"key":"O-1","order":"O-1","customer":"Corner Shop","lines":[@]}"#,
);

const ORDERS_OF_ONE: &[Asked] = &[
    ONE_LOT,
    Asked::Each(
        r#"POST /orders {"key":"O-~","order":"O-~","customer":"Corner Shop","lines":[{"gtin":"09506000134352","qty":1}]}"#,
    ),
];

const REFUSED: &str = "HTTP/1.1 409";

const SHOWN: &str = "HTTP/1.1 200";

// What is known of the open orders is read by it: they, their lines, and which are urgent. It reads nothing else that the cases
// read.
static FIRST: &str = r#"POST /cancels {"key":"W-1","order":"W-1"}"#;

// Lots of an item.
static LOTS: Case = Case {
    before: &[
        ONE_LOT,
        Asked::Each(
            r#"POST /receipts {"delivery":"D-1","line":1~,"label":"01095060001343521726063010L-~","bin":"A-01","qty":1}"#,
        ),
    ],
    asked: MOVED,
    answered: REFUSED,
    saved: 40,
};

// Bins that have units of an item.
static BINS: Case = Case {
    before: &[
        ONE_LOT,
        Asked::Each(r#"POST /bins {"key":"B-~","bin":"B-~","kind":"STORE"}"#),
        Asked::Each(
            r#"POST /receipts {"delivery":"D-1","line":1~,"label":"01095060001343521726063010L1","bin":"B-~","qty":1}"#,
        ),
    ],
    asked: MOVED,
    answered: REFUSED,
    saved: 40,
};

// Open orders of an item, and the line of each: the first act has read them.
static ORDERS: Case = Case {
    before: ORDERS_OF_ONE,
    asked: MOVED,
    answered: REFUSED,
    saved: 0,
};

// Items, what they ask for, a recall of each, and its lot.
static RECALLED: Case = Case {
    before: &[
        ITEMS,
        Asked::Each(
            r##"POST /receipts {"delivery":"D-1","line":1~,"label":"01#1726063010R","bin":"A-01","qty":1}"##,
        ),
        Asked::Each(r##"POST /recalls {"key":"R-~","gtin":"#","lot":"R"}"##),
        ORDERED,
    ],
    asked: Asked::Listed(
        r#"POST /orders {"key":"W-2","order":"O-1","customer":"Corner Shop","lines":[@]}"#,
    ),
    answered: REFUSED,
    saved: 160,
};

// The lines of an order that is not open. They stand side by side on few pages.
static LINES: Case = Case {
    before: &[
        ITEMS,
        ORDERED,
        Asked::One(r#"POST /cancels {"key":"C-1","order":"O-1"}"#),
    ],
    asked: Asked::One(r#"POST /shipments {"key":"W-2","order":"O-1"}"#),
    answered: REFUSED,
    saved: 5,
};

// An order shown: what the items of its lines ask for, and the lots that are reserved for it.
static ORDER_SHOWN: Case = Case {
    before: &[
        ITEMS,
        Asked::Each(
            r##"POST /receipts {"delivery":"D-1","line":1~,"label":"01#1726063010R","bin":"A-01","qty":1}"##,
        ),
        ORDERED,
    ],
    asked: Asked::One("GET /orders/O-1"),
    answered: SHOWN,
    saved: 40,
};

// Shortages shown: the open orders of an item, and the line of each, which the first act has read.
static SHORTAGES_SHOWN: Case = Case {
    before: ORDERS_OF_ONE,
    asked: Asked::One("GET /shortages/09506000134352"),
    answered: SHOWN,
    saved: 0,
};

// An item's stock shown: its row, what it asks for, and that it has no recall.
static STOCK_SHOWN: Case = Case {
    before: &[ONE_LOT],
    asked: Asked::One("GET /stock/09506000134352"),
    answered: SHOWN,
    saved: 2,
};

fn lines_of(host: &HostRuntime, rt: &impl Abort, asked: Asked) -> String {
    line_of(host.alloc(), &asked.written()).expect(rt, "memory")
}

// What the answers begin with.
fn all_begin(rt: &impl Abort, heard: &[Vec<u8>], first: &str) {
    for answer in heard {
        assert!(rt; answer.as_slice().starts_with(first.as_bytes()));
    }
}

// The books after these requests, each of which is answered.
fn after_asking(host: &HostRuntime, rt: &impl Abort, files: &Pair, lines: &str) -> Pair {
    let texts = texts(rt, host.alloc(), lines);
    let deeds = [Deed::Ask(texts.as_slice())];
    let (left, heard) = done(host, rt, files, deeds.as_slice());
    all_begin(rt, heard.as_slice(), SHOWN);
    left
}

// The books after what is done before the request.
fn before(host: &HostRuntime, rt: &impl Abort, case: &Case) -> Pair {
    let mut files = books_after(host, rt, History::GoodsAndBins.text());
    for part in case.before {
        let lines = lines_of(host, rt, *part);
        files = after_asking(host, rt, &files, lines.as_str());
    }
    files
}

// How often the files are read where the request comes so often. No page stays in memory.
fn reads(
    host: &HostRuntime,
    rt: &impl Abort,
    files: &Pair,
    asked: &str,
    answered: &str,
    times: usize,
) -> u64 {
    let mut lines = String::from_str(host.alloc(), FIRST)
        .ok()
        .expect(rt, "memory");
    for _ in 0..times {
        assert!(rt; lines.push_str("\n").is_ok() && lines.push_str(asked).is_ok());
    }
    let texts = texts(rt, host.alloc(), lines.as_str());
    let (left, heard) = done_in(host, rt, files, 1, [Deed::Ask(texts.as_slice())].as_slice());
    let answers = heard.as_slice().get(1..).expect(rt, "answers");
    all_begin(rt, answers, answered);
    left.reads()
}

// How often the files are read by the request the first time, and the second time.
fn reads_twice(host: &HostRuntime, rt: &impl Abort, case: &Case) -> (u64, u64) {
    let files = before(host, rt, case);
    let asked = lines_of(host, rt, case.asked);
    let none = reads(host, rt, &files, asked.as_str(), case.answered, 0);
    let once = reads(host, rt, &files, asked.as_str(), case.answered, 1);
    let twice = reads(host, rt, &files, asked.as_str(), case.answered, 2);
    (once.saturating_sub(none), twice.saturating_sub(once))
}

fn reads_less(host: &HostRuntime, rt: &impl Abort, case: &Case) {
    let (first, second) = reads_twice(host, rt, case);
    let asked = lines_of(host, rt, case.asked);
    assert!(rt;
        first >= second.saturating_add(case.saved),
        "{asked:?}: {first} and then {second}"
    );
}

// Fewer pages are read than there are orders and lines of theirs.
fn reads_few(host: &HostRuntime, rt: &impl Abort, case: &Case) {
    let (first, _) = reads_twice(host, rt, case);
    let asked = lines_of(host, rt, case.asked);
    assert!(rt; first < 2 * MANY, "{asked:?}: {first}");
}

#[test]
fn rows_are_read_once(rt: HostRuntime) {
    for case in [&LOTS, &BINS, &RECALLED, &LINES] {
        reads_less(&rt, &rt, case);
    }
}

#[test]
fn what_is_shown_is_known(rt: HostRuntime) {
    for case in [&ORDER_SHOWN, &STOCK_SHOWN] {
        reads_less(&rt, &rt, case);
    }
}

#[test]
fn open_orders_are_read_by_the_first_act(rt: HostRuntime) {
    for case in [&ORDERS, &SHORTAGES_SHOWN] {
        reads_few(&rt, &rt, case);
    }
}
