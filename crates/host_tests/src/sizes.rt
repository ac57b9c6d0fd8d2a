//! A card of eleven thousand lines, which goods-in files of a thousand rows bring.

use crate::deeds::{Deed, at, books_after, done, joined, texts};
use book_trials::{History, answer};
use std::alloc::Global;
use std::process::Abort;

// The units of a row, and the lines of a delivery: a thousand numbers of four digits.
const UNITS: u64 = 1_000_000;

const FIRST_LINE: u64 = 9_000;

const ROWS: u64 = 1_000;

// Ten deliveries, whose numbers are put behind `DELIVERY-2026-05-`, and the units of their last rows: they bring all the units
// that an item may have but one.
static DELIVERIES: [(&str, u64); 10] = [
    ("04A", UNITS),
    ("04B", UNITS),
    ("04C", UNITS),
    ("04D", UNITS),
    ("04E", UNITS),
    ("04F", UNITS),
    ("04G", UNITS),
    ("04H", UNITS),
    ("04I", UNITS),
    ("04J", UNITS - 1),
];

// What is asked behind them: the one unit that is left comes, one more is refused, and all are written off. Then one more
// delivery comes.
static BEHIND: &str = r#"
POST /receipts {"delivery":"D-1","line":1,"label":"01095060001343521726063010LOT-2026-06-30-00001","bin":"STORE-HALL-1-RACK-01","qty":1} => 200 {"act":10007}
POST /receipts {"delivery":"D-1","line":2,"label":"01095060001343521726063010LOT-2026-06-30-00001","bin":"STORE-HALL-1-RACK-01","qty":1} => 409 {"code":"Q05"}
POST /counts {"key":"K-7","gtin":"09506000134352","lot":"LOT-2026-06-30-00001","bin":"STORE-HALL-1-RACK-01","qty":0} => 200 {"act":10008,"change":-10000000000}
"#;

static CARD: &str = "GET /cards/09506000134352/LOT-2026-06-30-00001";

fn push(rt: &impl Abort, text: &mut String, more: &str) {
    assert!(rt; text.push_str(more).is_ok());
}

// The request with the file of a delivery.
fn file(rt: &impl Abort, alloc: Global, delivery: &str, last: u64) -> String {
    let mut text = String::new(alloc);
    push(
        rt,
        &mut text,
        "POST /goodsin delivery,line,gtin,lot,expiry,bin,qty|",
    );
    for row in 0..ROWS {
        let units = if row == ROWS - 1 { last } else { UNITS };
        let line = format!(in alloc;
            "DELIVERY-2026-05-{delivery},{},09506000134352,LOT-2026-06-30-00001,260630,STORE-HALL-1-RACK-01,{units}|",
            FIRST_LINE.saturating_add(row)
        );
        push(rt, &mut text, line.ok().expect(rt, "memory").as_str());
    }
    push(rt, &mut text, "\n");
    text
}

// Adds the card's lines of a delivery: the first row is this act, and so many units were there before it.
fn push_receipts(
    rt: &impl Abort,
    alloc: Global,
    card: &mut String,
    delivery: (&str, u64),
    act: u64,
    before: u64,
) {
    let mut rest = before;
    for row in 0..ROWS {
        let units = if row == ROWS - 1 { delivery.1 } else { UNITS };
        rest = rest.saturating_add(units);
        let line = format!(in alloc;
            "{:>13} 2026-05-04 RECEIPT  DELIVERY-2026-05-{}/{} {units:>12} {rest:>11}|",
            act.saturating_add(row),
            delivery.0,
            FIRST_LINE.saturating_add(row)
        );
        push(rt, card, line.ok().expect(rt, "memory").as_str());
    }
}

// The answer with the card.
fn card(rt: &impl Abort, alloc: Global) -> String {
    let mut card = String::new(alloc);
    push(
        rt,
        &mut card,
        " => 200 |STOCK CARD 09506000134352 Oat drink|LOT LOT-2026-06-30-00001 EXPIRY 2026-06-30|",
    );
    let (mut act, mut before): (u64, u64) = (7, 0);
    for delivery in DELIVERIES.as_slice() {
        push_receipts(rt, alloc, &mut card, *delivery, act, before);
        act = act.saturating_add(ROWS);
        before = before.saturating_add(ROWS * UNITS);
    }
    push(
        rt,
        &mut card,
        "        10007 2026-05-04 RECEIPT  D-1/1                                1 10000000000|        10008 2026-05-04 WRITEOFF STORE-HALL-1-RACK-01      -10000000000           0|",
    );
    push_receipts(rt, alloc, &mut card, ("04K", UNITS), 10_009, 0);
    push(rt, &mut card, "IN HOUSE 1000000000");
    answer(alloc, card.as_str()).expect(rt, "memory")
}

#[test]
fn a_card_has_eleven_thousand_lines(rt: HostRuntime) {
    let alloc = rt.alloc();
    let bin = r#"POST /bins {"key":"K-6","bin":"STORE-HALL-1-RACK-01","kind":"STORE"}"#;
    let mut asked = joined(&rt, alloc, [History::GoodsAndBins.text(), bin].as_slice());
    for (delivery, last) in DELIVERIES.as_slice() {
        push(&rt, &mut asked, file(&rt, alloc, delivery, *last).as_str());
    }
    push(&rt, &mut asked, BEHIND.trim());
    push(&rt, &mut asked, "\n");
    push(&rt, &mut asked, file(&rt, alloc, "04K", UNITS).as_str());
    let files = books_after(&rt, &rt, asked.as_str());
    let texts = texts(&rt, alloc, CARD);
    let (left, heard) = done(&rt, &rt, &files, [Deed::Ask(texts.as_slice())].as_slice());
    drop(left);
    assert!(&rt; at(&rt, &heard, 0) == card(&rt, alloc).as_bytes());
}
