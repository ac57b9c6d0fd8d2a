//! Lines of a stock card whose fields are full.

use commands::limits::CARD_NOTE_MAX;
use commands::{CardKind, CardRow, ItemRow};
use label::BusinessDay;
use std::process::Abort;
use texts::CardText;
use values::{Gtin, Lot, LotId, Text, Title};

// The act, the kind, the note, the change and what is in the house after it. One line has the widest reference and one the
// widest quantity, since all the units that there may be of an item may go at once; and the numbers of one are wider than
// their fields, and stay whole.
static ROWS: [(u64, CardKind, &str, i64, u64); 5] = [
    (11, CardKind::WriteOff, "A-01", -2, 8),
    (12, CardKind::WriteOn, "A-01", 1, 9),
    (
        1_000_000_000_000,
        CardKind::Receipt,
        "DELIVERY-2026-05-04A/9999",
        1_000_000,
        10_000_000_000,
    ),
    (
        1_000_000_000_000,
        CardKind::WriteOff,
        "STORE-HALL-1-RACK-01",
        -10_000_000_000,
        10_000_000_000,
    ),
    (
        10_000_000_000_000,
        CardKind::Receipt,
        "D-1/2",
        10,
        100_000_000_000,
    ),
];

const CARD: &[u8] = b"STOCK CARD 09506000134352 Oat drink
LOT L2 EXPIRY 2026-05-04
           11 2026-05-04 WRITEOFF A-01                                -2           8
           12 2026-05-04 WRITEON  A-01                                 1           9
1000000000000 2026-05-04 RECEIPT  DELIVERY-2026-05-04A/9999      1000000 10000000000
1000000000000 2026-05-04 WRITEOFF STORE-HALL-1-RACK-01      -10000000000 10000000000
10000000000000 2026-05-04 RECEIPT  D-1/2                               10 100000000000
IN HOUSE 100000000000
";

#[test]
fn a_card_has_lines_of_every_width(rt: HostRuntime) {
    let day = crate::labels::today(&rt);
    let lot = LotId {
        gtin: Gtin::new(b"09506000134352").ok().expect(&rt, "a GTIN"),
        lot: Lot::new(b"L2").ok().expect(&rt, "a lot"),
    };
    let item = ItemRow {
        gtin: lot.gtin,
        name: Title::new(b"Oat drink").expect(&rt, "a title"),
    };
    let mut out = Vec::new(rt.alloc());
    let mut text = CardText::start(&item, &lot.lot, day, &mut out)
        .ok()
        .expect(&rt, "memory");
    for (act, kind, note, qty, rest) in ROWS.as_slice() {
        let row = CardRow {
            lot,
            act: *act,
            day: BusinessDay::new(day).expect(&rt, "a business day"),
            kind: *kind,
            note: Text::<CARD_NOTE_MAX>::new(note.as_bytes()).expect(&rt, "a note"),
            qty: *qty,
            rest: *rest,
        };
        assert!(rt; text.line(&row, &mut out).is_ok());
    }
    assert!(rt; text.end(&mut out).is_ok());
    assert!(rt; out.as_slice() == CARD);
}
