//! The lines of stock cards.

ghost use Rattle.std.specs.Prelude.{◌≡◌, []};
ghost use Rattle.machine.specs.Cards.{delivery_note as delivery_note_lem};
ghost use Rattle.row_rules.specs.Seen.{lot_units as lot_units_lem};

use crate::row_search::units_with;
use commands::limits::CARD_NOTE_MAX;
use commands::{Buffer, Key, StagedRow, StockRow};
use values::{LineNo, LotId, Name, Text};

/// The units of a lot in bins and on stages.
pub fn lot_units(lot: &LotId, stock: &[StockRow], staged: &[StagedRow]) -> u64
    ensures { result ≡ lot_units_lem lot.now stock.now staged.now }
{
    let in_bins = units_with(stock, lot);
    let on_stages = units_with(staged, lot);
    in_bins.saturating_add(on_stages)
}

/// The reference of a receipt: the delivery, `/` and the line.
pub fn delivery_note(key: &Key) -> Text<CARD_NOTE_MAX>
    ensures { result ≡ delivery_note_lem key.now }
{
    match key {
        Key::Plain(_) => no_note(),
        Key::Line(delivery, line) => line_note(delivery, *line),
    }
}

fn no_note() -> Text<CARD_NOTE_MAX>
    ensures { result ≡ [] }
{
    Buffer::<CARD_NOTE_MAX>::new().text()
}

// Room for a delivery of 20, `/` and any number, which has 20 digits at most.
const NOTE_ROOM: usize = 41;

fn line_note(delivery: &Name, line: LineNo) -> Text<CARD_NOTE_MAX>
    ensures { result ≡ delivery_note_lem (Key.Line delivery.now line) }
{
    let mut text = Buffer::<NOTE_ROOM>::new();
    text.push_all(delivery.as_bytes());
    text.push(b'/');
    text.push_decimal(u64::from(line.number()));
    Text::new(text.as_bytes()).unwrap()
}
