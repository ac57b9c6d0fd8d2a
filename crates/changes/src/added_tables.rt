//! The tables to which an act may add many rows.

use crate::added_texts::{ADD_CARDS, ADD_LINES, ADD_RESERVED_ROWS, ADD_SHIPLINES};
use crate::adding::AddedMany;
use commands::limits::{ACTS_MAX, CARD_NOTE_MAX, UNITS_MAX};
use commands::{CardKind, CardRow, LineRow, ReservedRow, ShiplineRow};
use keyed_rows::mapped::Mapped;
use label::BusinessDay;
use table_words::column::{CardUnits, Count, Number};
use tables::cards::Cards;
use tables::lines::Lines;
use tables::reserved::Reserved;
use tables::shiplines::Shiplines;
use values::{Gtin, Lot, Text};

impl AddedMany for Lines {
    ghost use Rattle.table_words.specs.Typed.{line_mapping};
    ghost use Rattle.changes.specs.declared.added_texts.TheConstants.{ADD_LINES};
    ghost use Rattle.changes.specs.AddedTables.{lines_added, line_columns};

    type Columns = <Lines as Mapped>::Parts;

    ghost columns_of = { line_mapping.parts };

    ghost many = { ADD_LINES.now };

    ghost columned = { line_columns };

    ghost many_laws = { lines_added };

    fn columns(row: &LineRow) -> Self::Columns {
        <Lines as Mapped>::parts(row)
    }

    fn many_text() -> &'static str {
        ADD_LINES
    }
}

impl AddedMany for Reserved {
    ghost use Rattle.table_words.specs.Typed.{reserved_mapping};
    ghost use Rattle.changes.specs.declared.added_texts.TheConstants.{ADD_RESERVED_ROWS};
    ghost use Rattle.changes.specs.AddedTables.{reserved_added, reserved_columns};

    type Columns = <Reserved as Mapped>::Parts;

    ghost columns_of = { reserved_mapping.parts };

    ghost many = { ADD_RESERVED_ROWS.now };

    ghost columned = { reserved_columns };

    ghost many_laws = { reserved_added };

    fn columns(row: &ReservedRow) -> Self::Columns {
        <Reserved as Mapped>::parts(row)
    }

    fn many_text() -> &'static str {
        ADD_RESERVED_ROWS
    }
}

impl AddedMany for Shiplines {
    ghost use Rattle.table_words.specs.Typed.{shipline_mapping};
    ghost use Rattle.changes.specs.declared.added_texts.TheConstants.{ADD_SHIPLINES};
    ghost use Rattle.changes.specs.AddedTables.{shiplines_added, shipline_columns};

    type Columns = <Shiplines as Mapped>::Parts;

    ghost columns_of = { shipline_mapping.parts };

    ghost many = { ADD_SHIPLINES.now };

    ghost columned = { shipline_columns };

    ghost many_laws = { shiplines_added };

    fn columns(row: &ShiplineRow) -> Self::Columns {
        <Shiplines as Mapped>::parts(row)
    }

    fn many_text() -> &'static str {
        ADD_SHIPLINES
    }
}

/// The columns of a card line.
type CardColumns = (
    Gtin,
    (
        Lot,
        (
            Count<ACTS_MAX>,
            (
                BusinessDay,
                (
                    CardKind,
                    (Text<CARD_NOTE_MAX>, (CardUnits, Number<UNITS_MAX>)),
                ),
            ),
        ),
    ),
);

impl AddedMany for Cards {
    ghost use Rattle.table_words.specs.Typed.{card_mapping};
    ghost use Rattle.changes.specs.declared.added_texts.TheConstants.{ADD_CARDS};
    ghost use Rattle.changes.specs.AddedTables.{cards_added, card_columns};

    type Columns = CardColumns;

    ghost columns_of = { card_mapping.parts };

    ghost many = { ADD_CARDS.now };

    ghost columned = { card_columns };

    ghost many_laws = { cards_added };

    fn columns(row: &CardRow) -> CardColumns {
        let act = Count { number: row.act };
        let qty = CardUnits { units: row.qty };
        let rest = Number { number: row.rest };
        let told = (row.kind, (row.note, (qty, rest)));
        (row.lot.gtin, (row.lot.lot, (act, (row.day, told))))
    }

    fn many_text() -> &'static str {
        ADD_CARDS
    }
}
