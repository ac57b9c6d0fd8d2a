//! The table `cards`.

ghost use Rattle.std.specs.Prelude.{◌≡◌, false, List};
ghost use Rattle.sqlite.specs.State.{HasCleanDisk, Survives};
ghost use Rattle.sqlite.specs.Held.{state};
ghost use Rattle.table_words.specs.Steps.{IsReady};
ghost use Rattle.table_words.specs.Typed.{tables_in, AreTyped, card_mapping};
ghost use Rattle.commands.specs.declared.rows.CardRow.{CardRow as CardRecord};
ghost use Rattle.keyed_rows.specs.Handed.{HandsOver, IsLeft};
ghost use Rattle.tables.specs.ByKey.{AreCardLines};

use crate::history_texts::{ADD_CARD, CARDS_BY_ACT, CARDS_OF};
use commands::limits::{ACTS_MAX, CARD_NOTE_MAX, UNITS_MAX};
use commands::{CardKind, CardRow, Sink};
use keyed_rows::reading::{SoughtBy, Whole};
use keyed_rows::running::run_with;
use keyed_rows::table::Table;
use keyed_rows::{EachFault, each};
use label::BusinessDay;
use sqlite::{Alter, Connection, Row, Transaction};
use std::alloc::Global;
use table_words::chain::Chain;
use table_words::column::{CardUnits, Column, Count, Number};
use table_words::error::TableFault;
use values::{Gtin, Lot, LotId, Text};

/// The table.
pub struct Cards;

/// The columns of a row.
type Parts = (
    Gtin,
    (
        Lot,
        (
            Count<ACTS_MAX>,
            (
                BusinessDay,
                (
                    CardKind,
                    (Text<CARD_NOTE_MAX>, (CardUnits, Number<UNITS_MAX>)),
                ),
            ),
        ),
    ),
);

fn parts(row: &CardRow) -> Parts
    ensures { result ≡ card_mapping.parts row.now }
{
    let act = Count { number: row.act };
    let qty = CardUnits { units: row.qty };
    let rest = Number { number: row.rest };
    let told = (row.kind, (row.note, (qty, rest)));
    (row.lot.gtin, (row.lot.lot, (act, (row.day, told))))
}

fn of(parts: Parts) -> CardRow
    ensures { result ≡ card_mapping.of parts }
{
    let (gtin, (lot, (act, (day, (kind, (note, (qty, rest))))))) = parts;
    CardRow {
        lot: LotId { gtin, lot },
        act: act.number,
        day,
        kind,
        note,
        qty: qty.units,
        rest: rest.number,
    }
}

// Eight columns: by `Mapped`, each bound on this table would cost the prover more steps than one of them may take.
impl Table for Cards {
    ghost use Rattle.table_words.specs.Stored.{fits_row};
    ghost use Rattle.table_words.specs.Typed.{card_mapping};
    ghost use Rattle.tables.specs.Cards.{cards, cards_laws};

    type Row = CardRow;

    type Key = (LotId, u64);

    ghost table = { cards };

    ghost fits = { fits_row card_mapping };

    ghost laws = { cards_laws };

    fn add_text() -> &'static str {
        ADD_CARD
    }

    fn fits(row: &CardRow) -> bool {
        parts(row).fit()
    }

    fn run<S: Alter>(
        tx: &mut Transaction<'_, S>,
        sql: &str,
        row: &CardRow,
    ) -> Result<usize, TableFault> {
        run_with(&parts(row), tx, sql)
    }

    fn read(_: Global, row: &Row) -> Result<CardRow, TableFault> {
        match Parts::read_at(row, 0) {
            Some(parts) => Ok(of(parts)),
            None => Err(TableFault::Foreign),
        }
    }
}

impl SoughtBy<LotId> for Cards {
    ghost use Rattle.tables.specs.Cards.{cards_of, cards_of_laws};

    ghost asks = { cards_of };

    ghost asked = { cards_of_laws };

    fn asking_text() -> &'static str {
        CARDS_OF
    }
}

/// Hands the rows of this lot to the sink, the oldest act first, one at a time, until it stops. The connection is outside a
/// transaction, and no row is changed.
pub fn each_card<S: Alter, K: Sink<CardRow>>(
    alloc: Global,
    conn: &mut Connection<S>,
    lot: &LotId,
    sink: &mut K,
) -> Result<(), EachFault>
    ensures handed { HasCleanDisk (state S.Store conn.new) → IsReady (state S.Store conn.old).now → AreTyped (state S.Store conn.old).now.trees
        → (rows : List CardRecord) → AreCardLines (tables_in (state S.Store conn.old).now.trees) lot.now rows → HandsOver K.takes K.stops sink.old rows sink.new result }
    ensures left { HasCleanDisk (state S.Store conn.new) → IsReady (state S.Store conn.old).now → IsLeft (state S.Store conn.old) (state S.Store conn.new) result }
    ensures outside { conn.old.in_transaction ≡ false → conn.new.in_transaction ≡ false }
    ensures survives { Survives (state S.Store conn.old) (state S.Store conn.new) (λ _. ¬ IsReady (state S.Store conn.old).now) }
{
    each::<Whole<Cards>, S, K>(
        alloc,
        conn,
        CARDS_BY_ACT,
        &[lot.gtin.value(), lot.lot.value()],
        sink,
    )
}
