//! The table `repeats`.

use crate::history_texts::{ADD_REPEAT, REPEATS_OF};
use commands::RepeatRow;
use commands::limits::{ACTS_MAX, KEY_TEXT_MAX};
use keyed_rows::reading::SoughtBy;
use keyed_rows::running::count;
use keyed_rows::table::Table;
use sqlite::{Alter, Row, Transaction};
use std::alloc::Global;
use table_words::column::{Column, Count, read_column};
use table_words::columns::{of_number, of_spelling, spelling_at};
use table_words::error::TableFault;
use values::Text;

/// The table.
pub struct Repeats;

impl Table for Repeats {
    ghost use Rattle.tables.specs.Repeats.{repeats, fits_repeat, repeats_laws};

    type Row = RepeatRow;

    type Key = Text<KEY_TEXT_MAX>;

    ghost table = { repeats };

    ghost fits = { fits_repeat };

    ghost laws = { repeats_laws };

    fn add_text() -> &'static str {
        ADD_REPEAT
    }

    fn fits(row: &RepeatRow) -> bool {
        1 <= row.act && row.act <= ACTS_MAX
    }

    fn run<S: Alter>(
        tx: &mut Transaction<'_, S>,
        sql: &str,
        row: &RepeatRow,
    ) -> Result<usize, TableFault> {
        let cells = [
            row.k.value(),
            of_number(row.act),
            of_spelling(&row.spell),
            row.reply.value(),
        ];
        count(tx, sql, &cells)
    }

    fn read(alloc: Global, row: &Row) -> Result<RepeatRow, TableFault> {
        match (
            read_column(row, 0),
            read_column::<Count<ACTS_MAX>>(row, 1),
            read_column(row, 3),
        ) {
            (Some(k), Some(act), Some(reply)) => match spelling_at(alloc, row, 2) {
                Ok(spell) => Ok(RepeatRow {
                    k,
                    act: act.number,
                    spell,
                    reply,
                }),
                Err(fault) => Err(fault),
            },
            _ => Err(TableFault::Foreign),
        }
    }
}

impl SoughtBy<Text<KEY_TEXT_MAX>> for Repeats {
    ghost use Rattle.tables.specs.Repeats.{repeats_of, repeats_of_laws};

    ghost asks = { repeats_of };

    ghost asked = { repeats_of_laws };

    fn asking_text() -> &'static str {
        REPEATS_OF
    }
}
