//! The table `lines`.

ghost use Rattle.std.specs.Prelude.{◌≡◌};
ghost use Rattle.sqlite.specs.Held.{state};
ghost use Rattle.keyed_rows.specs.Writes.{Writes};
ghost use Rattle.tables.specs.Lines.{lines_filled};

use crate::order_texts::{ADD_LINE, CHANGE_LINE, FILL_LINES, LINE_OF, LINES_OF_ORDER};
use commands::LineRow;
use keyed_rows::mapped::Mapped;
use keyed_rows::reading::SoughtBy;
use keyed_rows::running::run_with;
use keyed_rows::table::Changing;
use sqlite::{Alter, Transaction};
use table_words::column::{Count, Number, QTY};
use table_words::error::TableFault;
use values::{Gtin, Name};

/// The table.
pub struct Lines;

impl Mapped for Lines {
    ghost use Rattle.std.specs.Prelude.{refl};
    ghost use Rattle.table_words.specs.Typed.{line_mapping};
    ghost use Rattle.tables.specs.Lines.{lines, lines_laws};

    type Row = LineRow;

    type Key = (Name, Gtin);

    type Parts = (Name, (Gtin, (Count<QTY>, Number<QTY>)));

    ghost mapping = { line_mapping };

    ghost described = { lines };

    ghost mapped = { record { few = refl; cells = λ s. refl; has = λ r. refl; seen = λ r. refl; back = λ s. refl } };

    ghost mapped_laws = { lines_laws };

    fn parts(row: &LineRow) -> Self::Parts {
        let ordered = Count {
            number: row.ordered,
        };
        let shipped = Number {
            number: row.shipped,
        };
        (row.order, (row.gtin, (ordered, shipped)))
    }

    fn of((order, (gtin, (ordered, shipped))): Self::Parts) -> LineRow {
        LineRow {
            order,
            gtin,
            ordered: ordered.number,
            shipped: shipped.number,
        }
    }

    fn add_text() -> &'static str {
        ADD_LINE
    }
}

impl Changing for Lines {
    ghost use Rattle.tables.specs.Lines.{change_line, change_line_laws};

    ghost change = { change_line };

    ghost change_laws = { change_line_laws };

    fn change_text() -> &'static str {
        CHANGE_LINE
    }
}

impl SoughtBy<Name> for Lines {
    ghost use Rattle.tables.specs.Lines.{lines_of_order, lines_of_order_laws};

    ghost asks = { lines_of_order };

    ghost asked = { lines_of_order_laws };

    fn asking_text() -> &'static str {
        LINES_OF_ORDER
    }
}

impl SoughtBy<(Name, Gtin)> for Lines {
    ghost use Rattle.tables.specs.Lines.{line_of, line_of_laws};

    ghost asks = { line_of };

    ghost asked = { line_of_laws };

    fn asking_text() -> &'static str {
        LINE_OF
    }
}

/// Ships all units of each line of the order, by one statement. A row whose units are none that a line can have stays as it
/// is.
pub fn fill_lines<S: Alter>(tx: &mut Transaction<'_, S>, order: &Name) -> Result<(), TableFault>
    ensures same_reference { tx.new.conn.ghost_name ≡ tx.old.conn.ghost_name }
    ensures writes { Writes (lines_filled order.now) (state S.Store tx.old.conn.now) (state S.Store tx.new.conn.now) result }
{
    let most = Number::<QTY> { number: QTY };
    match run_with(&(*order, most), tx, FILL_LINES) {
        Ok(_) => Ok(()),
        Err(fault) => Err(fault),
    }
}
