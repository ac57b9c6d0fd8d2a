//! Tables that are read whole and compared.

ghost use Rattle.std.specs.Prelude.{◌≡◌};
ghost use Rattle.sqlite.specs.Held.{state};
ghost use Rattle.keyed_rows.specs.Reads.{Finds};
ghost use Rattle.whole_tables.specs.Whole.{AreAll, rows_of};

use crate::key::{RowKey, TableName};
use keyed_rows::reading::query_rows;
use keyed_rows::table::Table;
use sqlite::{Alter, Transaction};
use std::alloc::Global;
use std::cmp::Ordering;
use table_words::error::TableFault;

/// A table that is read whole, and whose rows are compared with those of another of its kind, in the order of their keys.
pub trait Entire: Table {
    ghost use Rattle.std.specs.Prelude.{◌≡◌, ◌↔◌, ℕ, List, IsTrue};
    ghost use Rattle.std.specs.declared.cmp.Ordering.{Ordering as Order};
    ghost use Rattle.whole_tables.specs.declared.key.RowKey.{RowKey as Named};
    ghost use Rattle.whole_tables.specs.declared.key.TableName.{TableName as Called};
    ghost use Rattle.whole_tables.specs.Same.{IsCompared};
    ghost use Rattle.whole_tables.specs.Whole.{WholeIs};

    /// The query of all rows, the oldest first.
    ghost whole: { List ℕ };

    /// The order of the keys.
    ghost order: { Self.Key → Self.Key → Order };

    /// Its name.
    ghost table_name: { Called };

    /// The row of the books that a key is that of.
    ghost named: { Self.Key → Named };

    /// The text of that query.
    fn whole_text() -> &'static str
        ensures { result.now ≡ whole };

    /// Its name.
    fn table_name() -> TableName
        ensures { result ≡ table_name };

    /// How the keys of two rows stand to each other.
    fn by_key(a: &Self::Row, b: &Self::Row) -> Ordering
        ensures { result ≡ order (Self.table.key a.now) (Self.table.key b.now) };

    /// Whether two rows are the same in every column.
    fn same_row(a: &Self::Row, b: &Self::Row) -> bool
        ensures { IsTrue result ↔ (a.now ≡ b.now) };

    /// Which row of the books this is.
    fn row_key(row: &Self::Row) -> RowKey
        ensures { result ≡ named (Self.table.key row.now) };

    ghost whole_laws: { WholeIs Self.table whole };

    ghost compared_laws: { IsCompared Self.table table_name order named };
}

/// All rows of the table, the oldest first; `Foreign` where one of them has a value that no row has.
pub fn all_rows<T: Entire, S: Alter>(
    alloc: Global,
    tx: &mut Transaction<'_, S>,
) -> Result<Vec<T::Row>, TableFault>
    ensures same_reference { tx.new.conn.ghost_name ≡ tx.old.conn.ghost_name }
    ensures finds { Finds (AreAll T.table) T.table.is (rows_of T.table) (state S.Store tx.old.conn.now) (state S.Store tx.new.conn.now) result }
{
    query_rows::<T, S>(alloc, tx, T::whole_text(), &[])
}
