//! Rows of a table that an act puts and drops.

ghost use Rattle.std.specs.Prelude.{◌≡◌};
ghost use Rattle.sqlite.specs.Held.{state};
ghost use Rattle.keyed_rows.specs.Writes.{Writes, each_written};
ghost use Rattle.keyed_rows.specs.Described.{with_row, without_row};
ghost use Rattle.changes.specs.Written.{rows_written};

use crate::adding::{AddedMany, MANY, add_many};
use commands::Listed;
use keyed_rows::rows::{add_all, drop_all, put_all};
use keyed_rows::table::{Changing, Losing, Table};
use sqlite::{Alter, Transaction};
use std::alloc::Global;
use table_words::error::TableFault;

/// Adds rows of a table whose rows are never changed.
pub fn add_rows<T: Table, S: Alter>(
    tx: &mut Transaction<'_, S>,
    rows: &Listed<T::Row>,
) -> Result<(), TableFault>
    ensures same_reference { tx.new.conn.ghost_name ≡ tx.old.conn.ghost_name }
    ensures writes { Writes (each_written (with_row T.table) rows.now) (state S.Store tx.old.conn.now) (state S.Store tx.new.conn.now) result }
{
    add_all::<T, S>(tx, rows.as_slice())
}

/// Adds rows of a table whose rows are never changed, many a statement.
pub fn add_many_rows<T: AddedMany, S: Alter>(
    alloc: Global,
    tx: &mut Transaction<'_, S>,
    rows: &Listed<T::Row>,
) -> Result<(), TableFault>
    ensures same_reference { tx.new.conn.ghost_name ≡ tx.old.conn.ghost_name }
    ensures writes { Writes (each_written (with_row T.table) rows.now) (state S.Store tx.old.conn.now) (state S.Store tx.new.conn.now) result }
{
    add_many::<T, S>(alloc, tx, rows.as_slice())
}

/// Puts rows of a table.
pub fn put_rows<T: Changing, S: Alter>(
    tx: &mut Transaction<'_, S>,
    rows: &Listed<T::Row>,
    are_new: bool,
) -> Result<(), TableFault>
    ensures same_reference { tx.new.conn.ghost_name ≡ tx.old.conn.ghost_name }
    ensures writes { Writes (each_written (with_row T.table) rows.now) (state S.Store tx.old.conn.now) (state S.Store tx.new.conn.now) result }
{
    put_all::<T, S>(tx, rows.as_slice(), are_new)
}

/// Drops rows of a table, and then puts others.
pub fn write_rows<T: Changing + Losing, S: Alter>(
    tx: &mut Transaction<'_, S>,
    put: &Listed<T::Row>,
    dropped: &Listed<T::Row>,
    are_new: bool,
) -> Result<(), TableFault>
    ensures same_reference { tx.new.conn.ghost_name ≡ tx.old.conn.ghost_name }
    ensures writes { Writes (rows_written (with_row T.table) (λ r. without_row T.table (T.table.key r)) put.now dropped.now) (state S.Store tx.old.conn.now) (state S.Store tx.new.conn.now) result }
{
    drop_all::<T, S>(tx, dropped.as_slice())?;
    put_all::<T, S>(tx, put.as_slice(), are_new)
}

/// Puts rows of a table that are new, many a statement where there are many.
pub fn put_new_rows<T: AddedMany + Changing, S: Alter>(
    alloc: Global,
    tx: &mut Transaction<'_, S>,
    rows: &Listed<T::Row>,
) -> Result<(), TableFault>
    ensures same_reference { tx.new.conn.ghost_name ≡ tx.old.conn.ghost_name }
    ensures writes { Writes (each_written (with_row T.table) rows.now) (state S.Store tx.old.conn.now) (state S.Store tx.new.conn.now) result }
{
    if rows.as_slice().len() < MANY {
        return put_rows::<T, S>(tx, rows, true);
    }
    add_many_rows::<T, S>(alloc, tx, rows)
}

/// Drops rows of a table, and then puts others that are new.
pub fn write_new_rows<T: AddedMany + Changing + Losing, S: Alter>(
    alloc: Global,
    tx: &mut Transaction<'_, S>,
    put: &Listed<T::Row>,
    dropped: &Listed<T::Row>,
) -> Result<(), TableFault>
    ensures same_reference { tx.new.conn.ghost_name ≡ tx.old.conn.ghost_name }
    ensures writes { Writes (rows_written (with_row T.table) (λ r. without_row T.table (T.table.key r)) put.now dropped.now) (state S.Store tx.old.conn.now) (state S.Store tx.new.conn.now) result }
{
    drop_all::<T, S>(tx, dropped.as_slice())?;
    put_new_rows::<T, S>(alloc, tx, put)
}
