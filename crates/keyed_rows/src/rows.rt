//! Rows of a table, one after another.

ghost use Rattle.std.specs.Prelude.{◌≡◌};
ghost use Rattle.sqlite.specs.Held.{state};
ghost use Rattle.keyed_rows.specs.Writes.{Writes, WereTyped, each_written};
ghost use Rattle.keyed_rows.specs.Described.{with_row, without_row};

use crate::table::{Changing, Losing, Table, add, drop_row, put};
use sqlite::{Alter, Transaction};
use table_words::error::TableFault;

/// Adds each row in turn.
pub fn add_all<T: Table, S: Alter>(
    tx: &mut Transaction<'_, S>,
    rows: &[T::Row],
) -> Result<(), TableFault>
    ensures same_reference { tx.new.conn.ghost_name ≡ tx.old.conn.ghost_name }
    ensures writes { Writes (each_written (with_row T.table) rows.now) (state S.Store tx.old.conn.now) (state S.Store tx.new.conn.now) result }
    ensures were_typed { WereTyped (state S.Store tx.old.conn.now) (state S.Store tx.new.conn.now) result }
{
    for row in rows {
        add::<T, S>(tx, row)?;
    }
    Ok(())
}

/// Puts each row in turn.
pub fn put_all<T: Changing, S: Alter>(
    tx: &mut Transaction<'_, S>,
    rows: &[T::Row],
    are_new: bool,
) -> Result<(), TableFault>
    ensures same_reference { tx.new.conn.ghost_name ≡ tx.old.conn.ghost_name }
    ensures writes { Writes (each_written (with_row T.table) rows.now) (state S.Store tx.old.conn.now) (state S.Store tx.new.conn.now) result }
{
    for row in rows {
        put::<T, S>(tx, row, are_new)?;
    }
    Ok(())
}

/// Drops the row under the key of each of these in turn.
pub fn drop_all<T: Losing, S: Alter>(
    tx: &mut Transaction<'_, S>,
    rows: &[T::Row],
) -> Result<(), TableFault>
    ensures same_reference { tx.new.conn.ghost_name ≡ tx.old.conn.ghost_name }
    ensures writes { Writes (each_written (λ r. without_row T.table (T.table.key r)) rows.now) (state S.Store tx.old.conn.now) (state S.Store tx.new.conn.now) result }
{
    for row in rows {
        drop_row::<T, S>(tx, row)?;
    }
    Ok(())
}
