//! One table of books compared with that of the acts that were done again.

ghost use Rattle.std.specs.Prelude.{◌≡◌};
ghost use Rattle.sqlite.specs.Held.{state};
ghost use Rattle.whole_tables.specs.Differing.{SameCalled};
ghost use Rattle.audits.specs.Comparing.{Tells};

use crate::finding::Unread;
use sqlite::{Alter, Transaction};
use std::alloc::Global;
use table_words::error::TableFault;
use whole_tables::{Entire, RowKey, all_rows, first_difference};

/// What comparing tells: a row that differs, or none.
pub(crate) type Told = Result<Option<RowKey>, Unread>;

/// The first row of the table that the two have not alike.
pub(crate) fn compare<T: Entire, S: Alter, M: Alter>(
    alloc: Global,
    books: &mut Transaction<'_, S>,
    replayed: &mut Transaction<'_, M>,
) -> Told
    ensures same_reference { books.new.conn.ghost_name ≡ books.old.conn.ghost_name }
    ensures same_reference_too { replayed.new.conn.ghost_name ≡ replayed.old.conn.ghost_name }
    ensures tells { Tells (SameCalled T.table_name) (state S.Store books.old.conn.now) (state S.Store books.new.conn.now) (state M.Store replayed.old.conn.now) (state M.Store replayed.new.conn.now) result }
{
    let mut mine = match all_rows::<T, S>(alloc, books) {
        Ok(rows) => rows,
        Err(TableFault::Foreign) => return Err(Unread::Untyped(T::table_name())),
        Err(TableFault::Store(_)) => return Err(Unread::Store),
    };
    let mut theirs = match all_rows::<T, M>(alloc, replayed) {
        Ok(rows) => rows,
        Err(_) => return Err(Unread::Store),
    };
    Ok(first_difference::<T>(&mut mine, &mut theirs))
}
