//! Tables that grow with the acts, compared in halves: those of books take half the memory so.

ghost use Rattle.std.specs.Prelude.{◌≡◌};
ghost use Rattle.sqlite.specs.Held.{state};
ghost use Rattle.whole_tables.specs.Differing.{SameCalled};
ghost use Rattle.audits.specs.Comparing.{Tells};
ghost use Rattle.audits.specs.Halves.{SameHalf, TellsAlike};

use crate::finding::Unread;
use crate::one_table::{Told, compare};
use sqlite::{Alter, Transaction};
use std::alloc::Global;
use table_words::error::TableFault;
use whole_tables::{Half, Halved, are_same, half_rows};

/// Whether the two have the same rows in this half of the table, in the same order.
fn half_alike<T: Halved, S: Alter, M: Alter>(
    alloc: Global,
    books: &mut Transaction<'_, S>,
    replayed: &mut Transaction<'_, M>,
    part: Half,
    middle: &i64,
) -> Result<bool, Unread>
    ensures same_reference { books.new.conn.ghost_name ≡ books.old.conn.ghost_name }
    ensures same_reference_too { replayed.new.conn.ghost_name ≡ replayed.old.conn.ghost_name }
    ensures tells { TellsAlike (SameHalf T.table part middle.now) (state S.Store books.old.conn.now) (state S.Store books.new.conn.now) (state M.Store replayed.old.conn.now) (state M.Store replayed.new.conn.now) result }
{
    let mine = match half_rows::<T, S>(alloc, books, part, middle) {
        Ok(rows) => rows,
        Err(TableFault::Foreign) => return Err(Unread::Untyped(T::table_name())),
        Err(TableFault::Store(_)) => return Err(Unread::Store),
    };
    let theirs = match half_rows::<T, M>(alloc, replayed, part, middle) {
        Ok(rows) => rows,
        Err(_) => return Err(Unread::Store),
    };
    Ok(are_same::<T>(mine.as_slice(), theirs.as_slice()))
}

/// Whether the two have the same rows in both halves, in the same order.
fn halves_alike<T: Halved, S: Alter, M: Alter>(
    alloc: Global,
    books: &mut Transaction<'_, S>,
    replayed: &mut Transaction<'_, M>,
    middle: &i64,
) -> Result<bool, Unread>
    ensures same_reference { books.new.conn.ghost_name ≡ books.old.conn.ghost_name }
    ensures same_reference_too { replayed.new.conn.ghost_name ≡ replayed.old.conn.ghost_name }
    ensures tells { TellsAlike (SameCalled T.table_name) (state S.Store books.old.conn.now) (state S.Store books.new.conn.now) (state M.Store replayed.old.conn.now) (state M.Store replayed.new.conn.now) result }
{
    match half_alike::<T, S, M>(alloc, books, replayed, Half::Lower, middle) {
        Ok(true) => half_alike::<T, S, M>(alloc, books, replayed, Half::Upper, middle),
        other => other,
    }
}

/// The first row of the table that the two have not alike. It is read whole only where a half differs, or has its rows in
/// another order. `middle` is a rowid about which the table is halved.
pub(crate) fn compare_halves<T: Halved, S: Alter, M: Alter>(
    alloc: Global,
    books: &mut Transaction<'_, S>,
    replayed: &mut Transaction<'_, M>,
    middle: &i64,
) -> Told
    ensures same_reference { books.new.conn.ghost_name ≡ books.old.conn.ghost_name }
    ensures same_reference_too { replayed.new.conn.ghost_name ≡ replayed.old.conn.ghost_name }
    ensures tells { Tells (SameCalled T.table_name) (state S.Store books.old.conn.now) (state S.Store books.new.conn.now) (state M.Store replayed.old.conn.now) (state M.Store replayed.new.conn.now) result }
{
    if halves_alike::<T, S, M>(alloc, books, replayed, middle)? {
        Ok(None)
    } else {
        compare::<T, S, M>(alloc, books, replayed)
    }
}
