//! The tables of books compared with those of the acts that were done again.

ghost use Rattle.std.specs.Prelude.{◌≡◌};
ghost use Rattle.sqlite.specs.Held.{state};
ghost use Rattle.whole_tables.specs.Differing.{SameCalled};
ghost use Rattle.audits.specs.Comparing.{Tells, SameEach, SameTables};

use crate::halves::compare_halves;
use crate::one_table::{Told, compare};
use sqlite::{Alter, Transaction};
use std::alloc::Global;
use tables::bins::Bins;
use tables::cards::Cards;
use tables::items::Items;
use tables::least::Least;
use tables::lines::Lines;
use tables::lots::Lots;
use tables::meta::Meta;
use tables::orders::Orders;
use tables::recalls::Recalls;
use tables::repeats::Repeats;
use tables::reserved::Reserved;
use tables::shiplines::Shiplines;
use tables::shipments::Shipments;
use tables::staged::Staged;
use tables::stock::Stock;
use tables::urgents::Urgents;
use whole_tables::{TABLE_NAMES, TableName};

/// The first row of this table that the two have not alike. Tables that grow with the acts are halved about the rowid `middle`.
fn compare_table<S: Alter, M: Alter>(
    alloc: Global,
    books: &mut Transaction<'_, S>,
    replayed: &mut Transaction<'_, M>,
    middle: &i64,
    table: TableName,
) -> Told
    ensures same_reference { books.new.conn.ghost_name ≡ books.old.conn.ghost_name }
    ensures same_reference_too { replayed.new.conn.ghost_name ≡ replayed.old.conn.ghost_name }
    ensures tells { Tells (SameCalled table) (state S.Store books.old.conn.now) (state S.Store books.new.conn.now) (state M.Store replayed.old.conn.now) (state M.Store replayed.new.conn.now) result }
{
    match table {
        TableName::Meta => compare::<Meta, S, M>(alloc, books, replayed),
        TableName::Items => compare::<Items, S, M>(alloc, books, replayed),
        TableName::Bins => compare::<Bins, S, M>(alloc, books, replayed),
        TableName::Lots => compare::<Lots, S, M>(alloc, books, replayed),
        TableName::Recalls => compare::<Recalls, S, M>(alloc, books, replayed),
        TableName::Stock => compare_halves::<Stock, S, M>(alloc, books, replayed, middle),
        TableName::Orders => compare::<Orders, S, M>(alloc, books, replayed),
        TableName::Lines => compare_halves::<Lines, S, M>(alloc, books, replayed, middle),
        TableName::Staged => compare::<Staged, S, M>(alloc, books, replayed),
        TableName::Reserved => compare_halves::<Reserved, S, M>(alloc, books, replayed, middle),
        TableName::Shipments => compare::<Shipments, S, M>(alloc, books, replayed),
        TableName::Shiplines => compare_halves::<Shiplines, S, M>(alloc, books, replayed, middle),
        TableName::Cards => compare_halves::<Cards, S, M>(alloc, books, replayed, middle),
        TableName::Repeats => compare_halves::<Repeats, S, M>(alloc, books, replayed, middle),
        TableName::Least => compare::<Least, S, M>(alloc, books, replayed),
        TableName::Urgents => compare::<Urgents, S, M>(alloc, books, replayed),
    }
}

/// The first row of any of these tables, in their order.
fn compare_each<S: Alter, M: Alter>(
    alloc: Global,
    books: &mut Transaction<'_, S>,
    replayed: &mut Transaction<'_, M>,
    middle: &i64,
    tables: &[TableName],
) -> Told
    ensures same_reference { books.new.conn.ghost_name ≡ books.old.conn.ghost_name }
    ensures same_reference_too { replayed.new.conn.ghost_name ≡ replayed.old.conn.ghost_name }
    ensures tells { Tells (SameEach tables.now) (state S.Store books.old.conn.now) (state S.Store books.new.conn.now) (state M.Store replayed.old.conn.now) (state M.Store replayed.new.conn.now) result }
{
    for table in tables {
        match compare_table(alloc, books, replayed, middle, *table) {
            Ok(None) => {}
            other => return other,
        }
    }
    Ok(None)
}

/// The first row of any table that the two have not alike, in the order of the tables and of their keys.
pub(crate) fn compare_tables<S: Alter, M: Alter>(
    alloc: Global,
    books: &mut Transaction<'_, S>,
    replayed: &mut Transaction<'_, M>,
    middle: &i64,
) -> Told
    ensures same_reference { books.new.conn.ghost_name ≡ books.old.conn.ghost_name }
    ensures same_reference_too { replayed.new.conn.ghost_name ≡ replayed.old.conn.ghost_name }
    ensures tells { Tells SameTables (state S.Store books.old.conn.now) (state S.Store books.new.conn.now) (state M.Store replayed.old.conn.now) (state M.Store replayed.new.conn.now) result }
{
    compare_each(alloc, books, replayed, middle, TABLE_NAMES)
}
