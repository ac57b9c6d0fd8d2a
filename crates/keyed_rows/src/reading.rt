//! Rows of a table that are sought.

ghost use Rattle.std.specs.Prelude.{◌≡◌, ◌≤◌, true};
ghost use Rattle.sqlite.specs.Held.{state};
ghost use Rattle.sqlite.specs.Values.{bound};
ghost use Rattle.table_words.specs.declared.chain.TheConstants.{COLUMNS_MAX};
ghost use Rattle.keyed_rows.specs.Reads.{Queried, Finds};
ghost use Rattle.keyed_rows.specs.Described.{stored_of};

use crate::table::Table;
use sqlite::types::ValueRef;
use sqlite::{Alter, Row, Transaction};
use std::alloc::Global;
use std::marker::PhantomData;
use table_words::chain::{Chain, values};
use table_words::error::TableFault;
use table_words::reading::{Readable, query};

/// All columns of a table.
pub struct Whole<T>(PhantomData<T>);

impl<T: Table> Readable for Whole<T> {
    type Record = T::Row;

    ghost has = { T.table.has };

    ghost reads = { T.table.seen };

    fn read(alloc: Global, row: &Row) -> Result<T::Row, TableFault> {
        T::read(alloc, row)
    }
}

/// Runs the query, and reads each row of the answer; `Foreign` where one of them is no row of the table.
pub fn query_rows<T: Table, S: Alter>(
    alloc: Global,
    tx: &mut Transaction<'_, S>,
    sql: &str,
    params: &[ValueRef<'_>],
) -> Result<Vec<T::Row>, TableFault>
    ensures same_reference { tx.new.conn.ghost_name ≡ tx.old.conn.ghost_name }
    ensures queried { Queried T.table.has T.table.seen sql.now (bound params.now) (state S.Store tx.old.conn.now) (state S.Store tx.new.conn.now) result }
{
    query::<Whole<T>, S>(alloc, tx, sql, params)
}

/// Runs the query with the values of the columns, and reads each row of the answer; `Foreign` where one of them is no row
/// of the table.
fn query_with<T: Table, C: Chain, S: Alter>(
    alloc: Global,
    tx: &mut Transaction<'_, S>,
    sql: &str,
    columns: &C,
) -> Result<Vec<T::Row>, TableFault>
    requires fit { C.columns.fits columns.now ≡ true }
    requires few { C.count ≤ COLUMNS_MAX }
    ensures same_reference { tx.new.conn.ghost_name ≡ tx.old.conn.ghost_name }
    ensures queried { Queried T.table.has T.table.seen sql.now (C.columns.cells columns.now) (state S.Store tx.old.conn.now) (state S.Store tx.new.conn.now) result }
{
    query_rows::<T, S>(alloc, tx, sql, &values(columns)[..C::count()])
}

/// What every row is sought by.
#[derive(Clone, Copy)]
pub struct All;

impl Chain for All {
    ghost use Rattle.table_words.specs.Stored.{none, no_columns};

    ghost columns = { none (record {}) };

    ghost count = { 0 };

    ghost chain_laws = { no_columns (record {}) };

    fn count() -> usize {
        0
    }

    fn fit(&self) -> bool {
        true
    }

    fn value_at(&self, _: usize) -> ValueRef<'_> {
        ValueRef::Null
    }

    fn is_stored(&self) {}

    fn read_at(_: &Row, _: usize) -> Option<All> {
        Some(All)
    }

    fn are_same(&self, _: &All) -> bool {
        true
    }
}

/// A table whose rows are sought by B.
pub trait Sought<B>: Table {
    ghost use Rattle.std.specs.Prelude.{List};
    ghost use Rattle.commands.specs.Tables.{Tables};
    ghost use Rattle.keyed_rows.specs.Described.{Query, IsSought};

    /// What the query is.
    ghost query: { Query Self.Row Self.Key B };

    /// The rows are those of the tables that are sought, each once.
    ghost are_of: { B → Tables → List Self.Row → Type 0 };

    /// Its text.
    fn query_text(by: &B) -> &'static str
        ensures { result.now ≡ query.text };

    /// Runs it.
    fn run_query<S: Alter>(
        alloc: Global,
        tx: &mut Transaction<'_, S>,
        sql: &str,
        by: &B,
    ) -> Result<Vec<Self::Row>, TableFault>
        requires { query.may by.now ≡ true }
        ensures same_reference { tx.new.conn.ghost_name ≡ tx.old.conn.ghost_name }
        ensures queried { Queried Self.table.has Self.table.seen sql.now (query.params by.now) (state S.Store tx.old.conn.now) (state S.Store tx.new.conn.now) result };

    ghost query_laws: { IsSought Self.table query are_of };
}

/// A table whose rows are sought by texts in columns.
pub trait SoughtBy<B: Chain>: Table {
    ghost use Rattle.keyed_rows.specs.Asks.{Asks, IsAsked};

    /// What the query is.
    ghost asks: { Asks Self.Key B };

    /// Its text.
    fn asking_text() -> &'static str
        ensures { result.now ≡ asks.text };

    ghost asked: { IsAsked B.columns B.count Self.table asks };
}

impl<T: SoughtBy<B>, B: Chain> Sought<B> for T {
    ghost use Rattle.keyed_rows.specs.Asks.{query_of, AreSought};
    ghost use Rattle.keyed_rows.specs.AskedLaws.{asked_sought};

    ghost query = { query_of T.table T.asks };

    ghost are_of = { AreSought T.table T.asks };

    ghost query_laws = { asked_sought T.table T.asks T.laws B.columns B.count T.asked };

    fn query_text(_: &B) -> &'static str {
        T::asking_text()
    }

    fn run_query<S: Alter>(
        alloc: Global,
        tx: &mut Transaction<'_, S>,
        sql: &str,
        by: &B,
    ) -> Result<Vec<T::Row>, TableFault> {
        query_with::<T, B, S>(alloc, tx, sql, by)
    }
}

/// The rows that are sought, the oldest first; `Foreign` where one of them has a value that no row has.
pub fn seek<T: Sought<B>, B, S: Alter>(
    alloc: Global,
    tx: &mut Transaction<'_, S>,
    by: &B,
) -> Result<Vec<T::Row>, TableFault>
    requires { T.query.may by.now ≡ true }
    ensures same_reference { tx.new.conn.ghost_name ≡ tx.old.conn.ghost_name }
    ensures finds { Finds (T.are_of by.now) T.table.is (stored_of T.table T.query by.now) (state S.Store tx.old.conn.now) (state S.Store tx.new.conn.now) result }
{
    T::run_query(alloc, tx, T::query_text(by), by)
}
