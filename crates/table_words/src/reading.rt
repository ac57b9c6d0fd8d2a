//! Queries inside a transaction, and what their rows read as.

ghost use Rattle.std.specs.Prelude.{◌≡◌, Bool, true, false, List, map, OnOk, OnErr, IfOk, IfErr};
ghost use Rattle.std.specs.List.{AllByRecursion};
ghost use Rattle.sqlite.specs.Values.{bound};
ghost use Rattle.sqlite.specs.Given.{IsPlain};
ghost use Rattle.sqlite.specs.Listing.{understood};
ghost use Rattle.sqlite.specs.State.{HasCleanDisk, Survives, KeepsCommit, IsUnchanged};
ghost use Rattle.sqlite.specs.Held.{state};
ghost use Rattle.sqlite_value.specs.declared.value.Value.{Value as SqlValue};
ghost use Rattle.table_words.specs.Calls.{Reads, ShowsForeign};
ghost use Rattle.table_words.specs.Steps.{IsReady, ChangesNone};
ghost use Rattle.table_words.specs.declared.error.TableFault.TheVariants.{Foreign};

use crate::error::TableFault;
use sqlite::types::ValueRef;
use sqlite::{Alter, Row, Transaction};
use std::alloc::Global;

/// The columns of a query: which rows there can be, and what they read as.
pub trait Readable {
    /// What a row reads as.
    type Record: Drop;

    ghost has: { List SqlValue → Bool };

    ghost reads: { List SqlValue → Self.Record };

    /// What the row reads as, or `Foreign` where a column has a value that no row has.
    fn read(alloc: Global, row: &Row) -> Result<Self::Record, TableFault>
        ensures ok { IfOk result (λ s. (has row.now ≡ true) × (reads row.now ≡ s)) }
        ensures foreign { IfErr result (λ e. e ≡ Foreign → has row.now ≡ false) };
}

/// What the rows read as, or `Foreign` where one of them is none.
fn read_all<T: Readable>(alloc: Global, rows: &[Row]) -> Result<Vec<T::Record>, TableFault>
    ensures typed { IfOk result (λ found. AllByRecursion (λ v. T.has v ≡ true) rows.now) }
    ensures ok { IfOk result (λ found. map T.reads rows.now ≡ found.items) }
    ensures foreign { IfErr result (λ e. e ≡ Foreign → ¬ AllByRecursion (λ v. T.has v ≡ true) rows.now) }
{
    let mut found = Vec::with_capacity(alloc, rows.len())?;
    for row in rows {
        found.push(T::read(alloc, row)?)?;
    }
    Ok(found)
}

/// Runs the query, and reads each row of the answer; `Foreign` where one of them is none.
pub fn query<T: Readable, S: Alter>(
    alloc: Global,
    tx: &mut Transaction<'_, S>,
    sql: &str,
    params: &[ValueRef<'_>],
) -> Result<Vec<T::Record>, TableFault>
    ensures same_reference { tx.new.conn.ghost_name ≡ tx.old.conn.ghost_name }
    ensures rows { HasCleanDisk (state S.Store tx.new.conn.now) → IfOk result (λ found. Reads T.has T.reads sql.now (bound params.now) (state S.Store tx.old.conn.now) (state S.Store tx.new.conn.now) found.items) }
    ensures foreign { HasCleanDisk (state S.Store tx.new.conn.now) → IfErr result (λ e. e ≡ Foreign → ShowsForeign T.has sql.now (bound params.now) (state S.Store tx.old.conn.now) (state S.Store tx.new.conn.now)) }
    ensures same { HasCleanDisk (state S.Store tx.new.conn.now) → IsPlain (understood (state S.Store tx.old.conn.now).now.schema sql.now) → OnOk result (IsUnchanged (state S.Store tx.old.conn.now) (state S.Store tx.new.conn.now)) }
    ensures refused { HasCleanDisk (state S.Store tx.new.conn.now) → IsPlain (understood (state S.Store tx.old.conn.now).now.schema sql.now) → IsReady (state S.Store tx.old.conn.now).now → OnErr result (ChangesNone (state S.Store tx.old.conn.now) (state S.Store tx.new.conn.now)) }
    ensures kept { HasCleanDisk (state S.Store tx.new.conn.now) → IsPlain (understood (state S.Store tx.old.conn.now).now.schema sql.now) → KeepsCommit (state S.Store tx.old.conn.now) (state S.Store tx.new.conn.now) }
    ensures survives { Survives (state S.Store tx.old.conn.now) (state S.Store tx.new.conn.now) (λ _. ⊥) }
{
    match tx.query_all(sql, params) {
        Ok(rows) => read_all::<T>(alloc, rows.as_slice()),
        Err(cause) => Err(TableFault::Store(cause)),
    }
}
