//! The business day that is stored in books with the newest tables, and their number.

ghost use Rattle.std.specs.Prelude.{◌≡◌, ◌⊎◌, ℤ, None, Some, true, false, IsTrue, IsErrAnd, IsOkAnd, OnOk, OnErr, IfOk, IfErr, find};
ghost use Rattle.sqlite.specs.State.{HasCleanDisk, Survives, IsUnchanged, KeepsCommit};
ghost use Rattle.sqlite.specs.Held.{state};
ghost use Rattle.table_words.specs.Steps.{IsReady};
ghost use Rattle.table_words.specs.declared.error.TableFault.TheVariants.{Foreign as ForeignTable};
ghost use Rattle.books_schema.specs.Opening.{TellTables};
ghost use Rattle.books_schema.specs.Settling.{HasRow, HasDayAt, HasDay, IsNumbered, Numbers, IsSettledAt, IsStill};

use crate::ending::finish;
use commands::MetaRow;
use label::BusinessDay;
use sqlite::{Alter, Connection, Transaction};
use std::alloc::Global;
use table_words::error::TableFault;
use tables::meta::{NEWEST, meta_rows_at, raise_meta};

/// The number of the schema before the newest, which has the same tables.
const THIRD: u32 = 3;

/// The row of `meta` that was read; `Foreign` where there is none.
fn first_meta(rows: Result<Vec<MetaRow>, TableFault>) -> Result<MetaRow, TableFault>
    ensures row { IfOk result (λ m. IsOkAnd rows (λ rows. find (λ _. true) rows.items ≡ Some m)) }
    ensures fault { IfErr result (λ e. IsErrAnd rows (λ x. x ≡ e) ⊎ IsOkAnd rows (λ rows. find (λ _. true) rows.items ≡ None)) }
{
    match rows?.as_slice().first() {
        Some(row) => Ok(*row),
        None => Err(TableFault::Foreign),
    }
}

/// The row of `meta` in books of schema number `VERSION`; `Foreign` where there is no such row, or one with a value that no
/// row of such books has, another number too. Then nothing has changed.
pub fn meta_row_at<const VERSION: u32, S: Alter>(
    alloc: Global,
    tx: &mut Transaction<'_, S>,
) -> Result<MetaRow, TableFault>
    ensures same_reference { tx.new.conn.ghost_name ≡ tx.old.conn.ghost_name }
    ensures row { HasCleanDisk (state S.Store tx.new.conn.now) → IsReady (state S.Store tx.old.conn.now).now → IfOk result (HasRow VERSION (state S.Store tx.old.conn.now).now.trees) }
    ensures foreign { HasCleanDisk (state S.Store tx.new.conn.now) → IsReady (state S.Store tx.old.conn.now).now
        → IfErr result (λ e. e ≡ ForeignTable → (day : ℤ) → ¬ HasDayAt VERSION (state S.Store tx.old.conn.now).now.trees day) }
    ensures same { HasCleanDisk (state S.Store tx.new.conn.now) → IsReady (state S.Store tx.old.conn.now).now → OnOk result (IsUnchanged (state S.Store tx.old.conn.now) (state S.Store tx.new.conn.now)) }
    ensures still { HasCleanDisk (state S.Store tx.new.conn.now) → IsReady (state S.Store tx.old.conn.now).now
        → IfErr result (λ e. e ≡ ForeignTable → IsUnchanged (state S.Store tx.old.conn.now) (state S.Store tx.new.conn.now)) }
    ensures kept { HasCleanDisk (state S.Store tx.new.conn.now) → IsReady (state S.Store tx.old.conn.now).now → KeepsCommit (state S.Store tx.old.conn.now) (state S.Store tx.new.conn.now) }
    ensures survives { Survives (state S.Store tx.old.conn.now) (state S.Store tx.new.conn.now) (λ _. ⊥) }
{
    first_meta(meta_rows_at::<VERSION, S>(alloc, tx))
}

/// The business day in books of schema 3, whose row of `meta` is then put under the newest number; `Foreign` where there is
/// no such row, or one with a value that no row has.
fn raised_day<S: Alter>(
    alloc: Global,
    tx: &mut Transaction<'_, S>,
) -> Result<BusinessDay, TableFault>
    ensures same_reference { tx.new.conn.ghost_name ≡ tx.old.conn.ghost_name }
    ensures day { HasCleanDisk (state S.Store tx.new.conn.now) → IsReady (state S.Store tx.old.conn.now).now → IfOk result (HasDayAt THIRD (state S.Store tx.old.conn.now).now.trees) }
    ensures foreign { HasCleanDisk (state S.Store tx.new.conn.now) → IsReady (state S.Store tx.old.conn.now).now
        → IfErr result (λ e. e ≡ ForeignTable → (day : ℤ) → ¬ HasDayAt THIRD (state S.Store tx.old.conn.now).now.trees day) }
    ensures done { HasCleanDisk (state S.Store tx.new.conn.now) → IsReady (state S.Store tx.old.conn.now).now → OnOk result (Numbers (state S.Store tx.old.conn.now) (state S.Store tx.new.conn.now)) }
    ensures kept { HasCleanDisk (state S.Store tx.new.conn.now) → IsReady (state S.Store tx.old.conn.now).now → KeepsCommit (state S.Store tx.old.conn.now) (state S.Store tx.new.conn.now) }
    ensures survives { Survives (state S.Store tx.old.conn.now) (state S.Store tx.new.conn.now) (λ _. ⊥) }
{
    let row = meta_row_at::<THIRD, S>(alloc, tx)?;
    raise_meta(tx, &row)?;
    Ok(row.day)
}

/// The business day in books with the newest tables, whose row of `meta` has the newest number, or gets it in place of 3;
/// `Foreign` where there is no such row, or one with another number or a value that no row has.
fn stored_day<S: Alter>(
    alloc: Global,
    tx: &mut Transaction<'_, S>,
) -> Result<BusinessDay, TableFault>
    ensures same_reference { tx.new.conn.ghost_name ≡ tx.old.conn.ghost_name }
    ensures day { HasCleanDisk (state S.Store tx.new.conn.now) → IsReady (state S.Store tx.old.conn.now).now → IfOk result (HasDay (state S.Store tx.old.conn.now).now.trees) }
    ensures foreign { HasCleanDisk (state S.Store tx.new.conn.now) → IsReady (state S.Store tx.old.conn.now).now
        → IfErr result (λ e. e ≡ ForeignTable → (day : ℤ) → ¬ HasDay (state S.Store tx.old.conn.now).now.trees day) }
    ensures done { HasCleanDisk (state S.Store tx.new.conn.now) → IsReady (state S.Store tx.old.conn.now).now → OnOk result (Numbers (state S.Store tx.old.conn.now) (state S.Store tx.new.conn.now)) }
    ensures kept { HasCleanDisk (state S.Store tx.new.conn.now) → IsReady (state S.Store tx.old.conn.now).now → KeepsCommit (state S.Store tx.old.conn.now) (state S.Store tx.new.conn.now) }
    ensures survives { Survives (state S.Store tx.old.conn.now) (state S.Store tx.new.conn.now) (λ _. ⊥) }
{
    match meta_row_at::<NEWEST, S>(alloc, tx) {
        Ok(row) => Ok(row.day),
        Err(TableFault::Foreign) => raised_day(alloc, tx),
        Err(fault) => Err(fault),
    }
}

/// The business day that is stored; `Foreign` where the row of `meta` is missing or has a value that no row has. In the
/// same transaction the row gets the newest number where it has 3. After an error the tables have the rows that they had;
/// at `Ok` the connection is open.
pub fn settle<S: Alter>(alloc: Global, conn: &mut Connection<S>) -> Result<BusinessDay, TableFault>
    requires outside { conn.old.in_transaction ≡ false }
    ensures day { HasCleanDisk (state S.Store conn.new) → IsReady (state S.Store conn.old).now → IfOk result (HasDay (state S.Store conn.old).now.trees) }
    ensures foreign { HasCleanDisk (state S.Store conn.new) → IsReady (state S.Store conn.old).now
        → IfErr result (λ e. e ≡ ForeignTable → (day : ℤ) → ¬ HasDay (state S.Store conn.old).now.trees day) }
    ensures open { HasCleanDisk (state S.Store conn.new) → OnOk result (IsTrue (state S.Store conn.new).is_open) }
    ensures comes { HasCleanDisk (state S.Store conn.new) → IsReady (state S.Store conn.old).now
        → OnOk result (IsSettledAt (state S.Store conn.old).now.trees (state S.Store conn.new)) }
    ensures failed { HasCleanDisk (state S.Store conn.new) → IsReady (state S.Store conn.old).now → (state S.Store conn.old).now ≡ (state S.Store conn.old).committed
        → IsTrue (state S.Store conn.new).is_open → OnErr result (IsStill (state S.Store conn.old).now.trees (state S.Store conn.new)) }
    ensures survives { Survives (state S.Store conn.old) (state S.Store conn.new)
        (λ db. IsReady (state S.Store conn.old).now → IsNumbered (state S.Store conn.old).now.trees db × TellTables db) }
    ensures outside { conn.new.in_transaction ≡ false }
{
    let mut tx = conn.transaction();
    let day = stored_day(alloc, &mut tx);
    finish(tx, day)
}
