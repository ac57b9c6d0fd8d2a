//! Rows that are added five a statement.

ghost use Rattle.std.specs.Prelude.{◌≡◌, ◌≤◌, true, length, map, flat_map, IfOk};
ghost use Rattle.std.specs.List.{AllByRecursion, list_all};
ghost use Rattle.sqlite.specs.Held.{state};
ghost use Rattle.sqlite.specs.Values.{bound};
ghost use Rattle.table_words.specs.declared.chain.TheConstants.{COLUMNS_MAX};
ghost use Rattle.keyed_rows.specs.Writes.{Writes, each_written};
ghost use Rattle.keyed_rows.specs.Described.{with_row};

use keyed_rows::rows::add_all;
use keyed_rows::running::count;
use keyed_rows::table::Table;
use sqlite::types::ValueRef;
use sqlite::{Alter, Transaction};
use std::alloc::{AllocError, Global};
use table_words::chain::{Chain, values};
use table_words::error::TableFault;

/// So many rows a statement.
pub const MANY: usize = 5;

/// A table to which so many rows are added by one statement.
pub trait AddedMany: Table {
    ghost use Rattle.std.specs.Prelude.{ℕ, List};
    ghost use Rattle.changes.specs.Many.{AddsMany, AreColumnsOf};

    /// The columns of a row.
    type Columns: Chain;

    ghost columns_of: { Self.Row → Self.Columns };

    /// The statement.
    ghost many: { List ℕ };

    fn columns(row: &Self::Row) -> Self::Columns
        ensures { result ≡ columns_of row.now };

    /// Its text.
    fn many_text() -> &'static str
        ensures { result.now ≡ many };

    ghost columned: { AreColumnsOf Self.Columns.columns Self.Columns.count Self.table Self.fits columns_of };

    ghost many_laws: { AddsMany Self.table many };
}

/// The columns of rows.
fn columns_of_all<T: AddedMany>(
    alloc: Global,
    rows: &[T::Row],
) -> Result<Vec<T::Columns>, AllocError>
    ensures { IfOk result (λ all. all.items ≡ map T.columns_of rows.now) }
{
    let mut all = Vec::with_capacity(alloc, rows.len())?;
    for row in rows {
        all.push(T::columns(row))?;
    }
    Ok(all)
}

/// The values of columns, row after row.
fn values_of_all<'a, C: Chain>(
    alloc: Global,
    columns: &'a [C],
) -> Result<Vec<ValueRef<'a>>, AllocError>
    requires few { C.count ≤ COLUMNS_MAX }
    requires fit { list_all C.columns.fits columns.now ≡ true }
    ensures values { IfOk result (λ all. bound all.items ≡ flat_map C.columns.cells columns.now) }
    ensures rule { IfOk result (λ all. AllByRecursion (λ c. C.columns.has 0 (C.columns.cells c) ≡ true) columns.now) }
{
    let mut all = Vec::new(alloc);
    for row in columns {
        row.is_stored();
        all.extend_from_slice(&values(row)[..C::count()])?;
    }
    Ok(all)
}

/// Whether the numbers of all rows are within their limits.
fn all_fit<T: Table>(rows: &[T::Row]) -> bool
    ensures { result ≡ list_all T.fits rows.now }
{
    for row in rows {
        if !T::fits(row) {
            return false;
        }
    }
    true
}

/// Adds five rows by one statement.
fn add_five<T: AddedMany, S: Alter>(
    alloc: Global,
    tx: &mut Transaction<'_, S>,
    rows: &[T::Row],
) -> Result<(), TableFault>
    requires five { length rows.now ≡ 5 }
    requires fit { list_all T.fits rows.now ≡ true }
    ensures same_reference { tx.new.conn.ghost_name ≡ tx.old.conn.ghost_name }
    ensures writes { Writes (each_written (with_row T.table) rows.now) (state S.Store tx.old.conn.now) (state S.Store tx.new.conn.now) result }
{
    let columns = columns_of_all::<T>(alloc, rows)?;
    let params = values_of_all(alloc, columns.as_slice())?;
    match count(tx, T::many_text(), params.as_slice()) {
        Ok(_) => Ok(()),
        Err(fault) => Err(fault),
    }
}

/// Adds five rows: one by one, where a number is above its limit.
fn add_part<T: AddedMany, S: Alter>(
    alloc: Global,
    tx: &mut Transaction<'_, S>,
    rows: &[T::Row],
) -> Result<(), TableFault>
    requires { length rows.now ≡ 5 }
    ensures same_reference { tx.new.conn.ghost_name ≡ tx.old.conn.ghost_name }
    ensures writes { Writes (each_written (with_row T.table) rows.now) (state S.Store tx.old.conn.now) (state S.Store tx.new.conn.now) result }
{
    if all_fit::<T>(rows) {
        return add_five::<T, S>(alloc, tx, rows);
    }
    add_all::<T, S>(tx, rows)
}

/// Adds each row in turn, five a statement as long as there are so many left. Where there is one with the key of another
/// it is refused, and where a number is above its limit it is refused as too big.
pub fn add_many<T: AddedMany, S: Alter>(
    alloc: Global,
    tx: &mut Transaction<'_, S>,
    rows: &[T::Row],
) -> Result<(), TableFault>
    ensures same_reference { tx.new.conn.ghost_name ≡ tx.old.conn.ghost_name }
    ensures writes { Writes (each_written (with_row T.table) rows.now) (state S.Store tx.old.conn.now) (state S.Store tx.new.conn.now) result }
{
    let mut rest = rows;
    while MANY <= rest.len() {
        add_part::<T, S>(alloc, tx, &rest[..MANY])?;
        rest = &rest[MANY..];
    }
    add_all::<T, S>(tx, rest)
}
