//! A table of the books.

ghost use Rattle.std.specs.Prelude.{◌≡◌, true, false, IfOk, IfErr};
ghost use Rattle.sqlite.specs.Held.{state};
ghost use Rattle.table_words.specs.Steps.{IsTooBig};
ghost use Rattle.table_words.specs.declared.error.TableFault.TheVariants.{Foreign};
ghost use Rattle.keyed_rows.specs.Writes.{Writes, Spares, WereTyped, WritesInside, Ran, if_done};
ghost use Rattle.keyed_rows.specs.Described.{with_row, without_row};

use crate::running::run_with;
use sqlite::{Alter, Row, Transaction};
use std::alloc::Global;
use table_words::chain::Chain;
use table_words::error::TableFault;

/// A table: its texts, its columns and its key.
pub trait Table {
    ghost use Rattle.std.specs.Prelude.{Bool};
    ghost use Rattle.keyed_rows.specs.Described.{Described, IsLawful};

    type Row: Drop;

    /// What rows are told apart by.
    type Key;

    /// What the table is.
    ghost table: { Described Self.Row Self.Key };

    /// Whether a row's numbers are within their limits.
    ghost fits: { Self.Row → Bool };

    /// The statement that adds a row.
    fn add_text() -> &'static str
        ensures { result.now ≡ table.add };

    /// Whether the row's numbers are within their limits.
    fn fits(row: &Self::Row) -> bool
        ensures { result ≡ fits row.now };

    /// Runs a statement with the values of the row's columns.
    fn run<S: Alter>(
        tx: &mut Transaction<'_, S>,
        sql: &str,
        row: &Self::Row,
    ) -> Result<usize, TableFault>
        requires { fits row.now ≡ true }
        ensures same_reference { tx.new.conn.ghost_name ≡ tx.old.conn.ghost_name }
        ensures ran { Ran S.Store sql.now (table.cells row.now) tx.old.conn.now tx.new.conn.now result }
        ensures rule { table.has (table.cells row.now) ≡ true };

    /// What the row of all columns reads as, or `Foreign` where a column has a value that no row of the table has.
    fn read(alloc: Global, row: &Row) -> Result<Self::Row, TableFault>
        ensures ok { IfOk result (λ s. (table.has row.now ≡ true) × (table.seen row.now ≡ s)) }
        ensures foreign { IfErr result (λ e. e ≡ Foreign → table.has row.now ≡ false) };

    ghost laws: { IsLawful table };
}

/// Adds the row, whose numbers are within their limits.
fn add_fitting<T: Table, S: Alter>(
    tx: &mut Transaction<'_, S>,
    row: &T::Row,
) -> Result<(), TableFault>
    requires { T.fits row.now ≡ true }
    ensures same_reference { tx.new.conn.ghost_name ≡ tx.old.conn.ghost_name }
    ensures writes { WritesInside S.Store (λ _. with_row T.table row.now) tx.old.conn.now tx.new.conn.now result }
    ensures were_typed { WereTyped (state S.Store tx.old.conn.now) (state S.Store tx.new.conn.now) result }
{
    match T::run(tx, T::add_text(), row) {
        Ok(_) => Ok(()),
        Err(fault) => Err(fault),
    }
}

/// Adds the row. Where there is one with its key it is refused, and where a number is above its limit it is refused as too
/// big.
pub fn add<T: Table, S: Alter>(tx: &mut Transaction<'_, S>, row: &T::Row) -> Result<(), TableFault>
    ensures same_reference { tx.new.conn.ghost_name ≡ tx.old.conn.ghost_name }
    ensures writes { Writes (with_row T.table row.now) (state S.Store tx.old.conn.now) (state S.Store tx.new.conn.now) result }
    ensures were_typed { WereTyped (state S.Store tx.old.conn.now) (state S.Store tx.new.conn.now) result }
    ensures refused { Spares (state S.Store tx.old.conn.now) (state S.Store tx.new.conn.now) result }
    ensures too_big { T.fits row.now ≡ false → IsTooBig result tx.old.conn.now tx.new.conn.now }
{
    if !T::fits(row) {
        return Err(TableFault::too_big());
    }
    add_fitting::<T, S>(tx, row)
}

/// A table whose rows are changed.
pub trait Changing: Table {
    ghost use Rattle.keyed_rows.specs.Described.{Change, IsChange};

    /// The statement that changes a row.
    ghost change: { Change Self.Row };

    /// Its text.
    fn change_text() -> &'static str
        ensures { result.now ≡ change.text };

    ghost change_laws: { IsChange Self.table change };
}

/// Changes the row with its key; whether there is one.
fn change<T: Changing, S: Alter>(
    tx: &mut Transaction<'_, S>,
    row: &T::Row,
) -> Result<bool, TableFault>
    requires { T.fits row.now ≡ true }
    ensures same_reference { tx.new.conn.ghost_name ≡ tx.old.conn.ghost_name }
    ensures writes { WritesInside S.Store (if_done (with_row T.table row.now)) tx.old.conn.now tx.new.conn.now result }
{
    match T::run(tx, T::change_text(), row) {
        Ok(0) => Ok(false),
        Ok(_) => Ok(true),
        Err(fault) => Err(fault),
    }
}

/// Changes the row, and where there is none adds it.
fn change_or_add<T: Changing, S: Alter>(
    tx: &mut Transaction<'_, S>,
    row: &T::Row,
) -> Result<(), TableFault>
    requires { T.fits row.now ≡ true }
    ensures same_reference { tx.new.conn.ghost_name ≡ tx.old.conn.ghost_name }
    ensures writes { Writes (with_row T.table row.now) (state S.Store tx.old.conn.now) (state S.Store tx.new.conn.now) result }
    ensures refused { Spares (state S.Store tx.old.conn.now) (state S.Store tx.new.conn.now) result }
{
    match change::<T, S>(tx, row) {
        Ok(true) => Ok(()),
        Ok(false) => add_fitting::<T, S>(tx, row),
        Err(fault) => Err(fault),
    }
}

/// Adds the row, and where that is refused changes the one with its key. Where there is none the answer is the fault.
fn add_or_change<T: Changing, S: Alter>(
    tx: &mut Transaction<'_, S>,
    row: &T::Row,
) -> Result<(), TableFault>
    requires { T.fits row.now ≡ true }
    ensures same_reference { tx.new.conn.ghost_name ≡ tx.old.conn.ghost_name }
    ensures writes { Writes (with_row T.table row.now) (state S.Store tx.old.conn.now) (state S.Store tx.new.conn.now) result }
    ensures refused { Spares (state S.Store tx.old.conn.now) (state S.Store tx.new.conn.now) result }
{
    let fault = match add_fitting::<T, S>(tx, row) {
        Ok(()) => return Ok(()),
        Err(fault) => fault,
    };
    match change::<T, S>(tx, row) {
        Ok(true) => Ok(()),
        _ => Err(fault),
    }
}

/// Puts the row, in place of one with its key: it costs least where `is_new` tells whether there is none. A number above
/// its limit is refused as too big.
pub fn put<T: Changing, S: Alter>(
    tx: &mut Transaction<'_, S>,
    row: &T::Row,
    is_new: bool,
) -> Result<(), TableFault>
    ensures same_reference { tx.new.conn.ghost_name ≡ tx.old.conn.ghost_name }
    ensures writes { Writes (with_row T.table row.now) (state S.Store tx.old.conn.now) (state S.Store tx.new.conn.now) result }
    ensures refused { Spares (state S.Store tx.old.conn.now) (state S.Store tx.new.conn.now) result }
    ensures too_big { T.fits row.now ≡ false → IsTooBig result tx.old.conn.now tx.new.conn.now }
{
    if !T::fits(row) {
        return Err(TableFault::too_big());
    }
    if is_new {
        return add_or_change::<T, S>(tx, row);
    }
    change_or_add::<T, S>(tx, row)
}

/// A table that loses rows.
pub trait Losing: Table {
    ghost use Rattle.std.specs.Prelude.{ℕ, List};
    ghost use Rattle.keyed_rows.specs.Described.{DropIs};
    ghost use Rattle.keyed_rows.specs.Mapped.{IsKeyed};

    /// The columns of the key.
    type Keys: Chain;

    ghost keys: { Self.Row → Self.Keys };

    /// The statement that drops a row.
    ghost drop: { List ℕ };

    fn keys(row: &Self::Row) -> Self::Keys
        ensures { result ≡ keys row.now };

    /// Its text.
    fn drop_text() -> &'static str
        ensures { result.now ≡ drop };

    ghost keyed: { IsKeyed Self.Keys.columns Self.Keys.count Self.table keys };

    ghost drop_laws: { DropIs Self.table drop };
}

/// Drops the row with the key of this one, if there is one.
pub fn drop_row<T: Losing, S: Alter>(
    tx: &mut Transaction<'_, S>,
    row: &T::Row,
) -> Result<(), TableFault>
    ensures same_reference { tx.new.conn.ghost_name ≡ tx.old.conn.ghost_name }
    ensures writes { Writes (without_row T.table (T.table.key row.now)) (state S.Store tx.old.conn.now) (state S.Store tx.new.conn.now) result }
    ensures refused { Spares (state S.Store tx.old.conn.now) (state S.Store tx.new.conn.now) result }
{
    match run_with(&T::keys(row), tx, T::drop_text()) {
        Ok(_) => Ok(()),
        Err(fault) => Err(fault),
    }
}
