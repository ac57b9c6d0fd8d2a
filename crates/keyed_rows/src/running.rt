//! A statement that is run inside a transaction.

ghost use Rattle.std.specs.Prelude.{◌≡◌, ◌≤◌, true};
ghost use Rattle.sqlite.specs.Values.{bound};
ghost use Rattle.table_words.specs.declared.chain.TheConstants.{COLUMNS_MAX};
ghost use Rattle.keyed_rows.specs.Writes.{Ran};

use sqlite::types::ValueRef;
use sqlite::{Alter, Transaction};
use table_words::chain::{Chain, values};
use table_words::error::TableFault;

/// Runs the statement, and tells how many rows it wrote.
pub fn count<S: Alter>(
    tx: &mut Transaction<'_, S>,
    sql: &str,
    params: &[ValueRef<'_>],
) -> Result<usize, TableFault>
    ensures same_reference { tx.new.conn.ghost_name ≡ tx.old.conn.ghost_name }
    ensures ran { Ran S.Store sql.now (bound params.now) tx.old.conn.now tx.new.conn.now result }
{
    match tx.execute(sql, params) {
        Ok(n) => Ok(n),
        Err(cause) => Err(TableFault::Store(cause)),
    }
}

/// Runs the statement with the values of the columns.
pub fn run_with<C: Chain, S: Alter>(
    columns: &C,
    tx: &mut Transaction<'_, S>,
    sql: &str,
) -> Result<usize, TableFault>
    requires fit { C.columns.fits columns.now ≡ true }
    requires few { C.count ≤ COLUMNS_MAX }
    ensures same_reference { tx.new.conn.ghost_name ≡ tx.old.conn.ghost_name }
    ensures ran { Ran S.Store sql.now (C.columns.cells columns.now) tx.old.conn.now tx.new.conn.now result }
    ensures rule { C.columns.has 0 (C.columns.cells columns.now) ≡ true }
{
    columns.is_stored();
    count(tx, sql, &values(columns)[..C::count()])
}
