//! Makes the tables and the first rows.

ghost use Rattle.std.specs.Prelude.{◌≡◌, ◌≢◌, ◌↔◌, false, IsTrue, IfErr, IsErrOf, OnOk, OnErr};
ghost use Rattle.sqlite.specs.State.{HasCleanDisk, Survives, KeepsCommit};
ghost use Rattle.sqlite.specs.Held.{state};
ghost use Rattle.table_words.specs.Schema.{schema_0};
ghost use Rattle.table_words.specs.Typed.{tables_in, no_rows, AreTyped};
ghost use Rattle.table_words.specs.Steps.{IsReady};
ghost use Rattle.table_words.specs.declared.error.TableFault.TheVariants.{Foreign};
ghost use Rattle.books_schema.specs.Creation.{IsVoid, Holds, first_rows};
ghost use Rattle.books_schema.specs.Opening.{TellTables};

use crate::checking::is_empty_schema;
use crate::ending::finish;
use crate::steps::{STEPS, run_steps};
use commands::{BinRow, MetaRow};
use sqlite::{Alter, Connection, Error, Transaction};
use table_words::error::TableFault;
use tables::bins::put_bin;
use tables::meta::put_meta;

/// Makes the tables.
fn create_tables<S: Alter>(tx: &mut Transaction<'_, S>) -> Result<(), Error>
    ensures same_reference { tx.new.conn.ghost_name ≡ tx.old.conn.ghost_name }
    ensures done { HasCleanDisk (state S.Store tx.new.conn.now) → IsVoid (state S.Store tx.old.conn.now)
        → OnOk result (Holds no_rows (state S.Store tx.new.conn.now)) }
    ensures was_open { HasCleanDisk (state S.Store tx.new.conn.now) → OnOk result (IsTrue (state S.Store tx.old.conn.now).is_open) }
    ensures kept { HasCleanDisk (state S.Store tx.new.conn.now) → KeepsCommit (state S.Store tx.old.conn.now) (state S.Store tx.new.conn.now) }
    ensures survives { Survives (state S.Store tx.old.conn.now) (state S.Store tx.new.conn.now) (λ _. ⊥) }
{
    run_steps(tx, STEPS, 0)
}

/// Makes the tables, and puts the first rows.
fn fill<S: Alter>(
    tx: &mut Transaction<'_, S>,
    meta: &MetaRow,
    bin: &BinRow,
) -> Result<(), TableFault>
    ensures same_reference { tx.new.conn.ghost_name ≡ tx.old.conn.ghost_name }
    ensures done { HasCleanDisk (state S.Store tx.new.conn.now) → IsVoid (state S.Store tx.old.conn.now)
        → OnOk result (Holds (first_rows meta.now bin.now) (state S.Store tx.new.conn.now)) }
    ensures was_open { HasCleanDisk (state S.Store tx.new.conn.now) → OnOk result (IsTrue (state S.Store tx.old.conn.now).is_open) }
    ensures kept { HasCleanDisk (state S.Store tx.new.conn.now) → KeepsCommit (state S.Store tx.old.conn.now) (state S.Store tx.new.conn.now) }
    ensures survives { Survives (state S.Store tx.old.conn.now) (state S.Store tx.new.conn.now) (λ _. ⊥) }
    ensures never_foreign { IfErr result (λ e. e ≢ Foreign) }
{
    create_tables(tx)?;
    put_meta(tx, meta)?;
    put_bin(tx, bin)
}

/// Makes the tables of the books with their first rows, all in one transaction of its own. `Foreign` where the database
/// has a table, an index or a view, whoever made it: nothing is done then. `Store` where memory, the disk or a size does
/// not suffice: the database is as it was.
pub fn create<S: Alter>(
    conn: &mut Connection<S>,
    meta: &MetaRow,
    bin: &BinRow,
) -> Result<(), TableFault>
    requires outside { conn.old.in_transaction ≡ false }
    ensures foreign { IsErrOf result Foreign ↔ ((state S.Store conn.old).now.schema ≢ schema_0) }
    ensures unchanged { IsErrOf result Foreign → conn.new ≡ conn.old }
    ensures open { HasCleanDisk (state S.Store conn.new) → OnOk result (IsTrue (state S.Store conn.new).is_open) }
    ensures ready { HasCleanDisk (state S.Store conn.new) → OnOk result (IsReady (state S.Store conn.new).now) }
    ensures tables { HasCleanDisk (state S.Store conn.new) → OnOk result (tables_in (state S.Store conn.new).now.trees ≡ first_rows meta.now bin.now) }
    ensures typed { HasCleanDisk (state S.Store conn.new) → OnOk result (AreTyped (state S.Store conn.new).now.trees) }
    ensures failed { HasCleanDisk (state S.Store conn.new) → IsTrue (state S.Store conn.new).is_open
        → OnErr result ((state S.Store conn.new).now ≡ (state S.Store conn.old).now) }
    ensures settled { HasCleanDisk (state S.Store conn.new) → IsTrue (state S.Store conn.new).is_open
        → (state S.Store conn.new).committed ≡ (state S.Store conn.new).now }
    ensures survives { Survives (state S.Store conn.old) (state S.Store conn.new) (λ trees. (tables_in trees ≡ first_rows meta.now bin.now) × AreTyped trees) }
    ensures tells { Survives (state S.Store conn.old) (state S.Store conn.new) TellTables }
    ensures outside { conn.new.in_transaction ≡ false }
{
    // Outside a transaction the connection shows what is committed.
    let _outside = conn.is_autocommit();
    if !is_empty_schema(conn.schema()) {
        return Err(TableFault::Foreign);
    }
    let mut tx = conn.transaction();
    let filled = fill(&mut tx, meta, bin);
    finish(tx, filled)
}
