//! Drops the indexes that earlier programs made, where they stand in older books.

ghost use Rattle.std.specs.Prelude.{◌≡◌, List, [], ℕ, OnOk};
ghost use Rattle.sqlite.specs.State.{HasCleanDisk, Survives, KeepsCommit};
ghost use Rattle.sqlite.specs.Held.{state};
ghost use Rattle.sqlite.specs.Tree.{Trees};
ghost use Rattle.sqlite_schema.specs.declared.schema.Index.{Index};
ghost use Rattle.books_schema.specs.Older.{HasOurs, HasFewer, Drops};
ghost use Rattle.books_schema.specs.declared.older.OlderBooks.{OlderBooks};

use sqlite::{Alter, Error, Transaction};

const DROP_STAGED_BY_GTIN: &str = "DROP INDEX IF EXISTS staged_by_gtin";

const DROP_RESERVED_BY_GTIN: &str = "DROP INDEX IF EXISTS reserved_by_gtin";

const DROP_SHIPLINES_OF_LOT: &str = "DROP INDEX IF EXISTS shiplines_of_lot";

const DROP_ORDERS_BY_STATE: &str = "DROP INDEX IF EXISTS orders_by_state";

/// Runs the text, which drops the index of its name where there is one.
fn drop_index<S: Alter>(tx: &mut Transaction<'_, S>, text: &str) -> Result<(), Error>
    ensures same_reference { tx.new.conn.ghost_name ≡ tx.old.conn.ghost_name }
    ensures done { HasCleanDisk (state S.Store tx.new.conn.now) → (older : OlderBooks) (base : Trees) (name : List ℕ) (ours : List Index) → Drops text.now name
        → HasOurs older base ours (state S.Store tx.old.conn.now) → OnOk result (HasFewer older base ours name (state S.Store tx.new.conn.now)) }
    ensures kept { HasCleanDisk (state S.Store tx.new.conn.now) → KeepsCommit (state S.Store tx.old.conn.now) (state S.Store tx.new.conn.now) }
    ensures survives { Survives (state S.Store tx.old.conn.now) (state S.Store tx.new.conn.now) (λ _. ⊥) }
{
    tx.execute(text, &[])?;
    Ok(())
}

/// Drops those of the indexes that stand. The tables keep their rows, and with the indexes of their keys they
/// are then all that the schema has.
pub fn drop_indexes<S: Alter>(tx: &mut Transaction<'_, S>) -> Result<(), Error>
    ensures same_reference { tx.new.conn.ghost_name ≡ tx.old.conn.ghost_name }
    ensures done { HasCleanDisk (state S.Store tx.new.conn.now) → (older : OlderBooks) (base : Trees) (ours : List Index) → HasOurs older base ours (state S.Store tx.old.conn.now)
        → OnOk result (HasOurs older base [] (state S.Store tx.new.conn.now)) }
    ensures kept { HasCleanDisk (state S.Store tx.new.conn.now) → KeepsCommit (state S.Store tx.old.conn.now) (state S.Store tx.new.conn.now) }
    ensures survives { Survives (state S.Store tx.old.conn.now) (state S.Store tx.new.conn.now) (λ _. ⊥) }
{
    drop_index(tx, DROP_STAGED_BY_GTIN)?;
    drop_index(tx, DROP_RESERVED_BY_GTIN)?;
    drop_index(tx, DROP_SHIPLINES_OF_LOT)?;
    drop_index(tx, DROP_ORDERS_BY_STATE)
}
