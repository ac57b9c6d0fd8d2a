//! The newest tables, as those of older books come to them.

ghost use Rattle.std.specs.Prelude.{◌≡◌, ◌≢◌, OnOk, IfErr};
ghost use Rattle.sqlite.specs.Held.{state};
ghost use Rattle.sqlite.specs.State.{HasCleanDisk, Survives};
ghost use Rattle.sqlite.specs.Tree.{Trees};
ghost use Rattle.table_words.specs.Steps.{IsReady};
ghost use Rattle.table_words.specs.declared.error.TableFault.TheVariants.{Foreign as ForeignTable};
ghost use Rattle.books_schema.specs.declared.ready_connection.Found.TheVariants.{Newest};
ghost use Rattle.audits.specs.Raising.{IsBegunOver, AreShown, CannotBeRaised};

use books_schema::migration::bring;
use books_schema::ready_connection::Found;
use books_schema::settling::meta_row_at;
use sqlite::{Alter, Transaction};
use std::alloc::Global;
use table_words::error::TableFault;
use tables::meta::raise_meta;

/// Puts the row of `meta` under the newest number where it has 3. In other books nothing is changed.
fn raise_number<S: Alter>(alloc: Global, tx: &mut Transaction<'_, S>) -> Result<(), TableFault>
    ensures same_reference { tx.new.conn.ghost_name ≡ tx.old.conn.ghost_name }
    ensures shown { HasCleanDisk (state S.Store tx.new.conn.now) → IsReady (state S.Store tx.old.conn.now).now
        → OnOk result (AreShown Newest (state S.Store tx.old.conn.now).now.trees (state S.Store tx.new.conn.now)) }
    ensures never_foreign { HasCleanDisk (state S.Store tx.new.conn.now) → IsReady (state S.Store tx.old.conn.now).now → IfErr result (λ e. e ≢ ForeignTable) }
    ensures survives { Survives (state S.Store tx.old.conn.now) (state S.Store tx.new.conn.now) (λ _. ⊥) }
{
    match meta_row_at::<3, S>(alloc, tx) {
        Ok(row) => raise_meta(tx, &row),
        Err(TableFault::Foreign) => Ok(()),
        Err(fault) => Err(fault),
    }
}

/// Makes of the tables of these books the newest, which are compared. `Foreign` where they cannot be brought up.
pub(crate) fn raise<S: Alter>(
    alloc: Global,
    tx: &mut Transaction<'_, S>,
    found: Found,
) -> Result<(), TableFault>
    ensures same_reference { tx.new.conn.ghost_name ≡ tx.old.conn.ghost_name }
    ensures shown { HasCleanDisk (state S.Store tx.new.conn.now) → (base : Trees) → IsBegunOver found base (state S.Store tx.old.conn.now) → OnOk result (AreShown found base (state S.Store tx.new.conn.now)) }
    ensures foreign { HasCleanDisk (state S.Store tx.new.conn.now) → (base : Trees) → IsBegunOver found base (state S.Store tx.old.conn.now) → IfErr result (λ e. e ≡ ForeignTable → CannotBeRaised found base) }
    ensures survives { Survives (state S.Store tx.old.conn.now) (state S.Store tx.new.conn.now) (λ _. ⊥) }
{
    match found {
        Found::Newest => raise_number(alloc, tx),
        Found::Older(older) => match bring(alloc, tx, older) {
            Ok(_) => Ok(()),
            Err(fault) => Err(fault),
        },
    }
}
