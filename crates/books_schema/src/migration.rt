//! Brings older books up to the newest schema, in one transaction.

ghost use Rattle.std.specs.Prelude.{◌≡◌, ◌≢◌, ℕ, ℤ, false, IsTrue, OnOk, OnErr, IfOk, IfErr, map};
ghost use Rattle.sqlite.specs.State.{HasCleanDisk, Survives, KeepsCommit, IsUnchanged};
ghost use Rattle.sqlite.specs.Held.{state};
ghost use Rattle.sqlite.specs.Tree.{Trees};
ghost use Rattle.table_words.specs.Steps.{IsReady};
ghost use Rattle.table_words.specs.declared.error.TableFault.TheVariants.{Foreign as ForeignTable};
ghost use Rattle.books_schema.specs.Bringing.{AreItemsTyped, AreFillersTyped, IsOlder, IsOlderReady, HasRoom, AsksNone, Fills, IsBrought, IsWritten, row_of};
ghost use Rattle.books_schema.specs.Older.{number};
ghost use Rattle.books_schema.specs.Opening.{TellTables};
ghost use Rattle.books_schema.specs.Settling.{HasDayAt, HasRow};

use crate::dropping::drop_indexes;
use crate::ending::finish;
use crate::older::OlderBooks;
use crate::settling::meta_row_at;
use crate::steps::{STEPS, run_steps};
use commands::{ItemRow, LeastRow, MetaRow};
use keyed_rows::reading::{All, seek};
use keyed_rows::rows::add_all;
use label::BusinessDay;
use sqlite::{Alter, Connection, Error, Transaction};
use std::alloc::{AllocError, Global};
use table_words::error::TableFault;
use tables::items::Items;
use tables::least::Least;
use tables::meta::raise_meta;
use values::LeastDays;

/// Makes the tables that these books lack behind those that they have, once no index of the books is in their way.
fn make_room<S: Alter>(tx: &mut Transaction<'_, S>, older: OlderBooks) -> Result<(), Error>
    ensures same_reference { tx.new.conn.ghost_name ≡ tx.old.conn.ghost_name }
    ensures done { HasCleanDisk (state S.Store tx.new.conn.now) → (base : Trees) → IsOlder older base (state S.Store tx.old.conn.now)
        → OnOk result (HasRoom older base (state S.Store tx.new.conn.now)) }
    ensures kept { HasCleanDisk (state S.Store tx.new.conn.now) → KeepsCommit (state S.Store tx.old.conn.now) (state S.Store tx.new.conn.now) }
    ensures survives { Survives (state S.Store tx.old.conn.now) (state S.Store tx.new.conn.now) (λ _. ⊥) }
{
    drop_indexes(tx)?;
    run_steps(tx, STEPS, older.number())
}

/// The row of `meta` in these books; `Foreign` where there is no such row, or one with a value that no row has.
fn stored_meta<S: Alter>(
    alloc: Global,
    tx: &mut Transaction<'_, S>,
    older: OlderBooks,
) -> Result<MetaRow, TableFault>
    ensures same_reference { tx.new.conn.ghost_name ≡ tx.old.conn.ghost_name }
    ensures row { HasCleanDisk (state S.Store tx.new.conn.now) → IsReady (state S.Store tx.old.conn.now).now → IfOk result (HasRow (number older) (state S.Store tx.old.conn.now).now.trees) }
    ensures foreign { HasCleanDisk (state S.Store tx.new.conn.now) → IsReady (state S.Store tx.old.conn.now).now
        → IfErr result (λ e. e ≡ ForeignTable → (day : ℤ) → ¬ HasDayAt (number older) (state S.Store tx.old.conn.now).now.trees day) }
    ensures same { HasCleanDisk (state S.Store tx.new.conn.now) → IsReady (state S.Store tx.old.conn.now).now → OnOk result (IsUnchanged (state S.Store tx.old.conn.now) (state S.Store tx.new.conn.now)) }
    ensures kept { HasCleanDisk (state S.Store tx.new.conn.now) → IsReady (state S.Store tx.old.conn.now).now → KeepsCommit (state S.Store tx.old.conn.now) (state S.Store tx.new.conn.now) }
    ensures survives { Survives (state S.Store tx.old.conn.now) (state S.Store tx.new.conn.now) (λ _. ⊥) }
{
    match older {
        OlderBooks::First => meta_row_at::<1, S>(alloc, tx),
        OlderBooks::Second => meta_row_at::<2, S>(alloc, tx),
    }
}

fn none_asked() -> LeastDays
    ensures { result ≡ 0 }
{
    LeastDays::new(0).unwrap()
}

/// A row of `least` for each of these items, which asks for 0 days.
fn least_rows(alloc: Global, items: &[ItemRow]) -> Result<Vec<LeastRow>, AllocError>
    ensures { IfOk result (λ rows. rows.items ≡ map row_of items.now) }
{
    let days = none_asked();
    items
        .iter()
        .map(|i| LeastRow { gtin: i.gtin, days })
        .collect(alloc)
}

/// A row of `least` for each item, which asks for 0 days. `Foreign` where an item has a value that no row has.
fn asking_none<S: Alter>(
    alloc: Global,
    tx: &mut Transaction<'_, S>,
) -> Result<Vec<LeastRow>, TableFault>
    ensures same_reference { tx.new.conn.ghost_name ≡ tx.old.conn.ghost_name }
    ensures rows { HasCleanDisk (state S.Store tx.new.conn.now) → IsReady (state S.Store tx.old.conn.now).now → IfOk result (λ rows. AsksNone (state S.Store tx.old.conn.now).now.trees rows.items) }
    ensures foreign { HasCleanDisk (state S.Store tx.new.conn.now) → IsReady (state S.Store tx.old.conn.now).now
        → IfErr result (λ e. e ≡ ForeignTable → ¬ AreItemsTyped (state S.Store tx.old.conn.now).now.trees) }
    ensures same { HasCleanDisk (state S.Store tx.new.conn.now) → IsReady (state S.Store tx.old.conn.now).now → OnOk result (IsUnchanged (state S.Store tx.old.conn.now) (state S.Store tx.new.conn.now)) }
    ensures kept { HasCleanDisk (state S.Store tx.new.conn.now) → IsReady (state S.Store tx.old.conn.now).now → KeepsCommit (state S.Store tx.old.conn.now) (state S.Store tx.new.conn.now) }
    ensures survives { Survives (state S.Store tx.old.conn.now) (state S.Store tx.new.conn.now) (λ _. ⊥) }
{
    let items = seek::<Items, All, S>(alloc, tx, &All)?;
    Ok(least_rows(alloc, items.as_slice())?)
}

/// The rows of `least` that are added: from schema 1 one for each item, which asks for 0 days, else none. `Foreign` where
/// an item that is read has a value that no row has.
fn fillers<S: Alter>(
    alloc: Global,
    tx: &mut Transaction<'_, S>,
    older: OlderBooks,
) -> Result<Vec<LeastRow>, TableFault>
    ensures same_reference { tx.new.conn.ghost_name ≡ tx.old.conn.ghost_name }
    ensures rows { HasCleanDisk (state S.Store tx.new.conn.now) → IsReady (state S.Store tx.old.conn.now).now → IfOk result (λ rows. Fills older (state S.Store tx.old.conn.now).now.trees rows.items) }
    ensures foreign { HasCleanDisk (state S.Store tx.new.conn.now) → IsReady (state S.Store tx.old.conn.now).now
        → IfErr result (λ e. e ≡ ForeignTable → ¬ AreFillersTyped older (state S.Store tx.old.conn.now).now.trees) }
    ensures same { HasCleanDisk (state S.Store tx.new.conn.now) → IsReady (state S.Store tx.old.conn.now).now → IsTrue (state S.Store tx.old.conn.now).is_open
        → OnOk result (IsUnchanged (state S.Store tx.old.conn.now) (state S.Store tx.new.conn.now)) }
    ensures kept { HasCleanDisk (state S.Store tx.new.conn.now) → IsReady (state S.Store tx.old.conn.now).now → KeepsCommit (state S.Store tx.old.conn.now) (state S.Store tx.new.conn.now) }
    ensures survives { Survives (state S.Store tx.old.conn.now) (state S.Store tx.new.conn.now) (λ _. ⊥) }
{
    match older {
        OlderBooks::First => asking_none(alloc, tx),
        OlderBooks::Second => Ok(Vec::new(alloc)),
    }
}

/// The row of `meta` in these books, and the rows of `least` that are added. `Foreign` where there is no such row of
/// `meta`, or where that or an item that is read has a value that no row has.
fn read_old<S: Alter>(
    alloc: Global,
    tx: &mut Transaction<'_, S>,
    older: OlderBooks,
) -> Result<(MetaRow, Vec<LeastRow>), TableFault>
    ensures same_reference { tx.new.conn.ghost_name ≡ tx.old.conn.ghost_name }
    ensures row { HasCleanDisk (state S.Store tx.new.conn.now) → IsReady (state S.Store tx.old.conn.now).now → IfOk result (λ read. HasRow (number older) (state S.Store tx.old.conn.now).now.trees read.0) }
    ensures fills { HasCleanDisk (state S.Store tx.new.conn.now) → IsReady (state S.Store tx.old.conn.now).now → IfOk result (λ read. Fills older (state S.Store tx.old.conn.now).now.trees read.1.items) }
    ensures foreign { HasCleanDisk (state S.Store tx.new.conn.now) → IsReady (state S.Store tx.old.conn.now).now
        → IfErr result (λ e. e ≡ ForeignTable → (day : ℤ) → HasDayAt (number older) (state S.Store tx.old.conn.now).now.trees day → ¬ AreFillersTyped older (state S.Store tx.old.conn.now).now.trees) }
    ensures same { HasCleanDisk (state S.Store tx.new.conn.now) → IsReady (state S.Store tx.old.conn.now).now → OnOk result (IsUnchanged (state S.Store tx.old.conn.now) (state S.Store tx.new.conn.now)) }
    ensures kept { HasCleanDisk (state S.Store tx.new.conn.now) → IsReady (state S.Store tx.old.conn.now).now → KeepsCommit (state S.Store tx.old.conn.now) (state S.Store tx.new.conn.now) }
    ensures survives { Survives (state S.Store tx.old.conn.now) (state S.Store tx.new.conn.now) (λ _. ⊥) }
{
    let row = stored_meta(alloc, tx, older)?;
    let least = fillers(alloc, tx, older)?;
    Ok((row, least))
}

/// Puts the row of `meta` under the newest number, and adds the rows of `least`.
fn write_new<S: Alter>(
    tx: &mut Transaction<'_, S>,
    row: &MetaRow,
    least: &[LeastRow],
) -> Result<(), TableFault>
    ensures same_reference { tx.new.conn.ghost_name ≡ tx.old.conn.ghost_name }
    ensures done { HasCleanDisk (state S.Store tx.new.conn.now) → (older : OlderBooks) (base : Trees) → HasRoom older base (state S.Store tx.old.conn.now)
        → HasRow (number older) (state S.Store tx.old.conn.now).now.trees row.now → Fills older (state S.Store tx.old.conn.now).now.trees least.now
        → OnOk result (IsWritten older base (state S.Store tx.new.conn.now)) }
    ensures never_foreign { HasCleanDisk (state S.Store tx.new.conn.now) → IsReady (state S.Store tx.old.conn.now).now → (version : ℕ) → HasRow version (state S.Store tx.old.conn.now).now.trees row.now
        → IfErr result (λ e. e ≢ ForeignTable) }
    ensures kept { HasCleanDisk (state S.Store tx.new.conn.now) → KeepsCommit (state S.Store tx.old.conn.now) (state S.Store tx.new.conn.now) }
    ensures survives { Survives (state S.Store tx.old.conn.now) (state S.Store tx.new.conn.now) (λ _. ⊥) }
{
    raise_meta(tx, row)?;
    add_all::<Least, S>(tx, least)
}

/// Makes of the tables of these books those of the newest; the business day in them. `Foreign` where the
/// row of `meta` is missing or has a value that no row has, or, from schema 1, an item has one.
pub fn bring<S: Alter>(
    alloc: Global,
    tx: &mut Transaction<'_, S>,
    older: OlderBooks,
) -> Result<BusinessDay, TableFault>
    ensures same_reference { tx.new.conn.ghost_name ≡ tx.old.conn.ghost_name }
    ensures day { HasCleanDisk (state S.Store tx.new.conn.now) → (base : Trees) → IsOlder older base (state S.Store tx.old.conn.now) → IfOk result (HasDayAt (number older) base) }
    ensures done { HasCleanDisk (state S.Store tx.new.conn.now) → (base : Trees) → IsOlder older base (state S.Store tx.old.conn.now)
        → OnOk result (IsWritten older base (state S.Store tx.new.conn.now)) }
    ensures foreign { HasCleanDisk (state S.Store tx.new.conn.now) → (base : Trees) → IsOlder older base (state S.Store tx.old.conn.now)
        → IfErr result (λ e. e ≡ ForeignTable → (day : ℤ) → HasDayAt (number older) base day → ¬ AreFillersTyped older base) }
    ensures kept { HasCleanDisk (state S.Store tx.new.conn.now) → (base : Trees) → IsOlder older base (state S.Store tx.old.conn.now) → KeepsCommit (state S.Store tx.old.conn.now) (state S.Store tx.new.conn.now) }
    ensures survives { Survives (state S.Store tx.old.conn.now) (state S.Store tx.new.conn.now) (λ _. ⊥) }
{
    make_room(tx, older)?;
    let (row, least) = read_old(alloc, tx, older)?;
    write_new(tx, &row, least.as_slice())?;
    Ok(row.day)
}

/// Brings these books up, in one transaction of its own; the business day that is stored. The tables have the rows that
/// they had, `meta` has the newest number, and of the tables that were lacking `least` has one row for each item, with 0
/// days, the others none. `Foreign` where the row of `meta` is missing or has a value that no row has, or, from schema 1,
/// an item has one. After an error the tables are as they were.
pub fn bring_up<S: Alter>(
    alloc: Global,
    conn: &mut Connection<S>,
    older: OlderBooks,
) -> Result<BusinessDay, TableFault>
    requires outside { conn.old.in_transaction ≡ false }
    ensures day { HasCleanDisk (state S.Store conn.new) → IsOlderReady older (state S.Store conn.old).now → IfOk result (HasDayAt (number older) (state S.Store conn.old).now.trees) }
    ensures foreign { HasCleanDisk (state S.Store conn.new) → IsOlderReady older (state S.Store conn.old).now
        → IfErr result (λ e. e ≡ ForeignTable → (day : ℤ) → HasDayAt (number older) (state S.Store conn.old).now.trees day → ¬ AreFillersTyped older (state S.Store conn.old).now.trees) }
    ensures open { HasCleanDisk (state S.Store conn.new) → OnOk result (IsTrue (state S.Store conn.new).is_open) }
    ensures ready { HasCleanDisk (state S.Store conn.new) → IsOlderReady older (state S.Store conn.old).now → OnOk result (IsReady (state S.Store conn.new).now) }
    ensures brought { HasCleanDisk (state S.Store conn.new) → IsOlderReady older (state S.Store conn.old).now
        → OnOk result (IsBrought older (state S.Store conn.old).now.trees (state S.Store conn.new).now.trees) }
    ensures settled { HasCleanDisk (state S.Store conn.new) → OnOk result ((state S.Store conn.new).committed ≡ (state S.Store conn.new).now) }
    ensures failed { HasCleanDisk (state S.Store conn.new) → IsOlderReady older (state S.Store conn.old).now → (state S.Store conn.old).now ≡ (state S.Store conn.old).committed
        → IsTrue (state S.Store conn.new).is_open → OnErr result (((state S.Store conn.new).now ≡ (state S.Store conn.old).now) × ((state S.Store conn.new).committed ≡ (state S.Store conn.old).now)) }
    ensures survives { Survives (state S.Store conn.old) (state S.Store conn.new)
        (λ db. IsOlderReady older (state S.Store conn.old).now → IsBrought older (state S.Store conn.old).now.trees db × TellTables db) }
    ensures outside { conn.new.in_transaction ≡ false }
{
    let mut tx = conn.transaction();
    let day = bring(alloc, &mut tx, older);
    finish(tx, day)
}
