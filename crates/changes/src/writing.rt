//! A change, written within a transaction.

ghost use Rattle.std.specs.Prelude.{◌≡◌};
ghost use Rattle.sqlite.specs.Held.{state};
ghost use Rattle.keyed_rows.specs.Writes.{Writes, each_written};
ghost use Rattle.whole_tables.specs.declared.key.TableName.TheVariants as table_name;
ghost use Rattle.changes.specs.Written.{stage_emptied, table_written, table_made, change_made};

use crate::rows::{add_many_rows, add_rows, put_new_rows, put_rows, write_new_rows, write_rows};
use keyed_rows::table::put;
use rules::Change;
use sqlite::{Alter, Transaction};
use std::alloc::Global;
use table_words::error::TableFault;
use tables::bins::Bins;
use tables::cards::Cards;
use tables::items::Items;
use tables::least::Least;
use tables::lines::{Lines, fill_lines};
use tables::lots::Lots;
use tables::meta::Meta;
use tables::orders::Orders;
use tables::recalls::Recalls;
use tables::reserved::Reserved;
use tables::shiplines::Shiplines;
use tables::shipments::Shipments;
use tables::staged::{Staged, empty_stage};
use tables::stock::Stock;
use tables::urgents::Urgents;
use values::Name;
use whole_tables::{TABLE_NAMES, TableName};

/// Whether the lots that are put first came by this act. Then their units are the first of them too.
fn brings_lots(change: &Change) -> bool {
    match change.put.lots.as_slice().first() {
        Some(row) => row.came == change.meta.acts,
        None => false,
    }
}

/// Whether the orders that are put were taken by this act. Then their lines and reservations are new too.
fn takes_orders(change: &Change) -> bool {
    match change.put.orders.as_slice().first() {
        Some(row) => row.act == change.meta.acts,
        None => false,
    }
}

/// Whether the items that are put are new. Then what they ask for is new too.
fn brings_items(change: &Change) -> bool {
    !change.put.items.as_slice().is_empty()
}

/// Lines of orders: those of an order that is filled by one statement.
fn write_lines<S: Alter>(
    alloc: Global,
    tx: &mut Transaction<'_, S>,
    change: &Change,
    filled: Option<Name>,
) -> Result<(), TableFault>
    ensures same_reference { tx.new.conn.ghost_name ≡ tx.old.conn.ghost_name }
    ensures writes { Writes (table_made change.now table_name.Lines filled) (state S.Store tx.old.conn.now) (state S.Store tx.new.conn.now) result }
{
    match filled {
        Some(order) => fill_lines(tx, &order),
        None => write_line_rows(alloc, tx, change),
    }
}

fn write_line_rows<S: Alter>(
    alloc: Global,
    tx: &mut Transaction<'_, S>,
    change: &Change,
) -> Result<(), TableFault>
    ensures same_reference { tx.new.conn.ghost_name ≡ tx.old.conn.ghost_name }
    ensures writes { Writes (table_written change.now table_name.Lines) (state S.Store tx.old.conn.now) (state S.Store tx.new.conn.now) result }
{
    if takes_orders(change) {
        return put_new_rows::<Lines, S>(alloc, tx, &change.put.lines);
    }
    put_rows::<Lines, S>(tx, &change.put.lines, false)
}

/// The stage of an order, if there is one to empty: one statement for all its rows.
fn write_stage<S: Alter>(tx: &mut Transaction<'_, S>, stage: Option<Name>) -> Result<(), TableFault>
    ensures same_reference { tx.new.conn.ghost_name ≡ tx.old.conn.ghost_name }
    ensures writes { Writes (stage_emptied stage) (state S.Store tx.old.conn.now) (state S.Store tx.new.conn.now) result }
{
    match stage {
        Some(order) => empty_stage(tx, &order),
        None => Ok(()),
    }
}

/// What is staged for orders.
fn write_staged<S: Alter>(tx: &mut Transaction<'_, S>, change: &Change) -> Result<(), TableFault>
    ensures same_reference { tx.new.conn.ghost_name ≡ tx.old.conn.ghost_name }
    ensures writes { Writes (table_written change.now table_name.Staged) (state S.Store tx.old.conn.now) (state S.Store tx.new.conn.now) result }
{
    write_stage(tx, change.dropped.stage)?;
    write_rows::<Staged, S>(tx, &change.put.staged, &change.dropped.staged, true)
}

/// What is reserved for orders. What a new order takes that is not urgent is new: it changes no reservation of another.
fn write_reserved<S: Alter>(
    alloc: Global,
    tx: &mut Transaction<'_, S>,
    change: &Change,
) -> Result<(), TableFault>
    ensures same_reference { tx.new.conn.ghost_name ≡ tx.old.conn.ghost_name }
    ensures writes { Writes (table_written change.now table_name.Reserved) (state S.Store tx.old.conn.now) (state S.Store tx.new.conn.now) result }
{
    let are_new = takes_orders(change);
    if are_new && change.put.urgents.as_slice().is_empty() {
        return write_new_rows::<Reserved, S>(
            alloc,
            tx,
            &change.put.reserved,
            &change.dropped.reserved,
        );
    }
    write_rows::<Reserved, S>(tx, &change.put.reserved, &change.dropped.reserved, are_new)
}

/// The rows of one table; those of `repeats` are written by others.
fn write_table<S: Alter>(
    alloc: Global,
    tx: &mut Transaction<'_, S>,
    change: &Change,
    filled: Option<Name>,
    table: TableName,
) -> Result<(), TableFault>
    ensures same_reference { tx.new.conn.ghost_name ≡ tx.old.conn.ghost_name }
    ensures writes { Writes (table_made change.now table filled) (state S.Store tx.old.conn.now) (state S.Store tx.new.conn.now) result }
{
    let rows = &change.put;
    match table {
        TableName::Items => add_rows::<Items, S>(tx, &rows.items),
        TableName::Least => put_rows::<Least, S>(tx, &rows.least, brings_items(change)),
        TableName::Bins => add_rows::<Bins, S>(tx, &rows.bins),
        TableName::Lots => put_rows::<Lots, S>(tx, &rows.lots, brings_lots(change)),
        TableName::Recalls => add_rows::<Recalls, S>(tx, &rows.recalls),
        TableName::Stock => write_rows::<Stock, S>(
            tx,
            &rows.stock,
            &change.dropped.stock,
            brings_lots(change),
        ),
        TableName::Orders => put_rows::<Orders, S>(tx, &rows.orders, takes_orders(change)),
        TableName::Urgents => add_rows::<Urgents, S>(tx, &rows.urgents),
        TableName::Lines => write_lines(alloc, tx, change, filled),
        TableName::Staged => write_staged(tx, change),
        TableName::Reserved => write_reserved(alloc, tx, change),
        TableName::Shipments => add_rows::<Shipments, S>(tx, &rows.shipments),
        TableName::Shiplines => add_many_rows::<Shiplines, S>(alloc, tx, &rows.shiplines),
        TableName::Cards => add_many_rows::<Cards, S>(alloc, tx, &rows.cards),
        TableName::Meta => put::<Meta, S>(tx, &change.meta, false),
        TableName::Repeats => Ok(()),
    }
}

/// The rows of these tables in turn.
fn write_tables<S: Alter>(
    alloc: Global,
    tx: &mut Transaction<'_, S>,
    change: &Change,
    filled: &Option<Name>,
    tables: &[TableName],
) -> Result<(), TableFault>
    ensures same_reference { tx.new.conn.ghost_name ≡ tx.old.conn.ghost_name }
    ensures writes { Writes (each_written (λ n. table_made change.now n filled.now) tables.now) (state S.Store tx.old.conn.now) (state S.Store tx.new.conn.now) result }
{
    for table in tables {
        write_table(alloc, tx, change, *filled, *table)?;
    }
    Ok(())
}

/// Writes a change: drops its rows and puts its rows, and the row of `meta`. Of rows under one
/// key the last stands. Where its lines are all lines of an order that is `filled`, each with all its
/// units shipped, one statement writes them.
pub fn write_change<S: Alter>(
    alloc: Global,
    tx: &mut Transaction<'_, S>,
    change: &Change,
    filled: Option<Name>,
) -> Result<(), TableFault>
    ensures same_reference { tx.new.conn.ghost_name ≡ tx.old.conn.ghost_name }
    ensures writes { Writes (change_made change.now filled) (state S.Store tx.old.conn.now) (state S.Store tx.new.conn.now) result }
{
    write_tables(alloc, tx, change, &filled, TABLE_NAMES)
}
