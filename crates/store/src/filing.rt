//! The rows of a file as one transaction.

ghost use Rattle.std.specs.Prelude.{◌≡◌, false, ◌+◌, ◌<◌, ◌≤◌, ℤ, List, length, IfOk, OnOk, OnErr};
ghost use Rattle.sqlite.specs.State.{HasCleanDisk, Survives, KeepsCommit};
ghost use Rattle.sqlite.specs.Held.{state};
ghost use Rattle.machine.specs.Acts.{Act};
ghost use Rattle.machine.specs.Once.{IsHistory, acts_after_file};
ghost use Rattle.machine.specs.Machine.{AllSound};
ghost use Rattle.store.specs.Books.{AreBooks, KeepsBooks, IsSettled};
ghost use Rattle.store.specs.Inside.{IsInside, IsInsideOpen};
ghost use Rattle.store.specs.Knowing.{IsKnown};
ghost use Rattle.store.specs.Filing.{rows_of, AreKeysOf, counted as counted_lem, fault_at as fault_at_lem, with_row as with_row_lem, TakesRow, Files, IsFiledOn};

use crate::acting::act_inside;
use crate::day::day_left;
use crate::repeats::find_open;
use crate::{Fault, Reply, RowFault, Tally};
use books_schema::ending::finish;
use commands::laws::{every_command_is_sound, every_key_is_sound};
use commands::{Command, Key};
use label::BusinessDay;
use slices::Known;
use sqlite::{Alter, Connection, Transaction};
use std::alloc::Global;

/// How far the rows of a file have come.
#[derive(Clone, Copy)]
pub struct Filed {
    pub tally: Tally,
    /// The business day after them.
    pub day: BusinessDay,
}

/// Every value of the rows keeps its rule, by its type.
pub fn every_row_is_sound(rows: &[(Key, Command)])
    ensures { AreKeysOf rows.now → AllSound (rows_of rows.now) }
{
    for row in rows {
        every_command_is_sound(&row.1);
        every_key_is_sound(row.0);
    }
}

/// Acts on the rows in order, in one transaction: on all of them, or on none. A row is judged after those before it. A
/// stop leaves the books without the file or with the whole of it.
pub fn file_once<S: Alter>(
    alloc: Global,
    conn: &mut Connection<S>,
    known: &mut Option<Known>,
    day: BusinessDay,
    rows: &[(Key, Command)],
) -> Result<Filed, RowFault>
    requires outside { conn.old.in_transaction ≡ false }
    requires few { length rows.now ≤ 1000 }
    requires known { IsKnown known.old (state S.Store conn.old) }
    ensures outside { conn.new.in_transaction ≡ false }
    ensures known { OnOk result (IsKnown known.new (state S.Store conn.new)) }
    ensures settled { HasCleanDisk (state S.Store conn.new) → IsSettled (state S.Store conn.new) }
    ensures filed { HasCleanDisk (state S.Store conn.new) → AreKeysOf rows.now → (first : ℤ) (acts : List Act) → IsHistory first acts → KeepsBooks first acts (state S.Store conn.old)
        → IsFiledOn first acts (rows_of rows.now) day result (state S.Store conn.new) }
    ensures as_before { HasCleanDisk (state S.Store conn.new) → OnErr result (KeepsCommit (state S.Store conn.old) (state S.Store conn.new)) }
    ensures survives { Survives (state S.Store conn.old) (state S.Store conn.new) (λ trees. AreKeysOf rows.now → (first : ℤ) (acts : List Act) → IsHistory first acts → KeepsBooks first acts (state S.Store conn.old)
        → AreBooks first (acts_after_file first acts (rows_of rows.now)) trees) }
{
    let mut tx = conn.transaction();
    let filed = file_inside(alloc, &mut tx, known, day, rows);
    finish(tx, filed)
}

// The rows within their transaction.
fn file_inside<S: Alter>(
    alloc: Global,
    tx: &mut Transaction<'_, S>,
    known: &mut Option<Known>,
    day: BusinessDay,
    rows: &[(Key, Command)],
) -> Result<Filed, RowFault>
    requires few { length rows.now ≤ 1000 }
    ensures same_reference { tx.new.conn.ghost_name ≡ tx.old.conn.ghost_name }
    ensures files { IsInside (Files rows.now day known.old known.new result) (state S.Store tx.old.conn.now) (state S.Store tx.new.conn.now) }
{
    match find_open(tx) {
        Ok(()) => take_rows(alloc, tx, known, day, rows),
        Err(_) => Err(RowFault::Store),
    }
}

// The rows over a connection that was found open, one after another.
fn take_rows<S: Alter>(
    alloc: Global,
    tx: &mut Transaction<'_, S>,
    known: &mut Option<Known>,
    day: BusinessDay,
    rows: &[(Key, Command)],
) -> Result<Filed, RowFault>
    requires few { length rows.now ≤ 1000 }
    ensures same_reference { tx.new.conn.ghost_name ≡ tx.old.conn.ghost_name }
    ensures files { IsInsideOpen (Files rows.now day known.old known.new result) (state S.Store tx.old.conn.now) (state S.Store tx.new.conn.now) }
{
    let mut filed = Filed {
        tally: Tally {
            accepted: 0,
            repeated: 0,
        },
        day,
    };
    for row in rows {
        filed = take_row(alloc, tx, known, filed, row)?;
    }
    Ok(filed)
}

// The next row within the transaction.
fn take_row<S: Alter>(
    alloc: Global,
    tx: &mut Transaction<'_, S>,
    known: &mut Option<Known>,
    so_far: Filed,
    row: &(Key, Command),
) -> Result<Filed, RowFault>
    requires few { so_far.tally.accepted + so_far.tally.repeated < 1000 }
    ensures same_reference { tx.new.conn.ghost_name ≡ tx.old.conn.ghost_name }
    ensures takes { IsInside (TakesRow (record { key = row.now.0; command = row.now.1 }) known.old known.new so_far result) (state S.Store tx.old.conn.now) (state S.Store tx.new.conn.now) }
    ensures count { IfOk result (λ filed. filed.tally.accepted + filed.tally.repeated ≡ so_far.tally.accepted + so_far.tally.repeated + 1) }
{
    every_command_is_sound(&row.1);
    every_key_is_sound(row.0);
    let acted = act_inside(alloc, tx, known, &row.0, &row.1);
    with_row(so_far, &row.1, acted)
}

// What the rows come to with one more, which went so.
fn with_row(
    so_far: Filed,
    command: &Command,
    acted: Result<Reply, Fault>,
) -> Result<Filed, RowFault>
    requires few { so_far.tally.accepted + so_far.tally.repeated < 1000 }
    ensures { result ≡ with_row_lem so_far command.now acted }
{
    match acted {
        Ok(reply) => Ok(count_reply(so_far, command, reply.repeated)),
        Err(fault) => Err(fault_at(so_far.tally, fault)),
    }
}

// What the rows come to with one more that was acted on.
fn count_reply(so_far: Filed, command: &Command, repeated: bool) -> Filed
    requires few { so_far.tally.accepted + so_far.tally.repeated < 1000 }
    ensures { result ≡ counted_lem so_far command.now repeated }
{
    let Tally {
        accepted,
        repeated: again,
    } = so_far.tally;
    let tally = if repeated {
        Tally {
            accepted,
            repeated: again + 1,
        }
    } else {
        Tally {
            accepted: accepted + 1,
            repeated: again,
        }
    };
    Filed {
        tally,
        day: day_left(so_far.day, command, repeated),
    }
}

// The fault of the row after these.
fn fault_at(so_far: Tally, fault: Fault) -> RowFault
    requires few { so_far.accepted + so_far.repeated < 1000 }
    ensures { result ≡ fault_at_lem so_far fault }
{
    match fault {
        Fault::Refused(refusal) => RowFault::Refused {
            row: so_far.accepted + so_far.repeated + 1,
            refusal,
        },
        Fault::Store => RowFault::Store,
        Fault::Foreign => RowFault::Foreign,
    }
}
