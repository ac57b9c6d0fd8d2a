//! The acts of books, read.

ghost use Rattle.std.specs.Prelude.{◌≡◌, OnOk, IfOk, IfErr};
ghost use Rattle.sqlite.specs.Held.{state};
ghost use Rattle.sqlite.specs.State.{HasCleanDisk, Survives};
ghost use Rattle.table_words.specs.Steps.{IsReady};
ghost use Rattle.table_words.specs.Typed.{tables_in};
ghost use Rattle.tables.specs.Repeats.{repeats};
ghost use Rattle.whole_tables.specs.Whole.{AreAll};
ghost use Rattle.audits.specs.Comparing.{IsUnread};

use crate::finding::Unread;
use commands::{MetaRow, RepeatRow};
use sqlite::{Alter, Transaction};
use std::alloc::Global;
use table_words::error::TableFault;
use tables::meta::Meta;
use tables::repeats::Repeats;
use whole_tables::{TableName, all_rows, rows_by_halves};

/// The rowid in the middle of as many rows.
pub(crate) fn middle_of(rows: u64) -> i64 {
    i64::try_from(rows / 2).unwrap_or(0)
}

/// How many acts the row of `meta` tells.
fn acts_in(rows: &[MetaRow]) -> u64 {
    match rows.first() {
        Some(row) => row.acts,
        None => 0,
    }
}

/// About which rowid the acts are halved: half of them stand up to it, as far as they stand as they were written.
fn middle_act<S: Alter>(alloc: Global, tx: &mut Transaction<'_, S>) -> Result<i64, Unread>
    ensures same_reference { tx.new.conn.ghost_name ≡ tx.old.conn.ghost_name }
    ensures same { HasCleanDisk (state S.Store tx.new.conn.now) → IsReady (state S.Store tx.old.conn.now).now → OnOk result ((state S.Store tx.new.conn.now).now ≡ (state S.Store tx.old.conn.now).now) }
    ensures unread { HasCleanDisk (state S.Store tx.new.conn.now) → IsReady (state S.Store tx.old.conn.now).now → IfErr result (IsUnread (state S.Store tx.old.conn.now).now.trees) }
    ensures survives { Survives (state S.Store tx.old.conn.now) (state S.Store tx.new.conn.now) (λ _. ⊥) }
{
    match all_rows::<Meta, S>(alloc, tx) {
        Ok(rows) => Ok(middle_of(acts_in(rows.as_slice()))),
        Err(TableFault::Foreign) => Err(Unread::Untyped(TableName::Meta)),
        Err(TableFault::Store(_)) => Err(Unread::Store),
    }
}

/// All rows of `repeats`, read one half after the other.
fn act_rows_about<S: Alter>(
    alloc: Global,
    tx: &mut Transaction<'_, S>,
    middle: &i64,
) -> Result<Vec<RepeatRow>, Unread>
    ensures same_reference { tx.new.conn.ghost_name ≡ tx.old.conn.ghost_name }
    ensures rows { HasCleanDisk (state S.Store tx.new.conn.now) → IsReady (state S.Store tx.old.conn.now).now → IfOk result (λ rows. AreAll repeats (tables_in (state S.Store tx.old.conn.now).now.trees) rows.items) }
    ensures same { HasCleanDisk (state S.Store tx.new.conn.now) → IsReady (state S.Store tx.old.conn.now).now → OnOk result ((state S.Store tx.new.conn.now).now ≡ (state S.Store tx.old.conn.now).now) }
    ensures unread { HasCleanDisk (state S.Store tx.new.conn.now) → IsReady (state S.Store tx.old.conn.now).now → IfErr result (IsUnread (state S.Store tx.old.conn.now).now.trees) }
    ensures survives { Survives (state S.Store tx.old.conn.now) (state S.Store tx.new.conn.now) (λ _. ⊥) }
{
    match rows_by_halves::<Repeats, S>(alloc, tx, middle) {
        Ok(rows) => Ok(rows),
        Err(TableFault::Foreign) => Err(Unread::Untyped(TableName::Repeats)),
        Err(TableFault::Store(_)) => Err(Unread::Store),
    }
}

/// All rows of `repeats`.
pub(crate) fn read_acts<S: Alter>(
    alloc: Global,
    tx: &mut Transaction<'_, S>,
) -> Result<Vec<RepeatRow>, Unread>
    ensures same_reference { tx.new.conn.ghost_name ≡ tx.old.conn.ghost_name }
    ensures rows { HasCleanDisk (state S.Store tx.new.conn.now) → IsReady (state S.Store tx.old.conn.now).now → IfOk result (λ rows. AreAll repeats (tables_in (state S.Store tx.old.conn.now).now.trees) rows.items) }
    ensures same { HasCleanDisk (state S.Store tx.new.conn.now) → IsReady (state S.Store tx.old.conn.now).now → OnOk result ((state S.Store tx.new.conn.now).now ≡ (state S.Store tx.old.conn.now).now) }
    ensures unread { HasCleanDisk (state S.Store tx.new.conn.now) → IsReady (state S.Store tx.old.conn.now).now → IfErr result (IsUnread (state S.Store tx.old.conn.now).now.trees) }
    ensures survives { Survives (state S.Store tx.old.conn.now) (state S.Store tx.new.conn.now) (λ _. ⊥) }
{
    let middle = middle_act(alloc, tx)?;
    act_rows_about(alloc, tx, &middle)
}
