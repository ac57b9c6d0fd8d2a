//! The rows of `repeats`: the keys, the commands and the answers of the acts.

ghost use Rattle.std.specs.Prelude.{◌≡◌, slice_get, OnOk, IfErr};
ghost use Rattle.sqlite.specs.State.{HasCleanDisk, Survives, KeepsCommit, IsUnchanged};
ghost use Rattle.sqlite.specs.Held.{state};
ghost use Rattle.commands.specs.Spelling.{key_text};
ghost use Rattle.table_words.specs.Typed.{with_repeat};
ghost use Rattle.keyed_rows.specs.Writes.{Writes};
ghost use Rattle.slices.specs.Reading.{IsRead};

use crate::Fault;
use commands::limits::KEY_TEXT_MAX;
use commands::{Key, Listed, RepeatRow};
use keyed_rows::table::add;
use rules::Change;
use slices::read_rows;
use sqlite::{Alter, Transaction};
use std::alloc::Global;
use table_words::error::TableFault;
use tables::repeats::Repeats;
use values::Text;

// A statement that is made ready and never run. It has no parameters and no columns, so nothing is copied.
pub const NEVER_RUN: &str = "BEGIN";

/// Finds the connection open, or fails: makes a statement ready, whose plan the connection keeps. What a
/// connection shows once the disk has shut it says nothing of the books.
pub fn find_open<S: Alter>(tx: &mut Transaction<'_, S>) -> Result<(), Fault>
    ensures same_reference { tx.new.conn.ghost_name ≡ tx.old.conn.ghost_name }
    ensures open { HasCleanDisk (state S.Store tx.new.conn.now) → OnOk result (IsUnchanged (state S.Store tx.old.conn.now) (state S.Store tx.new.conn.now)) }
    ensures fault { IfErr result (λ e. e ≡ Fault.Store) }
    ensures kept { HasCleanDisk (state S.Store tx.new.conn.now) → KeepsCommit (state S.Store tx.old.conn.now) (state S.Store tx.new.conn.now) }
    ensures survives { Survives (state S.Store tx.old.conn.now) (state S.Store tx.new.conn.now) (λ _. ⊥) }
{
    tx.prepare(NEVER_RUN)?;
    Ok(())
}

/// The row under this key, if an act bears it.
pub fn act_under_key<S: Alter>(
    alloc: Global,
    tx: &mut Transaction<'_, S>,
    k: &Text<KEY_TEXT_MAX>,
) -> Result<Option<RepeatRow>, TableFault>
    ensures same_reference { tx.new.conn.ghost_name ≡ tx.old.conn.ghost_name }
    ensures read { IsRead (λ t row. row ≡ t.repeat k.now) (state S.Store tx.old.conn.now) (state S.Store tx.new.conn.now) result }
{
    let rows = read_rows::<Repeats, Text<KEY_TEXT_MAX>, S>(alloc, tx, k)?;
    Ok(first_row(rows))
}

// The first of the rows, where there is one.
fn first_row(rows: Vec<RepeatRow>) -> Option<RepeatRow>
    ensures { result ≡ slice_get rows.items 0 }
{
    let mut rows = rows;
    if rows.is_empty() {
        return None;
    }
    Some(rows.remove(0))
}

/// Keeps the key, the spelling and the answer of an act.
pub fn keep_act<S: Alter>(
    tx: &mut Transaction<'_, S>,
    key: &Key,
    spell: Listed<u8>,
    change: &Change,
) -> Result<(), TableFault>
    ensures same_reference { tx.new.conn.ghost_name ≡ tx.old.conn.ghost_name }
    ensures writes { Writes (with_repeat (record { k = key_text key.now; act = change.now.meta.acts; spell = spell; reply = change.now.text })) (state S.Store tx.old.conn.now) (state S.Store tx.new.conn.now) result }
{
    let row = RepeatRow {
        k: key.text(),
        act: change.meta.acts,
        spell,
        reply: change.text,
    };
    add::<Repeats, S>(tx, &row)
}
