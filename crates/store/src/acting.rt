//! An act as one transaction.

ghost use Rattle.std.specs.Prelude.{◌≡◌, ⊤, false, Some, Ok, ℤ, List, IsTrue, OnErr};
ghost use Rattle.sqlite.specs.State.{HasCleanDisk, Survives, KeepsCommit};
ghost use Rattle.sqlite.specs.Held.{state};
ghost use Rattle.table_words.specs.Typed.{with_repeat};
ghost use Rattle.keyed_rows.specs.Writes.{Writes};
ghost use Rattle.machine.specs.Acts.{Act};
ghost use Rattle.machine.specs.Once.{IsHistory, is_key_of, acts_after};
ghost use Rattle.changes.specs.Written.{change_made};
ghost use Rattle.store.specs.Books.{AreBooks, KeepsBooks};
ghost use Rattle.store.specs.Inside.{IsInside, IsInsideOpen};
ghost use Rattle.store.specs.Acting.{IsActedOn, Acts, IsNew, IsDecidedAs, repeat_of, answer_of};
ghost use Rattle.store.specs.Knowing.{IsKnown};

use crate::earlier_reply::repeat_reply;
use crate::known::{follow, forget_undone, known_in};
use crate::repeats::{act_under_key, find_open, keep_act};
use crate::{Fault, Reply};
use books_schema::ending::finish;
use changes::write_change;
use commands::{Command, Key, Listed, spell};
use rules::{Change, decide};
use slices::{Known, read_slice};
use sqlite::{Alter, Connection, Transaction};
use std::alloc::Global;
use table_words::error::TableFault;
use values::Name;

/// Acts on the command under its key, in one transaction.
///
/// A key that an earlier act bears is looked at before every other rule: the same command gets that
/// act's answer again, and another is refused (K01). Under a new key the rules decide, and an accepted
/// command is written with its key and its answer. What is refused, and what fails, leaves the books as
/// they were. A stop leaves them without the act or with the whole of it.
pub fn act_once<S: Alter>(
    alloc: Global,
    conn: &mut Connection<S>,
    known: &mut Option<Known>,
    key: &Key,
    command: &Command,
) -> Result<Reply, Fault>
    requires outside { conn.old.in_transaction ≡ false }
    requires known { IsKnown known.old (state S.Store conn.old) }
    ensures outside { conn.new.in_transaction ≡ false }
    ensures known { IsKnown known.new (state S.Store conn.new) }
    ensures acted { HasCleanDisk (state S.Store conn.new) → IsTrue (is_key_of key.now command.now) → (first : ℤ) (acts : List Act) → IsHistory first acts → KeepsBooks first acts (state S.Store conn.old)
        → IsActedOn first acts (record { key = key.now; command = command.now }) result (state S.Store conn.new) }
    ensures as_before { HasCleanDisk (state S.Store conn.new) → OnErr result (KeepsCommit (state S.Store conn.old) (state S.Store conn.new)) }
    ensures survives { Survives (state S.Store conn.old) (state S.Store conn.new) (λ trees. IsTrue (is_key_of key.now command.now) → (first : ℤ) (acts : List Act) → IsHistory first acts → KeepsBooks first acts (state S.Store conn.old)
        → AreBooks first (acts_after first acts (record { key = key.now; command = command.now })) trees) }
{
    let mut tx = conn.transaction();
    let reply = act_inside(alloc, &mut tx, known, key, command);
    let acted = reply.is_ok();
    let reply = finish(tx, reply);
    forget_undone(alloc, known, acted, &reply);
    reply
}

/// The act within its transaction.
pub fn act_inside<S: Alter>(
    alloc: Global,
    tx: &mut Transaction<'_, S>,
    known: &mut Option<Known>,
    key: &Key,
    command: &Command,
) -> Result<Reply, Fault>
    ensures same_reference { tx.new.conn.ghost_name ≡ tx.old.conn.ghost_name }
    ensures acts { IsInside (Acts (record { key = key.now; command = command.now }) (λ _ _ _. ⊤) known.old known.new result) (state S.Store tx.old.conn.now) (state S.Store tx.new.conn.now) }
{
    find_open(tx)?;
    act_open(alloc, tx, known, key, command)
}

// The key's row of `repeats` is looked up before every other rule.
fn act_open<S: Alter>(
    alloc: Global,
    tx: &mut Transaction<'_, S>,
    known: &mut Option<Known>,
    key: &Key,
    command: &Command,
) -> Result<Reply, Fault>
    ensures same_reference { tx.new.conn.ghost_name ≡ tx.old.conn.ghost_name }
    ensures acts { IsInsideOpen (Acts (record { key = key.now; command = command.now }) (λ _ _ _. ⊤) known.old known.new result) (state S.Store tx.old.conn.now) (state S.Store tx.new.conn.now) }
{
    let found = act_under_key(alloc, tx, &key.text())?;
    match found {
        Some(row) => repeat_reply(alloc, &row, command),
        None => act_anew(alloc, tx, known, key, command),
    }
}

// A command whose key is new, once what is known of the books has been read.
fn act_anew<S: Alter>(
    alloc: Global,
    tx: &mut Transaction<'_, S>,
    known: &mut Option<Known>,
    key: &Key,
    command: &Command,
) -> Result<Reply, Fault>
    ensures same_reference { tx.new.conn.ghost_name ≡ tx.old.conn.ghost_name }
    ensures acts { IsInsideOpen (Acts (record { key = key.now; command = command.now }) IsNew known.old known.new result) (state S.Store tx.old.conn.now) (state S.Store tx.new.conn.now) }
{
    let mut found = known_in(alloc, tx, known)?;
    let reply = act_known(alloc, tx, &mut found, key, command);
    *known = Some(found);
    reply
}

// A command whose key is new: it is decided by the rows that it touches.
fn act_known<S: Alter>(
    alloc: Global,
    tx: &mut Transaction<'_, S>,
    known: &mut Known,
    key: &Key,
    command: &Command,
) -> Result<Reply, Fault>
    ensures same_reference { tx.new.conn.ghost_name ≡ tx.old.conn.ghost_name }
    ensures acts { IsInsideOpen (Acts (record { key = key.now; command = command.now }) IsNew (Some known.old) (Some known.new) result) (state S.Store tx.old.conn.now) (state S.Store tx.new.conn.now) }
{
    let slice = read_slice(alloc, tx, known, command)?;
    let change = decide(alloc, &slice, key, command);
    // A call, and before any `?`: dropped at the end of its scope it is dropped field by field (docs/GATE.md).
    drop(slice);
    act_decided(alloc, tx, known, key, command, change.map_err(Fault::from))
}

// A command on which there is a decision: if it is accepted, it is written.
fn act_decided<S: Alter>(
    alloc: Global,
    tx: &mut Transaction<'_, S>,
    known: &mut Known,
    key: &Key,
    command: &Command,
    decision: Result<Change, Fault>,
) -> Result<Reply, Fault>
    ensures same_reference { tx.new.conn.ghost_name ≡ tx.old.conn.ghost_name }
    ensures acts { IsInsideOpen (Acts (record { key = key.now; command = command.now }) (IsDecidedAs decision) (Some known.old) (Some known.new) result) (state S.Store tx.old.conn.now) (state S.Store tx.new.conn.now) }
{
    match decision {
        Ok(change) => {
            let reply = accept_known(alloc, tx, known, key, command, &change);
            // (as `slice` above)
            drop(change);
            reply
        }
        Err(fault) => Err(fault),
    }
}

// Writes what an accepted command changes; the orders that it opens, and the items and bins that it makes, are known before,
// and what follows what is written has its rows after.
fn accept_known<S: Alter>(
    alloc: Global,
    tx: &mut Transaction<'_, S>,
    known: &mut Known,
    key: &Key,
    command: &Command,
    change: &Change,
) -> Result<Reply, Fault>
    ensures same_reference { tx.new.conn.ghost_name ≡ tx.old.conn.ghost_name }
    ensures acts { IsInsideOpen (Acts (record { key = key.now; command = command.now }) (IsDecidedAs (Ok change.now)) (Some known.old) (Some known.new) result) (state S.Store tx.old.conn.now) (state S.Store tx.new.conn.now) }
{
    let filled = known
        .rows
        .followed
        .order_filled(change.put.lines.as_slice());
    known.add_change(alloc, tx, &change.put)?;
    let written = accept(alloc, tx, key, command, change, filled);
    follow(known, change, &written);
    answer_to(change, written)
}

// The answer to an accepted command, once what it changes has been written, or was not.
fn answer_to(change: &Change, written: Result<(), TableFault>) -> Result<Reply, Fault>
    ensures { result ≡ answer_of change.now written }
{
    match written {
        Ok(()) => Ok(Reply {
            text: change.text,
            repeated: false,
        }),
        Err(fault) => Err(Fault::from(fault)),
    }
}

// Writes what an accepted command changes, and then its row of `repeats`. Where its lines are all those of an order that is
// `filled`, one statement writes them.
fn accept<S: Alter>(
    alloc: Global,
    tx: &mut Transaction<'_, S>,
    key: &Key,
    command: &Command,
    change: &Change,
    filled: Option<Name>,
) -> Result<(), TableFault>
    ensures same_reference { tx.new.conn.ghost_name ≡ tx.old.conn.ghost_name }
    ensures writes { Writes (λ t. with_repeat (repeat_of key.now command.now change.now) (change_made change.now filled t)) (state S.Store tx.old.conn.now) (state S.Store tx.new.conn.now) result }
{
    let spelled = spell(alloc, command)?;
    write_change(alloc, tx, change, filled)?;
    keep_act(tx, key, Listed::from_vec(spelled), change)
}
