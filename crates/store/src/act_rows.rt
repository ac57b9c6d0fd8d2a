//! The rows of the acts, one at a time.

ghost use Rattle.std.specs.Prelude.{◌≡◌, false, min, ℤ, pos, List};
ghost use Rattle.sqlite.specs.State.{HasCleanDisk, Survives, KeepsCommit};
ghost use Rattle.sqlite.specs.Held.{state};
ghost use Rattle.machine.specs.Acts.{Act};
ghost use Rattle.machine.specs.Once.{IsHistory};
ghost use Rattle.store.specs.ActRows.{AreActsHanded, AreLaterActsHanded};
ghost use Rattle.store.specs.Books.{KeepsBooks, IsSettled};
ghost use Rattle.store.specs.Handing.{NoBooks};

use crate::each_fault::EachFault;
use crate::outside::find_open_outside;
use commands::{RepeatRow, Sink};
use sqlite::{Alter, Connection};
use std::alloc::Global;
use tables::repeats::Repeats;
use whole_tables::{each_above, each_of_all};

/// Hands the rows of `repeats` to the sink, in the order in which they are stored, until it stops. Nothing is changed.
pub fn hand_acts<S: Alter, K: Sink<RepeatRow>>(
    alloc: Global,
    conn: &mut Connection<S>,
    sink: &mut K,
) -> Result<(), EachFault>
    ensures outside { conn.old.in_transaction ≡ false → conn.new.in_transaction ≡ false }
    ensures handed { HasCleanDisk (state S.Store conn.new) → (first : ℤ) (acts : List Act) → IsHistory first acts → KeepsBooks first acts (state S.Store conn.old)
        → AreActsHanded first acts (state S.Store conn.old) (state S.Store conn.new) K.takes K.stops sink.old sink.new result × KeepsBooks first acts (state S.Store conn.new) }
    ensures stays { HasCleanDisk (state S.Store conn.new) → IsSettled (state S.Store conn.old) → KeepsCommit (state S.Store conn.old) (state S.Store conn.new) × IsSettled (state S.Store conn.new) }
    ensures survives { Survives (state S.Store conn.old) (state S.Store conn.new) (NoBooks (state S.Store conn.old)) }
{
    find_open_outside(conn)?;
    match each_of_all::<Repeats, S, K>(alloc, conn, sink) {
        Ok(()) => Ok(()),
        Err(fault) => Err(EachFault::from(fault)),
    }
}

/// Hands the rows of `repeats` that are stored behind this number to the sink, in their order, until it stops. Nothing is
/// changed.
pub fn hand_acts_above<S: Alter, K: Sink<RepeatRow>>(
    alloc: Global,
    conn: &mut Connection<S>,
    number: u64,
    sink: &mut K,
) -> Result<(), EachFault>
    ensures outside { conn.old.in_transaction ≡ false → conn.new.in_transaction ≡ false }
    ensures handed { HasCleanDisk (state S.Store conn.new) → (first : ℤ) (acts : List Act) → IsHistory first acts → KeepsBooks first acts (state S.Store conn.old)
        → AreLaterActsHanded first acts number (state S.Store conn.old) (state S.Store conn.new) K.takes K.stops sink.old sink.new result × KeepsBooks first acts (state S.Store conn.new) }
    ensures stays { HasCleanDisk (state S.Store conn.new) → IsSettled (state S.Store conn.old) → KeepsCommit (state S.Store conn.old) (state S.Store conn.new) × IsSettled (state S.Store conn.new) }
    ensures survives { Survives (state S.Store conn.old) (state S.Store conn.new) (NoBooks (state S.Store conn.old)) }
{
    let rowid = rowid_of(number);
    find_open_outside(conn)?;
    match each_above::<Repeats, S, K>(alloc, conn, &rowid, sink) {
        Ok(()) => Ok(()),
        Err(fault) => Err(EachFault::from(fault)),
    }
}

/// The rowid of this number; of one above all rowids the largest.
fn rowid_of(number: u64) -> i64
    ensures { result ≡ pos (min number 9_223_372_036_854_775_807) }
{
    number.min(i64::MAX as u64) as i64
}
