//! The lines of a lot's stock card, one at a time.

ghost use Rattle.std.specs.Prelude.{◌≡◌, false, ℤ, List};
ghost use Rattle.sqlite.specs.State.{HasCleanDisk, Survives, KeepsCommit};
ghost use Rattle.sqlite.specs.Held.{state};
ghost use Rattle.machine.specs.Acts.{Act};
ghost use Rattle.machine.specs.Once.{IsHistory};
ghost use Rattle.machine.specs.Views.{card_of_lot};
ghost use Rattle.store.specs.Books.{KeepsBooks, IsSettled};
ghost use Rattle.store.specs.Handing.{IsHandedOn, NoBooks};

use crate::each_fault::EachFault;
use crate::outside::find_open_outside;
use commands::{CardRow, Sink};
use sqlite::{Alter, Connection};
use std::alloc::Global;
use tables::cards::each_card;
use values::LotId;

/// Hands the lines of the lot's stock card to the sink, by act, until it stops. Nothing is changed.
pub fn hand_card<S: Alter, K: Sink<CardRow>>(
    alloc: Global,
    conn: &mut Connection<S>,
    lot: &LotId,
    sink: &mut K,
) -> Result<(), EachFault>
    ensures outside { conn.old.in_transaction ≡ false → conn.new.in_transaction ≡ false }
    ensures handed { HasCleanDisk (state S.Store conn.new) → (first : ℤ) (acts : List Act) → IsHistory first acts → KeepsBooks first acts (state S.Store conn.old)
        → IsHandedOn first acts K.takes K.stops (card_of_lot first acts lot.now) sink.old sink.new result (state S.Store conn.new) }
    ensures stays { HasCleanDisk (state S.Store conn.new) → IsSettled (state S.Store conn.old) → KeepsCommit (state S.Store conn.old) (state S.Store conn.new) × IsSettled (state S.Store conn.new) }
    ensures survives { Survives (state S.Store conn.old) (state S.Store conn.new) (NoBooks (state S.Store conn.old)) }
{
    find_open_outside(conn)?;
    match each_card(alloc, conn, lot, sink) {
        Ok(()) => Ok(()),
        Err(fault) => Err(EachFault::from(fault)),
    }
}
