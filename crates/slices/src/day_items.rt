//! The items that the opening of a day touches: those of the lots that may not be shipped any more
//! from then on, and those with staged units.

ghost use Rattle.std.specs.Prelude.{◌≡◌};
ghost use Rattle.sqlite.specs.Held.{state};
ghost use Rattle.slices.specs.Reading.{IsRead};
ghost use Rattle.slices.specs.Slicing.{AreEnding, AreAffected};

use crate::one_table::meta_row;
use crate::sought_rows::{read_rows, seek_all};
use commands::LotRow;
use keyed_rows::reading::All;
use label::BusinessDay;
use rows_in_memory::day_opening::{ending_lots, items_affected, items_of_lots, not_recalled};
use sqlite::{Alter, Transaction};
use std::alloc::Global;
use table_words::error::TableFault;
use tables::least::{Asking, Least};
use tables::lots::Lots;
use tables::recalls::Recalls;
use tables::staged::Staged;
use values::Gtin;

/// The lots that end between the days, by what their items ask for, and are not recalled.
fn read_ending<S: Alter>(
    alloc: Global,
    tx: &mut Transaction<'_, S>,
    old: BusinessDay,
    new: BusinessDay,
) -> Result<Vec<LotRow>, TableFault>
    ensures same_reference { tx.new.conn.ghost_name ≡ tx.old.conn.ghost_name }
    ensures read { IsRead (λ t rows. AreEnding old new t rows.items) (state S.Store tx.old.conn.now) (state S.Store tx.new.conn.now) result }
{
    let all = read_rows::<Lots, All, S>(alloc, tx, &All)?;
    let least = read_rows::<Least, Asking, S>(alloc, tx, &Asking)?;
    let ending = ending_lots(alloc, old, new, least.as_slice(), all.as_slice())?;
    let gtins = items_of_lots(alloc, ending.as_slice())?;
    let recalls = seek_all::<Recalls, Gtin, S>(alloc, tx, gtins.as_slice())?;
    Ok(not_recalled(alloc, ending.as_slice(), recalls.as_slice())?)
}

/// The items that the opening of the day touches, each once.
pub fn affected_items<S: Alter>(
    alloc: Global,
    tx: &mut Transaction<'_, S>,
    day: BusinessDay,
) -> Result<Vec<Gtin>, TableFault>
    ensures same_reference { tx.new.conn.ghost_name ≡ tx.old.conn.ghost_name }
    ensures read { IsRead (λ t gtins. AreAffected day t gtins.items) (state S.Store tx.old.conn.now) (state S.Store tx.new.conn.now) result }
{
    let meta = meta_row(alloc, tx)?;
    let ending = read_ending(alloc, tx, meta.day, day)?;
    let staged = read_rows::<Staged, All, S>(alloc, tx, &All)?;
    Ok(items_affected(alloc, ending.as_slice(), staged.as_slice())?)
}
