//! Rows of goods that are sought, from what is known of them, and from the tables where nothing is.

ghost use Rattle.std.specs.Prelude.{◌≡◌};
ghost use Rattle.sqlite.specs.Held.{state};
ghost use Rattle.tables.specs.Bins.{AreBinsOf};
ghost use Rattle.tables.specs.Items.{AreItemsOf};
ghost use Rattle.tables.specs.Least.{AreLeastOf};
ghost use Rattle.tables.specs.Lots.{AreLotOf, AreLotsOf as AreLotsOfItem};
ghost use Rattle.tables.specs.Recalls.{AreRecallsOf};
ghost use Rattle.slices.specs.Reading.{Each, IsRead};
ghost use Rattle.slices.specs.ByLot.{AreLotsOf};
ghost use Rattle.slices.specs.Remembering.{Learning};
ghost use Rattle.slices.specs.Slicing.{AreBins, AreLeast};

use crate::rows_known::RowsKnown;
use crate::{seek_all_known, seek_known};
use commands::{BinRow, ItemRow, LeastRow, LotRow, RecallRow};
use sqlite::{Alter, Transaction};
use std::alloc::Global;
use table_words::error::TableFault;
use tables::bins::Bins;
use tables::items::Items;
use tables::least::Least;
use tables::lots::Lots;
use tables::recalls::Recalls;
use values::{Gtin, LotId, LotKey, Name, TextKey};

/// The row of an item.
pub fn seek_item<S: Alter>(
    alloc: Global,
    tx: &mut Transaction<'_, S>,
    rows: &mut RowsKnown,
    gtin: &Gtin,
) -> Result<Vec<ItemRow>, TableFault>
    ensures same_reference { tx.new.conn.ghost_name ≡ tx.old.conn.ghost_name }
    ensures read { IsRead (Learning rows.old rows.new (λ t found. AreItemsOf gtin.now t found.items)) (state S.Store tx.old.conn.now) (state S.Store tx.new.conn.now) result }
{
    seek_known::<Items, Gtin, TextKey, S>(alloc, tx, &mut rows.items, gtin)
}

/// The rows of items, one after another.
pub fn seek_items<S: Alter>(
    alloc: Global,
    tx: &mut Transaction<'_, S>,
    rows: &mut RowsKnown,
    gtins: &[Gtin],
) -> Result<Vec<ItemRow>, TableFault>
    ensures same_reference { tx.new.conn.ghost_name ≡ tx.old.conn.ghost_name }
    ensures read { IsRead (Learning rows.old rows.new (λ t found. Each (λ g found_rows. AreItemsOf g t found_rows) gtins.now found.items)) (state S.Store tx.old.conn.now) (state S.Store tx.new.conn.now) result }
{
    seek_all_known::<Items, Gtin, TextKey, S>(alloc, tx, &mut rows.items, gtins)
}

/// What an item asks for.
pub fn seek_least_of<S: Alter>(
    alloc: Global,
    tx: &mut Transaction<'_, S>,
    rows: &mut RowsKnown,
    gtin: &Gtin,
) -> Result<Vec<LeastRow>, TableFault>
    ensures same_reference { tx.new.conn.ghost_name ≡ tx.old.conn.ghost_name }
    ensures read { IsRead (Learning rows.old rows.new (λ t found. AreLeastOf gtin.now t found.items)) (state S.Store tx.old.conn.now) (state S.Store tx.new.conn.now) result }
{
    seek_known::<Least, Gtin, TextKey, S>(alloc, tx, &mut rows.least, gtin)
}

/// What items ask for, one after another.
pub fn seek_least<S: Alter>(
    alloc: Global,
    tx: &mut Transaction<'_, S>,
    rows: &mut RowsKnown,
    gtins: &[Gtin],
) -> Result<Vec<LeastRow>, TableFault>
    ensures same_reference { tx.new.conn.ghost_name ≡ tx.old.conn.ghost_name }
    ensures read { IsRead (Learning rows.old rows.new (λ t found. AreLeast gtins.now t found.items)) (state S.Store tx.old.conn.now) (state S.Store tx.new.conn.now) result }
{
    seek_all_known::<Least, Gtin, TextKey, S>(alloc, tx, &mut rows.least, gtins)
}

/// The row of a bin.
pub fn seek_bin<S: Alter>(
    alloc: Global,
    tx: &mut Transaction<'_, S>,
    rows: &mut RowsKnown,
    bin: &Name,
) -> Result<Vec<BinRow>, TableFault>
    ensures same_reference { tx.new.conn.ghost_name ≡ tx.old.conn.ghost_name }
    ensures read { IsRead (Learning rows.old rows.new (λ t found. AreBinsOf bin.now t found.items)) (state S.Store tx.old.conn.now) (state S.Store tx.new.conn.now) result }
{
    seek_known::<Bins, Name, TextKey, S>(alloc, tx, &mut rows.bins, bin)
}

/// The rows of bins, one after another.
pub fn seek_bins<S: Alter>(
    alloc: Global,
    tx: &mut Transaction<'_, S>,
    rows: &mut RowsKnown,
    bins: &[Name],
) -> Result<Vec<BinRow>, TableFault>
    ensures same_reference { tx.new.conn.ghost_name ≡ tx.old.conn.ghost_name }
    ensures read { IsRead (Learning rows.old rows.new (λ t found. AreBins bins.now t found.items)) (state S.Store tx.old.conn.now) (state S.Store tx.new.conn.now) result }
{
    seek_all_known::<Bins, Name, TextKey, S>(alloc, tx, &mut rows.bins, bins)
}

/// The row of a lot.
pub fn seek_lot<S: Alter>(
    alloc: Global,
    tx: &mut Transaction<'_, S>,
    rows: &mut RowsKnown,
    lot: &LotId,
) -> Result<Vec<LotRow>, TableFault>
    ensures same_reference { tx.new.conn.ghost_name ≡ tx.old.conn.ghost_name }
    ensures read { IsRead (Learning rows.old rows.new (λ t found. AreLotOf lot.now t found.items)) (state S.Store tx.old.conn.now) (state S.Store tx.new.conn.now) result }
{
    seek_known::<Lots, LotId, LotKey, S>(alloc, tx, &mut rows.followed.lots, lot)
}

/// The rows of lots, one after another.
pub fn seek_lots<S: Alter>(
    alloc: Global,
    tx: &mut Transaction<'_, S>,
    rows: &mut RowsKnown,
    lots: &[LotId],
) -> Result<Vec<LotRow>, TableFault>
    ensures same_reference { tx.new.conn.ghost_name ≡ tx.old.conn.ghost_name }
    ensures read { IsRead (Learning rows.old rows.new (λ t found. AreLotsOf lots.now t found.items)) (state S.Store tx.old.conn.now) (state S.Store tx.new.conn.now) result }
{
    seek_all_known::<Lots, LotId, LotKey, S>(alloc, tx, &mut rows.followed.lots, lots)
}

/// All lots of an item.
pub fn seek_lots_of<S: Alter>(
    alloc: Global,
    tx: &mut Transaction<'_, S>,
    rows: &mut RowsKnown,
    gtin: &Gtin,
) -> Result<Vec<LotRow>, TableFault>
    ensures same_reference { tx.new.conn.ghost_name ≡ tx.old.conn.ghost_name }
    ensures read { IsRead (Learning rows.old rows.new (λ t found. AreLotsOfItem gtin.now t found.items)) (state S.Store tx.old.conn.now) (state S.Store tx.new.conn.now) result }
{
    seek_known::<Lots, Gtin, TextKey, S>(alloc, tx, &mut rows.followed.lots_of, gtin)
}

/// The recalls of an item.
pub fn seek_recalls_of<S: Alter>(
    alloc: Global,
    tx: &mut Transaction<'_, S>,
    rows: &mut RowsKnown,
    gtin: &Gtin,
) -> Result<Vec<RecallRow>, TableFault>
    ensures same_reference { tx.new.conn.ghost_name ≡ tx.old.conn.ghost_name }
    ensures read { IsRead (Learning rows.old rows.new (λ t found. AreRecallsOf gtin.now t found.items)) (state S.Store tx.old.conn.now) (state S.Store tx.new.conn.now) result }
{
    seek_known::<Recalls, Gtin, TextKey, S>(alloc, tx, &mut rows.recalls, gtin)
}

/// The recalls of items, one item after another.
pub fn seek_recalls<S: Alter>(
    alloc: Global,
    tx: &mut Transaction<'_, S>,
    rows: &mut RowsKnown,
    gtins: &[Gtin],
) -> Result<Vec<RecallRow>, TableFault>
    ensures same_reference { tx.new.conn.ghost_name ≡ tx.old.conn.ghost_name }
    ensures read { IsRead (Learning rows.old rows.new (λ t found. Each (λ g found_rows. AreRecallsOf g t found_rows) gtins.now found.items)) (state S.Store tx.old.conn.now) (state S.Store tx.new.conn.now) result }
{
    seek_all_known::<Recalls, Gtin, TextKey, S>(alloc, tx, &mut rows.recalls, gtins)
}
