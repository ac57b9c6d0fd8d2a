//! What the rows of a slice tell of an item, a bin or a lot.

ghost use Rattle.std.specs.Prelude.{◌≡◌};
ghost use Rattle.row_rules.specs.Seen.{sees_item as sees_item_lem, sees_bin as sees_bin_lem, lot_seen as lot_seen_lem, sees_recall as sees_recall_lem};
ghost use Rattle.row_rules.specs.SeenLots.{is_held_row as is_held_row_lem, sees_hold as sees_hold_lem};

use crate::Slice;
use crate::row_search::find_row;
use commands::LotRow;
use values::{Gtin, LotId, Name};

/// Whether the slice has the item.
pub fn sees_item(slice: &Slice, gtin: &Gtin) -> bool
    ensures { result ≡ sees_item_lem slice.now gtin.now }
{
    find_row(slice.rows.items.as_slice(), gtin).is_some()
}

/// Whether the slice has the bin.
pub fn sees_bin(slice: &Slice, name: &Name) -> bool
    ensures { result ≡ sees_bin_lem slice.now name.now }
{
    find_row(slice.rows.bins.as_slice(), name).is_some()
}

/// The row of the lot, if the slice has it.
pub fn lot_seen(slice: &Slice, lot: &LotId) -> Option<LotRow>
    ensures { result ≡ lot_seen_lem slice.now lot.now }
{
    find_row(slice.rows.lots.as_slice(), lot)
}

/// Whether the slice has the lot, and it is held.
pub fn sees_hold(slice: &Slice, lot: &LotId) -> bool
    ensures { result ≡ sees_hold_lem slice.now lot.now }
{
    is_held_row(lot_seen(slice, lot))
}

/// Whether there is a row of the lot, and it is held.
pub fn is_held_row(row: Option<LotRow>) -> bool
    ensures { result ≡ is_held_row_lem row }
{
    match row {
        None => false,
        Some(k) => k.held,
    }
}

/// Whether the slice has a recall of the lot.
pub fn sees_recall(slice: &Slice, lot: &LotId) -> bool
    ensures { result ≡ sees_recall_lem slice.now lot.now }
{
    find_row(slice.rows.recalls.as_slice(), lot).is_some()
}
