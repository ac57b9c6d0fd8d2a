//! What the opening of a day touches: the lots that may not be shipped any more from then on, and the
//! items of these and of staged units.

ghost use Rattle.std.specs.Prelude.{◌≡◌, filter, IfOk};
ghost use Rattle.rows_in_memory.specs.Parts.{is_ending as is_ending_lem, not_recalled as not_recalled_lem, items_of_lots as items_of_lots_lem, with_staged as with_staged_lem};

use crate::item_list::ItemList;
use commands::{LeastRow, LotRow, RecallRow, StagedRow};
use label::BusinessDay;
use row_rules::row_search::rows_not_among;
use row_rules::rows_by_key::{RowsByKey, by_key};
use row_rules::status::{earliest_of, is_shippable};
use std::alloc::{AllocError, Global};
use values::{Gtin, LotId};

/// Whether the lot may be shipped on the old day and no more on the new one, its recalls aside.
fn is_ending(
    old: BusinessDay,
    new: BusinessDay,
    asked: &RowsByKey<'_, Gtin, LeastRow>,
    lot: &LotRow,
) -> bool
    ensures { result ≡ is_ending_lem old new asked.now lot.now }
{
    let before = is_shippable(earliest_of(old, asked.find(&lot.lot.gtin)), false, lot);
    before && !is_shippable(earliest_of(new, asked.find(&lot.lot.gtin)), false, lot)
}

/// The lots that end between the days, by what their items ask for.
pub fn ending_lots(
    alloc: Global,
    old: BusinessDay,
    new: BusinessDay,
    least: &[LeastRow],
    lots: &[LotRow],
) -> Result<Vec<LotRow>, AllocError>
    ensures { IfOk result (λ rows. rows.items ≡ filter (is_ending_lem old new least.now) lots.now) }
{
    let asked = by_key::<Gtin, LeastRow>(alloc, least, lots.len())?;
    lots_ending(alloc, old, new, &asked, lots)
}

fn lots_ending(
    alloc: Global,
    old: BusinessDay,
    new: BusinessDay,
    asked: &RowsByKey<'_, Gtin, LeastRow>,
    lots: &[LotRow],
) -> Result<Vec<LotRow>, AllocError>
    ensures { IfOk result (λ rows. rows.items ≡ filter (is_ending_lem old new asked.now) lots.now) }
{
    let mut rows = Vec::new(alloc);
    for lot in lots {
        if is_ending(old, new, asked, lot) {
            rows.push(*lot)?;
        }
    }
    Ok(rows)
}

/// The lots that none of the recalls is of.
pub fn not_recalled(
    alloc: Global,
    lots: &[LotRow],
    recalls: &[RecallRow],
) -> Result<Vec<LotRow>, AllocError>
    ensures { IfOk result (λ rows. rows.items ≡ not_recalled_lem recalls.now lots.now) }
{
    rows_not_among::<LotId, LotRow, RecallRow>(alloc, lots, recalls)
}

/// The items of the lots, each once.
pub fn items_of_lots(alloc: Global, lots: &[LotRow]) -> Result<Vec<Gtin>, AllocError>
    ensures { IfOk result (λ gtins. gtins.items ≡ items_of_lots_lem lots.now) }
{
    let mut list = ItemList::new(alloc);
    list.add_all(lots)?;
    Ok(list.into_values())
}

/// The items of the lots, and those of the staged units, each once.
pub fn items_affected(
    alloc: Global,
    lots: &[LotRow],
    staged: &[StagedRow],
) -> Result<Vec<Gtin>, AllocError>
    ensures { IfOk result (λ gtins. gtins.items ≡ with_staged_lem staged.now (items_of_lots_lem lots.now)) }
{
    let mut list = ItemList::new(alloc);
    list.add_all(lots)?;
    list.add_all(staged)?;
    Ok(list.into_values())
}
