//! The lots of which a slice has the rows.

ghost use Rattle.std.specs.Prelude.{◌≡◌, filter, IfOk};
ghost use Rattle.values.specs.Values.{same_text};
ghost use Rattle.rows_in_memory.specs.Parts.{held_lots, lots_on_stage as lots_on_stage_lem};

use crate::command_names::named_lots;
use crate::lot_list::LotList;
use commands::{Command, StagedRow, StockRow};
use row_rules::row_search::rows_with;
use std::alloc::{AllocError, Global};
use values::{LotId, Name};

/// The lot that a command names, and those with units in bins or on stages, each once.
pub fn lots_held(
    alloc: Global,
    command: &Command,
    stock: &[StockRow],
    staged: &[StagedRow],
) -> Result<Vec<LotId>, AllocError>
    ensures { IfOk result (λ lots. lots.items ≡ held_lots command.now stock.now staged.now) }
{
    let named = named_lots(alloc, command)?;
    let mut list = LotList::new(alloc);
    list.add_all(named.as_slice())?;
    list.add_all(stock)?;
    list.add_all(staged)?;
    Ok(list.into_values())
}

/// What is staged for an order.
fn staged_for(
    alloc: Global,
    order: &Name,
    staged: &[StagedRow],
) -> Result<Vec<StagedRow>, AllocError>
    ensures { IfOk result (λ rows. rows.items ≡ filter (λ r. same_text r.order order.now) staged.now) }
{
    rows_with(alloc, staged, order)
}

/// The lots with units on the stage of an order, each once.
pub fn lots_on_stage(
    alloc: Global,
    order: &Name,
    staged: &[StagedRow],
) -> Result<Vec<LotId>, AllocError>
    ensures { IfOk result (λ lots. lots.items ≡ lots_on_stage_lem order.now staged.now) }
{
    let rows = staged_for(alloc, order, staged)?;
    let mut list = LotList::new(alloc);
    list.add_all(rows.as_slice())?;
    Ok(list.into_values())
}
