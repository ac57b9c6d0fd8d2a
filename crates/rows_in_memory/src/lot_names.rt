//! The lots of rows, each once.

ghost use Rattle.std.specs.Prelude.{◌≡◌, [], IfOk};
ghost use Rattle.machine.specs.Postings.{is_lot};
ghost use Rattle.rows_in_memory.specs.Keys.{with_keys};

use crate::lot_list::LotList;
use commands::{ReservedRow, StagedRow};
use std::alloc::{AllocError, Global};
use values::LotId;

/// The lots of reserved units, each once.
pub fn reserved_lots(alloc: Global, reserved: &[ReservedRow]) -> Result<Vec<LotId>, AllocError>
    ensures { IfOk result (λ lots. lots.items ≡ with_keys is_lot (λ r. r.lot) reserved.now []) }
{
    let mut list = LotList::new(alloc);
    list.add_all(reserved)?;
    Ok(list.into_values())
}

/// The lots of staged and of reserved units, each once.
pub fn booked_lots(
    alloc: Global,
    staged: &[StagedRow],
    reserved: &[ReservedRow],
) -> Result<Vec<LotId>, AllocError>
    ensures { IfOk result (λ lots. lots.items ≡ with_keys is_lot (λ r. r.lot) staged.now (with_keys is_lot (λ r. r.lot) reserved.now [])) }
{
    let mut list = LotList::new(alloc);
    list.add_all(reserved)?;
    list.add_all(staged)?;
    Ok(list.into_values())
}
