//! What rows of `repeats` tell of the day that their acts began on.

ghost use Rattle.std.specs.Prelude.{IfOk};
ghost use Rattle.replays.specs.Starting.{Tell, TellFirst};

use commands::RepeatRow;
use std::alloc::{AllocError, Global};
use texts::{Start, told_by_row};

/// What the oldest act tells that receives or opens a day; `None` where none does. The rows of `repeats` are the oldest
/// first; one whose spelling is none ends the search.
pub fn start_of(alloc: Global, rows: &[RepeatRow]) -> Result<Option<Start>, AllocError>
    ensures tell { IfOk result (Tell rows.now) }
    ensures first { IfOk result (TellFirst rows.now) }
{
    for row in rows {
        let Some(told) = told_by_row(alloc, row)? else {
            return Ok(None);
        };
        if told.is_some() {
            return Ok(told);
        }
    }
    Ok(None)
}
