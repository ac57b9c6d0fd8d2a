//! Days that are opened.

ghost use Rattle.std.specs.Prelude.{◌≡◌, IfOk};
ghost use Rattle.machine.specs.Verdict.{first_refusal};
ghost use Rattle.rules.specs.DecidedDay.{day_judged, day_changes};

use crate::expiring::change_on;
use commands::{Listed, Refusal};
use label::BusinessDay;
use row_rules::first_refusal::first_of;
use row_rules::{Change, Slice};
use std::alloc::{AllocError, Global};

/// The refusal of the opening of a day, if it is refused.
pub fn judge_day(slice: &Slice, day: BusinessDay) -> Option<Refusal>
    ensures { result ≡ first_refusal (day_judged slice.now day) }
{
    let not_later = day.day().number() <= slice.meta.day.day().number();
    first_of(&[(not_later, Refusal::DayNotLater)])
}

/// What the opening of a day changes.
pub fn change_day(alloc: Global, slice: &Slice, day: BusinessDay) -> Result<Change, AllocError>
    ensures { IfOk result (λ change. change ≡ day_changes slice.now day) }
{
    let asked = Listed::from_vec(Vec::new(alloc));
    change_on(alloc, slice, day, slice.rows.least.as_slice(), asked)
}
