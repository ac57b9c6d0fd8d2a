//! The recall notice of a lot, shown.

ghost use Rattle.std.specs.Prelude.{◌≡◌, false, ℤ, List};
ghost use Rattle.sqlite.specs.State.{HasCleanDisk, Survives, KeepsCommit};
ghost use Rattle.sqlite.specs.Held.{state};
ghost use Rattle.machine.specs.Acts.{Act};
ghost use Rattle.machine.specs.Once.{IsHistory};
ghost use Rattle.machine.specs.Queries.{notice_shown};
ghost use Rattle.machine.specs.Standing.{today};
ghost use Rattle.store.specs.Books.{KeepsBooks, IsSettled};
ghost use Rattle.store.specs.Knowing.{IsKnown};
ghost use Rattle.store.specs.Showing.{IsShownOn, told_whole as told_whole_lem};

use crate::Fault;
use crate::showing::show;
use commands::NoticeView;
use label::BusinessDay;
use queries::NoticeQuery;
use slices::Known;
use sqlite::{Alter, Connection};
use std::alloc::Global;
use values::LotId;

/// Shows the notice as it stands, or the refusal, and changes nothing of the tables.
pub fn show_notice<S: Alter>(
    alloc: Global,
    conn: &mut Connection<S>,
    day: BusinessDay,
    known: &mut Option<Known>,
    lot: &LotId,
) -> Result<NoticeView, Fault>
    requires outside { conn.old.in_transaction ≡ false }
    requires known { IsKnown known.old (state S.Store conn.old) }
    ensures outside { conn.new.in_transaction ≡ false }
    ensures known { IsKnown known.new (state S.Store conn.new) }
    ensures shown { HasCleanDisk (state S.Store conn.new) → (first : ℤ) (acts : List Act) → IsHistory first acts → KeepsBooks first acts (state S.Store conn.old)
        → today first acts ≡ day → IsShownOn first acts (notice_shown first acts lot.now) result (state S.Store conn.new) }
    ensures stays { HasCleanDisk (state S.Store conn.new) → IsSettled (state S.Store conn.old) → KeepsCommit (state S.Store conn.old) (state S.Store conn.new) × IsSettled (state S.Store conn.new) }
    ensures survives { Survives (state S.Store conn.old) (state S.Store conn.new) (λ _. ⊥) }
{
    let query = NoticeQuery { lot: *lot };
    told_whole(show(alloc, conn, day, known, &query))
}

/// A card that refers to rows that are gone is of no books.
fn told_whole(shown: Result<Option<NoticeView>, Fault>) -> Result<NoticeView, Fault>
    ensures { result ≡ told_whole_lem shown }
{
    match shown {
        Ok(Some(view)) => Ok(view),
        Ok(None) => Err(Fault::Foreign),
        Err(fault) => Err(fault),
    }
}
