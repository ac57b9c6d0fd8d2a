ghost use Rattle.std.specs.Prelude.{◌≡◌, false};
ghost use Rattle.sqlite.specs.Values.{bound};
ghost use Rattle.sqlite.specs.Given.{IsPlain};
ghost use Rattle.sqlite.specs.Listing.{understood};
ghost use Rattle.sqlite.specs.State.{HasCleanDisk, Survives, CommitsShowing};
ghost use Rattle.sqlite.specs.Held.{state};
ghost use Rattle.keyed_rows.specs.Handed.{Hands, IsLeft};

use crate::EachFault;
use commands::Sink;
use sqlite::types::ValueRef;
use sqlite::{Alter, Connection};
use std::alloc::Global;
use table_words::error::TableFault;
use table_words::reading::Readable;

/// Runs the query outside a transaction, and hands what its rows read as to the sink, one row at a time. Only a write with
/// RETURNING commits.
pub fn each<T: Readable, S: Alter, K: Sink<T::Record>>(
    alloc: Global,
    conn: &mut Connection<S>,
    sql: &str,
    params: &[ValueRef<'_>],
    sink: &mut K,
) -> Result<(), EachFault>
    ensures handed { HasCleanDisk (state S.Store conn.new) → IsPlain (understood conn.old.schema sql.now)
        → Hands T.has T.reads K.takes K.stops sql.now (bound params.now) (state S.Store conn.old) (state S.Store conn.new) sink.old sink.new result }
    ensures left { HasCleanDisk (state S.Store conn.new) → IsPlain (understood conn.old.schema sql.now) → IsLeft (state S.Store conn.old) (state S.Store conn.new) result }
    ensures outside { conn.old.in_transaction ≡ false → conn.new.in_transaction ≡ false }
    ensures survives { Survives (state S.Store conn.old) (state S.Store conn.new) (CommitsShowing sql.now (bound params.now) (state S.Store conn.old)) }
{
    let mut rows = conn.query(sql, params)?;
    'rows: for _ in 0..u64::MAX {
        let Some(row) = rows.next()? else {
            return Ok(());
        };
        let record = T::read(alloc, row)?;
        sink.take(&record)?;
    }
    Err(EachFault::Fault(TableFault::too_big()))
}
