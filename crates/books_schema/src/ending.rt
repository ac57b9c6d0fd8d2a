//! The end of a transaction.

ghost use Rattle.std.specs.Prelude.{◌≡◌, false};
ghost use Rattle.std.specs.Result.{IsOk};
ghost use Rattle.sqlite.specs.State.{Survives};
ghost use Rattle.sqlite.specs.Held.{state};
ghost use Rattle.books_schema.specs.Ending.{Ends};

use sqlite::{Alter, Error, Transaction};

/// Ends the transaction in which this was answered: it is committed where the answer is `Ok`, and else nothing of it stays.
/// The answer is handed on. Where the commit fails, nothing stays either, and the answer is an error made of the database's.
/// A stop leaves nothing of the transaction or the whole of it.
pub fn finish<T: Drop, E: From<Error>, S: Alter>(
    tx: Transaction<'_, S>,
    done: Result<T, E>,
) -> Result<T, E>
    ensures outside { tx.exit.0.now.in_transaction ≡ false }
    ensures ends { Ends E.from_gives done result (state S.Store tx.entry.conn.now) (state S.Store tx.exit.0.now) }
    ensures survives { Survives (state S.Store tx.entry.conn.now) (state S.Store tx.exit.0.now) (λ db. IsOk done × (db ≡ (state S.Store tx.entry.conn.now).now.trees)) }
{
    match done {
        Ok(value) => {
            tx.commit()?;
            Ok(value)
        }
        Err(fault) => {
            tx.rollback();
            Err(fault)
        }
    }
}
