//! A connection outside every transaction.

ghost use Rattle.std.specs.Prelude.{◌≡◌, ◌⊎◌, false, OnOk, OnErr, IfErr};
ghost use Rattle.sqlite.specs.State.{HasCleanDisk, Survives, IsUnchanged, IsRolledBack};
ghost use Rattle.sqlite.specs.Held.{state};

use crate::Fault;
use crate::repeats::NEVER_RUN;
use sqlite::{Alter, Connection};

/// Finds the connection open, or fails, as `find_open` does inside a transaction.
pub fn find_open_outside<S: Alter>(conn: &mut Connection<S>) -> Result<(), Fault>
    ensures open { HasCleanDisk (state S.Store conn.new) → OnOk result (IsUnchanged (state S.Store conn.old) (state S.Store conn.new)) }
    ensures failed { HasCleanDisk (state S.Store conn.new) → OnErr result (IsUnchanged (state S.Store conn.old) (state S.Store conn.new) ⊎ IsRolledBack (state S.Store conn.old) (state S.Store conn.new)) }
    ensures fault { IfErr result (λ e. e ≡ Fault.Store) }
    ensures outside { conn.old.in_transaction ≡ false → conn.new.in_transaction ≡ false }
    ensures survives { Survives (state S.Store conn.old) (state S.Store conn.new) (λ _. ⊥) }
{
    conn.prepare(NEVER_RUN)?;
    Ok(())
}
