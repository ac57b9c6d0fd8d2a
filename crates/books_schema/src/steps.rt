//! The schema as a list of steps, each with the tables that it adds.

ghost use Rattle.std.specs.Prelude.{◌≡◌, ◌⊎◌, [], IsTrue, OnOk};
ghost use Rattle.sqlite.specs.Schema.{Schema};
ghost use Rattle.sqlite.specs.Tree.{Trees};
ghost use Rattle.sqlite.specs.State.{HasCleanDisk, Survives, KeepsCommit};
ghost use Rattle.sqlite.specs.Held.{state};
ghost use Rattle.books_schema.specs.Growing.{IsGrown, AreMade, grown, added_by, added_above};

use crate::layouts::{self, TableLayout};
use sqlite::{Alter, Error, Transaction};

/// A step of the schema.
pub struct Step {
    /// The number of the schema once the step is done.
    pub version: u64,
    /// The tables that it adds, in their order.
    pub tables: &'static [TableLayout],
}

/// The steps of the schema, in the order of their numbers. The tables of all of them stand before any others, in this
/// order.
pub const STEPS: &[Step] = &[
    Step {
        version: 1,
        tables: layouts::FIRST_TABLES,
    },
    Step {
        version: 2,
        tables: &[layouts::LEAST],
    },
    Step {
        version: 3,
        tables: &[layouts::URGENTS],
    },
];

/// Makes each of these tables in turn.
fn add_tables<S: Alter>(tx: &mut Transaction<'_, S>, tables: &[TableLayout]) -> Result<(), Error>
    ensures same_reference { tx.new.conn.ghost_name ≡ tx.old.conn.ghost_name }
    ensures done { HasCleanDisk (state S.Store tx.new.conn.now) → (base : Trees) (first from : Schema) → AreMade from tables.now
        → IsGrown base first from (state S.Store tx.old.conn.now) → OnOk result (IsGrown base first (grown from tables.now) (state S.Store tx.new.conn.now)) }
    ensures was_open { HasCleanDisk (state S.Store tx.new.conn.now) → OnOk result ((tables.now ≡ []) ⊎ IsTrue (state S.Store tx.old.conn.now).is_open) }
    ensures kept { HasCleanDisk (state S.Store tx.new.conn.now) → KeepsCommit (state S.Store tx.old.conn.now) (state S.Store tx.new.conn.now) }
    ensures survives { Survives (state S.Store tx.old.conn.now) (state S.Store tx.new.conn.now) (λ _. ⊥) }
{
    for table in tables {
        tx.execute(table.text, &[])?;
    }
    Ok(())
}

/// Makes the tables of the step, if its number is above this one.
fn run_step<S: Alter>(tx: &mut Transaction<'_, S>, step: &Step, above: u64) -> Result<(), Error>
    ensures same_reference { tx.new.conn.ghost_name ≡ tx.old.conn.ghost_name }
    ensures done { HasCleanDisk (state S.Store tx.new.conn.now) → (base : Trees) (first from : Schema) → AreMade from (added_by above step.now)
        → IsGrown base first from (state S.Store tx.old.conn.now) → OnOk result (IsGrown base first (grown from (added_by above step.now)) (state S.Store tx.new.conn.now)) }
    ensures was_open { HasCleanDisk (state S.Store tx.new.conn.now) → OnOk result ((added_by above step.now ≡ []) ⊎ IsTrue (state S.Store tx.old.conn.now).is_open) }
    ensures kept { HasCleanDisk (state S.Store tx.new.conn.now) → KeepsCommit (state S.Store tx.old.conn.now) (state S.Store tx.new.conn.now) }
    ensures survives { Survives (state S.Store tx.old.conn.now) (state S.Store tx.new.conn.now) (λ _. ⊥) }
{
    if step.version > above {
        return add_tables(tx, step.tables);
    }
    Ok(())
}

/// Runs the steps whose number is above this one, in turn: their tables are added behind those that are there, which keep
/// their rows.
pub fn run_steps<S: Alter>(
    tx: &mut Transaction<'_, S>,
    steps: &[Step],
    above: u64,
) -> Result<(), Error>
    ensures same_reference { tx.new.conn.ghost_name ≡ tx.old.conn.ghost_name }
    ensures done { HasCleanDisk (state S.Store tx.new.conn.now) → (base : Trees) (first from : Schema) → AreMade from (added_above above steps.now)
        → IsGrown base first from (state S.Store tx.old.conn.now) → OnOk result (IsGrown base first (grown from (added_above above steps.now)) (state S.Store tx.new.conn.now)) }
    ensures was_open { HasCleanDisk (state S.Store tx.new.conn.now) → OnOk result ((added_above above steps.now ≡ []) ⊎ IsTrue (state S.Store tx.old.conn.now).is_open) }
    ensures kept { HasCleanDisk (state S.Store tx.new.conn.now) → KeepsCommit (state S.Store tx.old.conn.now) (state S.Store tx.new.conn.now) }
    ensures survives { Survives (state S.Store tx.old.conn.now) (state S.Store tx.new.conn.now) (λ _. ⊥) }
{
    for step in steps {
        run_step(tx, step, above)?;
    }
    Ok(())
}
