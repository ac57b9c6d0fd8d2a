//! The table `bins`.

ghost use Rattle.std.specs.Prelude.{◌≡◌, ◌≢◌, OnOk, OnErr, IfErr};
ghost use Rattle.sqlite.specs.State.{HasCleanDisk, Survives, KeepsCommit};
ghost use Rattle.sqlite.specs.Held.{state};
ghost use Rattle.table_words.specs.Steps.{IsReady, Goes, ChangesNone};
ghost use Rattle.table_words.specs.Typed.{with_bin};
ghost use Rattle.table_words.specs.declared.error.TableFault.TheVariants.{Foreign};

use crate::goods_texts::{ADD_BIN, ALL_BINS, BINS_OF};
use commands::{BinKind, BinRow};
use keyed_rows::mapped::Mapped;
use keyed_rows::reading::{All, SoughtBy};
use keyed_rows::table::add;
use sqlite::{Alter, Transaction};
use table_words::error::TableFault;
use values::Name;

/// The table.
pub struct Bins;

impl Mapped for Bins {
    ghost use Rattle.std.specs.Prelude.{refl};
    ghost use Rattle.table_words.specs.Typed.{bin_mapping};
    ghost use Rattle.tables.specs.Bins.{bins, bins_laws};

    type Row = BinRow;

    type Key = Name;

    type Parts = (Name, BinKind);

    ghost mapping = { bin_mapping };

    ghost described = { bins };

    ghost mapped = { record { few = refl; cells = λ s. refl; has = λ r. refl; seen = λ r. refl; back = λ s. refl } };

    ghost mapped_laws = { bins_laws };

    fn parts(row: &BinRow) -> Self::Parts {
        (row.name, row.kind)
    }

    fn of((name, kind): Self::Parts) -> BinRow {
        BinRow { name, kind }
    }

    fn add_text() -> &'static str {
        ADD_BIN
    }
}

impl SoughtBy<Name> for Bins {
    ghost use Rattle.tables.specs.Bins.{bins_of, bins_of_laws};

    ghost asks = { bins_of };

    ghost asked = { bins_of_laws };

    fn asking_text() -> &'static str {
        BINS_OF
    }
}

impl SoughtBy<All> for Bins {
    ghost use Rattle.tables.specs.Bins.{all_bins, all_bins_laws};

    ghost asks = { all_bins };

    ghost asked = { all_bins_laws };

    fn asking_text() -> &'static str {
        ALL_BINS
    }
}

/// Adds the row.
pub fn put_bin<S: Alter>(tx: &mut Transaction<'_, S>, row: &BinRow) -> Result<(), TableFault>
    ensures same_reference { tx.new.conn.ghost_name ≡ tx.old.conn.ghost_name }
    ensures done { HasCleanDisk (state S.Store tx.new.conn.now) → IsReady (state S.Store tx.old.conn.now).now
        → OnOk result (Goes (with_bin row.now) (state S.Store tx.old.conn.now) (state S.Store tx.new.conn.now)) }
    ensures refused { HasCleanDisk (state S.Store tx.new.conn.now) → IsReady (state S.Store tx.old.conn.now).now → OnErr result (ChangesNone (state S.Store tx.old.conn.now) (state S.Store tx.new.conn.now)) }
    ensures kept { HasCleanDisk (state S.Store tx.new.conn.now) → KeepsCommit (state S.Store tx.old.conn.now) (state S.Store tx.new.conn.now) }
    ensures survives { Survives (state S.Store tx.old.conn.now) (state S.Store tx.new.conn.now) (λ _. ⊥) }
    ensures never_foreign { IfErr result (λ e. e ≢ Foreign) }
{
    add::<Bins, S>(tx, row)
}
