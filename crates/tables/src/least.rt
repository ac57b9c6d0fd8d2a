//! The table `least`.

use crate::goods_texts::{ADD_LEAST, ASKING_LEAST, CHANGE_LEAST, LEAST_OF};
use commands::LeastRow;
use keyed_rows::mapped::Mapped;
use keyed_rows::reading::{Sought, SoughtBy, query_rows};
use keyed_rows::table::Changing;
use sqlite::types::ValueRef;
use sqlite::{Alter, Transaction};
use std::alloc::Global;
use table_words::error::TableFault;
use values::{Gtin, LeastDays};

/// The table.
pub struct Least;

impl Mapped for Least {
    ghost use Rattle.std.specs.Prelude.{refl};
    ghost use Rattle.table_words.specs.Typed.{least_mapping};
    ghost use Rattle.tables.specs.Least.{least, least_laws};

    type Row = LeastRow;

    type Key = Gtin;

    type Parts = (Gtin, LeastDays);

    ghost mapping = { least_mapping };

    ghost described = { least };

    ghost mapped = { record { few = refl; cells = λ s. refl; has = λ r. refl; seen = λ r. refl; back = λ s. refl } };

    ghost mapped_laws = { least_laws };

    fn parts(row: &LeastRow) -> Self::Parts {
        (row.gtin, row.days)
    }

    fn of((gtin, days): Self::Parts) -> LeastRow {
        LeastRow { gtin, days }
    }

    fn add_text() -> &'static str {
        ADD_LEAST
    }
}

impl Changing for Least {
    ghost use Rattle.tables.specs.Least.{change_least, change_least_laws};

    ghost change = { change_least };

    ghost change_laws = { change_least_laws };

    fn change_text() -> &'static str {
        CHANGE_LEAST
    }
}

impl SoughtBy<Gtin> for Least {
    ghost use Rattle.tables.specs.Least.{least_of, least_of_laws};

    ghost asks = { least_of };

    ghost asked = { least_of_laws };

    fn asking_text() -> &'static str {
        LEAST_OF
    }
}

/// What the rows of items that ask for some days are sought by.
pub struct Asking;

impl Sought<Asking> for Least {
    ghost use Rattle.tables.specs.Least.{asking, AreAsking, asking_laws};

    ghost query = { asking };

    ghost are_of = { AreAsking };

    ghost query_laws = { asking_laws };

    fn query_text(_: &Asking) -> &'static str {
        ASKING_LEAST
    }

    fn run_query<S: Alter>(
        alloc: Global,
        tx: &mut Transaction<'_, S>,
        sql: &str,
        _: &Asking,
    ) -> Result<Vec<LeastRow>, TableFault> {
        query_rows::<Least, S>(alloc, tx, sql, &[ValueRef::Int(0)])
    }
}
