//! The table `urgents`, whose rows are only added.

use crate::order_texts::{ADD_URGENT, ALL_URGENTS, URGENTS_OF};
use commands::UrgentRow;
use commands::limits::ACTS_MAX;
use keyed_rows::mapped::Mapped;
use keyed_rows::reading::{All, SoughtBy};
use table_words::column::Count;
use values::Name;

/// The table.
pub struct Urgents;

impl Mapped for Urgents {
    ghost use Rattle.std.specs.Prelude.{refl};
    ghost use Rattle.table_words.specs.Typed.{urgent_mapping};
    ghost use Rattle.tables.specs.Urgents.{urgents, urgents_laws};

    type Row = UrgentRow;

    type Key = Name;

    type Parts = (Name, Count<ACTS_MAX>);

    ghost mapping = { urgent_mapping };

    ghost described = { urgents };

    ghost mapped = { record { few = refl; cells = λ s. refl; has = λ r. refl; seen = λ r. refl; back = λ s. refl } };

    ghost mapped_laws = { urgents_laws };

    fn parts(row: &UrgentRow) -> Self::Parts {
        (row.order, Count { number: row.act })
    }

    fn of((order, act): Self::Parts) -> UrgentRow {
        UrgentRow {
            order,
            act: act.number,
        }
    }

    fn add_text() -> &'static str {
        ADD_URGENT
    }
}

impl SoughtBy<Name> for Urgents {
    ghost use Rattle.tables.specs.Urgents.{urgents_of, urgents_of_laws};

    ghost asks = { urgents_of };

    ghost asked = { urgents_of_laws };

    fn asking_text() -> &'static str {
        URGENTS_OF
    }
}

impl SoughtBy<All> for Urgents {
    ghost use Rattle.tables.specs.Urgents.{all_urgents, all_urgents_laws};

    ghost asks = { all_urgents };

    ghost asked = { all_urgents_laws };

    fn asking_text() -> &'static str {
        ALL_URGENTS
    }
}
