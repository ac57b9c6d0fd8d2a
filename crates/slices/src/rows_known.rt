//! The rows of the tables that are known by what they were sought by.

ghost use Rattle.std.specs.Prelude.{◌≡◌};
ghost use Rattle.slices.specs.Remembering.{KnowsNoRows, ForgetsPut};

use crate::followed::Followed;
use commands::{BinRow, ItemRow, LeastRow, RecallRow};
use rows_in_memory::KnownRows;
use rules::Put;
use std::alloc::Global;
use values::{Gtin, Name, TextKey};

/// The rows that are known.
#[derive(Drop)]
pub struct RowsKnown {
    /// Items by their GTINs.
    pub items: KnownRows<Gtin, TextKey, ItemRow>,
    /// What items ask for, by their GTINs.
    pub least: KnownRows<Gtin, TextKey, LeastRow>,
    /// Bins by their names.
    pub bins: KnownRows<Name, TextKey, BinRow>,
    /// Recalls by the GTINs of their items.
    pub recalls: KnownRows<Gtin, TextKey, RecallRow>,
    /// Those that follow what is written.
    pub followed: Followed,
}

impl RowsKnown {
    /// Nothing is known.
    pub fn new(alloc: Global) -> Self
        ensures { KnowsNoRows result }
    {
        RowsKnown {
            items: KnownRows::new(alloc),
            least: KnownRows::new(alloc),
            bins: KnownRows::new(alloc),
            recalls: KnownRows::new(alloc),
            followed: Followed::new(alloc),
        }
    }

    /// Nothing is known, and nothing will be kept: so no table is read whole for what is sought by an order.
    pub fn for_one_query(alloc: Global) -> Self
        ensures { KnowsNoRows result }
    {
        let mut rows = RowsKnown::new(alloc);
        rows.followed.urgents.seek_alone();
        rows.followed.staged_for.seek_alone();
        rows.followed.reserved_for.seek_alone();
        rows
    }

    /// Forgets what is sought with one of the rows that a change puts, but for what follows what is written. It takes no memory.
    pub fn forget_put(&mut self, put: &Put)
        ensures forgets { ForgetsPut put.now self.old self.new }
        ensures followed { self.new.followed ≡ self.old.followed }
    {
        self.items.forget_all(put.items.as_slice());
        self.least.forget_all(put.least.as_slice());
        self.bins.forget_all(put.bins.as_slice());
        self.recalls.forget_all(put.recalls.as_slice());
    }
}
