//! What is known of the books beside their tables.

ghost use Rattle.std.specs.Prelude.{◌≡◌, ◌+◌, ◌<◌};
ghost use Rattle.commands.specs.declared.limits.TheConstants.{ITEMS_MAX, BINS_MAX};
ghost use Rattle.slices.specs.Bounding.{IsRaised, with_counts};

use crate::rows_known::RowsKnown;
use commands::limits::{BINS_MAX, ITEMS_MAX};
use commands::{Added, Command};
use rows_in_memory::OpenLines;
use rules::Put;

/// No fewer than the items of the books, and than their bins. A number that is not below the limit tells nothing.
#[derive(Clone, Copy)]
pub struct Bounds {
    pub items: u64,
    pub bins: u64,
}

/// What is known of the books beside their tables.
#[derive(Drop)]
pub struct Known {
    /// The orders that may be open, by the items of their lines.
    pub lines: OpenLines,
    /// Those of them that may be urgent.
    pub urgent: OpenLines,
    pub bounds: Bounds,
    /// Rows that were read, by what they were sought by.
    pub rows: RowsKnown,
}

impl Bounds {
    /// Nothing is known.
    pub fn unknown() -> Bounds
        ensures { result ≡ record { items = ITEMS_MAX; bins = BINS_MAX } }
    {
        Bounds {
            items: ITEMS_MAX,
            bins: BINS_MAX,
        }
    }

    /// With the numbers that a slice of the command tells.
    pub fn with_counts(&self, command: &Command, items: u64, bins: u64) -> Bounds
        ensures { result ≡ with_counts command.now items bins self.now }
    {
        match command.names().adds {
            Some(Added::Item) => Bounds {
                items,
                bins: self.bins,
            },
            Some(Added::Bin) => Bounds {
                items: self.items,
                bins,
            },
            None => *self,
        }
    }

    /// With the rows that a change puts.
    pub fn raised(&self, put: &Put) -> Bounds
        ensures { IsRaised put.now self.now result }
    {
        Bounds {
            items: raised_by(self.items, put.items.as_slice().len(), ITEMS_MAX),
            bins: raised_by(self.bins, put.bins.as_slice().len(), BINS_MAX),
        }
    }
}

// A bound that so many more raise, or the limit.
fn raised_by(bound: u64, more: usize, most: u64) -> u64
    ensures { result < most → result ≡ bound + more }
{
    let more = more as u64;
    if bound < most && more < most - bound {
        bound + more
    } else {
        most
    }
}
