//! What the rows of a file come to.

use commands::Refusal;
use sqlite::Error;

/// How many rows of a file were accepted, and how many came again.
#[derive(Clone, Copy, PartialEq, Eq, Debug)]
pub struct Tally {
    pub accepted: u16,
    pub repeated: u16,
}

/// Why no row of a file is taken. The tables are as they were.
#[derive(Clone, Copy, PartialEq, Eq, Debug)]
pub enum RowFault {
    /// The first row that is refused, counted from 1, and for what cause.
    Refused { row: u16, refusal: Refusal },
    /// Memory, the disk or a size did not suffice.
    Store,
    /// The tables hold rows that no list of acts leaves.
    Foreign,
}

impl From<Error> for RowFault {
    ghost use Rattle.std.specs.Prelude.{◌≡◌};
    ghost use Rattle.store.specs.declared.tally.RowFault.TheVariants.{Store};

    ghost from_gives = { λ _ e. e ≡ Store };

    fn from(_: Error) -> RowFault {
        RowFault::Store
    }
}
