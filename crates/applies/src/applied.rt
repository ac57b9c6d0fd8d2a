//! How the lines of a history were done on books.

use commands::Refusal;
use histories::ReadFault;
use std::alloc::AllocError;

/// The lines of a text, of which all were done.
#[derive(Clone, Copy, PartialEq, Eq, Debug)]
pub struct Applied {
    /// How many acts were done.
    pub done: u64,
    /// Of how many lines the books had the acts.
    pub known: u64,
    /// How many acts the books have behind that of the last line.
    pub beyond: u64,
}

/// Why a line was not done. All lines before it were.
#[derive(Clone, Copy, PartialEq, Eq, Debug)]
pub enum NotApplied {
    /// The line bears the number of this act, and the books have another one of that number.
    Differs { act: u64 },
    /// The line bears the number of a later act than this one, which is the next of the books.
    Lacks { act: u64 },
    /// This line of the text reads as no act, or is not that of the act which comes next. The first line is 1.
    Line { line: u64 },
    /// The line's act is refused as the act of this number: the refusal, K01 where its key came before.
    Refused { act: u64, why: Refusal },
    /// The input cannot be read.
    Input,
    /// Memory, the disk or a size did not suffice.
    Store,
    /// The rows of the acts are not stored in the order of the acts.
    Foreign,
}

impl From<AllocError> for NotApplied {
    ghost use Rattle.std.specs.Prelude.{◌≡◌};
    ghost use Rattle.applies.specs.declared.applied.NotApplied.TheVariants.{Store};

    ghost from_gives = { λ _ fault. fault ≡ Store };

    fn from(_: AllocError) -> NotApplied {
        NotApplied::Store
    }
}

impl From<ReadFault> for NotApplied {
    ghost use Rattle.std.specs.Prelude.{◌≡◌};
    ghost use Rattle.applies.specs.Going.{IsOfWant, unread};

    ghost from_gives = { λ why fault. (fault ≡ unread why) × IsOfWant fault };

    fn from(fault: ReadFault) -> NotApplied {
        match fault {
            ReadFault::Memory => NotApplied::Store,
            ReadFault::Input => NotApplied::Input,
        }
    }
}
