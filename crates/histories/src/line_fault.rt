use crate::HistoryFault;
use crate::reading::ReadFault;
use std::alloc::AllocError;

/// Why a line was not found to be that of an act of the books.
#[derive(Clone, Copy, PartialEq, Eq, Debug)]
pub enum LineFault {
    /// Memory or a size did not suffice.
    Memory,
    /// The input cannot be read.
    Input,
    /// A row is not of the act that comes next, or spells no command.
    Foreign,
    /// The line bears the number of this act, and is not its line.
    Differs(u64),
    /// The line bears another number than that of the act which comes next, or is longer than any line may be.
    OutOfTurn,
}

impl From<AllocError> for LineFault {
    ghost use Rattle.std.specs.Prelude.{◌≡◌};
    ghost use Rattle.histories.specs.declared.line_fault.LineFault.TheVariants.{Memory};

    ghost from_gives = { λ _ fault. fault ≡ Memory };

    fn from(_: AllocError) -> LineFault {
        LineFault::Memory
    }
}

impl From<ReadFault> for LineFault {
    ghost use Rattle.std.specs.Prelude.{◌≡◌};
    ghost use Rattle.histories.specs.LineFaults.{unread};

    ghost from_gives = { λ why fault. fault ≡ unread why };

    fn from(fault: ReadFault) -> LineFault {
        match fault {
            ReadFault::Memory => LineFault::Memory,
            ReadFault::Input => LineFault::Input,
        }
    }
}

impl From<HistoryFault> for LineFault {
    ghost use Rattle.std.specs.Prelude.{◌≡◌};
    ghost use Rattle.histories.specs.LineFaults.{unspelled};

    ghost from_gives = { λ why fault. fault ≡ unspelled why };

    fn from(fault: HistoryFault) -> LineFault {
        match fault {
            HistoryFault::Store | HistoryFault::Output => LineFault::Memory,
            HistoryFault::Foreign => LineFault::Foreign,
        }
    }
}
