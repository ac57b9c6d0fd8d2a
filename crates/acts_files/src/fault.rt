//! Why a file does not keep the acts of books.

use histories::HistoryFault;
use std::alloc::AllocError;
use std::io;

/// Why a file does not keep the acts of books.
#[derive(Clone, Copy, PartialEq, Eq, Debug)]
pub enum ActsFault {
    /// The file cannot be read, written or synced. It is to be opened again.
    File,
    /// Memory or the disk of the books did not suffice.
    Store,
    /// The rows of the books are not those of the acts in turn, or spell no command.
    Foreign,
    /// The file has something else in the place of the line of this act.
    Differs(u64),
    /// Behind the lines of all acts the file has one of this number: the books have no act of it.
    Lacks(u64),
}

impl From<AllocError> for ActsFault {
    ghost use Rattle.std.specs.Prelude.{◌≡◌};
    ghost use Rattle.acts_files.specs.declared.fault.ActsFault.TheVariants.{Store};

    ghost from_gives = { λ _ fault. fault ≡ Store };

    fn from(_: AllocError) -> ActsFault {
        ActsFault::Store
    }
}

impl From<HistoryFault> for ActsFault {
    ghost use Rattle.std.specs.Prelude.{◌≡◌};
    ghost use Rattle.acts_files.specs.Faults.{fault_of_history};

    ghost from_gives = { λ cause fault. fault ≡ fault_of_history cause };

    fn from(cause: HistoryFault) -> ActsFault {
        match cause {
            HistoryFault::Foreign => ActsFault::Foreign,
            HistoryFault::Store | HistoryFault::Output => ActsFault::Store,
        }
    }
}

impl From<io::Error> for ActsFault {
    ghost use Rattle.std.specs.Prelude.{◌≡◌};
    ghost use Rattle.acts_files.specs.declared.fault.ActsFault.TheVariants.{File};

    ghost from_gives = { λ _ fault. fault ≡ File };

    fn from(_: io::Error) -> ActsFault {
        ActsFault::File
    }
}
