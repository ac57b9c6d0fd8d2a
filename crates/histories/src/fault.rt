ghost use Rattle.std.specs.Prelude.{◌≡◌};
ghost use Rattle.histories.specs.Faults.{fault_of};

use keyed_rows::EachFault;
use std::alloc::AllocError;
use table_words::error::TableFault;

/// Why a history is not printed to its end. A beginning of it stands.
#[derive(Clone, Copy, PartialEq, Eq, Debug)]
pub enum HistoryFault {
    /// Memory or the disk did not suffice.
    Store,
    /// A row is not of the act that comes next, or spells no command.
    Foreign,
    /// The output could not be written.
    Output,
}

impl From<AllocError> for HistoryFault {
    ghost use Rattle.std.specs.Prelude.{◌≡◌};
    ghost use Rattle.histories.specs.declared.fault.HistoryFault.TheVariants.{Store};

    ghost from_gives = { λ _ fault. fault ≡ Store };

    fn from(_: AllocError) -> HistoryFault {
        HistoryFault::Store
    }
}

impl HistoryFault {
    /// Why not all rows were handed over, where a sink that stopped did for `stopped`.
    pub(crate) fn of(cause: EachFault, stopped: HistoryFault) -> HistoryFault
        ensures { result ≡ fault_of cause stopped }
    {
        match cause {
            EachFault::Stopped => stopped,
            EachFault::Fault(TableFault::Foreign) => HistoryFault::Foreign,
            EachFault::Fault(TableFault::Store(_)) => HistoryFault::Store,
        }
    }
}
