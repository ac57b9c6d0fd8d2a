//! Why not all records of the books were handed over.

use crate::Fault;
use commands::Stop;
use keyed_rows::EachFault as RowsFault;

/// Why not all records were handed over. The tables are as they were.
#[derive(Clone, Copy, PartialEq, Eq, Debug)]
pub enum EachFault {
    /// Memory or the disk did not suffice.
    Fault(Fault),
    /// The sink takes no more.
    Stopped,
}

impl From<Fault> for EachFault {
    ghost use Rattle.std.specs.Prelude.{◌≡◌};
    ghost use Rattle.store.specs.declared.each_fault.EachFault.TheVariants.{Fault};

    ghost from_gives = { λ fault e. e ≡ Fault fault };

    fn from(fault: Fault) -> EachFault {
        EachFault::Fault(fault)
    }
}

impl From<RowsFault> for EachFault {
    ghost use Rattle.std.specs.Prelude.{◌≡◌};
    ghost use Rattle.store.specs.EachFaults.{each_fault_of};

    ghost from_gives = { λ cause e. e ≡ each_fault_of cause };

    fn from(cause: RowsFault) -> EachFault {
        match cause {
            RowsFault::Fault(fault) => EachFault::Fault(Fault::from(fault)),
            RowsFault::Stopped => EachFault::Stopped,
        }
    }
}

impl From<Stop> for EachFault {
    ghost use Rattle.std.specs.Prelude.{◌≡◌};
    ghost use Rattle.store.specs.declared.each_fault.EachFault.TheVariants.{Stopped};

    ghost from_gives = { λ _ e. e ≡ Stopped };

    fn from(_: Stop) -> EachFault {
        EachFault::Stopped
    }
}
