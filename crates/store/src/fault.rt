//! Why a call on the books fails.

ghost use Rattle.std.specs.Prelude.{◌≡◌};
ghost use Rattle.store.specs.declared.fault.Fault.TheVariants.{Refused, Store, Foreign};

use commands::Refusal;
use rules::RuleFault;
use sqlite::Error;
use std::alloc::AllocError;
use table_words::error::TableFault;

/// Why a call on the books fails. The tables are as they were, unless a fault of the disk has shut the connection: of an
/// act the file then has nothing or the whole.
#[derive(Clone, Copy, PartialEq, Eq, Debug)]
pub enum Fault {
    /// The command is refused, for this cause.
    Refused(Refusal),
    /// Memory, the disk or a size did not suffice.
    Store,
    /// The tables hold rows that no list of acts leaves.
    Foreign,
}

impl From<TableFault> for Fault {
    ghost use Rattle.std.specs.Prelude.{◌≡◌};
    ghost use Rattle.store.specs.Faults.{fault_of};

    ghost from_gives = { λ cause e. e ≡ fault_of cause };

    fn from(cause: TableFault) -> Fault {
        match cause {
            TableFault::Store(_) => Fault::Store,
            TableFault::Foreign => Fault::Foreign,
        }
    }
}

impl From<AllocError> for Fault {
    ghost use Rattle.std.specs.Prelude.{◌≡◌};
    ghost use Rattle.store.specs.declared.fault.Fault.TheVariants.{Store};

    ghost from_gives = { λ _ e. e ≡ Store };

    fn from(_: AllocError) -> Fault {
        Fault::Store
    }
}

impl From<Error> for Fault {
    ghost use Rattle.std.specs.Prelude.{◌≡◌};
    ghost use Rattle.store.specs.declared.fault.Fault.TheVariants.{Store};

    ghost from_gives = { λ _ e. e ≡ Store };

    fn from(_: Error) -> Fault {
        Fault::Store
    }
}

impl From<RuleFault> for Fault {
    ghost use Rattle.std.specs.Prelude.{◌≡◌};
    ghost use Rattle.store.specs.Faults.{fault_of_rule};

    ghost from_gives = { λ cause e. e ≡ fault_of_rule cause };

    fn from(cause: RuleFault) -> Fault {
        match cause {
            RuleFault::Refused(why) => Fault::Refused(why),
            RuleFault::NoMemory => Fault::Store,
            RuleFault::Foreign => Fault::Foreign,
        }
    }
}
