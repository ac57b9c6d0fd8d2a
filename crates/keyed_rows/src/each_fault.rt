use commands::Stop;
use sqlite::Error;
use table_words::error::TableFault;

/// Why not all rows were handed over.
#[derive(Debug, Drop)]
pub enum EachFault {
    /// The database failed, or a row has a value that its typed row cannot have.
    Fault(TableFault),
    /// The sink takes no more.
    Stopped,
}

impl From<Error> for EachFault {
    ghost use Rattle.std.specs.Prelude.{◌≡◌};
    ghost use Rattle.table_words.specs.declared.error.TableFault.TheVariants.{Store};
    ghost use Rattle.keyed_rows.specs.declared.each_fault.EachFault.TheVariants.{Fault};

    ghost from_gives = { λ cause e. e ≡ Fault (Store cause) };

    fn from(cause: Error) -> EachFault {
        EachFault::Fault(TableFault::Store(cause))
    }
}

impl From<TableFault> for EachFault {
    ghost use Rattle.std.specs.Prelude.{◌≡◌};
    ghost use Rattle.keyed_rows.specs.declared.each_fault.EachFault.TheVariants.{Fault};

    ghost from_gives = { λ fault e. e ≡ Fault fault };

    fn from(fault: TableFault) -> EachFault {
        EachFault::Fault(fault)
    }
}

impl From<Stop> for EachFault {
    ghost use Rattle.std.specs.Prelude.{◌≡◌};
    ghost use Rattle.keyed_rows.specs.declared.each_fault.EachFault.TheVariants.{Stopped};

    ghost from_gives = { λ _ e. e ≡ Stopped };

    fn from(_: Stop) -> EachFault {
        EachFault::Stopped
    }
}
