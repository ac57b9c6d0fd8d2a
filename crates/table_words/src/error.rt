//! Why a call on the tables fails.

ghost use Rattle.std.specs.Prelude.{◌≡◌};
ghost use Rattle.sqlite.specs.declared.error.Error.TheVariants.{SqliteFailure};
ghost use Rattle.sqlite.specs.declared.error.ErrorCode.TheVariants.{TooBig};
ghost use Rattle.table_words.specs.declared.error.TableFault.TheVariants.{Store};

use sqlite::{Error, ErrorCode};
use std::alloc::{AllocError, AllocFailed};

#[derive(Debug, Drop)]
pub enum TableFault {
    /// The database refused, or failed for memory, the disk or size.
    Store(Error),
    /// A stored row has a value that its typed row cannot have.
    Foreign,
}

impl From<Error> for TableFault {
    ghost use Rattle.std.specs.Prelude.{◌≡◌};
    ghost use Rattle.table_words.specs.declared.error.TableFault.TheVariants.{Store};

    ghost from_gives = { λ cause e. e ≡ Store cause };

    fn from(cause: Error) -> TableFault {
        TableFault::Store(cause)
    }
}

impl From<AllocError> for TableFault {
    ghost use Rattle.std.specs.Prelude.{◌≡◌};
    ghost use Rattle.sqlite.specs.declared.error.Error.TheVariants.{SqliteFailure};
    ghost use Rattle.sqlite.specs.declared.error.ErrorCode.TheVariants.{OutOfMemory};
    ghost use Rattle.table_words.specs.declared.error.TableFault.TheVariants.{Store};

    ghost from_gives = { λ _ e. e ≡ Store (SqliteFailure OutOfMemory) };

    fn from(_: AllocError) -> TableFault {
        TableFault::Store(Error::SqliteFailure(ErrorCode::OutOfMemory))
    }
}

impl<T: Drop> From<AllocFailed<T>> for TableFault {
    ghost use Rattle.std.specs.Prelude.{◌≡◌};
    ghost use Rattle.sqlite.specs.declared.error.Error.TheVariants.{SqliteFailure};
    ghost use Rattle.sqlite.specs.declared.error.ErrorCode.TheVariants.{OutOfMemory};
    ghost use Rattle.table_words.specs.declared.error.TableFault.TheVariants.{Store};

    ghost from_gives = { λ _ e. e ≡ Store (SqliteFailure OutOfMemory) };

    fn from(_: AllocFailed<T>) -> TableFault {
        TableFault::Store(Error::SqliteFailure(ErrorCode::OutOfMemory))
    }
}

impl TableFault {
    /// The fault of a number that is above its limit.
    pub fn too_big() -> TableFault
        ensures { result ≡ Store (SqliteFailure TooBig) }
    {
        TableFault::Store(Error::SqliteFailure(ErrorCode::TooBig))
    }
}
