//! The file of the acts, in a file of the host.

ghost use Rattle.std.specs.Prelude.{◌≡◌, true, is_some, IfOk, OnErr};
ghost use Rattle.books_file.specs.Lines.{IsFoundBeside, names_acts};

use crate::opening::{NotOpened, open_acts};
use command_line::Work;
use sqlite::{FileFrom, Start};
use sqlite_disk::Disk;

/// Opens the file of the acts that the line names, if it names one. Where there is no file it is made.
pub(crate) fn open_named<A: Start>(
    rt: &HostRuntime,
    work: &Work<'_>,
    start: A,
) -> Result<Option<FileFrom<A>>, NotOpened<A>>
    ensures opened { IfOk result (IsFoundBeside ⟦<FileFrom<A> as Disk>⟧ A.Start.db work.now) }
    ensures named { OnErr result (names_acts work.now ≡ true) }
{
    match acts_name(work) {
        Some(name) => open_acts(rt, name, start),
        None => Ok(None),
    }
}

/// The name of the file of the acts.
fn acts_name<'a>(work: &Work<'a>) -> Option<&'a str>
    ensures { is_some result ≡ names_acts work.now }
{
    match work {
        Work::Serve { acts, .. } => *acts,
        Work::Import { acts, .. } => *acts,
        _ => None,
    }
}
