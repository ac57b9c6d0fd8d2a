ghost use Rattle.std.specs.Prelude.{OnOk};
ghost use Rattle.std.specs.Io.KnownBytes.{Appends};
ghost use Rattle.command_line.specs.Lines.{version_line};

use commands::limits::SCHEMA_VERSION;
use std::io;
use std::io::Write;

/// The version of the program.
pub(crate) const VERSION: &str = "1.0.0";

/// Prints which program this is: its version, and the schema number of the books that it makes and keeps.
pub(crate) fn print_version<W: Write>(out: &mut W) -> io::Result<()>
    ensures { OnOk result (Appends (W.contents out.old) (W.contents out.new) version_line) }
{
    writeln!(out, "lotd {VERSION}, schema {SCHEMA_VERSION}")?;
    out.flush()
}
