//! How far an audit is, on a terminal.

ghost use Rattle.std.specs.Prelude.{◌≡◌, true, false, OnOk};
ghost use Rattle.std.specs.Io.KnownBytes.{Appends};
ghost use Rattle.line_work.specs.Auditing.{progress_line};

use replays::Progress;
use std::io::{self, IsTerminal, Write};

/// How many acts are done from one time that it is shown to the next.
const ACTS_A_STEP: u64 = 10_000;

/// Shows on standard error how many acts are done, in one line that is written over, where that is a terminal; elsewhere
/// nothing is written.
#[derive(Drop)]
pub(crate) struct Shown<'a> {
    rt: &'a HostRuntime,
    has_line: bool,
}

impl<'a> Shown<'a> {
    pub(crate) fn new(rt: &'a HostRuntime) -> Shown<'a> {
        Shown {
            rt,
            has_line: false,
        }
    }

    /// Blanks the line, where one is there.
    pub(crate) fn clear(&mut self) {
        let _ = blank(self.has_line, &mut self.rt.stderr());
        self.has_line = false;
    }
}

impl Progress for Shown<'_> {
    fn done(&mut self, acts: u64, of: u64) {
        if acts % ACTS_A_STEP == 0 {
            let mut err = self.rt.stderr();
            let is_terminal = err.is_terminal();
            if is_terminal {
                self.has_line = true;
            }
            let _ = show(is_terminal, acts, of, &mut err);
        }
    }
}

/// Shows how many acts are done, on a terminal alone.
fn show<E: Write>(is_terminal: bool, acts: u64, of: u64, err: &mut E) -> io::Result<()>
    ensures elsewhere { is_terminal ≡ false → err.new ≡ err.old }
    ensures terminal { is_terminal ≡ true → OnOk result (Appends (E.contents err.old) (E.contents err.new) (progress_line acts of)) }
{
    if is_terminal {
        write!(err, "\raudit: {acts} of {of} acts")
    } else {
        Ok(())
    }
}

/// Blanks a line that was shown, as wide as the longest: its words, and two numbers of 20 digits.
fn blank<E: Write>(has_line: bool, err: &mut E) -> io::Result<()>
    ensures none { has_line ≡ false → err.new ≡ err.old }
{
    if has_line {
        write!(err, "\r{:56}\r", "")
    } else {
        Ok(())
    }
}
