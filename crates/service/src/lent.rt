//! A writer that is lent to a call which takes its writer by value.

ghost use Rattle.service.specs.Lending.{behind};

use std::io::{self, Write};

/// A writer behind a reference.
///
/// Contracts see its bytes behind the name of the reference, so that the writer which a call gives back is known to be
/// the one that it was given.
#[derive(Drop)]
pub(crate) struct Lent<'a, W> {
    pub(crate) out: &'a mut W,
}

impl<W: Write> Write for Lent<'_, W> {
    ghost contents = { λ lent. behind lent.out.ghost_name (W.contents lent.out.now) };

    fn write(&mut self, bytes: &[u8]) -> io::Result<usize> {
        self.out.write(bytes)
    }

    fn flush(&mut self) -> io::Result<()> {
        self.out.flush()
    }
}
