//! A connection that has so much time, and no more.

ghost use Rattle.std.specs.Prelude.{◌≡◌, ◌+◌, ◌*◌, ◌≤◌, None, IfSome};
ghost use Rattle.std.specs.Duration.{as_nanos};
ghost use Rattle.std.specs.Io.{ReadsAtMost, WritesAtMost};

use std::io::{self, ErrorKind, Read, Write};
use std::net::TcpStream;
use std::time::{Clock, Duration, Instant};

/// How long a peer may be silent, in seconds.
const SILENT_SECONDS: u64 = 10;

/// How often a call that a signal cuts short is tried, at most; the time of the connection ends it long before.
const TRIES: u64 = u64::MAX;

/// A connection until its time is over. Behind that, reading comes to an end, as where the peer sends no more, and writing
/// fails. The clock's failure is one of the connection.
#[derive(Drop)]
pub(crate) struct Timed<'a, C> {
    pub(crate) stream: &'a TcpStream,
    pub(crate) clock: &'a C,
    /// When the connection came.
    pub(crate) start: Instant,
    /// How many seconds it has from then on.
    pub(crate) seconds: u64,
}

impl<C: Clock> Timed<'_, C> {
    /// What is left of the time, or none.
    fn left(&self) -> io::Result<Option<Duration>> {
        Ok(left_of(self.seconds, self.start.elapsed(self.clock)?))
    }
}

/// What is left of so many seconds once this is gone, or none.
fn left_of(seconds: u64, gone: Duration) -> Option<Duration>
    ensures some { IfSome result (λ left. as_nanos gone + as_nanos left ≡ seconds * 1_000_000_000) }
    ensures none { result ≡ None → seconds * 1_000_000_000 ≤ as_nanos gone }
{
    let left = Duration::from_secs(seconds).saturating_sub(gone);
    if left.is_zero() { None } else { Some(left) }
}

impl<C: Clock> Timed<'_, C> {
    /// Reads once, of a client that is silent for no longer than its time.
    fn read_once(&self, room: &mut [u8]) -> io::Result<usize>
        ensures { ReadsAtMost result room.new }
    {
        let Some(left) = self.left()? else {
            return Ok(0);
        };
        let mut stream = self.stream;
        stream.set_read_timeout(Some(left.min(Duration::from_secs(SILENT_SECONDS))))?;
        match stream.read(room) {
            Ok(count) => Ok(count),
            Err(error) => match self.left()? {
                Some(_) => Err(error),
                None => Ok(0),
            },
        }
    }

    /// Writes once.
    fn write_once(&self, bytes: &[u8]) -> io::Result<usize>
        ensures { WritesAtMost result bytes.now }
    {
        let Some(left) = self.left()? else {
            return Err(io::Error::from(ErrorKind::TimedOut));
        };
        let mut stream = self.stream;
        stream.set_write_timeout(Some(left.min(Duration::from_secs(SILENT_SECONDS))))?;
        stream.write(bytes)
    }
}

/// Whether a call was cut short by a signal, as where the process was stopped and goes on: it is then tried again.
fn is_interrupted(answer: &io::Result<usize>) -> bool {
    match answer {
        Ok(_) => false,
        Err(error) => error.kind() == ErrorKind::Interrupted,
    }
}

impl<C: Clock> Read for Timed<'_, C> {
    fn read(&mut self, room: &mut [u8]) -> io::Result<usize> {
        for _ in 0..TRIES {
            let answer = self.read_once(room);
            if !is_interrupted(&answer) {
                return answer;
            }
        }
        Err(io::Error::from(ErrorKind::TimedOut))
    }
}

impl<C: Clock> Write for Timed<'_, C> {
    fn write(&mut self, bytes: &[u8]) -> io::Result<usize> {
        for _ in 0..TRIES {
            let answer = self.write_once(bytes);
            if !is_interrupted(&answer) {
                return answer;
            }
        }
        Err(io::Error::from(ErrorKind::TimedOut))
    }

    fn flush(&mut self) -> io::Result<()> {
        let mut stream = self.stream;
        stream.flush()
    }
}
