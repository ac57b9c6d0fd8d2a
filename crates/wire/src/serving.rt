//! A request from a reader, and the bytes of its answer to a writer.

ghost use Rattle.std.specs.Prelude.{◌≡◌, IfOk, IfErr};
ghost use Rattle.std.specs.Io.KnownBytes.{Keeps};
ghost use Rattle.requests.specs.declared.request.Read.TheVariants.{Need};
ghost use Rattle.texts.specs.Writing.{Writes};
ghost use Rattle.wire.specs.Serving.{IsRead, IsTaken, stopped as stopped_lem};

use requests::{Read as Reading, RouteTable, WireFault, read_request};
use std::alloc::Global;
use std::io::{Read, Write};
use texts::put;

/// Why a request was not served.
#[derive(Clone, Copy, PartialEq, Eq, Debug)]
pub enum ServeFault {
    /// The reader failed, `Interrupted` too. Nothing was answered, and the books are unchanged.
    Read,
    /// The writer failed, within the answer or at the flush. A beginning of the answer was written. The act stands, if it
    /// was accepted: the same request gets its answer when it comes again.
    Write,
}

/// How much is read at a time.
const CHUNK: usize = 4_096;

/// What was read of a reader.
#[derive(Drop)]
pub struct Heard {
    pub reading: Reading,
    /// The text that has this reading, or a beginning of it where there was no memory.
    pub text: Vec<u8>,
}

/// What came of one read.
enum Taken {
    /// The text has grown.
    More,
    /// The reader has come to its end.
    End,
    /// There was no memory for what was read.
    NoRoom,
}

/// Writes the bytes of an answer, and flushes. The fault is `Write` where the writer fails, and a beginning of the bytes,
/// maybe all of them, was then written.
pub fn write_bytes<W: Write>(writer: &mut W, bytes: &[u8]) -> Result<(), ServeFault>
    ensures written { Writes result (W.contents writer.old) (W.contents writer.new) bytes.now }
    ensures fault { IfErr result (λ e. e ≡ ServeFault.Write) }
{
    match put(bytes, writer) {
        Ok(()) => flush(writer),
        Err(_) => Err(ServeFault::Write),
    }
}

fn flush<W: Write>(writer: &mut W) -> Result<(), ServeFault>
    ensures kept { Keeps (W.contents writer.old) (W.contents writer.new) }
    ensures fault { IfErr result (λ e. e ≡ ServeFault.Write) }
{
    match writer.flush() {
        Ok(()) => Ok(()),
        Err(_) => Err(ServeFault::Write),
    }
}

/// The reading where no more is read. In a function of its own, so that its caller has one exit for it.
fn end_reading(stop: Taken, fault: WireFault) -> Reading
    ensures { result ≡ stopped_lem stop (Need fault) }
{
    match stop {
        Taken::More | Taken::End => Reading::Need(fault),
        Taken::NoRoom => Reading::Bad(WireFault::Memory),
    }
}

/// Reads until no more bytes are needed or the reader comes to its end. The reading is `Bad` with `W90` where there was no
/// memory for what was read. The fault is `Read` where the reader fails.
pub fn read_whole<R: Read>(
    alloc: Global,
    routes: &mut RouteTable,
    reader: &mut R,
) -> Result<Heard, ServeFault>
    ensures read { IfOk result (IsRead (R.remaining reader.old) (R.remaining reader.new)) }
    ensures fault { IfErr result (λ e. e ≡ ServeFault.Read) }
{
    let mut text = Vec::new(alloc);
    loop {
        let fault = match read_request(alloc, routes, text.as_slice()) {
            Reading::Need(fault) => fault,
            reading => return Ok(Heard { reading, text }),
        };
        match read_more(reader, &mut text)? {
            Taken::More => {}
            stop => {
                let reading = end_reading(stop, fault);
                return Ok(Heard { reading, text });
            }
        }
    }
}

/// Reads once, at the end of the text.
fn read_more<R: Read>(reader: &mut R, text: &mut Vec<u8>) -> Result<Taken, ServeFault>
    ensures taken { IfOk result (IsTaken (R.remaining reader.old) (R.remaining reader.new) text.old.items text.new.items) }
    ensures fault { IfErr result (λ e. e ≡ ServeFault.Read) }
{
    let mut chunk = [0; CHUNK];
    let count = match reader.read(&mut chunk) {
        Ok(count) => count,
        Err(_) => return Err(ServeFault::Read),
    };
    if count == 0 {
        return Ok(Taken::End);
    }
    match text.extend_from_slice(&chunk[..count]) {
        Ok(()) => Ok(Taken::More),
        Err(_) => Ok(Taken::NoRoom),
    }
}
