//! The two ends of a client, which may fail, and what a line prints to.

use std::alloc::Global;
use std::io::{self, ErrorKind, Read, Write};

/// Sends a text, and then ends or fails.
#[derive(Drop)]
pub struct Sender<'a> {
    rest: &'a [u8],
    ends: bool,
}

impl<'a> Sender<'a> {
    /// Sends the text, and ends.
    pub fn whole(text: &'a str) -> Sender<'a> {
        Sender {
            rest: text.as_bytes(),
            ends: true,
        }
    }

    /// Sends so many bytes of the text, and fails.
    pub fn failing(text: &'a str, sent: usize) -> Sender<'a> {
        let bytes = text.as_bytes();
        Sender {
            rest: &bytes[..sent.min(bytes.len())],
            ends: false,
        }
    }
}

impl Read for Sender<'_> {
    fn read(&mut self, buf: &mut [u8]) -> io::Result<usize> {
        if self.rest.is_empty() && !self.ends {
            return Err(io::Error::from(ErrorKind::ConnectionReset));
        }
        let count = buf.len().min(self.rest.len());
        buf[..count].copy_from_slice(&self.rest[..count]);
        self.rest = &self.rest[count..];
        Ok(count)
    }
}

/// Takes an answer, or fails within it or at the flush.
#[derive(Drop)]
pub struct Receiver {
    /// What was taken.
    pub taken: Vec<u8>,
    room: usize,
    /// How many bytes it takes at once.
    at_once: usize,
    flushes: bool,
}

impl Receiver {
    /// Takes all.
    pub fn whole(alloc: Global) -> Receiver {
        Receiver {
            taken: Vec::new(alloc),
            room: usize::MAX,
            at_once: usize::MAX,
            flushes: true,
        }
    }

    /// Takes all, a few bytes at once.
    pub fn sipping(alloc: Global, at_once: usize) -> Receiver {
        Receiver {
            taken: Vec::new(alloc),
            room: usize::MAX,
            at_once,
            flushes: true,
        }
    }

    /// Takes so many bytes, and then fails.
    pub fn failing(alloc: Global, room: usize) -> Receiver {
        Receiver {
            taken: Vec::new(alloc),
            room,
            at_once: usize::MAX,
            flushes: false,
        }
    }
}

impl Write for Receiver {
    fn write(&mut self, buf: &[u8]) -> io::Result<usize> {
        let count = buf.len().min(self.room).min(self.at_once);
        if count == 0 {
            return Err(io::Error::from(ErrorKind::BrokenPipe));
        }
        match self.taken.extend_from_slice(&buf[..count]) {
            Ok(()) => {}
            Err(_) => return Err(io::Error::from(ErrorKind::OutOfMemory)),
        }
        self.room -= count;
        Ok(count)
    }

    fn flush(&mut self) -> io::Result<()> {
        match self.flushes {
            true => Ok(()),
            false => Err(io::Error::from(ErrorKind::BrokenPipe)),
        }
    }
}
