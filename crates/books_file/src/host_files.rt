//! The files of the host that the lines read.

use command_line::FilesAt;
use std::fs::File;
use std::io::{self, Read, Stdin};

/// The files of the host, which the lines name. `-` is standard input.
#[derive(Clone, Copy)]
pub struct HostFiles<'a> {
    pub rt: &'a HostRuntime,
}

/// A file of the host, or standard input, of which a read gives what has come.
#[derive(Drop)]
pub enum HostFile {
    /// A file.
    File(File),
    /// Standard input.
    Input(Stdin),
}

impl Read for HostFile {
    fn read(&mut self, buf: &mut [u8]) -> io::Result<usize> {
        match self {
            HostFile::File(file) => file.read(buf),
            HostFile::Input(input) => input.read(buf),
        }
    }
}

impl FilesAt for HostFiles<'_> {
    type File = HostFile;

    fn open(&self, name: &str) -> io::Result<HostFile> {
        if name == "-" {
            return Ok(HostFile::Input(self.rt.stdin()));
        }
        match File::open(self.rt, name) {
            Ok(file) => Ok(HostFile::File(file)),
            Err(error) => Err(error),
        }
    }
}
