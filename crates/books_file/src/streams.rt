//! The descriptors of the standard streams.

ghost use Rattle.std.specs.Prelude.{◌↔◌, ◌≤ℤ◌, IsTrue};
ghost use Rattle.std.specs.Fd.{file_raw_fd};

use std::fs::{File, OpenOptions};
use std::io;
use std::os::fd::{AsRawFd, IntoRawFd, RawFd};

/// What is opened in place of a stream that is closed.
const NOTHING: &str = "/dev/null";

/// The descriptor of standard input.
const INPUT: RawFd = 0;

/// How many streams follow it: standard output and standard error.
const OUTPUTS: u32 = 2;

/// The descriptor of the last of them.
const ERRORS: RawFd = 2;

/// Sees to it that no file and no connection gets the descriptor of a standard stream, and with it what is printed or
/// logged: a stream that is closed stays taken, by a file of which input cannot be read and to which output cannot be
/// written. Of the descriptors that are free the system gives the lowest.
pub(crate) fn take_streams(rt: &HostRuntime) -> io::Result<()> {
    let mut for_input = OpenOptions::new();
    leave_open(for_input.write(true).open(rt, NOTHING)?, INPUT);
    for _ in 0..OUTPUTS {
        if !leave_open(File::open(rt, NOTHING)?, ERRORS) {
            return Ok(());
        }
    }
    Ok(())
}

/// Leaves the file open for good where its descriptor is this one at most, and else closes it. Whether it stays open.
fn leave_open(file: File, last: RawFd) -> bool
    ensures { IsTrue result ↔ (file_raw_fd file ≤ℤ last) }
{
    let stays = file.as_raw_fd() <= last;
    if stays {
        let _ = file.into_raw_fd();
    } else {
        drop(file);
    }
    stays
}
