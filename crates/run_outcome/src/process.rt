//! What a program needs of its process before a run: its standard streams, and its words.

use crate::status::Status;
use std::alloc::AllocError;
use std::fs::OpenOptions;
use std::os::fd::{AsRawFd, IntoRawFd};
use std::{env, io};

/// How many standard streams there are: input, output and error, whose descriptors are 0, 1 and 2.
const STANDARD_STREAMS: i32 = 3;

/// Opens `/dev/null` in the place of each standard stream that is closed, so that no file of a run takes its descriptor and with
/// it what is written there. A system opens a file at the least free descriptor.
pub fn open_closed_streams(rt: &HostRuntime) {
    for _stream in 0..STANDARD_STREAMS {
        let mut options = OpenOptions::new();
        options.read(true).write(true);
        let Ok(null) = options.open(rt, "/dev/null") else {
            return;
        };
        if null.as_raw_fd() >= STANDARD_STREAMS {
            return;
        }
        null.into_raw_fd();
    }
}

/// The words after the program's name, or the status of a run that can't read them: `Memory` where there is none for them, and
/// `Usage` where one is not UTF-8.
pub fn program_words(rt: &HostRuntime) -> Result<Vec<String>, Status> {
    let all = match env::args(rt) {
        Ok(all) => all,
        Err(error) => return Err(unread(&error)),
    };
    let words: Result<Vec<String>, AllocError> = all.skip(1).collect(rt.alloc());
    words.map_err(|_| Status::Memory)
}

/// The status where the words could not be read.
fn unread(error: &io::Error) -> Status {
    if error.kind() == io::ErrorKind::OutOfMemory {
        Status::Memory
    } else {
        Status::Usage
    }
}
