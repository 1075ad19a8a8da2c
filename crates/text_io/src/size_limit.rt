//! How long the system lets this process make a file.
//!
//! A write that begins at the limit on the size of files (`RLIMIT_FSIZE` of IEEE 1003.1, `ulimit -f`) ends the process by the
//! signal SIGXFSZ, and the standard library has no call on signals or on limits. So the limit is read from the table in which
//! Linux tells it, and no such write is made.

use std::fs::{File, Metadata};
use std::io::Read;
use std::str;

/// Where the system tells the limits of this process, a line for each.
const LIMITS: &str = "/proc/self/limits";

/// More bytes than that table has.
const TABLE_BYTES: usize = 4096;

/// What the line on the size of files begins with. The limit in bytes comes next, or the word `unlimited`.
const FILE_SIZE: &str = "Max file size";

/// The limit on the size of files, where there is one and the system tells it.
#[derive(Clone, Copy)]
pub(crate) struct SizeLimit {
    bytes: Option<u64>,
}

impl SizeLimit {
    /// The limit of this process.
    pub(crate) fn of_process(rt: &HostRuntime) -> SizeLimit {
        let mut table = [0; TABLE_BYTES];
        let bytes = read_table(rt, &mut table).and_then(limit_in);
        SizeLimit { bytes }
    }

    /// Whether there is one.
    pub(crate) fn is_known(self) -> bool {
        self.bytes.is_some()
    }

    /// How many bytes a file can still take. Only a regular file is limited.
    pub(crate) fn room(self, file: &Metadata) -> u64 {
        match self.bytes {
            Some(bytes) if file.is_file() => bytes.saturating_sub(file.len()),
            _ => u64::MAX,
        }
    }
}

/// The system's table of limits, which it gives whole at one read.
fn read_table<'a>(rt: &HostRuntime, into: &'a mut [u8]) -> Option<&'a str> {
    let mut file = File::open(rt, LIMITS).ok()?;
    let count = file.read(into).ok()?;
    str::from_utf8(&into[..count]).ok()
}

/// The limit on the size of files that a table of limits tells.
fn limit_in(table: &str) -> Option<u64> {
    let limits = table.lines().find_map(|line| line.strip_prefix(FILE_SIZE))?;
    limits.split_whitespace().next()?.parse().ok()
}
