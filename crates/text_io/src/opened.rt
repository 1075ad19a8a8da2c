//! A file that is open on a desk over real files.

use std::fs::{File, Metadata, OpenOptions};
use std::io;
use std::io::ErrorKind;
use std::os::fd::AsRawFd;
use std::os::unix::fs::MetadataExt;

/// The last of the descriptors of the standard streams.
const LAST_STANDARD: i32 = 2;

/// An open file, with the place of the word that named it.
#[derive(Drop)]
pub(crate) struct OpenedFile {
    pub(crate) file: File,
    pub(crate) place: usize,
    metadata: Metadata,
}

impl OpenedFile {
    /// The file at this path, opened for reading.
    pub(crate) fn to_read(rt: &HostRuntime, path: &str, place: usize) -> io::Result<OpenedFile> {
        OpenedFile::new(File::open(rt, path)?, place)
    }

    /// The file at this path, made where there is none, and opened for writing. What it holds stays.
    pub(crate) fn to_write(rt: &HostRuntime, path: &str, place: usize) -> io::Result<OpenedFile> {
        let mut options = OpenOptions::new();
        options.write(true).create(true);
        OpenedFile::new(options.open(rt, path)?, place)
    }

    /// An open file. It is refused where it stands in the place of a standard stream, whose bytes would go into it.
    fn new(file: File, place: usize) -> io::Result<OpenedFile> {
        if file.as_raw_fd() <= LAST_STANDARD {
            let message = "a standard stream is closed";
            return Err(io::Error::new(ErrorKind::Other, message));
        }
        let metadata = file.metadata()?;
        Ok(OpenedFile {
            file,
            place,
            metadata,
        })
    }

    /// Whether this is the same file, whatever paths led to the two.
    pub(crate) fn is_same(&self, other: &OpenedFile) -> bool {
        self.is_at(&other.metadata)
    }

    /// Whether this is the file of which the system knows this.
    pub(crate) fn is_at(&self, other: &Metadata) -> bool {
        self.metadata.dev() == other.dev() && self.metadata.ino() == other.ino()
    }

    /// Whether this is a regular file, whose bytes stay where they were written.
    pub(crate) fn is_regular(&self) -> bool {
        self.metadata.is_file()
    }
}
