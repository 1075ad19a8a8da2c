//! Files of the desks over memory: found by their names, read piece by piece.

ghost use Rattle.std.specs.Prelude.{◌≡◌, ◌<◌, length, min, take, drop, map, slice_get, string_bytes, IfSome};
ghost use Rattle.std.specs.Option.{option_and_then};
ghost use Rattle.text_io.specs.Desk.{file_of};
ghost use Rattle.text_io.specs.NamedFiles.{folder_of, file_at, rest_of};

/// A file of a desk over memory: its name, and its bytes.
#[derive(Drop)]
pub struct NamedFile {
    pub name: String,
    pub bytes: Vec<u8>,
}

/// Where reading goes on: the file's place in the folder, and how many of its bytes were read.
#[derive(Clone, Copy)]
pub(crate) struct Place {
    pub(crate) file: usize,
    pub(crate) offset: usize,
}

/// The place in the folder of the first file of this name.
pub(crate) fn find_file(files: &[NamedFile], name: &str) -> Option<usize>
    ensures first { option_and_then (file_at (folder_of files.now)) result ≡ file_of (folder_of files.now) name.now }
    ensures within { IfSome result (λ at. at < length files.now) }
{
    for (at, file) in files.iter().enumerate() {
        if file.name.as_str() == name {
            return Some(at);
        }
    }
    None
}

/// The place in the folder of the file that the word at this place names.
pub(crate) fn file_of_word(words: &[String], files: &[NamedFile], place: usize) -> Option<usize>
    ensures file { option_and_then (file_at (folder_of files.now)) result ≡ option_and_then (file_of (folder_of files.now))
        (slice_get (map string_bytes words.now) place) }
    ensures within { IfSome result (λ file. file < length files.now) }
{
    let word = words.get(place)?;
    find_file(files, word.as_str())
}

/// Copies the bytes that come next into the front of `into`, moves the place past them, and answers how many.
pub(crate) fn read_on(files: &[NamedFile], place: &mut Place, into: &mut [u8]) -> usize
    ensures count { result ≡ min (length (rest_of (folder_of files.now) place.old)) (length into.new) }
    ensures front { take result into.new ≡ take result (rest_of (folder_of files.now) place.old) }
    ensures rest { rest_of (folder_of files.now) place.new ≡ drop result (rest_of (folder_of files.now) place.old) }
{
    let Some(file) = files.get(place.file) else {
        return 0;
    };
    let bytes = file.bytes.as_slice();
    if place.offset >= bytes.len() {
        return 0;
    }
    let rest = &bytes[place.offset..];
    let count = rest.len().min(into.len());
    into[..count].copy_from_slice(&rest[..count]);
    place.offset += count;
    count
}
