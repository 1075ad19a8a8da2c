//! Runs of commands over desks in memory, and what is left on them.
use std::alloc::{AllocError, Global};
use text_io::{Memory, MemoryDesk, NamedFile, OutSlot};
use translate_cmd::{Status, run};

/// Words that translate the library.
pub(crate) const TRANSLATE: [&str; 4] = ["translate", "in.lib", "out.v", "out.vhd"];

/// Words that simulate the library beside both files of models.
pub(crate) const SIMULATE: [&str; 5] = ["simulate", "in.lib", "in.v", "in.vhd", "in.stim"];

/// Words that replay the Verilog file.
pub(crate) const REPLAY_VERILOG: [&str; 3] = ["replay-verilog", "in.v", "in.stim"];

/// Words that replay the VHDL file.
pub(crate) const REPLAY_VITAL: [&str; 3] = ["replay-vital", "in.vhd", "in.stim"];

/// Words that compare the library with the Verilog file.
pub(crate) const AUDIT: [&str; 3] = ["audit", "in.lib", "in.v"];

/// The bytes of the files that those words name.
#[derive(Copy, Clone)]
pub(crate) struct Files<'a> {
    pub library: &'a [u8],
    pub verilog: &'a [u8],
    pub vital: &'a [u8],
    pub stimulus: &'a [u8],
}

/// A library and no other file.
pub(crate) fn library_alone(library: &[u8]) -> Files<'_> {
    Files {
        library,
        verilog: b"",
        vital: b"",
        stimulus: b"",
    }
}

/// The words of a desk.
pub(crate) fn words_of(alloc: Global, texts: &[&str]) -> Result<Vec<String>, AllocError> {
    let mut words = Vec::new(alloc);
    for text in texts {
        words.push(String::from_str(alloc, text)?)?;
    }
    Ok(words)
}

/// A file with this name and these bytes.
fn named_file(alloc: Global, name: &str, bytes: &[u8]) -> Result<NamedFile, AllocError> {
    Ok(NamedFile {
        name: String::from_str(alloc, name)?,
        bytes: Vec::from_slice(alloc, bytes)?,
    })
}

/// Adds these files to a folder.
fn push_files(
    alloc: Global,
    folder: &mut Vec<NamedFile>,
    files: &[(&str, &[u8])],
) -> Result<(), AllocError> {
    for (name, bytes) in files {
        folder.push(named_file(alloc, name, bytes)?)?;
    }
    Ok(())
}

/// The folder of a desk.
fn folder_of(alloc: Global, files: Files<'_>) -> Result<Vec<NamedFile>, AllocError> {
    let mut folder = Vec::new(alloc);
    let named = [
        ("in.lib", files.library),
        ("in.v", files.verilog),
        ("in.vhd", files.vital),
        ("in.stim", files.stimulus),
    ];
    push_files(alloc, &mut folder, &named)?;
    Ok(folder)
}

/// How many bytes a call may move in the runs that are tried at several such numbers.
pub(crate) const PIECES: [usize; 3] = [1, 7, 4096];

/// What limits the calls on a desk: those with these numbers fail, an output has this room, in bytes, and a call moves at most
/// `piece` bytes.
#[derive(Copy, Clone)]
pub(crate) struct Limits<'a> {
    pub failing: &'a [u64],
    pub room: usize,
    pub piece: usize,
}

/// A desk with these words, files and limits.
pub(crate) fn desk_of(
    alloc: Global,
    words: &[&str],
    files: Files<'_>,
    limits: Limits<'_>,
) -> Result<MemoryDesk, Memory> {
    let words = words_of(alloc, words)?;
    let folder = folder_of(alloc, files)?;
    let failing = Vec::from_slice(alloc, limits.failing)?;
    let piece = limits.piece.max(1);
    MemoryDesk::in_pieces(alloc, words, folder, failing, limits.room, piece)
}

/// What a run left: its status, and the desk.
#[derive(Drop)]
pub(crate) struct Left {
    pub status: Status,
    pub desk: MemoryDesk,
}

impl Left {
    /// Whether the run ended with this status, this report and these faults.
    pub(crate) fn is(&self, status: Status, report: &str, faults: &str) -> bool {
        self.status == status
            && self.desk.written(OutSlot::Report) == report.as_bytes()
            && self.desk.written(OutSlot::Faults) == faults.as_bytes()
    }

    /// Whether the run ended with this status, this report, and faults that begin so.
    pub(crate) fn begins(&self, status: Status, report: &str, faults: &str) -> bool {
        self.status == status
            && self.desk.written(OutSlot::Report) == report.as_bytes()
            && self
                .desk
                .written(OutSlot::Faults)
                .starts_with(faults.as_bytes())
    }

    /// Whether a slot has this text at its end.
    pub(crate) fn ends_with(&self, slot: OutSlot, text: &str) -> bool {
        self.desk.written(slot).ends_with(text.as_bytes())
    }

    /// Whether a slot has these texts, one behind the other.
    pub(crate) fn wrote(&self, slot: OutSlot, texts: &[&str]) -> bool {
        let mut rest = self.desk.written(slot);
        for text in texts {
            rest = match rest.get(text.len()..) {
                Some(behind) if rest.starts_with(text.as_bytes()) => behind,
                _ => return false,
            };
        }
        rest.is_empty()
    }

    /// Whether a slot has a front of these texts, one behind the other.
    pub(crate) fn wrote_front(&self, slot: OutSlot, texts: &[&str]) -> bool {
        let mut rest = self.desk.written(slot);
        for text in texts {
            rest = match rest.get(text.len()..) {
                Some(behind) if rest.starts_with(text.as_bytes()) => behind,
                Some(_) => return false,
                None => return text.as_bytes().starts_with(rest),
            };
        }
        rest.is_empty()
    }
}

/// Runs these words over these files, on a desk with these limits.
fn ran_within(
    alloc: Global,
    words: &[&str],
    files: Files<'_>,
    limits: Limits<'_>,
) -> Result<Left, Memory> {
    let mut desk = desk_of(alloc, words, files, limits)?;
    let status = run(alloc, &mut desk);
    Ok(Left { status, desk })
}

/// The room of an output in runs that are tried at many calls, in bytes.
const ROOM: usize = 10_000;

/// Runs these words over these files, on a desk at which the calls with these numbers fail and a call moves at most `piece`
/// bytes.
pub(crate) fn ran(
    alloc: Global,
    words: &[&str],
    files: Files<'_>,
    failing: &[u64],
    piece: usize,
) -> Result<Left, Memory> {
    let limits = Limits {
        failing,
        room: ROOM,
        piece,
    };
    ran_within(alloc, words, files, limits)
}

/// The limits of a desk at which no call fails.
const WIDE: Limits<'static> = Limits {
    failing: &[],
    room: 100_000,
    piece: usize::MAX,
};

/// Translates a library.
pub(crate) fn translated(alloc: Global, library: &str) -> Result<Left, Memory> {
    let files = library_alone(library.as_bytes());
    ran_within(alloc, &TRANSLATE, files, WIDE)
}

/// Runs words that name no file, on a desk at which no call fails.
pub(crate) fn ran_without_files(alloc: Global, words: &[&str]) -> Result<Left, Memory> {
    ran_within(alloc, words, library_alone(b""), WIDE)
}

/// Simulates these files.
pub(crate) fn simulated(alloc: Global, files: Files<'_>) -> Result<Left, Memory> {
    ran_within(alloc, &SIMULATE, files, WIDE)
}

/// Simulates a library beside the models that a translation left.
fn simulated_beside(alloc: Global, library: &str, models: &Left, stimulus: &str) -> Option<Left> {
    let files = Files {
        library: library.as_bytes(),
        verilog: models.desk.written(OutSlot::VerilogText),
        vital: models.desk.written(OutSlot::VitalText),
        stimulus: stimulus.as_bytes(),
    };
    simulated(alloc, files).ok()
}

/// Simulates a library beside its own models; nothing where memory is short.
pub(crate) fn simulated_beside_its_own(
    alloc: Global,
    library: &str,
    stimulus: &str,
) -> Option<Left> {
    match &translated(alloc, library) {
        Ok(models) => simulated_beside(alloc, library, models, stimulus),
        Err(_) => None,
    }
}

/// What a run wrote to a slot, with the second text of an edit in the place of the first.
fn with_edit(alloc: Global, left: &Left, slot: OutSlot, edit: (&str, &str)) -> Option<String> {
    let text = str::from_utf8(left.desk.written(slot)).ok()?;
    text.replace(alloc, edit.0, edit.1).ok()
}

/// What translating a library writes to a slot, with the second text of an edit in the place of the first.
pub(crate) fn edited(
    alloc: Global,
    library: &str,
    slot: OutSlot,
    edit: (&str, &str),
) -> Option<String> {
    match &translated(alloc, library) {
        Ok(left) => with_edit(alloc, left, slot, edit),
        Err(_) => None,
    }
}
