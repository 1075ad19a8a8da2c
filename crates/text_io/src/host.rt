//! The desk over real files.

ghost use Rattle.std.specs.Prelude.{◌≡◌, ◌≤◌, ◌+◌, ◌-◌, ◌^◌, min, length, map, string_bytes, IsTrue, IsSome, IfOk, OnOk, OnErr};
ghost use Rattle.text_io.specs.declared.slots.Slot.TheVariants.{Output};
ghost use Rattle.text_io.specs.Desk.{is_bound};
ghost use Rattle.text_io.specs.Host.{file_state, file_faults, untold};

use crate::each_slot::{Inputs, Outputs};
use crate::opened::OpenedFile;
use crate::outside::{Desk, Failed};
use crate::size_limit::SizeLimit;
use crate::slots::{InSlot, OutSlot};
use std::fs::{self, File, Metadata};
use std::io;
use std::io::{ErrorKind, Read, Write};

/// The files that the standard output and the standard error are, as Linux names them.
const STANDARD_OUTPUT: &str = "/proc/self/fd/1";

const STANDARD_ERROR: &str = "/proc/self/fd/2";

/// More bytes than a message has beside the name of its file.
const MESSAGE_BYTES: u64 = 256;

/// A desk over real files. The report is the standard output and the faults are the standard error. It tells no
/// content, and counts a fault at each error of the system, at each write that takes nothing, at one to a file that has the
/// greatest size that the system allows, at a regular file that is to be made empty and is open on the desk already, by
/// whatever path, and at a regular file to which the standard output or the standard error goes. Of each fault it says one line
/// on the standard error, `lib2sim: PATH: REASON`, as far as that can be written.
#[derive(Drop)]
pub struct FileDesk {
    rt: HostRuntime,
    words: Vec<String>,
    sizes: SizeLimit,
    inputs: Inputs<Option<OpenedFile>>,
    outputs: Outputs<Option<OpenedFile>>,
    faults: u64,
}

impl FileDesk {
    /// A desk with these words, at which no file is open. It takes no memory.
    #[tactic(auto, unfolding(crate::specs::Host::reads_files))]
    pub fn new(rt: HostRuntime, words: Vec<String>) -> FileDesk
        ensures state { file_state result ≡ untold (map string_bytes words.items) }
        ensures faults { file_faults result ≡ 0 }
    {
        let sizes = SizeLimit::of_process(&rt);
        FileDesk {
            rt,
            words,
            sizes,
            inputs: Inputs {
                library: None,
                verilog: None,
                vital: None,
                stimulus: None,
            },
            outputs: Outputs {
                verilog_text: None,
                vital_text: None,
                report: None,
                faults: None,
            },
            faults: 0,
        }
    }

    /// The word at this place, as a path.
    fn path(&self, place: usize) -> &str {
        self.words.get(place).map_or("", |word| word.as_str())
    }

    /// The path of an open file.
    fn path_of(&self, opened: &Option<OpenedFile>) -> &str {
        match opened {
            Some(opened) => self.path(opened.place),
            None => "",
        }
    }

    /// What a slot is written to, as messages name it.
    fn output_name(&self, slot: OutSlot) -> &str {
        match slot {
            OutSlot::VerilogText => self.path_of(self.outputs.get(slot)),
            OutSlot::VitalText => self.path_of(self.outputs.get(slot)),
            OutSlot::Report => "standard output",
            OutSlot::Faults => "standard error",
        }
    }

    /// Whether this file is open on the desk.
    fn is_open(&self, file: &OpenedFile) -> bool {
        for slot in [
            InSlot::Library,
            InSlot::Verilog,
            InSlot::Vital,
            InSlot::Stimulus,
        ] {
            if is_it(self.inputs.get(slot), file) {
                return true;
            }
        }
        is_it(self.outputs.get(OutSlot::VerilogText), file)
            || is_it(self.outputs.get(OutSlot::VitalText), file)
    }

    /// Whether the standard output or the standard error goes to this file.
    fn is_stream(&self, file: &OpenedFile) -> bool {
        for stream in [STANDARD_OUTPUT, STANDARD_ERROR] {
            match fs::metadata(&self.rt, stream) {
                Ok(metadata) if file.is_at(&metadata) => return true,
                _ => {}
            }
        }
        false
    }

    /// This file, unless a standard stream goes to it: what is written there would spoil it.
    fn unless_stream(&self, opened: OpenedFile) -> io::Result<OpenedFile> {
        if opened.is_regular() && self.is_stream(&opened) {
            let message = "a standard stream goes to this file";
            return Err(io::Error::new(ErrorKind::InvalidInput, message));
        }
        Ok(opened)
    }

    /// The file that the word at this place names, to be read.
    fn open(&self, place: usize) -> io::Result<OpenedFile> {
        self.unless_stream(OpenedFile::to_read(&self.rt, self.path(place), place)?)
    }

    /// The file that the word at this place names, made empty. What is open on the desk already is not touched, nor is what a
    /// standard stream goes to.
    fn create(&self, place: usize) -> io::Result<OpenedFile> {
        let opened = OpenedFile::to_write(&self.rt, self.path(place), place)?;
        let opened = self.unless_stream(opened)?;
        if opened.is_regular() {
            if self.is_open(&opened) {
                let message = "the same file as another one of the command";
                return Err(io::Error::new(ErrorKind::InvalidInput, message));
            }
            opened.file.set_len(0)?;
        }
        Ok(opened)
    }

    /// What the system knows of the file that a slot is written to.
    fn metadata(&self, slot: OutSlot) -> io::Result<Metadata> {
        match slot {
            OutSlot::VerilogText | OutSlot::VitalText => metadata_of(self.outputs.get(slot)),
            OutSlot::Report => fs::metadata(&self.rt, STANDARD_OUTPUT),
            OutSlot::Faults => fs::metadata(&self.rt, STANDARD_ERROR),
        }
    }

    /// How many bytes the file of a slot can still take, as far as the system tells.
    fn room(&self, slot: OutSlot) -> u64 {
        if !self.sizes.is_known() {
            return u64::MAX;
        }
        match self.metadata(slot) {
            Ok(metadata) => self.sizes.room(&metadata),
            Err(_) => u64::MAX,
        }
    }

    /// Says why a call failed, as far as that can be written.
    fn say(&self, name: &str, error: &io::Error) {
        if self.room(OutSlot::Faults) < (name.len() as u64).saturating_add(MESSAGE_BYTES) {
            return;
        }
        let _ = self.rt.eprintln(format_args!("lib2sim: {name}: {error}"));
    }

    /// Writes some of the bytes, of which there is one, to a slot that is bound, and answers how many.
    #[tactic(auto, unfolding(crate::specs::Host::reads_files))]
    fn write_some(&self, slot: OutSlot, bytes: &[u8]) -> io::Result<usize>
        requires { IsTrue (is_bound (file_state self.now) (Output slot)) }
        ensures { IfOk result (λ count. count ≤ length bytes.now) }
    {
        let bytes = front(bytes, self.room(slot));
        if bytes.is_empty() {
            return Err(io::Error::from(ErrorKind::FileTooLarge));
        }
        match slot {
            OutSlot::VerilogText => write_file(self.outputs.get(slot), bytes),
            OutSlot::VitalText => write_file(self.outputs.get(slot), bytes),
            OutSlot::Report => self.rt.stdout().write_some(bytes),
            OutSlot::Faults => self.rt.stderr().write_some(bytes),
        }
    }

    /// What a call on the file that the word at this place names came to. Where it failed, it is said why, and the fault
    /// is counted.
    fn reported<T>(&mut self, place: usize, outcome: io::Result<T>) -> Result<T, Failed>
        ensures ok { OnOk result (self.new ≡ self.old) }
        ensures err { OnErr result (self.new ≡ record self.old { faults = min (self.old.faults + 1) (2 ^ 64 - 1) }) }
        ensures later { self.old.faults ≤ self.new.faults }
    {
        match outcome {
            Ok(value) => Ok(value),
            Err(error) => {
                self.say(self.path(place), &error);
                Err(self.fault())
            }
        }
    }

    /// Counts a fault.
    fn fault(&mut self) -> Failed
        ensures counted { self.new ≡ record self.old { faults = min (self.old.faults + 1) (2 ^ 64 - 1) } }
        ensures later { self.old.faults ≤ self.new.faults }
    {
        self.faults = self.faults.saturating_add(1);
        Failed
    }
}

/// The file that is open.
fn open_file(opened: &Option<OpenedFile>) -> &File
    requires { IsSome opened.now }
{
    match opened {
        Some(opened) => &opened.file,
        None => unreachable!(),
    }
}

/// What the system knows of the file that is open.
fn metadata_of(opened: &Option<OpenedFile>) -> io::Result<Metadata> {
    match opened {
        Some(opened) => opened.file.metadata(),
        None => Err(io::Error::from(ErrorKind::NotFound)),
    }
}

/// The bytes that there is room for.
fn front(bytes: &[u8], room: u64) -> &[u8]
    ensures { length result.now ≤ length bytes.now }
{
    match usize::try_from(room) {
        Ok(room) if room < bytes.len() => &bytes[..room],
        _ => bytes,
    }
}

/// Reads some bytes of an open file, and answers how many.
fn read_file(opened: &Option<OpenedFile>, into: &mut [u8]) -> io::Result<usize>
    requires { IsSome opened.now }
    ensures { IfOk result (λ count. count ≤ length into.new) }
{
    let mut shared = open_file(opened);
    shared.read(into)
}

/// Writes some bytes to an open file, and answers how many.
fn write_file(opened: &Option<OpenedFile>, bytes: &[u8]) -> io::Result<usize>
    requires { IsSome opened.now }
    ensures { IfOk result (λ count. count ≤ length bytes.now) }
{
    let mut shared = open_file(opened);
    shared.write(bytes)
}

/// Whether this is the file that is open, if one is.
fn is_it(opened: &Option<OpenedFile>, file: &OpenedFile) -> bool {
    match opened {
        Some(opened) => opened.is_same(file),
        None => false,
    }
}

impl Desk for FileDesk {
    ghost state = { file_state };

    ghost faults = { file_faults };

    #[tactic(auto, unfolding(crate::specs::Host::reads_files))]
    fn word(&self, place: usize) -> Option<&str> {
        self.words.get(place).map(|word| word.as_str())
    }

    #[tactic(auto, unfolding(crate::specs::Host::reads_files))]
    fn bind_in(&mut self, slot: InSlot, place: usize) -> Result<(), Failed> {
        let opened = self.open(place);
        let opened = self.reported(place, opened)?;
        self.inputs.set(slot, Some(opened));
        Ok(())
    }

    #[tactic(auto, unfolding(crate::specs::Host::reads_files))]
    fn read(&mut self, slot: InSlot, into: &mut [u8]) -> Result<usize, Failed> {
        match read_file(self.inputs.get(slot), into) {
            Ok(count) => Ok(count),
            Err(error) => {
                self.say(self.path_of(self.inputs.get(slot)), &error);
                Err(self.fault())
            }
        }
    }

    #[tactic(auto, unfolding(crate::specs::Host::reads_files))]
    fn bind_out(&mut self, slot: OutSlot, place: usize) -> Result<(), Failed> {
        let opened = self.create(place);
        let opened = self.reported(place, opened)?;
        self.outputs.set(slot, Some(opened));
        Ok(())
    }

    #[tactic(auto, unfolding(crate::specs::Host::reads_files))]
    fn write(&mut self, slot: OutSlot, bytes: &[u8]) -> Result<usize, Failed> {
        if bytes.is_empty() {
            return Ok(0);
        }
        match self.write_some(slot, bytes) {
            Ok(count) if count > 0 => Ok(count),
            written => {
                let error = match written {
                    Ok(_) => io::Error::from(ErrorKind::WriteZero),
                    Err(error) => error,
                };
                self.say(self.output_name(slot), &error);
                Err(self.fault())
            }
        }
    }
}
