//! What the words ask for.

ghost use Rattle.std.specs.Prelude.{◌≡◌, ◌≤◌, drop, Ok, IfOk};
ghost use Rattle.bool_functions.specs.Tree.{name_bound};
ghost use Rattle.command_words.specs.Reading.{asked_primitive, primitive_read, udp_reading, selftest_reading, files_command};
ghost use Rattle.command_words.specs.Reading.{reading};

use crate::numerals::asked_cells;
use bool_functions::{Function, FunctionFault, read_free};
use cell_tables::function_udp;
use std::alloc::Global;
use text_io::{Desk, FileCommand, asked_files};
use udp_tables::Udp;
use verilog_tokens::is_kept_cell_name;

/// What words ask for.
#[derive(Drop)]
pub enum Command {
    /// The primitive of a function text, to be printed.
    Udp(Udp),
    /// A command that works on the files which the words name.
    Files(FileCommand),
    /// A run on so many test cells, from 1 to 10,000.
    Selftest(u64),
    /// Nothing: the words have no reading.
    Usage,
}

/// There was no memory.
#[derive(Drop)]
pub struct Memory;

/// What the desk's words ask for.
pub fn asked<D: Desk>(alloc: Global, desk: &D) -> Result<Command, Memory>
    ensures { IfOk result (λ command. command ≡ reading (D.state desk.now).words) }
{
    let Some(first) = desk.word(0) else {
        return Ok(Command::Usage);
    };
    if first == "udp" {
        asked_udp(alloc, desk)
    } else if first == "selftest" {
        Ok(asked_selftest(desk))
    } else {
        Ok(files_command(asked_files(desk)))
    }
}

/// The command of these files, where there is one.
fn files_command(asked: Option<FileCommand>) -> Command
    ensures { result ≡ files_command asked }
{
    match asked {
        Some(command) => Command::Files(command),
        None => Command::Usage,
    }
}

/// What the words after `selftest` ask for.
fn asked_selftest<D: Desk>(desk: &D) -> Command
    ensures { result ≡ selftest_reading (drop 1 (D.state desk.now).words) }
{
    let Some(number) = desk.word(1) else {
        return Command::Usage;
    };
    if desk.word(2).is_some() {
        return Command::Usage;
    }
    match asked_cells(number) {
        Some(cells) => Command::Selftest(cells),
        None => Command::Usage,
    }
}

/// What the words after `udp` ask for.
fn asked_udp<D: Desk>(alloc: Global, desk: &D) -> Result<Command, Memory>
    ensures { IfOk result (λ command. command ≡ udp_reading (drop 1 (D.state desk.now).words)) }
{
    let Some(name) = desk.word(1) else {
        return Ok(Command::Usage);
    };
    let Some(text) = desk.word(2) else {
        return Ok(Command::Usage);
    };
    if desk.word(3).is_some() {
        return Ok(Command::Usage);
    }
    match asked_primitive(alloc, name, text)? {
        Some(udp) => Ok(Command::Udp(udp)),
        None => Ok(Command::Usage),
    }
}

/// The primitive that a name and a function text ask for.
#[tactic(auto, unfolding(crate::specs::Reading::asked_primitive))]
fn asked_primitive(alloc: Global, name: &str, text: &str) -> Result<Option<Udp>, Memory>
    ensures { IfOk result (λ udp. udp ≡ asked_primitive name.now text.now) }
{
    if !is_kept_cell_name(name.as_bytes()) {
        return Ok(None);
    }
    match read_free(alloc, text.as_bytes()) {
        Ok((function, names)) => primitive_read(alloc, name, &function, names.len()),
        Err(FunctionFault::TooLong) => Ok(None),
        Err(FunctionFault::Malformed(_)) => Ok(None),
        Err(FunctionFault::UnknownName(_)) => Ok(None),
        Err(FunctionFault::Memory) => Err(Memory),
    }
}

/// The primitive of a function text that was read, where it has 1 to 10 names.
fn primitive_read(
    alloc: Global,
    name: &str,
    function: &Function,
    count: usize,
) -> Result<Option<Udp>, Memory>
    requires { name_bound function.now ≤ count }
    ensures { IfOk result (λ udp. udp ≡ primitive_read name.now count (Ok function.now)) }
{
    if count < 1 || count > 10 {
        return Ok(None);
    }
    match function_udp(alloc, name.as_bytes(), function, count) {
        Ok(udp) => Ok(Some(udp)),
        Err(_) => Err(Memory),
    }
}
