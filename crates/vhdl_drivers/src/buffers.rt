//! The beginning of a driver's process and its buffers, by recursive descent. (IEEE 1076-1993, 9.2; IEEE 1076.4-2000,
//! VitalBUFIF1.)

ghost use Rattle.std.specs.Prelude.{◌≡◌, ◌++◌, ◌<◌, Some, IfOk};
ghost use Rattle.grammar_reader.specs.Reading.{read, Reads};
ghost use Rattle.driver_models.specs.Terminals.{all_numbered};
ghost use Rattle.vhdl_drivers.specs.DriverSections as spec;

use grammar_reader::Read;
use sqlite_items::Items;
use std::alloc::{AllocError, Global};
use udp_tables::VPort;
use vhdl_declarations_reader::{input_names, listed_names};
use vhdl_grammar::{Cursor, expect_all, numbered};
use vhdl_tokens::numbered_name;

/// These names, and behind them those of a word with the numbers from 1 on, so many. An `Err` comes only where memory is wanting.
fn with_numbered(
    alloc: Global,
    names: Items<Items<u8>>,
    word: &[u8],
    count: usize,
) -> Result<Items<Items<u8>>, AllocError>
    ensures { IfOk result (λ more. more ≡ names ++ all_numbered word.now count) }
{
    let mut more = names;
    for i in 0..count {
        more.push(numbered_name(alloc, word, i + 1)?)?;
    }
    Ok(more)
}

/// The signals to which the process of a driver with these ports and so many driven outputs responds. An `Err` comes only where
/// memory is wanting.
fn signal_names(
    alloc: Global,
    ports: &[VPort],
    driven: usize,
) -> Result<Items<Items<u8>>, AllocError>
    ensures { IfOk result (λ names. names ≡ spec.signal_names ports.now driven) }
{
    let inputs = input_names(alloc, ports)?;
    let data = with_numbered(alloc, inputs, b"d_", driven)?;
    with_numbered(alloc, data, b"e_", driven)
}

/// The process of a driver with these ports and so many driven outputs, with its list of signals.
#[tactic(auto, unfolding(crate::specs::DriverSections::process_start))]
pub(crate) fn process_start(
    cursor: &mut Cursor,
    alloc: Global,
    ports: &[VPort],
    driven: usize,
) -> Read<()>
    ensures { Reads (read (spec.process_start ports.now driven) cursor.old) result cursor.new }
{
    cursor.expect(b"process")?;
    let names = signal_names(alloc, ports, driven)?;
    listed_names(cursor, names.as_slice())
}

/// The name of a word and a number.
pub(crate) fn numbered_word(cursor: &mut Cursor, word: &[u8], number: usize) -> Read<()>
    ensures { Reads (read (spec.numbered_name word.now number) cursor.old) result cursor.new }
{
    numbered(cursor, true, word, number)
}

/// The buffer of the driven output with this number, from 1.
#[tactic(auto, unfolding(crate::specs::DriverSections::buffer))]
fn buffer(cursor: &mut Cursor, number: usize) -> Read<()>
    ensures { Reads (read (spec.buffer number) cursor.old) result cursor.new }
{
    numbered_word(cursor, b"z_", number)?;
    expect_all(cursor, &[b":=", b"VitalBUFIF1", b"("])?;
    numbered_word(cursor, b"d_", number)?;
    cursor.expect(b",")?;
    numbered_word(cursor, b"e_", number)?;
    expect_all(cursor, &[b")", b";"])
}

/// The buffers of so many driven outputs.
pub(crate) fn buffers(cursor: &mut Cursor, count: usize) -> Read<()>
    ensures { Reads (read (spec.buffers 1 count) cursor.old) result cursor.new }
{
    for i in 0..count {
        buffer(cursor, i + 1)?;
    }
    Ok(())
}
