//! What is read of a section that holds a driver.
ghost use Rattle.std.specs.Prelude.{◌≡◌};
ghost use Rattle.grammar_reader.specs.Reading.{read, Reads};
ghost use Rattle.grammar_reader.specs.Words.{new_name};
ghost use Rattle.driver_texts.specs.Sections.{nothing_left, driver_of};

use crate::counts::{input_count, output_count};
use driven_traces::{DrivePath, Driver};
use driver_models::{DriverLanguage, DriverModel, KnownNames};
use grammar_reader::{Cursor, Language, Read, Refusal, Stop};
use sqlite_items::Items;
use std::alloc::Global;
use udp_tables::VPort;

/// What a section begins with: the name of the driver, and its ports.
#[derive(Drop)]
pub struct SectionFront {
    pub name: Items<u8>,
    pub ports: Items<VPort>,
}

/// The instance of a core: its name, and the places among the outputs that are driven.
#[derive(Drop)]
pub struct CoreCall {
    pub core: Items<u8>,
    pub drives: Items<usize>,
}

/// A name that is declared here and is none of these.
pub fn fresh_name<L: DriverLanguage>(
    cursor: &mut Cursor<'_, L::Spelling>,
    alloc: Global,
    names: &KnownNames<L>,
) -> Read<Items<u8>>
    ensures { Reads (read (new_name L.Spelling.is_name L.Spelling.is_same names.now) cursor.old) result cursor.new }
{
    if !cursor.is_next_name() {
        return Err(Stop::Refused(Refusal::Syntax));
    }
    let taken = names.has(cursor.bytes())?;
    cursor.fresh_name(alloc, taken)
}

/// The end of a section: nothing is left of it, or the next token is a fault of syntax.
pub fn nothing_left<L: Language>(cursor: &mut Cursor<'_, L>) -> Read<()>
    ensures { Reads (read nothing_left cursor.old) result cursor.new }
{
    if cursor.left() > 0 {
        return Err(Stop::Refused(Refusal::Syntax));
    }
    Ok(())
}

/// The driver with this front, this core and these paths. It takes no memory.
pub fn driver_of(front: SectionFront, call: CoreCall, paths: Items<DrivePath>) -> DriverModel
    ensures { result ≡ driver_of front call paths }
{
    let SectionFront { name, ports } = front;
    let CoreCall { core, drives } = call;
    let inputs = input_count(ports.as_slice());
    let outputs = output_count(ports.as_slice());
    let driver = Driver {
        inputs,
        outputs,
        drives,
        paths,
    };
    DriverModel {
        name,
        core,
        ports,
        driver,
    }
}
