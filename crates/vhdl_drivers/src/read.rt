//! VHDL as a language with sections that hold drivers. (IEEE 1076-1993, 1.1, 1.2 and 9.6; IEEE 1076.4-2000, VitalBUFIF1; the form
//! of the section is this project's.)

use crate::core_call::section_core;
use crate::front::section_front;
use crate::language::VitalDrivers;
use crate::section::section_process;
use driver_models::{Cores, DriverModel, KnownNames};
use driver_texts::{DriverSections, SectionFront};
use grammar_reader::Read;
use lexer::Scan;
use std::alloc::{AllocError, Global};
use vhdl_grammar::Cursor;
use vhdl_tokens::scan;

impl DriverSections for VitalDrivers {
    ghost use Rattle.vhdl_drivers.specs.DriverSections.{vhdl_section_grammar};

    ghost grammar = { vhdl_section_grammar };

    fn scan(alloc: Global, text: &[u8]) -> Result<Scan, AllocError> {
        scan(alloc, text)
    }

    fn front(
        cursor: &mut Cursor,
        alloc: Global,
        names: &KnownNames<VitalDrivers>,
    ) -> Read<SectionFront> {
        section_front(cursor, alloc, names)
    }

    #[tactic(auto, unfolding(crate::specs::DriverSections::section_rest))]
    fn rest(
        cursor: &mut Cursor,
        alloc: Global,
        cores: &Cores<'_, VitalDrivers>,
        front: SectionFront,
    ) -> Read<DriverModel> {
        let call = section_core(cursor, alloc, cores, front.ports.as_slice())?;
        section_process(cursor, alloc, front, call)
    }
}
