//! Verilog as a language of models and of sections that hold drivers. (IEEE 1364-2005, 12.1 and 19.1.)
ghost use Rattle.std.specs.Prelude.{◌≡◌, Ok, IfOk, IfErr};
ghost use Rattle.verilog_grammar.specs.WellFormed.{outer_names};
ghost use Rattle.verilog_drivers.specs.VerilogSections.{verilog_sections};
ghost use Rattle.sectioned_texts.specs.DrivenModels.{driven_models};
ghost use Rattle.sectioned_texts.specs.Drivers.{AllMayStand};
ghost use Rattle.sectioned_texts.specs.Faults.{IsFaultIn};

use crate::verilog::Verilog;
use driver_models::{Core, Cores, DriverLanguage, DriverModel, KnownNames};
use driver_sections::{Ending, Marks, all_ends, find_sections};
use driver_texts::read_driver;
use lexer::Span;
use sectioned_texts::{DrivenModels, SectionLanguage, read_driven_text};
use sqlite_items::Items;
use std::alloc::{AllocError, Global};
use udp_tables::ModelFault;
use verilog_drivers::VerilogDrivers;
use verilog_grammar::modules::VModule;
use verilog_reader::read_models;
use verilog_tokens::InTable;

/// How texts spell names and words.
type Spelling = <VerilogDrivers as DriverLanguage>::Spelling;

/// How sections are marked.
const MARKS: Marks<'static> = Marks {
    beginning: &[b"`celldefine"],
    ending: Ending {
        words: &[b"`endcelldefine"],
        closing: b"`endcelldefine",
    },
};

/// How modules end.
const MODULE_END: Ending<'static> = Ending {
    words: &[b"endmodule"],
    closing: b"endmodule",
};

/// The names of the primitives of a module, and its own.
fn names_of(alloc: Global, model: &VModule) -> Result<Items<Items<u8>>, AllocError>
    ensures { IfOk result (λ names. names ≡ outer_names model.now) }
{
    let mut names = Items::new(alloc);
    for udp in model.udps.as_slice() {
        names.push(Items::from_slice(alloc, udp.name.as_slice())?)?;
    }
    names.push(Items::from_slice(alloc, model.name.as_slice())?)?;
    Ok(names)
}

impl SectionLanguage for Verilog {
    ghost use Rattle.std.specs.Prelude.{◌≡◌};
    ghost use Rattle.driver_models.specs.Found.{core_of};
    ghost use Rattle.verilog_drivers.specs.VerilogSections.{verilog_sections};
    ghost use Rattle.verilog_drivers.proofs.StandingDrivers.{text_may_stand};

    type Model = VModule;

    type Drivers = VerilogDrivers;

    ghost language = { verilog_sections };

    fn sections(alloc: Global, text: &[u8]) -> Result<Vec<Span>, AllocError> {
        find_sections::<Spelling, InTable>(alloc, text, &MARKS)
    }

    fn ends(alloc: Global, text: &[u8]) -> Result<Vec<usize>, AllocError> {
        all_ends::<Spelling, InTable>(alloc, text, &MODULE_END)
    }

    fn read(alloc: Global, text: &[u8]) -> Result<Vec<VModule>, ModelFault> {
        read_models(alloc, text)
    }

    fn names(alloc: Global, model: &VModule) -> Result<Items<Items<u8>>, AllocError> {
        names_of(alloc, model)
    }

    fn core(model: &VModule) -> Core<'_>
        ensures { core_of result ≡ verilog_sections.core model.now }
    {
        Core {
            name: model.name.as_slice(),
            ports: model.ports.as_slice(),
        }
    }

    fn read_section(
        alloc: Global,
        text: &[u8],
        names: &KnownNames<VerilogDrivers>,
        cores: &Cores<'_, VerilogDrivers>,
    ) -> Result<DriverModel, ModelFault> {
        read_driver(alloc, text, names, cores)
    }

    ghost hold = { text_may_stand };
}

/// The modules and the drivers of a Verilog text. The fault is the one with the least offset, which counts bytes from 0; `Memory`
/// comes only where memory is wanting. (IEEE 1364-2005, A.1, 12.1 and 19.1.)
pub fn read_driven_models(alloc: Global, text: &[u8]) -> Result<DrivenModels<VModule>, ModelFault>
    ensures found { IfOk result (λ found. driven_models verilog_sections text.now ≡ Ok found) }
    ensures drivers { IfOk result (λ found. AllMayStand verilog_sections found.models found.drivers) }
    ensures fault { IfErr result (IsFaultIn (driven_models verilog_sections text.now)) }
{
    read_driven_text::<Verilog>(alloc, text)
}
