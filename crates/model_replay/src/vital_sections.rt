//! VHDL by VITAL as a language of models and of sections that hold drivers. (IEEE 1076-1993, 1.1 and 1.2; IEEE 1076.4-2000.)
ghost use Rattle.std.specs.Prelude.{◌≡◌, Ok, IfOk, IfErr};
ghost use Rattle.vhdl_drivers.specs.VitalSections.{vital_sections};
ghost use Rattle.sectioned_texts.specs.DrivenModels.{driven_models};
ghost use Rattle.sectioned_texts.specs.Drivers.{AllMayStand};
ghost use Rattle.sectioned_texts.specs.Faults.{IsFaultIn};

use crate::vital::Vital;
use driver_models::{Core, Cores, DriverLanguage, DriverModel, KnownNames};
use driver_sections::{Ending, Marks, all_ends, find_sections};
use driver_texts::read_driver;
use lexer::Span;
use sectioned_texts::{DrivenModels, SectionLanguage, read_driven_text};
use sqlite_items::Items;
use std::alloc::{AllocError, Global};
use udp_tables::ModelFault;
use vhdl_drivers::VitalDrivers;
use vhdl_reader::read_entities;
use vhdl_tokens::LastToken;
use vital_models::VEntity;

/// How texts spell names and words.
type Spelling = <VitalDrivers as DriverLanguage>::Spelling;

/// How sections are marked.
const MARKS: Marks<'static> = Marks {
    beginning: &[b"use", b"work"],
    ending: Ending {
        words: &[b"end", b"driven"],
        closing: b";",
    },
};

/// How entities with their architectures end.
const MODEL_END: Ending<'static> = Ending {
    words: &[b"end", b"vital"],
    closing: b";",
};

impl SectionLanguage for Vital {
    ghost use Rattle.std.specs.Prelude.{◌≡◌};
    ghost use Rattle.driver_models.specs.Found.{core_of};
    ghost use Rattle.vhdl_drivers.specs.VitalSections.{vital_sections};
    ghost use Rattle.vhdl_drivers.proofs.StandingDrivers.{text_may_stand};

    type Model = VEntity;

    type Drivers = VitalDrivers;

    ghost language = { vital_sections };

    fn sections(alloc: Global, text: &[u8]) -> Result<Vec<Span>, AllocError> {
        find_sections::<Spelling, LastToken<'_>>(alloc, text, &MARKS)
    }

    fn ends(alloc: Global, text: &[u8]) -> Result<Vec<usize>, AllocError> {
        all_ends::<Spelling, LastToken<'_>>(alloc, text, &MODEL_END)
    }

    fn read(alloc: Global, text: &[u8]) -> Result<Vec<VEntity>, ModelFault> {
        read_entities(alloc, text)
    }

    fn names(alloc: Global, model: &VEntity) -> Result<Items<Items<u8>>, AllocError> {
        let mut names = Items::new(alloc);
        names.push(Items::from_slice(alloc, model.name.as_slice())?)?;
        Ok(names)
    }

    fn core(model: &VEntity) -> Core<'_>
        ensures { core_of result ≡ vital_sections.core model.now }
    {
        Core {
            name: model.name.as_slice(),
            ports: model.ports.as_slice(),
        }
    }

    fn read_section(
        alloc: Global,
        text: &[u8],
        names: &KnownNames<VitalDrivers>,
        cores: &Cores<'_, VitalDrivers>,
    ) -> Result<DriverModel, ModelFault> {
        read_driver(alloc, text, names, cores)
    }

    ghost hold = { text_may_stand };
}

/// The entities and the drivers of a VHDL text. The fault is the one with the least offset, which counts bytes from 0; `Memory`
/// comes only where memory is wanting. (IEEE 1076-1993, 1.1, 1.2 and 10.4; IEEE 1076.4-2000.)
pub fn read_driven_entities(alloc: Global, text: &[u8]) -> Result<DrivenModels<VEntity>, ModelFault>
    ensures found { IfOk result (λ found. driven_models vital_sections text.now ≡ Ok found) }
    ensures drivers { IfOk result (λ found. AllMayStand vital_sections found.models found.drivers) }
    ensures fault { IfErr result (IsFaultIn (driven_models vital_sections text.now)) }
{
    read_driven_text::<Vital>(alloc, text)
}
