//! What a reader of texts with sections needs to know of a language.
ghost use Rattle.std.specs.Prelude.{◌≡◌, false, length, Ok, IfOk, IfErr};
ghost use Rattle.lexer.specs.{Tokens.scan_of, Spans.LieInside};
ghost use Rattle.driver_models.specs.Found.{core_of};
ghost use Rattle.driver_sections.specs.{Marks.ends, Sections.sections, Sections.StandApart};
ghost use Rattle.sectioned_texts.specs.{Drivers.HoldDrivers, Faults.IsFaultIn};
ghost use Rattle.sectioned_texts.specs.DrivenModels as spec;

use driver_models::{Core, Cores, DriverLanguage, DriverModel, KnownNames};
use lexer::Span;
use sqlite_items::Items;
use std::alloc::{AllocError, Global};
use udp_tables::ModelFault;

/// A language of models, and of sections that hold drivers. An `AllocError`, and the fault `Memory`, come only where memory is
/// wanting.
pub trait SectionLanguage {
    /// A model.
    type Model: Drop;

    /// The spelling of the language, and of the wires of drivers.
    type Drivers: DriverLanguage;

    ghost language: { spec.SectionLanguage Self.Model };

    /// The sections of a text, in order.
    fn sections(alloc: Global, text: &[u8]) -> Result<Vec<Span>, AllocError>
        ensures found { IfOk result (λ found. found.items ≡ sections language.vocabulary language.marks text.now) }
        ensures apart { IfOk result (λ found. StandApart 0 (length text.now) found.items) }
        ensures inside { IfOk result (λ found. LieInside text.now found.items) };

    /// The offsets behind the models of a text, in order.
    fn ends(alloc: Global, text: &[u8]) -> Result<Vec<usize>, AllocError>
        ensures { IfOk result (λ found. found.items ≡ ends language.vocabulary.is_same language.model_end false
            (scan_of language.vocabulary.lexis text.now).0) };

    /// The models of a text without sections, in order, or its fault.
    fn read(alloc: Global, text: &[u8]) -> Result<Vec<Self::Model>, ModelFault>
        ensures models { IfOk result (λ found. language.text text.now ≡ Ok found.items) }
        ensures fault { IfErr result (IsFaultIn (language.text text.now)) };

    /// The names that a model takes.
    fn names(alloc: Global, model: &Self::Model) -> Result<Items<Items<u8>>, AllocError>
        ensures { IfOk result (λ names. names ≡ language.names model.now) };

    /// A model as one that may be a core.
    fn core(model: &Self::Model) -> Core<'_>
        ensures { core_of result ≡ language.core model.now };

    /// The driver that a section holds, or its fault, where these names are taken and the models that may be cores are these.
    fn read_section(
        alloc: Global,
        text: &[u8],
        names: &KnownNames<Self::Drivers>,
        cores: &Cores<'_, Self::Drivers>,
    ) -> Result<DriverModel, ModelFault>
        ensures driver { IfOk result (λ driver. language.section names.now cores.now text.now ≡ Ok driver) }
        ensures fault { IfErr result (IsFaultIn (language.section names.now cores.now text.now)) };

    /// A driver that a section holds may stand where it was read.
    ghost hold: { HoldDrivers language };
}
