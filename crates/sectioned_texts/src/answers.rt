//! What parts of a text are read as.
ghost use Rattle.std.specs.Prelude.{◌≡◌, ◌≤◌, length, IfOk};
ghost use Rattle.std.specs.Result.{result_map_both};
ghost use Rattle.sectioned_texts.specs.DrivenModels as spec;

use crate::faults::fault_behind;
use crate::language::SectionLanguage;
use driver_models::{Cores, DriverModel, KnownNames};
use lexer::Span;
use std::alloc::{AllocError, Global};
use udp_tables::ModelFault;

/// What a part of a text is read as, or its fault. The `AllocError` comes only where memory is wanting.
pub(crate) type Answer<T> = Result<Result<T, ModelFault>, AllocError>;

/// What a part of a text is read as that is this where it has no fault.
pub(crate) fn with_answer<T: Drop>(value: T, rest: Answer<()>) -> Answer<T>
    ensures { result ≡ result_map_both (result_map_both (λ _. value) (λ fault. fault)) (λ error. error) rest }
{
    match rest {
        Ok(Ok(())) => Ok(Ok(value)),
        Ok(Err(fault)) => Ok(Err(fault)),
        Err(error) => Err(error),
    }
}

/// The models of a text without sections, or its fault.
pub(crate) fn models_of<L: SectionLanguage>(alloc: Global, text: &[u8]) -> Answer<Vec<L::Model>>
    ensures { IfOk result (λ answer. result_map_both (λ models. models.items) (λ fault. fault) answer ≡ L.language.text
        text.now) }
{
    match L::read(alloc, text) {
        Ok(models) => Ok(Ok(models)),
        Err(ModelFault::Memory) => Err(AllocError),
        Err(fault) => Ok(Err(fault)),
    }
}

/// The driver that a section holds, or its fault.
fn driver_of<L: SectionLanguage>(
    alloc: Global,
    text: &[u8],
    names: &KnownNames<L::Drivers>,
    cores: &Cores<'_, L::Drivers>,
) -> Answer<DriverModel>
    ensures { IfOk result (λ answer. answer ≡ L.language.section names.now cores.now text.now) }
{
    match L::read_section(alloc, text, names, cores) {
        Ok(driver) => Ok(Ok(driver)),
        Err(ModelFault::Memory) => Err(AllocError),
        Err(fault) => Ok(Err(fault)),
    }
}

/// The driver of a section of a text, or its fault, where these names are taken and the models that may be cores are these.
pub(crate) fn section_driver<L: SectionLanguage>(
    alloc: Global,
    text: &[u8],
    section: Span,
    names: &KnownNames<L::Drivers>,
    cores: &Cores<'_, L::Drivers>,
) -> Answer<DriverModel>
    requires order { section.at ≤ section.end }
    requires within { section.end ≤ length text.now }
    ensures { IfOk result (λ answer. answer ≡ spec.section_driver L.language text.now names.now cores.now section) }
{
    let bytes = &text[section.at..section.end];
    match driver_of::<L>(alloc, bytes, names, cores)? {
        Ok(driver) => Ok(Ok(driver)),
        Err(fault) => Ok(Err(fault_behind(section.at, fault)?)),
    }
}
