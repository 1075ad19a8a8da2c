//! A text to its models and drivers, or to its fault.
ghost use Rattle.std.specs.Prelude.{◌≡◌, Ok, Err, length, IfOk, IfErr};
ghost use Rattle.lexer.specs.Spans.{LieInside};
ghost use Rattle.driver_sections.specs.Sections.{sections, blanked, StandApart};
ghost use Rattle.sectioned_texts.specs.Drivers.{AllMayStand};
ghost use Rattle.sectioned_texts.specs.Faults.{IsFaultIn};
ghost use Rattle.sectioned_texts.specs.DrivenModels as spec;

use crate::answers::{Answer, models_of};
use crate::driven_models::DrivenModels;
use crate::drivers::drivers_of;
use crate::faults::first_of;
use crate::fronts::whole_models;
use crate::language::SectionLanguage;
use driver_sections::blanked;
use lexer::Span;
use sqlite_items::Items;
use std::alloc::{AllocError, Global};
use udp_tables::ModelFault;

/// The models and the drivers of a text with these sections, whose rest is the text of these models, or the fault of a section.
fn with_drivers<L: SectionLanguage>(
    alloc: Global,
    text: &[u8],
    found: &[Span],
    models: Vec<L::Model>,
) -> Answer<DrivenModels<L::Model>>
    requires { LieInside text.now found.now }
    ensures { IfOk result (λ answer. answer ≡ spec.with_drivers L.language text.now found.now models.items) }
{
    match drivers_of::<L>(alloc, text, found, &models)? {
        Ok(drivers) => Ok(Ok(DrivenModels {
            models: Items::from_vec(models),
            drivers,
        })),
        Err(fault) => Ok(Err(fault)),
    }
}

/// The fault of a text with these sections, whose rest has this one.
fn first_fault<L: SectionLanguage>(
    alloc: Global,
    text: &[u8],
    found: &[Span],
    rest: &[u8],
    fault: ModelFault,
) -> Result<ModelFault, AllocError>
    requires { LieInside text.now found.now }
    ensures { IfOk result (λ first. first ≡ spec.rest_fault L.language text.now found.now rest.now fault) }
{
    let models = whole_models::<L>(alloc, rest, &fault)?;
    match drivers_of::<L>(alloc, text, found, &models)? {
        Ok(_) => Ok(fault),
        Err(other) => Ok(first_of(fault, other)),
    }
}

/// The models and the drivers of a text with these sections and this rest, or its fault.
fn driven_by<L: SectionLanguage>(
    alloc: Global,
    text: &[u8],
    found: &[Span],
    rest: &[u8],
) -> Answer<DrivenModels<L::Model>>
    requires { LieInside text.now found.now }
    ensures { IfOk result (λ answer. answer ≡ spec.driven_by L.language text.now found.now rest.now (L.language.text rest.now)) }
{
    match models_of::<L>(alloc, rest)? {
        Ok(models) => with_drivers::<L>(alloc, text, found, models),
        Err(fault) => Ok(Err(first_fault::<L>(alloc, text, found, rest, fault)?)),
    }
}

/// The models and the drivers of a text with these sections, or its fault. Where there are none the text itself is the rest, of
/// which no copy is made.
fn driven_around<L: SectionLanguage>(
    alloc: Global,
    text: &[u8],
    found: &[Span],
) -> Answer<DrivenModels<L::Model>>
    requires inside { LieInside text.now found.now }
    requires apart { StandApart 0 (length text.now) found.now }
    ensures { IfOk result (λ answer. answer ≡ spec.driven_by L.language text.now found.now (blanked text.now found.now)
        (L.language.text (blanked text.now found.now))) }
{
    match found {
        [] => driven_by::<L>(alloc, text, found, text),
        _ => {
            let rest = blanked(alloc, text, found)?;
            driven_by::<L>(alloc, text, found, &rest)
        }
    }
}

/// The models and the drivers of a text, or its fault.
#[tactic(auto, unfolding(crate::specs::DrivenModels::driven_models))]
fn driven_models<L: SectionLanguage>(alloc: Global, text: &[u8]) -> Answer<DrivenModels<L::Model>>
    ensures { IfOk result (λ answer. answer ≡ spec.driven_models L.language text.now) }
{
    let found = L::sections(alloc, text)?;
    driven_around::<L>(alloc, text, &found)
}

/// The models of a text in a language, and the drivers that its sections hold.
///
/// The fault is the one with the least offset, of the rest around the sections and of all sections; its offset counts bytes of
/// the text from 0. `Memory` comes only where memory is wanting. Each driver that is read is sound, has a name that nothing else
/// in the text has, and its core is one of the models, with the ports of its core. The time is that of a few readings of the
/// text.
#[tactic(auto, using(crate::proofs::ToldFaults::is_fault))]
pub fn read_driven_text<L: SectionLanguage>(
    alloc: Global,
    text: &[u8],
) -> Result<DrivenModels<L::Model>, ModelFault>
    ensures found { IfOk result (λ found. spec.driven_models L.language text.now ≡ Ok found) }
    ensures drivers { IfOk result (λ found. AllMayStand L.language found.models found.drivers) }
    ensures fault { IfErr result (IsFaultIn (spec.driven_models L.language text.now)) }
{
    match driven_models::<L>(alloc, text) {
        Ok(answer) => answer,
        Err(AllocError) => Err(ModelFault::Memory),
    }
}
