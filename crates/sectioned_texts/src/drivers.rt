//! The drivers that the sections of a text hold.
ghost use Rattle.std.specs.Prelude.{◌≡◌, [], ◌∷◌, ◌++◌, map, IfOk};
ghost use Rattle.std.specs.Result.{result_map_both};
ghost use Rattle.lexer.specs.Spans.{LieInside};
ghost use Rattle.sectioned_texts.specs.DrivenModels as spec;

use crate::answers::{Answer, section_driver, with_answer};
use crate::language::SectionLanguage;
use crate::scope::{cores_of, taken_names};
use driver_models::{Cores, DriverLanguage, DriverModel, KnownNames};
use lexer::Span;
use sqlite_items::Items;
use std::alloc::{AllocError, Global};

/// These names with that of a driver, which stands behind these drivers then.
fn with_driver<D: DriverLanguage>(
    names: KnownNames<D>,
    drivers: &mut Items<DriverModel>,
    driver: DriverModel,
) -> Result<KnownNames<D>, AllocError>
    ensures named { IfOk result (λ more. more ≡ names ++ driver.name ∷ []) }
    ensures added { IfOk result (λ _. drivers.new ≡ drivers.old ++ driver ∷ []) }
{
    let more = names.with(driver.name.as_slice())?;
    drivers.push(driver)?;
    Ok(more)
}

/// The drivers of these sections of a text, in order, or the fault of the first that holds none, where the models that count are
/// these, and as those that may be cores these. They stand in a list that had none.
fn push_drivers<L: SectionLanguage>(
    alloc: Global,
    text: &[u8],
    sections: &[Span],
    models: &[L::Model],
    cores: &Cores<'_, L::Drivers>,
    drivers: &mut Items<DriverModel>,
) -> Answer<()>
    requires inside { LieInside text.now sections.now }
    requires cores { cores.now ≡ map L.language.core models.now }
    requires none { drivers.old ≡ [] }
    ensures { IfOk result (λ answer. result_map_both (λ _. drivers.new) (λ fault. fault) answer ≡ spec.more_drivers L.language
        text.now models.now [] sections.now) }
{
    let mut names = taken_names::<L>(alloc, models)?;
    for section in sections {
        match section_driver::<L>(alloc, text, *section, &names, cores)? {
            Ok(driver) => names = with_driver(names, drivers, driver)?,
            Err(fault) => return Ok(Err(fault)),
        }
    }
    Ok(Ok(()))
}

/// The drivers of these sections of a text, in order, or the fault of the first that holds none, where the models that count are
/// these.
#[tactic(auto, using(crate::proofs::ToldFaults::answered))]
pub(crate) fn drivers_of<L: SectionLanguage>(
    alloc: Global,
    text: &[u8],
    sections: &[Span],
    models: &[L::Model],
) -> Answer<Items<DriverModel>>
    requires { LieInside text.now sections.now }
    ensures { IfOk result (λ answer. answer ≡ spec.more_drivers L.language text.now models.now [] sections.now) }
{
    let cores = cores_of::<L>(alloc, models)?;
    let mut drivers = Items::new(alloc);
    let rest = push_drivers::<L>(alloc, text, sections, models, &cores, &mut drivers);
    with_answer(drivers, rest)
}
