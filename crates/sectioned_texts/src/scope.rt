//! What stands around the sections of a text.
ghost use Rattle.std.specs.Prelude.{◌≡◌, ◌++◌, map, flat_map, IfOk};

use crate::language::SectionLanguage;
use driver_models::{Cores, DriverLanguage, KnownNames};
use sqlite_items::Items;
use std::alloc::{AllocError, Global};

/// These names, and others behind them.
fn with_names<D: DriverLanguage>(
    names: KnownNames<D>,
    more: &[Items<u8>],
) -> Result<KnownNames<D>, AllocError>
    ensures { IfOk result (λ all. all ≡ names ++ more.now) }
{
    let mut all = names;
    for name in more {
        all = all.with(name.as_slice())?;
    }
    Ok(all)
}

/// The names that models take.
pub(crate) fn taken_names<L: SectionLanguage>(
    alloc: Global,
    models: &[L::Model],
) -> Result<KnownNames<L::Drivers>, AllocError>
    ensures { IfOk result (λ names. names ≡ flat_map L.language.names models.now) }
{
    let mut names = KnownNames::new(alloc);
    for model in models {
        let more = L::names(alloc, model)?;
        names = with_names(names, more.as_slice())?;
    }
    Ok(names)
}

/// Models as those that may be cores.
pub(crate) fn cores_of<'a, L: SectionLanguage>(
    alloc: Global,
    models: &'a [L::Model],
) -> Result<Cores<'a, L::Drivers>, AllocError>
    ensures { IfOk result (λ cores. cores ≡ map L.language.core models.now) }
{
    let mut cores = Cores::new(alloc);
    for model in models {
        cores = cores.with(L::core(model))?;
    }
    Ok(cores)
}
