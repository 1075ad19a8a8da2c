//! The models of a file as cores that several hold, found by their names.
ghost use Rattle.std.specs.Prelude.{◌≡◌, ℕ, List, true, map, IfOk};
ghost use Rattle.std.specs.Option.{option_map};
ghost use Rattle.bool_functions.specs.NameList.{AreDistinct};
ghost use Rattle.file_models.specs.FileModels.{core_named};
ghost use Rattle.file_models.specs.Folded.{folded_names};

use bool_functions::Names;
use cell_machine::Shared;
use driver_models::DriverLanguage;
use sectioned_texts::SectionLanguage;
use sqlite_items::{Items, at};
use std::alloc::{AllocError, Global};

/// Models that others may hold too, in the same order. An `Err` comes only where memory is wanting.
pub(crate) fn shared_models<M: Drop>(
    alloc: Global,
    models: Items<M>,
) -> Result<Vec<Shared<M>>, AllocError>
    ensures { IfOk result (λ shared. shared.items ≡ models) }
{
    let mut left = models;
    let mut shared = Vec::new(alloc);
    while let Some(model) = left.pop() {
        shared.push(Shared::new(alloc, model)?)?;
    }
    shared.reverse();
    Ok(shared)
}

/// What the names of models are folded to, in their order, where no two names are the same. An `Err` comes only where memory is
/// wanting.
pub(crate) fn core_names<L: SectionLanguage>(
    alloc: Global,
    cores: &[Shared<L::Model>],
) -> Result<Names, AllocError>
    ensures { IfOk result (λ names. AreDistinct (folded_names L.Drivers.fold L.language cores.now)
        → names ≡ folded_names L.Drivers.fold L.language cores.now) }
{
    let mut names = Names::new(alloc);
    for core in cores {
        let folded = L::Drivers::folded(alloc, L::core(core.get()).name)?;
        names.add(&folded)?;
    }
    Ok(names)
}

/// The model of a name, in the time of one look-up. An `Err` comes only where memory is wanting.
pub(crate) fn core_of<'a, L: SectionLanguage>(
    alloc: Global,
    cores: &'a [Shared<L::Model>],
    names: &Names,
    name: &[u8],
) -> Result<Option<&'a Shared<L::Model>>, AllocError>
    requires same { (x y : List ℕ) → L.language.vocabulary.is_same x y ≡ L.Drivers.Spelling.is_same x y }
    requires folded { names.now ≡ folded_names L.Drivers.fold L.language cores.now }
    requires is_name { L.Drivers.Spelling.is_name name.now ≡ true }
    ensures { IfOk result (λ found. option_map (λ core. core.now) found ≡ core_named L.language cores.now name.now) }
{
    let folded = L::Drivers::folded(alloc, name)?;
    let Some(number) = names.number(&folded) else {
        return Ok(None);
    };
    Ok(at(cores, number))
}
