//! The models of a file, each as it is run.
ghost use Rattle.std.specs.Prelude.{◌≡◌, ◌++◌, ℕ, List, true, All, map, flat_map, IfOk, OnOk};
ghost use Rattle.bool_functions.specs.NameList.{AreDistinct};
ghost use Rattle.driver_models.specs.declared.model.DriverModel.{DriverModel as Model};
ghost use Rattle.file_models.specs.FileModels as spec;
ghost use Rattle.file_models.specs.Folded.{folded_names};

use crate::cores::{core_names, core_of, shared_models};
use crate::file_model::FileModel;
use bool_functions::Names;
use cell_machine::Shared;
use driven_traces::Driver;
use driver_models::DriverModel;
use driver_texts::{input_count, output_count};
use sectioned_texts::{DrivenModels, SectionLanguage};
use sqlite_items::Items;
use std::alloc::{AllocError, Global};
use udp_tables::{SmallBytes, VPort};

/// A copy of ports.
fn copied_ports(alloc: Global, ports: &[VPort]) -> Result<Items<VPort>, AllocError>
    ensures { IfOk result (λ copy. copy ≡ ports.now) }
{
    let mut copy = Items::new(alloc);
    for port in ports {
        copy.push(VPort {
            name: SmallBytes::from_slice(alloc, port.name.as_slice())?,
            input: port.input,
        })?;
    }
    Ok(copy)
}

/// A model of its own: nothing drives its outputs.
fn own_model<L: SectionLanguage>(
    alloc: Global,
    core: &Shared<L::Model>,
) -> Result<FileModel<L::Model>, AllocError>
    ensures { IfOk result (λ model. model ≡ spec.own_model L.language core.now) }
{
    let shown = L::core(core.get());
    Ok(FileModel {
        name: Items::from_slice(alloc, shown.name)?,
        ports: copied_ports(alloc, shown.ports)?,
        core: core.again()?,
        driver: Driver::plain(alloc, input_count(shown.ports), output_count(shown.ports)),
    })
}

/// A driver over its core.
fn driver_over<M: Drop>(
    alloc: Global,
    core: &Shared<M>,
    driver: &DriverModel,
) -> Result<FileModel<M>, AllocError>
    ensures { IfOk result (λ model. model ≡ spec.driver_over core.now driver.now) }
{
    Ok(FileModel {
        name: Items::from_slice(alloc, driver.name.as_slice())?,
        ports: copied_ports(alloc, driver.ports.as_slice())?,
        core: core.again()?,
        driver: driver.driver.copied(alloc)?,
    })
}

/// The models of their own, in order.
fn own_models<L: SectionLanguage>(
    alloc: Global,
    cores: &[Shared<L::Model>],
) -> Result<Vec<FileModel<L::Model>>, AllocError>
    ensures { IfOk result (λ models. models.items ≡ map (spec.own_model L.language) cores.now) }
{
    let mut models = Vec::new(alloc);
    for core in cores {
        models.push(own_model::<L>(alloc, core)?)?;
    }
    Ok(models)
}

/// Adds drivers over their cores, in order. The names are those of the cores, folded.
fn add_drivers<L: SectionLanguage>(
    alloc: Global,
    models: &mut Vec<FileModel<L::Model>>,
    cores: &[Shared<L::Model>],
    names: &Names,
    drivers: &[DriverModel],
) -> Result<(), AllocError>
    requires same { (x y : List ℕ) → L.language.vocabulary.is_same x y ≡ L.Drivers.Spelling.is_same x y }
    requires folded { names.now ≡ folded_names L.Drivers.fold L.language cores.now }
    requires are_names { All (λ (driver : Model). L.Drivers.Spelling.is_name driver.core ≡ true) drivers.now }
    ensures { OnOk result (models.new.items ≡ models.old.items
        ++ flat_map (spec.over_its_core L.language cores.now) drivers.now) }
{
    for driver in drivers {
        if let Some(core) = core_of::<L>(alloc, cores, names, driver.core.as_slice())? {
            models.push(driver_over(alloc, core, driver)?)?;
        }
    }
    Ok(())
}

/// The models of a file whose own models are these cores: the cores, and behind them the drivers, each over the core of its name.
fn models_over<L: SectionLanguage>(
    alloc: Global,
    cores: &[Shared<L::Model>],
    drivers: &[DriverModel],
) -> Result<Vec<FileModel<L::Model>>, AllocError>
    requires same { (x y : List ℕ) → L.language.vocabulary.is_same x y ≡ L.Drivers.Spelling.is_same x y }
    requires apart { AreDistinct (folded_names L.Drivers.fold L.language cores.now) }
    requires are_names { All (λ (driver : Model). L.Drivers.Spelling.is_name driver.core ≡ true) drivers.now }
    ensures { IfOk result (λ models. models.items ≡ map (spec.own_model L.language) cores.now
        ++ flat_map (spec.over_its_core L.language cores.now) drivers.now) }
{
    let names = core_names::<L>(alloc, cores)?;
    let mut models = own_models::<L>(alloc, cores)?;
    add_drivers::<L>(alloc, &mut models, cores, &names, drivers)?;
    Ok(models)
}

/// The models of a file, each as it is run: first its models, and behind them its drivers, each over the model that has the name
/// of its core, all in order. It takes the time of one look-up for each driver. An `Err` comes only where memory is wanting.
///
/// It needs models no two of which have the same name, and drivers whose cores have names of the language.
pub fn file_models<L: SectionLanguage>(
    alloc: Global,
    found: DrivenModels<L::Model>,
) -> Result<Vec<FileModel<L::Model>>, AllocError>
    requires same { (x y : List ℕ) → L.language.vocabulary.is_same x y ≡ L.Drivers.Spelling.is_same x y }
    requires apart { AreDistinct (folded_names L.Drivers.fold L.language found.models) }
    requires are_names { All (λ (driver : Model). L.Drivers.Spelling.is_name driver.core ≡ true) found.drivers }
    ensures { IfOk result (λ models. models.items ≡ spec.file_models L.language found) }
{
    let DrivenModels { models, drivers } = found;
    let cores = shared_models(alloc, models)?;
    models_over::<L>(alloc, cores.as_slice(), drivers.as_slice())
}
