//! The models of a file as the cells that a stimulus may name.
ghost use Rattle.std.specs.Prelude.{◌≡◌, [], IfOk, OnOk};
ghost use Rattle.model_files.specs.ModelNames.{AreNew, HasOwnNames, HaveOwnNames, input_names, output_names};
ghost use Rattle.model_replay.specs.ModelPorts.{ports_of, models_named};

use bool_functions::Names;
use model_files::ModelLanguage;
use std::alloc::{AllocError, Global};
use stimulus::{PortCatalog, Ports, Standing};
use udp_tables::VPort;

/// Adds the names of these ports, numbered from 0 among the inputs and among the outputs, where no name was added before.
fn add_names(named: &mut Ports, ports: &[VPort]) -> Result<(), AllocError>
    requires inputs { named.old.inputs ≡ [] }
    requires outputs { named.old.outputs ≡ [] }
    ensures inputs { OnOk result (AreNew [] (input_names ports.now) → named.new.inputs ≡ input_names ports.now) }
    ensures outputs { OnOk result (AreNew [] (output_names ports.now) → named.new.outputs ≡ output_names ports.now) }
    ensures same { named.new.standing ≡ named.old.standing }
{
    for port in ports {
        if port.input {
            named.inputs.add(port.name.as_slice())?;
        } else {
            named.outputs.add(port.name.as_slice())?;
        }
    }
    Ok(())
}

/// The ports of a model by their names, numbered from 0 among the inputs and among the outputs.
fn ports_of(alloc: Global, ports: &[VPort]) -> Result<Ports, AllocError>
    ensures { IfOk result (λ named. HasOwnNames ports.now → named ≡ ports_of ports.now) }
{
    let mut named = Ports {
        standing: Standing::Ready,
        inputs: Names::new(alloc),
        outputs: Names::new(alloc),
    };
    add_names(&mut named, ports)?;
    Ok(named)
}

/// The catalog of these models, in the order of the file, each with the names of its ports as they are spelled. It lists the
/// models where no two of them have one name and in none two ports of one direction have.
pub(crate) fn models_named<L: ModelLanguage>(
    alloc: Global,
    models: &[L::Model],
) -> Result<PortCatalog, AllocError>
    ensures { IfOk result (λ catalog. HaveOwnNames L.language models.now → catalog ≡ models_named L.language models.now) }
{
    let mut catalog = PortCatalog::new(alloc);
    for model in models {
        let ports = ports_of(alloc, L::ports(model))?;
        catalog.add(L::name(model), ports)?;
    }
    Ok(catalog)
}
