//! The conditions that the inputs of an entity feed.
use run_parts::{FedPart, Ports, input_number};
use vital_models::VTruth;

/// The conditions of an entity, each of which reads the ports of its table.
pub(crate) struct Conditions;

impl FedPart for Conditions {
    ghost use Rattle.std.specs.Prelude.{Some};
    ghost use Rattle.run_parts.specs.PortNumbers.{input_number};

    type Part = VTruth;

    type Net = usize;

    ghost nets = { λ truth. truth.inputs };

    ghost input = { λ ports port. Some (input_number ports port) };

    fn nets(part: &VTruth) -> &[usize] {
        part.inputs.as_slice()
    }

    fn input(ports: &Ports, net: usize) -> Option<usize> {
        Some(input_number(ports, net))
    }
}
