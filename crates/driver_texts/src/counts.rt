//! How many ports are inputs and outputs.
ghost use Rattle.std.specs.Prelude.{◌≡◌};
ghost use Rattle.driver_models.specs.Models as spec;

use udp_tables::VPort;

/// How many of these ports are inputs. It takes no memory.
pub fn input_count(ports: &[VPort]) -> usize
    ensures { result ≡ spec.input_count ports.now }
{
    ports.iter().filter(|port| port.input).count()
}

/// How many of these ports are outputs. It takes no memory.
pub fn output_count(ports: &[VPort]) -> usize
    ensures { result ≡ spec.output_count ports.now }
{
    ports.iter().filter(|port| !port.input).count()
}
