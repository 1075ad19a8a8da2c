//! The names of a driver's ports by their numbers.
ghost use Rattle.std.specs.Prelude.{◌≡◌};
ghost use Rattle.driver_texts.specs.PortNames.{inputs, outputs, name_at};

use udp_tables::VPort;

/// The name of the input with a number, none where there is no such input. It takes no memory.
pub fn input_name(ports: &[VPort], number: usize) -> &[u8]
    ensures { result.now ≡ name_at (inputs ports.now) number }
{
    let mut left = number;
    for port in ports {
        if port.input {
            if left == 0 {
                return port.name.as_slice();
            }
            left -= 1;
        }
    }
    b""
}

/// The name of the output with a number, none where there is no such output. It takes no memory.
pub fn output_name(ports: &[VPort], number: usize) -> &[u8]
    ensures { result.now ≡ name_at (outputs ports.now) number }
{
    let mut left = number;
    for port in ports {
        if !port.input {
            if left == 0 {
                return port.name.as_slice();
            }
            left -= 1;
        }
    }
    b""
}
