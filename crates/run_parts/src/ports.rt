//! The ports of a model by their direction.
ghost use Rattle.std.specs.Prelude.{◌≡◌, IfOk};
ghost use Rattle.run_parts.specs.PortNumbers.{input_count, input_number, input_value};
ghost use Rattle.run_parts.specs.InputNumbers.{input_numbers};

use cell_machine::numbered_value;
use sqlite_items::{Items, at};
use std::alloc::{AllocError, Global};
use trit_cubes::Trit;
use udp_tables::VPort;

/// The ports of a model, with the number of each among the inputs.
#[derive(Clone, Copy)]
pub struct Ports<'a> {
    /// The ports.
    pub list: &'a [VPort],
    /// For each port how many inputs stand before it.
    pub numbers: &'a [usize],
    ghost numbered: { numbers.now ≡ input_numbers list.now },
}

/// How many inputs a model has.
pub fn input_count(ports: &[VPort]) -> usize
    ensures { result ≡ input_count ports.now }
{
    ports.iter().filter(|port| port.input).count()
}

/// For each port how many inputs stand before it.
pub fn input_numbers(alloc: Global, ports: &[VPort]) -> Result<Items<usize>, AllocError>
    ensures { IfOk result (λ numbers. numbers ≡ input_numbers ports.now) }
{
    let mut numbers = Items::new(alloc);
    let mut count = 0;
    for i in 0..ports.len() {
        numbers.push(count)?;
        if ports[i].input {
            count += 1;
        }
    }
    Ok(numbers)
}

/// The number of a port among the inputs: how many inputs stand before it.
pub fn input_number(ports: &Ports, port: usize) -> usize
    ensures { result ≡ input_number ports.now.list.now port }
{
    match at(ports.numbers, port) {
        Some(number) => *number,
        None => input_count(ports.list),
    }
}

/// The value of an input port, of the values of the inputs.
pub fn input_value(ports: &Ports, inputs: &[Trit], port: usize) -> Trit
    ensures { result ≡ input_value ports.now.list.now inputs.now port }
{
    numbered_value(inputs, input_number(ports, port))
}
