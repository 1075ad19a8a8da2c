//! The names of primitives and of their ports.
ghost use Rattle.std.specs.Prelude.{◌≡◌, ◌++◌, decimal, IfOk};
ghost use Rattle.udp_tables.specs.PortNames.{output_name, input_name, input_names};
ghost use Rattle.udp_tables.specs.CellPrimitives.{primitive_name};

use itoa::Buffer;
use sqlite_items::Items;
use std::alloc::{AllocError, Global};
use udp_tables::{SmallBytes, Udp, UdpRow};

/// The name of the output.
fn output_name(alloc: Global) -> Result<SmallBytes, AllocError>
    ensures { IfOk result (λ name. name ≡ output_name) }
{
    Ok(SmallBytes::from_slice(alloc, b"q")?)
}

/// The names of the first inputs.
fn input_names(alloc: Global, count: usize) -> Result<Items<SmallBytes>, AllocError>
    ensures { IfOk result (λ names. names ≡ input_names count) }
{
    let mut names = Items::new(alloc);
    for k in 0..count {
        names.push(input_name(alloc, k + 1)?)?;
    }
    Ok(names)
}

/// The primitive of this name with so many inputs and these rows, whose ports have their names.
pub(crate) fn named_primitive(
    alloc: Global,
    name: SmallBytes,
    inputs: usize,
    sequential: bool,
    rows: Items<UdpRow>,
) -> Result<Udp, AllocError>
    ensures { IfOk result (λ udp. udp ≡ record {
      name = name;
      output = output_name;
      inputs = input_names inputs;
      sequential = sequential;
      rows =
          rows;
    }) }
{
    Ok(Udp {
        name,
        output: output_name(alloc)?,
        inputs: input_names(alloc, inputs)?,
        sequential,
        rows,
    })
}

/// The name of the input with this number from 1.
fn input_name(alloc: Global, number: usize) -> Result<SmallBytes, AllocError>
    ensures { IfOk result (λ name. name ≡ input_name number) }
{
    Ok(SmallBytes::from_items(alloc, numbered_name(alloc, b"i", number)?)?)
}

/// A word followed by a number. `AllocError` comes only where memory is wanting.
pub fn numbered_name(alloc: Global, word: &[u8], number: usize) -> Result<Items<u8>, AllocError>
    ensures { IfOk result (λ name. name ≡ word.now ++ decimal number) }
{
    let mut buffer = Buffer::new();
    let mut name = Vec::from_slice(alloc, word)?;
    name.extend_from_slice(buffer.format(number).as_bytes())?;
    Ok(Items::from_vec(name))
}

/// The name of primitive `number`, from 1, of the cell with the number `cell`.
pub(crate) fn primitive_name(
    alloc: Global,
    cell: usize,
    number: usize,
) -> Result<SmallBytes, AllocError>
    ensures { IfOk result (λ name. name ≡ primitive_name cell number) }
{
    let mut buffer = Buffer::new();
    let mut name = Vec::from_slice(alloc, b"lib_")?;
    name.extend_from_slice(buffer.format(cell).as_bytes())?;
    name.extend_from_slice(b"_")?;
    name.extend_from_slice(buffer.format(number).as_bytes())?;
    Ok(SmallBytes::from_items(alloc, Items::from_vec(name))?)
}
