//! The rows and the primitive of a function.
ghost use Rattle.std.specs.Prelude.{◌≡◌, ℕ, ◌^◌, ◌≤◌, ◌<◌, length, IfOk};
ghost use Rattle.bool_functions.specs.Tree.{Has};
ghost use Rattle.bool_functions.specs.Point.{HasValues};
ghost use Rattle.udp_tables.specs.Generated.{function_primitive, function_rows, tree_value, numbers_below};

use crate::function_cubes::table_cubes;
use crate::level_rows::rows_of_function;
use crate::port_names::named_primitive;
use bool_functions::Function;
use sqlite_items::Items;
use std::alloc::{AllocError, Global};
use udp_tables::{SmallBytes, Udp, UdpRow, UdpRows};

/// The primitive of a function of `names` names: its ports are `q` and `i1`, `i2` and so on, input k standing for the name
/// with the number k - 1. Its rows are the primes of the points at which the function is 1, then of those at which it is
/// 0.
pub fn function_udp(
    alloc: Global,
    name: &[u8],
    function: &Function,
    names: usize,
) -> Result<Udp, AllocError>
    requires some { 1 ≤ names }
    requires few { names ≤ 10 }
    requires numbered { (i : ℕ) → Has function.now i → i < names }
    ensures { IfOk result (λ udp. udp ≡ function_primitive name.now function.now names) }
{
    let name = SmallBytes::from_slice(alloc, name)?;
    let rows = function_rows(alloc, function, names)?;
    named_primitive(alloc, name, names, false, rows)
}

/// The rows of the function over its first names.
fn function_rows(
    alloc: Global,
    function: &Function,
    names: usize,
) -> Result<Items<UdpRow>, AllocError>
    requires few { names ≤ 10 }
    requires numbered { (i : ℕ) → Has function.now i → i < names }
    ensures { IfOk result (λ rows. rows ≡ function_rows names (tree_value function.now)) }
{
    let values = value_table(alloc, function, names)?;
    let cubes = table_cubes(alloc, names, &values)?;
    let rows = rows_of_function(alloc, &cubes, UdpRows { notifier: false })?;
    Ok(rows)
}

/// The values of the function at all points over its first names.
fn value_table(alloc: Global, function: &Function, names: usize) -> Result<Vec<bool>, AllocError>
    requires few { names ≤ 10 }
    requires numbered { (i : ℕ) → Has function.now i → i < names }
    ensures entries { IfOk result (λ values. length values.items ≡ 2 ^ names) }
    ensures values { IfOk result (λ values. HasValues (numbers_below names) function.now values.items) }
{
    let places = first_numbers(alloc, names)?;
    let values = function.table(alloc, &places)?;
    Ok(values)
}

/// The numbers from 0 on.
fn first_numbers(alloc: Global, count: usize) -> Result<Vec<usize>, AllocError>
    ensures { IfOk result (λ numbers. numbers.items ≡ numbers_below count) }
{
    let mut numbers = Vec::new(alloc);
    for number in 0..count {
        numbers.push(number)?;
    }
    Ok(numbers)
}
