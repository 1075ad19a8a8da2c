//! Finding the other cube of a pair among many.
ghost use Rattle.std.specs.Prelude.{◌≡◌, ◌≤◌, List, map, length, All, IfOk, nat_eq};
ghost use Rattle.std.specs.List.{list_any};
ghost use Rattle.trit_cubes.specs.declared.trits.Trit.{Trit};
ghost use Rattle.trit_cubes.specs.declared.trits.Trit.TheVariants as trit;
ghost use Rattle.trit_cubes.specs.Filling.{same};
ghost use Rattle.cell_machine.specs.Machine.{last};
ghost use Rattle.udp_tables.specs.Edges.{with_last, is_paired};
ghost use Rattle.udp_tables.specs.Pairs.{digit, number_of, Ascends, AreNumbers};

use std::alloc::{AllocError, Global};
use trit_cubes::{Cube, Trit};

/// The cubes of a list, to be looked up: their numbers, ascending.
#[derive(Drop)]
pub struct CubeIndex {
    /// The numbers, ascending: a cube's places are digits to the base 4, the first with the least weight.
    pub numbers: Vec<u32>,
}

impl CubeIndex {
    /// The index of these cubes. `AllocError` comes only where memory is wanting.
    pub fn of(alloc: Global, cubes: &[Cube]) -> Result<CubeIndex, AllocError>
        requires { All (λ cube. 1 ≤ length cube) cubes.now }
        ensures { IfOk result (λ index. AreNumbers cubes.now index.numbers.items) }
    {
        let mut numbers = cube_numbers(alloc, cubes)?;
        numbers.sort_unstable();
        Ok(CubeIndex { numbers })
    }

    /// Whether a cube with this state is paired: the cubes of the index have the one that is equal to it at all other places
    /// and has the other state.
    pub fn pairs(&self, state: Trit, other: Trit, cube: &Cube) -> bool
        requires { 1 ≤ length cube.now }
        ensures { (cubes : List (List Trit)) → AreNumbers cubes self.now.numbers.items
            → result ≡ is_paired state other cubes cube.now }
    {
        has_state(cube, state) && has_number(&self.numbers, number_with(cube, other))
    }
}

/// The numbers of these cubes.
fn cube_numbers(alloc: Global, cubes: &[Cube]) -> Result<Vec<u32>, AllocError>
    requires { All (λ cube. 1 ≤ length cube) cubes.now }
    ensures { IfOk result (λ numbers. numbers.items ≡ map number_of cubes.now) }
{
    let mut numbers = Vec::with_capacity(alloc, cubes.len())?;
    for cube in cubes {
        numbers.push(number_of(cube))?;
    }
    Ok(numbers)
}

/// Whether a number is among these, which ascend.
fn has_number(numbers: &[u32], number: u32) -> bool
    ensures { Ascends numbers.now → result ≡ list_any (nat_eq number) numbers.now }
{
    numbers.binary_search(&number).is_ok()
}

/// Whether the last place of a cube, that of the state, is this.
fn has_state(cube: &Cube, state: Trit) -> bool
    requires { 1 ≤ length cube.now }
    ensures { result ≡ same state (last trit.Unknown cube.now) }
{
    are_same(state, cube.place(cube.len() - 1))
}

/// Whether two values are the same.
fn are_same(value: Trit, other: Trit) -> bool
    ensures { result ≡ same value other }
{
    value == other
}

/// The number of a cube.
fn number_of(cube: &Cube) -> u32
    requires { 1 ≤ length cube.now }
    ensures { result ≡ number_of cube.now }
{
    number_with(cube, cube.place(cube.len() - 1))
}

/// The number of the cube with this state in its last place.
fn number_with(cube: &Cube, state: Trit) -> u32
    requires { 1 ≤ length cube.now }
    ensures { result ≡ number_of (with_last state cube.now) }
{
    let mut left = cube.len() - 1;
    let mut number = digit(state);
    while left > 0 {
        left -= 1;
        number = digit(cube.place(left)) + 4 * number;
    }
    number
}

/// The digit for a place.
fn digit(place: Trit) -> u32
    ensures { result ≡ digit place }
{
    match place {
        Trit::Zero => 1,
        Trit::One => 2,
        Trit::Unknown => 3,
    }
}
