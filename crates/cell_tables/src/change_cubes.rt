//! The cubes of the changes of one input of a group.
ghost use Rattle.std.specs.Prelude.{◌≡◌, ◌<◌, ◌≤◌, suc, not, List, ◌++◌, map, filter, length, All, IfOk, OnOk};
ghost use Rattle.trit_cubes.specs.declared.trits.Trit.{Trit};
ghost use Rattle.trit_cubes.specs.declared.trits.Trit.TheVariants as trit;
ghost use Rattle.trit_cubes.specs.Sets.{AreValuesOf};
ghost use Rattle.cell_machine.specs.Machine.{edge_value};
ghost use Rattle.cell_machine.specs.CellData.{data_of};
ghost use Rattle.cell_machine.specs.CellTrace.{support_at, step_at};
ghost use Rattle.udp_tables.specs.Edges.{moves, edge_cubes, is_paired, kept_or_one};
ghost use Rattle.udp_tables.specs.Pairs.{AreNumbers};
ghost use Rattle.cell_tables.specs.Cubes.{giving_cube, keeping_cube, input_cubes};

use crate::cubes::ChangeCube;
use crate::points::value_at;
use sqlite_items::Items;
use std::alloc::{AllocError, Global};
use step_tables::{StepTable, point_count};
use trit_cubes::{Cube, Trit, primes_where};
use udp_tables::CubeIndex;

/// Adds the cubes of the changes of one input: those that give 1 or keep the state, and then those that give 0.
pub(crate) fn add_cubes_of_input(
    alloc: Global,
    cubes: &mut Items<ChangeCube>,
    steps: &StepTable<'_>,
    place: usize,
) -> Result<(), AllocError>
    requires { place < length (support_at (data_of steps.now.cell.now) steps.now.group) }
    ensures { OnOk result (cubes.new ≡ cubes.old ++ input_cubes (step_at (data_of steps.now.cell.now) steps.now.group)
        (length (support_at (data_of steps.now.cell.now) steps.now.group)) place) }
{
    let values = change_values(alloc, steps, place)?;
    let ones = edge_cubes(alloc, steps, place, &values, Trit::One)?;
    let zeros = edge_cubes(alloc, steps, place, &values, Trit::Zero)?;
    add_ones(alloc, cubes, place, &ones, &zeros)?;
    add_zeros(alloc, cubes, place, &zeros, &ones)?;
    Ok(())
}

/// What a change of one input gives at all points.
fn change_values(
    alloc: Global,
    steps: &StepTable<'_>,
    place: usize,
) -> Result<Vec<Trit>, AllocError>
    requires { place < length (support_at (data_of steps.now.cell.now) steps.now.group) }
    ensures { IfOk result (λ values. AreValuesOf (suc (suc (length (support_at (data_of steps.now.cell.now) steps.now.group))))
        (edge_value (step_at (data_of steps.now.cell.now) steps.now.group) place) values.items) }
{
    let points = 4 * point_count(steps.places);
    let mut values = Vec::with_capacity(alloc, points)?;
    for number in 0..points {
        values.push(value_at(steps, place, number))?;
    }
    Ok(values)
}

/// The primes of the points at which a change of one input gives this value, less those that have no points that change, by
/// what it gives at all points.
fn edge_cubes(
    alloc: Global,
    steps: &StepTable<'_>,
    place: usize,
    values: &[Trit],
    value: Trit,
) -> Result<Vec<Cube>, AllocError>
    requires place { place < length (support_at (data_of steps.now.cell.now) steps.now.group) }
    requires values { AreValuesOf (suc (suc (length (support_at (data_of steps.now.cell.now) steps.now.group))))
        (edge_value (step_at (data_of steps.now.cell.now) steps.now.group) place) values.now }
    ensures list { IfOk result (λ cubes. cubes.items ≡ edge_cubes (step_at (data_of steps.now.cell.now) steps.now.group)
        (length (support_at (data_of steps.now.cell.now) steps.now.group)) place value) }
    ensures wide { IfOk result (λ cubes. All (λ cube. 1 ≤ length cube) cubes.items) }
{
    let pins = steps.cell.group(steps.group).support.len();
    let cubes = primes_where(alloc, pins + 2, values, value)?;
    let moving = moving_cubes(alloc, &cubes)?;
    Ok(moving)
}

/// The cubes of changes that have points that change.
fn moving_cubes(alloc: Global, cubes: &[Cube]) -> Result<Vec<Cube>, AllocError>
    requires { All (λ cube. 2 ≤ length cube) cubes.now }
    ensures { IfOk result (λ moving. moving.items ≡ filter moves cubes.now) }
{
    let mut moving = Vec::with_capacity(alloc, cubes.len())?;
    for cube in cubes {
        if moves(cube) {
            moving.push(*cube)?;
        }
    }
    Ok(moving)
}

/// Whether the cube of a change has points that change.
fn moves(cube: &Cube) -> bool
    requires { 2 ≤ length cube.now }
    ensures { result ≡ moves cube.now }
{
    let old = cube.place(0);
    old == Trit::Unknown || old != cube.place(1)
}

/// Adds the cubes that give 1, of which those that are paired keep the state.
fn add_ones(
    alloc: Global,
    cubes: &mut Items<ChangeCube>,
    place: usize,
    ones: &[Cube],
    zeros: &[Cube],
) -> Result<(), AllocError>
    requires ones { All (λ cube. 1 ≤ length cube) ones.now }
    requires zeros { All (λ cube. 1 ≤ length cube) zeros.now }
    ensures { OnOk result (cubes.new ≡ cubes.old
        ++ map (kept_or_one (giving_cube place) (keeping_cube place) zeros.now) ones.now) }
{
    let index = CubeIndex::of(alloc, zeros)?;
    for cube in ones {
        cubes.push(kept_or_one(place, &index, cube))?;
    }
    Ok(())
}

/// A cube that gives 1, where the index is that of the cubes that give 0.
fn kept_or_one(place: usize, zeros: &CubeIndex, cube: &Cube) -> ChangeCube
    requires { 1 ≤ length cube.now }
    ensures { (cubes : List (List Trit)) → AreNumbers cubes zeros.now.numbers.items
        → result ≡ kept_or_one (giving_cube place) (keeping_cube place) cubes cube.now }
{
    if zeros.pairs(Trit::One, Trit::Zero, cube) {
        keeping_cube(place, cube)
    } else {
        giving_cube(place, Trit::One, cube)
    }
}

/// A cube that keeps the state.
fn keeping_cube(place: usize, cube: &Cube) -> ChangeCube
    ensures { result ≡ keeping_cube place cube.now }
{
    ChangeCube {
        place,
        gives: None,
        cube: *cube,
    }
}

/// A cube that gives this value.
fn giving_cube(place: usize, value: Trit, cube: &Cube) -> ChangeCube
    ensures { result ≡ giving_cube place value cube.now }
{
    ChangeCube {
        place,
        gives: Some(value),
        cube: *cube,
    }
}

/// Adds the cubes that give 0 and are in no pair.
fn add_zeros(
    alloc: Global,
    cubes: &mut Items<ChangeCube>,
    place: usize,
    zeros: &[Cube],
    ones: &[Cube],
) -> Result<(), AllocError>
    requires zeros { All (λ cube. 1 ≤ length cube) zeros.now }
    requires ones { All (λ cube. 1 ≤ length cube) ones.now }
    ensures { OnOk result (cubes.new ≡ cubes.old
        ++ map (giving_cube place trit.Zero) (filter (λ c. not (is_paired trit.Zero trit.One ones.now c)) zeros.now)) }
{
    let index = CubeIndex::of(alloc, ones)?;
    for cube in zeros {
        if !index.pairs(Trit::Zero, Trit::One, cube) {
            cubes.push(giving_cube(place, Trit::Zero, cube))?;
        }
    }
    Ok(())
}
