//! The numbers of a cell's arcs, ascending, as a change of an input asks for them.
ghost use Rattle.std.specs.Prelude.{◌≡◌, [], ◌∷◌, ◌++◌, cond, map, flat_map, IfOk, OnOk};
ghost use Rattle.std.specs.List.{list_any, range_with_len};
ghost use Rattle.cell_machine.specs.Places.{places_from};
ghost use Rattle.cell_machine.specs.CellData.{data_of};
ghost use Rattle.cell_machine.specs.CellTrace.{arc_names, is_between};
ghost use Rattle.cell_machine.specs.KeptConditions.{names_input};
ghost use Rattle.cell_machine.specs.ArcPlaces.{arcs_between as arcs_between_of, arcs_from as arcs_from_of, AreArcPlaces};
ghost use Rattle.cell_machine.specs.ArcPlaces.{names_at, first_naming};

use crate::arcs::Arc;
use crate::cells::Cell;
use crate::pin_values::input_number;
use crate::pins::Pin;
use sqlite_items::Items;
use std::alloc::{AllocError, Global};

/// The numbers of a cell's arcs by the inputs and the outputs that ask for them.
#[derive(Drop)]
pub struct ArcPlaces {
    /// For each input those of the arcs whose conditions name it.
    pub naming: Items<Items<usize>>,
    /// For each input and each output those of the arcs that lead from the one to the other.
    pub between: Items<Items<Items<usize>>>,
    /// For each input the first one of the arcs of each two pins of which some arc's condition names it.
    pub firsts: Items<Items<usize>>,
}

impl ArcPlaces {
    /// Those of a cell, where for each arc there are the pins that its condition names.
    pub(crate) fn of(
        alloc: Global,
        cell: &Cell,
        names: &[Items<usize>],
    ) -> Result<ArcPlaces, AllocError>
        requires { names.now ≡ arc_names (data_of cell.now) }
        ensures { IfOk result (AreArcPlaces (data_of cell.now)) }
    {
        let pins = cell.pins.as_slice();
        let count = input_number(pins, pins.len());
        let naming = all_naming(alloc, count, pins, names)?;
        let between = all_between(alloc, count, cell)?;
        let firsts = all_firsts(alloc, count, pins, names, between.as_slice())?;
        Ok(ArcPlaces {
            naming,
            between,
            firsts,
        })
    }
}

/// Adds the number of an entry where the entry passes a test.
fn add_where(places: &mut Items<usize>, passes: bool, place: usize) -> Result<(), AllocError>
    ensures { OnOk result (places.new ≡ places.old ++ cond passes (place ∷ []) []) }
{
    if passes {
        places.push(place)?;
    }
    Ok(())
}

/// Whether one of these names is an input's.
fn names_input(pins: &[Pin], names: &[usize], input: usize) -> bool
    ensures { result ≡ names_input pins.now input names.now }
{
    names.iter().any(|name| input_number(pins, *name) == input)
}

/// The numbers of those names of which one is an input's.
fn naming(
    alloc: Global,
    pins: &[Pin],
    named: &[Items<usize>],
    input: usize,
) -> Result<Items<usize>, AllocError>
    ensures { IfOk result (λ places. places ≡ places_from (names_input pins.now input) 0 named.now) }
{
    let mut places = Items::new(alloc);
    for i in 0..named.len() {
        add_where(
            &mut places,
            names_input(pins, named[i].as_slice(), input),
            i,
        )?;
    }
    Ok(places)
}

/// The same for each of so many inputs.
fn all_naming(
    alloc: Global,
    count: usize,
    pins: &[Pin],
    named: &[Items<usize>],
) -> Result<Items<Items<usize>>, AllocError>
    ensures { IfOk result (λ all. all ≡ map (λ input. places_from (names_input pins.now input) 0 named.now)
        (range_with_len 0 count)) }
{
    let mut all = Items::new(alloc);
    for input in 0..count {
        all.push(naming(alloc, pins, named, input)?)?;
    }
    Ok(all)
}

/// Whether an arc leads from an input to an output pin.
fn leads(arc: &Arc, pins: &[Pin], input: usize, pin: usize) -> bool
    ensures { result ≡ is_between pins.now input pin arc.now }
{
    arc.to == pin && input_number(pins, arc.from) == input
}

/// The numbers of the arcs from an input to an output pin.
fn arcs_between(
    alloc: Global,
    cell: &Cell,
    input: usize,
    pin: usize,
) -> Result<Items<usize>, AllocError>
    ensures { IfOk result (λ places. places ≡ arcs_between_of (data_of cell.now) input pin) }
{
    let mut places = Items::new(alloc);
    for i in 0..cell.arcs.len() {
        let found = leads(cell.arc(i), cell.pins.as_slice(), input, pin);
        add_where(&mut places, found, i)?;
    }
    Ok(places)
}

/// The same for each output.
fn arcs_from(alloc: Global, cell: &Cell, input: usize) -> Result<Items<Items<usize>>, AllocError>
    ensures { IfOk result (λ lists. lists ≡ arcs_from_of (data_of cell.now) input) }
{
    let mut lists = Items::new(alloc);
    for i in 0..cell.outputs.len() {
        lists.push(arcs_between(alloc, cell, input, cell.output_pin(i).pin)?)?;
    }
    Ok(lists)
}

/// The same for each of so many inputs.
fn all_between(
    alloc: Global,
    count: usize,
    cell: &Cell,
) -> Result<Items<Items<Items<usize>>>, AllocError>
    ensures { IfOk result (λ all. all ≡ map (arcs_from_of (data_of cell.now)) (range_with_len 0 count)) }
{
    let mut all = Items::new(alloc);
    for input in 0..count {
        all.push(arcs_from(alloc, cell, input)?)?;
    }
    Ok(all)
}

/// Whether there are names with this number, and one of them is an input's.
fn names_at(pins: &[Pin], named: &[Items<usize>], place: usize, input: usize) -> bool
    ensures { result ≡ names_at pins.now named.now input place }
{
    match named.get(place) {
        Some(names) => names_input(pins, names.as_slice(), input),
        None => false,
    }
}

/// Whether one of the names with these numbers is an input's.
fn any_names(pins: &[Pin], named: &[Items<usize>], places: &[usize], input: usize) -> bool
    ensures { result ≡ list_any (names_at pins.now named.now input) places.now }
{
    places
        .iter()
        .any(|place| names_at(pins, named, *place, input))
}

/// Adds the first of these numbers where one of the names with these numbers is an input's.
fn add_first(
    firsts: &mut Items<usize>,
    pins: &[Pin],
    named: &[Items<usize>],
    places: &[usize],
    input: usize,
) -> Result<(), AllocError>
    ensures { OnOk result (firsts.new ≡ firsts.old ++ first_naming pins.now named.now input places.now) }
{
    let Some(first) = places.first() else {
        return Ok(());
    };
    add_where(firsts, any_names(pins, named, places, input), *first)
}

/// The same of each of these lists of numbers.
fn add_firsts(
    firsts: &mut Items<usize>,
    pins: &[Pin],
    named: &[Items<usize>],
    lists: &[Items<usize>],
    input: usize,
) -> Result<(), AllocError>
    ensures { OnOk result (firsts.new ≡ firsts.old ++ flat_map (first_naming pins.now named.now input) lists.now) }
{
    for places in lists {
        add_first(firsts, pins, named, places.as_slice(), input)?;
    }
    Ok(())
}

/// The same of each of these lists of them.
fn firsts(
    alloc: Global,
    pins: &[Pin],
    named: &[Items<usize>],
    between: &[Items<Items<usize>>],
    input: usize,
) -> Result<Items<usize>, AllocError>
    ensures { IfOk result (λ firsts. firsts ≡ flat_map (flat_map (first_naming pins.now named.now input)) between.now) }
{
    let mut firsts = Items::new(alloc);
    for lists in between {
        add_firsts(&mut firsts, pins, named, lists.as_slice(), input)?;
    }
    Ok(firsts)
}

/// The same for each of so many inputs.
fn all_firsts(
    alloc: Global,
    count: usize,
    pins: &[Pin],
    named: &[Items<usize>],
    between: &[Items<Items<usize>>],
) -> Result<Items<Items<usize>>, AllocError>
    ensures { IfOk result (λ all. all ≡ map (λ input. flat_map (flat_map (first_naming pins.now named.now input)) between.now)
        (range_with_len 0 count)) }
{
    let mut all = Items::new(alloc);
    for input in 0..count {
        all.push(firsts(alloc, pins, named, between, input)?)?;
    }
    Ok(all)
}
