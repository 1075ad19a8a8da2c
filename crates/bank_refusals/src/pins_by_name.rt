//! The inner pins of a bus or bundle, and what its members have of them.
ghost use Rattle.std.specs.Prelude.{◌≡◌, IfOk, OnOk, map, flat_map};
ghost use Rattle.bank_refusals.specs.Members as spec;
ghost use Rattle.bank_refusals.specs.InnerPins.{PutsPin, AreFound, pin_places, statements_at as statements_at_of};

use crate::members::{Member, add_all, any_names};
use bus_texts::is_called;
use first_names::AllPlaces;
use liberty_groups::{Group, Item, Value, inner_group};
use std::alloc::{AllocError, Global};
use std::marker::Model;

/// The inner pins of a bus or bundle, found by the names in their arguments in the time of one look-up. Contracts see the list of
/// them.
#[derive(Drop)]
pub struct InnerPins<'a> {
    groups: Vec<&'a Group>,
    places: AllPlaces,
}

impl<'a> Model for InnerPins<'a> {
    ghost use Rattle.std.specs.Prelude.{List, map};
    ghost use Rattle.liberty_groups.specs.declared.tree.Group.{Group};
    ghost use Rattle.bank_refusals.specs.InnerPins.{AreFound};

    ghost Value = { List Group };

    ghost use Rattle.liberty_groups.specs.contracts.tree.Item as items;
    ghost use Rattle.std.specs.Coded.{codes};

    ghost coded = { Prim.hlevel (codes, items.the_row.coded) };

    ghost view = { λ p. map (λ pin. pin.now) p.groups.items };

    ghost invariant = { λ p. AreFound p.places (map (λ pin. pin.now) p.groups.items) };
}

impl<'a> InnerPins<'a> {
    ghost use Rattle.std.specs.Prelude.{◌≡◌, map};

    /// Their groups.
    pub fn groups(&self) -> &[&'a Group]
        ensures { map (λ pin. pin.now) result.now ≡ self.now }
    {
        self.groups.as_slice()
    }
}

/// The inner pins of a bus or bundle with these statements.
fn inner_pins<'a>(alloc: Global, items: &'a [Item]) -> Result<Vec<&'a Group>, AllocError>
    ensures { IfOk result (λ pins. map (λ pin. pin.now) pins.items ≡ spec.inner_pins items.now) }
{
    let mut found = Vec::new(alloc);
    for item in items {
        if let Some(pin) = inner_group(item, b"pin") {
            found.push(pin)?;
        }
    }
    Ok(found)
}

/// Lets the names among these arguments stand for a place too.
fn put_names(
    alloc: Global,
    places: &mut AllPlaces,
    arguments: &[Value],
    at: usize,
) -> Result<(), AllocError>
    ensures { OnOk result (PutsPin places.old arguments.now at places.new) }
{
    for argument in arguments {
        places.put(alloc, argument.bytes(), at)?;
    }
    Ok(())
}

/// The places of pins by the names in their arguments.
fn named_places(alloc: Global, pins: &[&Group]) -> Result<AllPlaces, AllocError>
    ensures { IfOk result (λ places. AreFound places (map (λ pin. pin.now) pins.now)) }
{
    let mut places = AllPlaces::new(alloc);
    for (at, pin) in pins.iter().enumerate() {
        put_names(alloc, &mut places, pin.arguments.as_slice(), at)?;
    }
    Ok(places)
}

/// The inner pins of a bus or bundle with these statements, with the names in their arguments.
pub fn indexed_pins<'a>(alloc: Global, items: &'a [Item]) -> Result<InnerPins<'a>, AllocError>
    ensures { IfOk result (λ pins. pins ≡ spec.inner_pins items.now) }
{
    let groups = inner_pins(alloc, items)?;
    let places = named_places(alloc, &groups)?;
    Ok(InnerPins { groups, places })
}

/// The places of those of these inner pins that name a member, each of which is asked.
fn asked_places(
    alloc: Global,
    pins: &[&Group],
    member: Member<'_>,
) -> Result<Vec<usize>, AllocError>
    ensures { IfOk result
        (λ places.
        places.items
        ≡ pin_places member.entry.vector.now member.entry.at member.entry.name.now (map (λ pin. pin.now) pins.now)) }
{
    let mut found = Vec::new(alloc);
    for (at, pin) in pins.iter().enumerate() {
        if any_names(member, pin.arguments.as_slice()) {
            found.push(at)?;
        }
    }
    Ok(found)
}

/// The places of those inner pins that name a member, ascending: of a bundle in the time of one look-up, where of a bus each pin
/// is asked. `AllocError` comes only where memory is wanting.
pub fn member_places(
    alloc: Global,
    pins: &InnerPins<'_>,
    member: Member<'_>,
) -> Result<Vec<usize>, AllocError>
    ensures { IfOk result
        (λ places.
        places.items ≡ pin_places member.entry.vector.now member.entry.at member.entry.name.now pins.now) }
{
    match member.vector.bits.get(member.at) {
        None => Vec::from_slice(alloc, pins.places.of(member.name)),
        Some(_) => asked_places(alloc, &pins.groups, member),
    }
}

/// The statements of the pin at a place.
fn statements_at<'a>(pins: &[&'a Group], place: usize) -> &'a [Item]
    ensures { result.now ≡ statements_at_of (map (λ pin. pin.now) pins.now) place }
{
    match pins.get(place) {
        Some(pin) if is_called(pin, b"pin") => pin.items.as_slice(),
        _ => &[],
    }
}

/// The statements of the pins at these places.
fn items_at<'a>(
    alloc: Global,
    pins: &[&'a Group],
    places: &[usize],
) -> Result<Vec<&'a Item>, AllocError>
    ensures { IfOk result
        (λ items.
        map (λ item. item.now) items.items ≡ flat_map (statements_at_of (map (λ pin. pin.now) pins.now)) places.now) }
{
    let mut found = Vec::new(alloc);
    for place in places {
        add_all(&mut found, statements_at(pins, *place))?;
    }
    Ok(found)
}

/// The statements of those inner pins that name a member.
pub fn named_items<'a>(
    alloc: Global,
    pins: &InnerPins<'a>,
    member: Member<'_>,
) -> Result<Vec<&'a Item>, AllocError>
    ensures { IfOk result
        (λ items.
        map (λ item. item.now) items.items
        ≡ flat_map (spec.inner_pin_items member.entry.vector.now member.entry.at member.entry.name.now) pins.now) }
{
    let places = member_places(alloc, pins, member)?;
    items_at(alloc, pins.groups(), &places)
}
