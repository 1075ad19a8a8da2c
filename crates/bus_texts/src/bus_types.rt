//! The types of buses.
ghost use Rattle.std.specs.Prelude.{◌≡◌, Some, length, slice_get, IfOk, OnOk, OnErr};
ghost use Rattle.std.specs.Option.{option_copied};
ghost use Rattle.first_names.specs.Places.{SetsPlace};
ghost use Rattle.liberty_groups.specs.Attributes.{attribute_of};
ghost use Rattle.bus_texts.specs.declared.bus_types.BusType.{BusType as BusTypeOf};
ghost use Rattle.bus_texts.specs.BusTypes as spec;

use crate::numbers::{bits_towards, short_number};
use first_names::FirstNames;
use liberty_groups::{Group, copy_bytes, last_attribute};
use sqlite_items::Items;
use std::alloc::{AllocError, Global};
use std::marker::Model;

/// A type of buses (Liberty Reference Manual, `type` group): the bit at position 0, and the bit at the last position, to which
/// the bits between go by one.
#[derive(Drop)]
pub struct BusType {
    /// The name by which `bus_type` of a bus names it.
    pub name: Items<u8>,
    /// `bit_from`.
    pub from: u16,
    /// `bit_to`.
    pub to: u16,
}

/// The number of one to three digits that an attribute is.
fn bit(group: &Group, name: &[u8]) -> Option<u16>
    ensures { result ≡ spec.bit_of (attribute_of group.now name.now) }
{
    let attribute = last_attribute(group, name)?;
    short_number(attribute.text)
}

/// The type of buses that a `type` group of a library tells of (Liberty Reference Manual, `type` group). `None` comes exactly
/// where the group has not one argument, or `bit_from` or `bit_to` is absent or not one to three digits; an `Err` comes only
/// where memory is wanting.
pub fn bus_type(alloc: Global, group: &Group) -> Result<Option<BusType>, AllocError>
    ensures { IfOk result (λ found. found ≡ spec.bus_type_of group.now) }
{
    let [name] = group.arguments.as_slice() else {
        return Ok(None);
    };
    let Some(from) = bit(group, b"bit_from") else {
        return Ok(None);
    };
    let Some(to) = bit(group, b"bit_to") else {
        return Ok(None);
    };
    let name = copy_bytes(alloc, name.bytes())?;
    Ok(Some(BusType { name, from, to }))
}

impl BusType {
    /// How many positions a bus of this type has.
    pub fn bit_count(&self) -> usize
        ensures { result ≡ spec.bit_count self.now }
    {
        let steps = if self.from <= self.to {
            self.to - self.from
        } else {
            self.from - self.to
        };
        usize::from(steps) + 1
    }

    /// The bits of a bus of this type by their positions.
    pub(crate) fn bits(&self, alloc: Global) -> Result<Items<u16>, AllocError>
        ensures { IfOk result (λ bits. bits ≡ spec.bits_of self.now) }
    {
        bits_towards(alloc, self.to, self.bit_count(), self.from)
    }
}

/// The types of buses that stand before a cell, found by their names in the time of one look-up. Contracts see the list of them.
#[derive(Drop)]
pub struct BusTypes {
    list: Items<BusType>,
    last: FirstNames,
}

impl Model for BusTypes {
    ghost use Rattle.std.specs.Prelude.{List};
    ghost use Rattle.bus_texts.specs.declared.bus_types.BusType.{BusType};
    ghost use Rattle.bus_texts.specs.BusTypes.{FindsLast};

    ghost Value = { List BusType };

    ghost view = { λ t. t.list };

    ghost invariant = { λ t. FindsLast t.last t.list };
}

impl BusTypes {
    ghost use Rattle.std.specs.Prelude.{◌≡◌, [], ◌∷◌, ◌++◌, OnOk};

    /// No types.
    pub fn new(alloc: Global) -> BusTypes
        ensures { result ≡ [] }
    {
        BusTypes {
            list: Items::new(alloc),
            last: FirstNames::new(alloc),
        }
    }

    /// Adds a type, which counts in the place of all before it that have its name. `AllocError` comes only where memory is
    /// wanting.
    pub fn add(&mut self, kind: BusType) -> Result<(), AllocError>
        ensures { OnOk result (self.new ≡ self.old ++ kind ∷ []) }
    {
        let place = self.list.len();
        self.list.push(kind)?;
        match count_last(&mut self.last, self.list.as_slice(), place) {
            Ok(()) => Ok(()),
            Err(wanting) => {
                self.list.pop();
                Err(wanting)
            }
        }
    }
}

/// Lets the name of the type at a place stand for that place.
fn count_last(last: &mut FirstNames, types: &[BusType], place: usize) -> Result<(), AllocError>
    requires { length last.old.places ≡ length last.old.names }
    ensures set { OnOk result
        ((kind : BusTypeOf) → slice_get types.now place ≡ Some kind → SetsPlace last.old kind.name place last.new) }
    ensures err { OnErr result (last.new ≡ last.old) }
{
    match types.get(place) {
        Some(kind) => last.set(kind.name.as_slice(), place),
        None => Ok(()),
    }
}

/// The type of a bus, which its `bus_type` names: of several of one name the last.
pub fn type_of<'a>(types: &'a BusTypes, bus: &Group) -> Option<&'a BusType>
    ensures { option_copied result ≡ spec.type_of types.now bus.now }
{
    let attribute = last_attribute(bus, b"bus_type")?;
    let place = types.last.place(attribute.text)?;
    types.list.get(place)
}
