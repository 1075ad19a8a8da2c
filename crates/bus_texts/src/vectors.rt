//! The names in a cell that stand for several bits: buses, bundles and the variables of banks.
ghost use Rattle.std.specs.Prelude.{◌≡◌, ◌++◌, IfOk, OnOk, map, option_map};
ghost use Rattle.std.specs.Option.{option_copied};
ghost use Rattle.liberty_groups.specs.declared.tree.Item.{out-Item};
ghost use Rattle.bus_texts.specs.Vectors as spec;

use crate::bus_types::{BusType, BusTypes, type_of};
use crate::numbers::{bits_towards, digits_number};
use itoa::Buffer;
use liberty_groups::{Group, Item, Value, copy_bytes};
use sqlite_items::Items;
use std::alloc::{AllocError, Global};

/// The most bytes that a bit takes behind the name of its vector: `_` and the digits of a number below 1,000.
const LONGEST_BIT: usize = 4;

/// What a name of several bits is.
#[derive(Clone, Copy)]
pub enum VectorKind {
    Bus,
    Bundle,
    /// A variable of a bank.
    Variable,
}

/// A name that stands for several bits.
#[derive(Drop)]
pub struct Vector {
    pub name: Items<u8>,
    pub kind: VectorKind,
    /// The bit at each position. A bundle has none.
    pub bits: Items<u16>,
    /// The name of the member at each position.
    pub members: Items<Items<u8>>,
}

/// A bank of states: its two variables, and how many states it has.
#[derive(Clone, Copy)]
pub struct Bank<'a> {
    pub first: &'a [u8],
    pub second: &'a [u8],
    pub width: u16,
}

/// Whether a group has this name.
pub fn is_called(group: &Group, name: &[u8]) -> bool
    ensures { result ≡ spec.is_called name.now group.now }
{
    group.name.as_slice() == name
}

/// Whether a group is a bank of states.
pub fn is_bank(group: &Group) -> bool
    ensures { result ≡ spec.is_bank group.now }
{
    is_called(group, b"ff_bank") || is_called(group, b"latch_bank")
}

/// The member of a vector for a bit.
pub fn member_name(alloc: Global, name: &[u8], bit: u16) -> Result<Items<u8>, AllocError>
    ensures { IfOk result (λ member. member ≡ spec.member_name name.now bit) }
{
    let mut buffer = Buffer::new();
    let mut member = Vec::with_capacity(alloc, name.len() + LONGEST_BIT)?;
    member.extend_from_slice(name)?;
    member.extend_from_slice(b"_")?;
    member.extend_from_slice(buffer.format(bit).as_bytes())?;
    Ok(Items::from_vec(member))
}

/// The members of a vector for some bits.
fn member_names(alloc: Global, name: &[u8], bits: &[u16]) -> Result<Items<Items<u8>>, AllocError>
    ensures { IfOk result (λ members. members ≡ map (spec.member_name name.now) bits.now) }
{
    let mut members = Items::new(alloc);
    for bit in bits {
        members.push(member_name(alloc, name, *bit)?)?;
    }
    Ok(members)
}

/// A vector with one member for each bit.
fn bit_vector(
    alloc: Global,
    name: &[u8],
    kind: VectorKind,
    bits: &[u16],
) -> Result<Vector, AllocError>
    ensures { IfOk result (λ vector. vector ≡ spec.bit_vector kind bits.now name.now) }
{
    Ok(Vector {
        name: copy_bytes(alloc, name)?,
        kind,
        bits: Items::from_slice(alloc, bits)?,
        members: member_names(alloc, name, bits)?,
    })
}

/// The bits of a bus.
fn bits_in(alloc: Global, bus_type: Option<&BusType>) -> Result<Items<u16>, AllocError>
    ensures { IfOk result (λ bits. bits ≡ spec.bits_in (option_copied bus_type.entry)) }
{
    match bus_type {
        None => Ok(Items::new(alloc)),
        Some(bus_type) => bus_type.bits(alloc),
    }
}

/// Adds the buses that a group makes.
fn add_buses(
    alloc: Global,
    found: &mut Items<Vector>,
    types: &BusTypes,
    bus: &Group,
) -> Result<(), AllocError>
    ensures { OnOk result (found.new ≡ found.old ++ spec.buses_in types.now bus.now) }
{
    let bits = bits_in(alloc, type_of(types, bus))?;
    add_buses_of(alloc, found, bits.as_slice(), bus.arguments.as_slice())
}

/// Adds a bus with these bits for each name.
fn add_buses_of(
    alloc: Global,
    found: &mut Items<Vector>,
    bits: &[u16],
    names: &[Value],
) -> Result<(), AllocError>
    ensures { OnOk result (found.new ≡ found.old ++ map (spec.bus_named bits.now) names.now) }
{
    for name in names {
        found.push(bit_vector(alloc, name.bytes(), VectorKind::Bus, bits)?)?;
    }
    Ok(())
}

/// Copies of names, in order.
fn copy_names(alloc: Global, names: &[Items<u8>]) -> Result<Items<Items<u8>>, AllocError>
    ensures { IfOk result (λ copy. copy ≡ names.now) }
{
    let mut copy = Items::new(alloc);
    for name in names {
        copy.push(copy_bytes(alloc, name.as_slice())?)?;
    }
    Ok(copy)
}

/// Adds the members that a statement of a bundle names.
fn add_members(alloc: Global, found: &mut Items<Items<u8>>, item: &Item) -> Result<(), AllocError>
    ensures { OnOk result (found.new ≡ found.old ++ spec.members_in item.now) }
{
    if let Item::Complex {
        name,
        arguments,
        ..
    } = item
    {
        if name.as_slice() == b"members".as_slice() {
            return add_names(alloc, found, arguments.as_slice());
        }
    }
    Ok(())
}

/// Adds the bytes of some values.
fn add_names(
    alloc: Global,
    found: &mut Items<Items<u8>>,
    values: &[Value],
) -> Result<(), AllocError>
    ensures { OnOk result (found.new ≡ found.old ++ map (λ value. value.bytes) values.now) }
{
    for value in values {
        found.push(copy_bytes(alloc, value.bytes())?)?;
    }
    Ok(())
}

/// The members of a bundle.
pub fn bundle_members(alloc: Global, bundle: &Group) -> Result<Items<Items<u8>>, AllocError>
    ensures { IfOk result (λ members. members ≡ spec.bundle_members bundle.now) }
{
    let mut members = Items::new(alloc);
    for item in bundle.items.as_slice() {
        add_members(alloc, &mut members, item)?;
    }
    Ok(members)
}

/// A bundle with these members.
fn bundle_vector(alloc: Global, members: &[Items<u8>], name: &[u8]) -> Result<Vector, AllocError>
    ensures { IfOk result (λ vector. vector ≡ spec.bundle_vector members.now name.now) }
{
    Ok(Vector {
        name: copy_bytes(alloc, name)?,
        kind: VectorKind::Bundle,
        bits: Items::new(alloc),
        members: copy_names(alloc, members)?,
    })
}

/// Adds the bundles that a group makes.
fn add_bundles(alloc: Global, found: &mut Items<Vector>, bundle: &Group) -> Result<(), AllocError>
    ensures { OnOk result (found.new ≡ found.old ++ spec.bundles_in bundle.now) }
{
    let members = bundle_members(alloc, bundle)?;
    add_bundles_of(
        alloc,
        found,
        members.as_slice(),
        bundle.arguments.as_slice(),
    )
}

/// Adds a bundle with these members for each name.
fn add_bundles_of(
    alloc: Global,
    found: &mut Items<Vector>,
    members: &[Items<u8>],
    names: &[Value],
) -> Result<(), AllocError>
    ensures { OnOk result (found.new ≡ found.old ++ map (spec.bundle_named members.now) names.now) }
{
    for name in names {
        found.push(bundle_vector(alloc, members, name.bytes())?)?;
    }
    Ok(())
}

/// Adds the buses or bundles that a group makes.
fn add_pin_vectors(
    alloc: Global,
    found: &mut Items<Vector>,
    types: &BusTypes,
    group: &Group,
) -> Result<(), AllocError>
    ensures { OnOk result (found.new ≡ found.old ++ spec.pin_vectors types.now group.now) }
{
    if is_called(group, b"bus") {
        add_buses(alloc, found, types, group)
    } else if is_called(group, b"bundle") {
        add_bundles(alloc, found, group)
    } else {
        Ok(())
    }
}

/// The buses or bundles that a group makes.
pub fn pin_vectors(
    alloc: Global,
    types: &BusTypes,
    group: &Group,
) -> Result<Items<Vector>, AllocError>
    ensures { IfOk result (λ vectors. vectors ≡ spec.pin_vectors types.now group.now) }
{
    let mut vectors = Items::new(alloc);
    add_pin_vectors(alloc, &mut vectors, types, group)?;
    Ok(vectors)
}

/// The bank of states that a group is, if its arguments say what one is.
pub fn bank_of(group: &Group) -> Option<Bank<'_>>
    ensures { option_map spec.shown_bank result ≡ spec.bank_of group.now }
{
    let [first, second, width] = group.arguments.as_slice() else {
        return None;
    };
    let width = digits_number(width.bytes())?;
    if 1 <= width && width <= 16 {
        Some(Bank {
            first: first.bytes(),
            second: second.bytes(),
            width,
        })
    } else {
        None
    }
}

/// The numbers from 0 on.
pub fn positions(alloc: Global, width: u16) -> Result<Items<u16>, AllocError>
    ensures { IfOk result (λ positions. positions ≡ spec.positions width) }
{
    bits_towards(alloc, width, usize::from(width), 0)
}

/// Adds the variables of a bank.
fn add_variables(alloc: Global, found: &mut Items<Vector>, bank: Bank<'_>) -> Result<(), AllocError>
    ensures { OnOk result (found.new ≡ found.old ++ spec.variables_of (spec.shown_bank bank.entry)) }
{
    let bits = positions(alloc, bank.width)?;
    found.push(bit_vector(alloc, bank.first, VectorKind::Variable, bits.as_slice())?)?;
    found.push(bit_vector(alloc, bank.second, VectorKind::Variable, bits.as_slice())?)?;
    Ok(())
}

/// Adds the variables of the bank that a group is.
fn add_variables_in(
    alloc: Global,
    found: &mut Items<Vector>,
    group: &Group,
) -> Result<(), AllocError>
    ensures { OnOk result (found.new ≡ found.old ++ spec.variables_in group.now) }
{
    if is_bank(group) {
        if let Some(bank) = bank_of(group) {
            return add_variables(alloc, found, bank);
        }
    }
    Ok(())
}

/// Adds the buses and bundles of a cell.
fn add_all_pin_vectors(
    alloc: Global,
    found: &mut Items<Vector>,
    types: &BusTypes,
    cell: &Group,
) -> Result<(), AllocError>
    ensures { OnOk result (found.new ≡ found.old ++ spec.all_pin_vectors types.now cell.now) }
{
    for item in cell.items.as_slice() {
        if let Item::Inner(group) = item {
            add_pin_vectors(alloc, found, types, group)?;
        }
    }
    Ok(())
}

/// Adds the variables of the banks of a cell.
fn add_all_variables(
    alloc: Global,
    found: &mut Items<Vector>,
    cell: &Group,
) -> Result<(), AllocError>
    ensures { OnOk result (found.new ≡ found.old ++ spec.all_variables cell.now) }
{
    for item in cell.items.as_slice() {
        if let Item::Inner(group) = item {
            add_variables_in(alloc, found, group)?;
        }
    }
    Ok(())
}

/// All names of a cell that stand for several bits, in order.
pub(crate) fn all_vectors(
    alloc: Global,
    types: &BusTypes,
    cell: &Group,
) -> Result<Items<Vector>, AllocError>
    ensures { IfOk result (λ vectors. vectors ≡ spec.cell_vectors types.now cell.now) }
{
    let mut vectors = Items::new(alloc);
    add_all_pin_vectors(alloc, &mut vectors, types, cell)?;
    add_all_variables(alloc, &mut vectors, cell)?;
    Ok(vectors)
}
