//! The bits that are named where there are none, in the pins of a cell.
ghost use Rattle.std.specs.Prelude.{◌≡◌, ◌++◌, IfOk, OnOk, map, flat_map};
ghost use Rattle.bank_refusals.specs.Faults.{pin_faults};
ghost use Rattle.bank_refusals.specs.Refusals as spec;

use crate::alike::are_alike;
use crate::faults::{Place, add_texts};
use crate::members::Member;
use crate::pins_by_name::{InnerPins, indexed_pins, named_items};
use crate::related::add_item_faults;
use crate::shared::{joined, varying_items};
use crate::text_names::pin_texts;
use bus_texts::{Vector, Vectors};
use liberty_groups::{Group, Item};
use std::alloc::{AllocError, Global};

/// Adds the faults of a pin with these statements.
pub(crate) fn add_pin_faults(
    alloc: Global,
    found: &mut Vec<usize>,
    place: Place<'_>,
    items: &[&Item],
) -> Result<(), AllocError>
    ensures { OnOk result
        (found.new.items
        ≡ found.old.items ++ pin_faults place.entry.vectors.now place.entry.position (map (λ item. item.now) items.now)) }
{
    add_texts(alloc, found, place, items, pin_texts())?;
    for item in items {
        add_item_faults(alloc, found, place, item)?;
    }
    Ok(())
}

/// What the pins of a bus or bundle are made of.
#[derive(Drop)]
struct PinStatements<'a> {
    vectors: &'a Vectors,
    group: &'a Group,
    /// Its inner pins.
    pins: InnerPins<'a>,
    /// Those of its statements that each member has and that may be at fault.
    varying: Vec<&'a Item>,
}

impl<'a> PinStatements<'a> {
    ghost use Rattle.bank_refusals.specs.Statements.{AreOfOneGroup};

    /// Those of a bus or bundle.
    fn of_group(
        alloc: Global,
        vectors: &'a Vectors,
        group: &'a Group,
    ) -> Result<PinStatements<'a>, AllocError>
        ensures vectors { IfOk result (λ made. made.vectors.now ≡ vectors.now) }
        ensures group { IfOk result (λ made. made.group.now ≡ group.now) }
        ensures all { IfOk result AreOfOneGroup }
    {
        let items = group.items.as_slice();
        let pins = indexed_pins(alloc, items)?;
        let varying = varying_items(alloc, vectors, items)?;
        Ok(PinStatements {
            vectors,
            group,
            pins,
            varying,
        })
    }

    /// Adds the faults of a member.
    fn add_member(
        &self,
        alloc: Global,
        found: &mut Vec<usize>,
        member: Member<'_>,
    ) -> Result<(), AllocError>
        requires { AreOfOneGroup self.now }
        ensures { OnOk result
            (found.new.items
            ≡ found.old.items
            ++ spec.member_faults self.now.vectors.now self.now.group.now member.entry.vector.now member.entry.at
            member.entry.name.now) }
    {
        let vectors = self.vectors;
        let position = Some(member.at);
        let own = named_items(alloc, &self.pins, member)?;
        let items = joined(alloc, &self.varying, &own)?;
        add_pin_faults(alloc, found, Place { vectors, position }, &items)
    }

    /// Adds the faults of all members of one name.
    fn add_vector(
        &self,
        alloc: Global,
        found: &mut Vec<usize>,
        vector: &Vector,
    ) -> Result<(), AllocError>
        requires { AreOfOneGroup self.now }
        ensures { OnOk result
            (found.new.items ≡ found.old.items ++ spec.vector_faults self.now.vectors.now self.now.group.now vector.now) }
    {
        for (at, name) in vector.members.as_slice().iter().enumerate() {
            let name = name.as_slice();
            self.add_member(alloc, found, Member { vector, at, name })?;
        }
        Ok(())
    }

    /// Adds the faults of the pins of these names.
    fn add_all(
        &self,
        alloc: Global,
        found: &mut Vec<usize>,
        made: &[Vector],
    ) -> Result<(), AllocError>
        requires { AreOfOneGroup self.now }
        ensures { OnOk result
            (found.new.items
            ≡ found.old.items ++ flat_map (spec.vector_faults self.now.vectors.now self.now.group.now) made.now) }
    {
        for vector in made {
            self.add_vector(alloc, found, vector)?;
        }
        Ok(())
    }
}

/// Adds the faults of all pins that a bus or bundle makes. Pins with the same statements have none.
#[tactic(auto, using(crate::proofs::Faultless::none_fail))]
pub(crate) fn add_pins_faults(
    alloc: Global,
    found: &mut Vec<usize>,
    vectors: &Vectors,
    group: &Group,
    made: &[Vector],
) -> Result<(), AllocError>
    ensures { OnOk result (found.new.items ≡ found.old.items ++ flat_map (spec.vector_faults vectors.now group.now) made.now) }
{
    if are_alike(alloc, vectors, group)? {
        return Ok(());
    }
    let statements = PinStatements::of_group(alloc, vectors, group)?;
    statements.add_all(alloc, found, made)
}
