//! The pin groups of a bus or bundle, of which neighbouring members with the same statements have one together.
ghost use Rattle.std.specs.Prelude.{◌≡◌, ◌++◌, ◌∷◌, [], IfOk, OnOk, codes, map};
ghost use Rattle.std.specs.List.{fold};
ghost use Rattle.liberty_groups.specs.declared.tree.Group.{roll-Group};
ghost use Rattle.bank_cells.specs.Runs as spec;

use crate::inner_pins::{all_shared_stay, judged_pins, same_places};
use crate::pins::member_pin_items;
use crate::shared::{Shared, shared_items};
use crate::sink::ItemSink;
use bank_refusals::{InnerPins, Member, indexed_pins, member_places};
use bus_texts::{Vector, Vectors};
use liberty_groups::{Group, Item, SmallList, Value, Values, copy_arguments, copy_text};
use sqlite_items::Items;
use std::alloc::{AllocError, Global};

/// Adds the members of a bus or bundle of one name.
fn add_members<'a>(found: &mut Vec<Member<'a>>, vector: &'a Vector) -> Result<(), AllocError>
    ensures { OnOk result
        (map spec.shown_member found.new.items ≡ map spec.shown_member found.old.items ++ spec.members_in vector.now) }
{
    for (at, name) in vector.members.as_slice().iter().enumerate() {
        let name = name.as_slice();
        found.push(Member { vector, at, name })?;
    }
    Ok(())
}

/// All members of buses or bundles.
fn members_of(alloc: Global, several: &[Vector]) -> Result<Vec<Member<'_>>, AllocError>
    ensures { IfOk result (λ found. map spec.shown_member found.items ≡ spec.members_of several.now) }
{
    let mut found = Vec::new(alloc);
    for vector in several {
        add_members(&mut found, vector)?;
    }
    Ok(found)
}

/// A member, with the places of the inner pins that name it.
#[derive(Drop)]
struct Placed<'a> {
    member: Member<'a>,
    places: Vec<usize>,
}

/// Neighbouring members with the same statements: the first of them, and the names of all.
#[derive(Drop)]
struct Run<'a> {
    first: Placed<'a>,
    names: Values,
}

/// The name of a member as an argument of a pin group.
fn name_of(alloc: Global, member: Member<'_>) -> Result<Value, AllocError>
    ensures { IfOk result (λ value. value ≡ spec.name_of (spec.shown_member member.entry)) }
{
    let bytes = copy_text(alloc, member.name)?;
    Ok(Value::new(bytes, true))
}

/// The run of one member.
fn run_of<'a>(alloc: Global, first: Placed<'a>) -> Result<Run<'a>, AllocError>
    ensures first { IfOk result (λ run. run.first ≡ first.entry) }
    ensures run { IfOk result (λ run. spec.shown_run run ≡ spec.run_of (spec.shown_member first.entry.member)) }
{
    let names = Values::one(name_of(alloc, first.member)?);
    Ok(Run { first, names })
}

/// Adds the name of a member.
fn add_name(alloc: Global, names: &mut Values, member: Member<'_>) -> Result<(), AllocError>
    ensures { OnOk result (names.new ≡ names.old ++ spec.name_of (spec.shown_member member.entry) ∷ []) }
{
    let name = name_of(alloc, member)?;
    names.push(alloc, name)
}

/// The pin group with these names and statements, at this offset.
fn pin_group(
    alloc: Global,
    names: &[Value],
    items: Items<Item>,
    at: usize,
) -> Result<Group, AllocError>
    ensures { IfOk result
        (λ pin. pin ≡ roll-Group (record { name = codes "pin"; arguments = names.now; items = items; at = at })) }
{
    let items = SmallList::from_items(alloc, items)?;
    let arguments = copy_arguments(alloc, names)?;
    Ok(Group {
        name: copy_text(alloc, b"pin")?,
        arguments,
        items,
        at,
    })
}

/// What the pins of a bus or bundle are made of.
#[derive(Drop)]
struct Statements<'a> {
    vectors: &'a Vectors,
    group: &'a Group,
    shared: Vec<Shared<'a>>,
    /// The shared ones become the same at each position.
    stay: bool,
    pins: InnerPins<'a>,
    /// Of each inner pin, whether its statements become the same at each position.
    pins_stay: Vec<bool>,
}

impl<'a> Statements<'a> {
    /// Those of a bus or bundle.
    fn of_group(
        alloc: Global,
        vectors: &'a Vectors,
        group: &'a Group,
    ) -> Result<Statements<'a>, AllocError>
        ensures vectors { IfOk result (λ made. made.vectors.now ≡ vectors.now) }
        ensures group { IfOk result (λ made. made.group.now ≡ group.now) }
        ensures all { IfOk result spec.AreOfOneGroup }
    {
        let items = group.items.as_slice();
        let shared = shared_items(alloc, vectors, items)?;
        let stay = all_shared_stay(alloc, vectors, items)?;
        let pins = indexed_pins(alloc, items)?;
        let pins_stay = judged_pins(alloc, vectors, pins.groups())?;
        Ok(Statements {
            vectors,
            group,
            shared,
            stay,
            pins,
            pins_stay,
        })
    }

    /// A member, with the places of the inner pins that name it.
    fn placed(&self, alloc: Global, member: Member<'a>) -> Result<Placed<'a>, AllocError>
        requires { spec.AreOfOneGroup self.now }
        ensures member { IfOk result (λ placed. spec.shown_member placed.member ≡ spec.shown_member member.entry) }
        ensures places { IfOk result (spec.IsPlaced self.now.group.now) }
    {
        let places = member_places(alloc, &self.pins, member)?;
        Ok(Placed { member, places })
    }

    /// Whether two members have the same statements.
    fn have_same(&self, one: &Placed<'_>, other: &Placed<'_>) -> bool
        requires group { spec.AreOfOneGroup self.now }
        requires first { spec.IsPlaced self.now.group.now one.now }
        requires second { spec.IsPlaced self.now.group.now other.now }
        ensures { result ≡ spec.have_same self.now.vectors.now self.now.group.now (spec.shown_member one.now.member)
            (spec.shown_member other.now.member) }
    {
        same_places(self.stay, &self.pins_stay, &one.places, &other.places)
    }

    /// The pin group of neighbours with the same statements.
    fn run_pin(&self, alloc: Global, run: &Run<'_>) -> Result<Group, AllocError>
        requires { spec.AreOfOneGroup self.now }
        ensures { IfOk result (λ pin. pin ≡ spec.run_pin self.now.vectors.now self.now.group.now (spec.shown_run run.now)) }
    {
        let pins = &self.pins;
        let items = member_pin_items(
            alloc,
            self.vectors,
            self.group,
            pins,
            &self.shared,
            run.first.member,
        )?;
        pin_group(alloc, run.names.as_slice(), items, self.group.at)
    }

    /// Adds the pin group of neighbours with the same statements.
    fn add_run<S: ItemSink>(
        &self,
        alloc: Global,
        found: &mut S,
        run: &Run<'_>,
    ) -> Result<(), AllocError>
        requires { spec.AreOfOneGroup self.now }
        ensures { OnOk result
            (found.new ≡ fold S.after found.old (spec.run_pins self.now.vectors.now self.now.group.now (spec.shown_run run.now))) }
    {
        let pin = self.run_pin(alloc, run)?;
        found.take(alloc, Item::Inner(pin))
    }

    /// Goes on to the next member. Where it has other statements than the neighbours before it, their pin group is added.
    fn add_member<S: ItemSink>(
        &self,
        alloc: Global,
        found: &mut S,
        run: &mut Run<'a>,
        member: Member<'a>,
    ) -> Result<(), AllocError>
        requires group { spec.AreOfOneGroup self.now }
        requires placed { spec.IsPlaced self.now.group.now run.old.first }
        ensures found { OnOk result
            (found.new
            ≡ fold S.after found.old
            (spec.ended_by self.now.vectors.now self.now.group.now (spec.shown_run run.old) (spec.shown_member member.entry))) }
        ensures run { OnOk result
            (spec.shown_run run.new
            ≡ spec.run_after self.now.vectors.now self.now.group.now (spec.shown_run run.old) (spec.shown_member member.entry)) }
        ensures placed { OnOk result (spec.IsPlaced self.now.group.now run.new.first) }
    {
        let next = self.placed(alloc, member)?;
        if self.have_same(&run.first, &next) {
            return add_name(alloc, &mut run.names, member);
        }
        self.add_run(alloc, found, run)?;
        *run = run_of(alloc, next)?;
        Ok(())
    }

    /// Adds the pin groups of these neighbours and of the members behind them.
    fn add_rest<S: ItemSink>(
        &self,
        alloc: Global,
        found: &mut S,
        run: &mut Run<'a>,
        rest: &[Member<'a>],
    ) -> Result<(), AllocError>
        requires group { spec.AreOfOneGroup self.now }
        requires placed { spec.IsPlaced self.now.group.now run.old.first }
        ensures { OnOk result
            (found.new
            ≡ fold S.after found.old
            (spec.pins_from self.now.vectors.now self.now.group.now (spec.shown_run run.old) (map spec.shown_member rest.now))) }
    {
        for member in rest {
            self.add_member(alloc, found, run, *member)?;
        }
        self.add_run(alloc, found, run)
    }

    /// Adds the pin groups of members.
    fn add_all<S: ItemSink>(
        &self,
        alloc: Global,
        found: &mut S,
        members: &[Member<'a>],
    ) -> Result<(), AllocError>
        requires { spec.AreOfOneGroup self.now }
        ensures { OnOk result
            (found.new
            ≡ fold S.after found.old (spec.pins_of self.now.vectors.now self.now.group.now (map spec.shown_member members.now))) }
    {
        match members.split_first() {
            None => Ok(()),
            Some((first, rest)) => {
                let mut run = run_of(alloc, self.placed(alloc, *first)?)?;
                self.add_rest(alloc, found, &mut run, rest)
            }
        }
    }
}

/// Adds the pin groups that these buses or bundles make, whose group this is.
pub(crate) fn add_pins<S: ItemSink>(
    alloc: Global,
    found: &mut S,
    vectors: &Vectors,
    group: &Group,
    several: &[Vector],
) -> Result<(), AllocError>
    ensures { OnOk result
        (found.new ≡ fold S.after found.old (spec.pins_of vectors.now group.now (spec.members_of several.now))) }
{
    let members = members_of(alloc, several)?;
    let statements = Statements::of_group(alloc, vectors, group)?;
    statements.add_all(alloc, found, &members)
}
