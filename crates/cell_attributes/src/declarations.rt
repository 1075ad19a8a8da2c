//! The names that a cell declares.
ghost use Rattle.std.specs.Prelude.{◌≡◌, ◌++◌, ◌∷◌, ◌&&◌, [], List, OnOk, IfOk, map, flat_map, nat_lt};
ghost use Rattle.std.specs.List.{list_all, list_any};
ghost use Rattle.cell_machine.specs.Delay.{least};
ghost use Rattle.cell_machine.specs.CellRules.{is_name as is_name_of};
ghost use Rattle.cell_attributes.specs.Declarations.{Declared as DeclaredName, bears as bears_of, declared_pin, declared_state};
ghost use Rattle.cell_attributes.specs.Declarations.{declared_in as declared_in_of, may_share as may_share_of};
ghost use Rattle.cell_attributes.specs.Declarations.{clashes as clashes_of, clashes_after, bad_name_in as bad_name_in_of};
ghost use Rattle.cell_attributes.specs.Shown.{shown_name, shown_state};
ghost use Rattle.cell_attributes.specs.KnownNames.{clash_in, IsAgainst, IsKnown};

use crate::groups::{is_pin, is_state};
use crate::limits::MOST_NAME_BYTES;
use crate::pins::direction_of;
use crate::states::{StateName, states_in};
use bool_functions::Names;
use cell_machine::Direction;
use cell_machine::least::lesser;
use liberty_groups::{Group, last_attribute};
use std::alloc::{AllocError, Global};

/// What a declared name is.
#[derive(Clone, Copy)]
pub enum Role {
    /// An internal pin with the name of the node that it names.
    Bearer,
    /// A node of a `statetable`.
    Node,
    /// Any other pin, or a variable of an `ff` or `latch`.
    Plain,
}

/// A name that the cell declares.
#[derive(Clone, Copy)]
pub struct Declared<'a> {
    pub name: &'a [u8],
    pub role: Role,
    /// The offset of its group.
    pub at: usize,
}

/// Whether a pin of this group is internal and bears the name of the node that it names.
fn bears(group: &Group, name: &[u8]) -> bool
    ensures { result ≡ bears_of group.now name.now }
{
    if direction_of(group) != Some(Direction::Internal) {
        return false;
    }
    match last_attribute(group, b"internal_node") {
        None => false,
        Some(attribute) => attribute.text == name,
    }
}

/// Adds the names of the pins of a group.
fn declare_pins<'a>(declared: &mut Vec<Declared<'a>>, group: &'a Group) -> Result<(), AllocError>
    ensures { OnOk result (map shown_name declared.new.items ≡ map shown_name declared.old.items
        ++ map (declared_pin group.now) group.now.arguments) }
{
    for value in group.arguments.as_slice() {
        let name = value.bytes();
        let role = if bears(group, name) {
            Role::Bearer
        } else {
            Role::Plain
        };
        declared.push(Declared {
            name,
            role,
            at: group.at,
        })?;
    }
    Ok(())
}

/// Adds the names of a state.
fn declare_state<'a>(
    declared: &mut Vec<Declared<'a>>,
    state: StateName<'a>,
    at: usize,
) -> Result<(), AllocError>
    ensures { OnOk result (map shown_name declared.new.items ≡ map shown_name declared.old.items
        ++ declared_state at (shown_state state.entry)) }
{
    let role = match state.second {
        None => Role::Node,
        Some(_) => Role::Plain,
    };
    declared.push(Declared {
        name: state.first,
        role,
        at,
    })?;
    if let Some(name) = state.second {
        declared.push(Declared {
            name,
            role: Role::Plain,
            at,
        })?;
    }
    Ok(())
}

/// Adds the names of states, whose group has this offset.
fn declare_states<'a>(
    declared: &mut Vec<Declared<'a>>,
    states: &[StateName<'a>],
    at: usize,
) -> Result<(), AllocError>
    ensures { OnOk result (map shown_name declared.new.items ≡ map shown_name declared.old.items
        ++ flat_map (declared_state at) (map shown_state states.now)) }
{
    for state in states {
        declare_state(declared, *state, at)?;
    }
    Ok(())
}

/// Adds the names that a group declares.
fn declare_group<'a>(
    alloc: Global,
    declared: &mut Vec<Declared<'a>>,
    group: &'a Group,
) -> Result<(), AllocError>
    ensures { OnOk result (map shown_name declared.new.items ≡ map shown_name declared.old.items ++ declared_in_of group.now) }
{
    if is_pin(group) {
        declare_pins(declared, group)
    } else if is_state(group) {
        let states = states_in(alloc, group)?;
        declare_states(declared, &states, group.at)
    } else {
        Ok(())
    }
}

/// The names that the groups of a cell declare, in order.
pub fn declared_of<'a>(alloc: Global, groups: &[&'a Group]) -> Result<Vec<Declared<'a>>, AllocError>
    ensures { IfOk result (λ declared. map shown_name declared.items ≡ flat_map declared_in_of
        (map (λ group. group.now) groups.now)) }
{
    let mut declared = Vec::new(alloc);
    for group in groups {
        declare_group(alloc, &mut declared, group)?;
    }
    Ok(declared)
}

/// Whether two names may be the same: an internal pin may bear the name of the node that it names.
fn may_share(one: Role, other: Role) -> bool
    ensures { result ≡ may_share_of one other }
{
    match (one, other) {
        (Role::Bearer, Role::Node) | (Role::Node, Role::Bearer) => true,
        _ => false,
    }
}

/// The names that are declared so far: for each role those with which a name of that role clashes.
#[derive(Drop)]
pub struct Known {
    pub plain: Names,
    pub bearers: Names,
    pub nodes: Names,
}

impl Known {
    /// Those with which a name of this role clashes.
    fn against(&self, role: Role) -> &Names
        ensures { (earlier : List DeclaredName) → IsKnown earlier self.now → IsAgainst role earlier result.now }
    {
        match role {
            Role::Plain => &self.plain,
            Role::Bearer => &self.bearers,
            Role::Node => &self.nodes,
        }
    }
}

/// Adds a name to those with which a name of this role clashes, unless the two may share it.
fn keep(names: &mut Names, role: Role, one: &Declared<'_>) -> Result<(), AllocError>
    ensures { OnOk result ((earlier : List DeclaredName) → IsAgainst role earlier names.old
        → IsAgainst role (earlier ++ shown_name one.now ∷ []) names.new) }
{
    if !may_share(role, one.role) {
        names.add(one.name)?;
    }
    Ok(())
}

/// Adds a declared name.
fn add(known: &mut Known, one: &Declared<'_>) -> Result<(), AllocError>
    ensures { OnOk result ((earlier : List DeclaredName) → IsKnown earlier known.old
        → IsKnown (earlier ++ shown_name one.now ∷ []) known.new) }
{
    keep(&mut known.plain, Role::Plain, one)?;
    keep(&mut known.bearers, Role::Bearer, one)?;
    keep(&mut known.nodes, Role::Node, one)
}

/// Whether a declared name clashes with one of those that are declared so far.
fn clashes_with(known: &Known, one: &Declared<'_>) -> bool
    ensures { (earlier : List DeclaredName) → IsKnown earlier known.now
        → result ≡ list_any (clashes_of (shown_name one.now)) earlier }
{
    known.against(one.role).number(one.name).is_some()
}

/// The offset of a declared name, where it clashes with one of those that are declared so far.
fn clash_at(known: &Known, one: &Declared<'_>) -> Option<usize>
    ensures { (earlier : List DeclaredName) → IsKnown earlier known.now → result ≡ least (clash_in earlier (shown_name one.now)) }
{
    if clashes_with(known, one) {
        Some(one.at)
    } else {
        None
    }
}

/// The least offset of a name that clashes with an earlier one, where none is declared so far. The names become declared.
#[tactic(auto, using(cell_machine::proofs::LeastLemmas::lesser_none))]
fn clash_among(known: &mut Known, declared: &[Declared<'_>]) -> Result<Option<usize>, AllocError>
    requires { IsKnown [] known.old }
    ensures { IfOk result (λ at. at ≡ least (clashes_after [] (map shown_name declared.now))) }
{
    let mut found = None;
    for later in declared {
        found = lesser(found, clash_at(known, later));
        add(known, later)?;
    }
    Ok(found)
}

/// The least offset of a name that clashes with an earlier one.
pub fn first_clash(alloc: Global, declared: &[Declared<'_>]) -> Result<Option<usize>, AllocError>
    ensures { IfOk result (λ at. at ≡ least (clashes_after [] (map shown_name declared.now))) }
{
    let mut known = Known {
        plain: Names::new(alloc),
        bearers: Names::new(alloc),
        nodes: Names::new(alloc),
    };
    clash_among(&mut known, declared)
}

/// Whether a byte may stand in a name: it is printable and no space.
fn is_name_byte(byte: u8) -> bool
    ensures { result ≡ (nat_lt 32 byte && nat_lt byte 127) }
{
    32 < byte && byte < 127
}

/// Whether all bytes may stand in a name.
fn are_name_bytes(name: &[u8]) -> bool
    ensures { result ≡ list_all (λ byte. nat_lt 32 byte && nat_lt byte 127) name.now }
{
    name.iter().all(|byte| is_name_byte(*byte))
}

/// Whether this may be a name.
pub fn is_name(name: &[u8]) -> bool
    ensures { result ≡ is_name_of name.now }
{
    0 < name.len() && name.len() <= MOST_NAME_BYTES && are_name_bytes(name)
}

/// The least offset of a declared name that may be none.
#[tactic(auto, using(cell_machine::proofs::LeastLemmas::lesser_assoc, cell_machine::proofs::LeastLemmas::lesser_none, cell_machine::proofs::LeastLemmas::least_append))]
pub fn first_bad_name(declared: &[Declared<'_>]) -> Option<usize>
    ensures { result ≡ least (flat_map bad_name_in_of (map shown_name declared.now)) }
{
    let mut found = None;
    for one in declared {
        if !is_name(one.name) {
            found = lesser(found, Some(one.at));
        }
    }
    found
}
