//! Whether the parts of a module are those of a cell, apart from the values of its tables.
ghost use Rattle.std.specs.Prelude.{◌≡◌, ◌+◌, ◌<◌, [], ◌∷◌, map, filter, flat_map, length};
ghost use Rattle.std.specs.List.{list_any};
ghost use Rattle.cell_machine.specs.Inputs.{is_input_at};
ghost use Rattle.cell_machine.specs.CellData.{data_of};
ghost use Rattle.udp_tables.specs.declared.models.VPort.{VPort};
ghost use Rattle.udp_tables.specs.Ports.{is_port};
ghost use Rattle.specify_blocks.specs.Generated.{is_conditional};
ghost use Rattle.module_shapes.specs.Shape.{same_bit, same_bits, both_or_neither, same_kind, same_edge, same_event};
ghost use Rattle.module_terminals.specs.Feeding.{feeds_group};
ghost use Rattle.module_shapes.specs.Shape.{same_check, same_check_at, gated_by, same_path, same_path_at};
ghost use Rattle.module_terminals.specs.Feeding.{feeds_output};
ghost use Rattle.module_shapes.specs.Shape.{number_holds, part_count, part_holds, asked, tests_of, shape_tests, first_amiss};

use crate::shape_parts::ShapePart;
use bool_functions::Function;
use cell_machine::{Arc, Cell, Check, CheckKind, Direction, Edge, Event, Pin};
use module_terminals::condition_wires::{of_check, of_path};
use module_terminals::feeding::{feeds_gating, feeds_group, feeds_output};
use module_terminals::terminals::state_count;
use specify_blocks::{Gate, VModule, VPath};
use udp_tables::{TimingCheck, VPort, event_of, is_port, port_number};

/// A question on the shape of a module.
#[derive(Clone, Copy)]
pub struct ShapeTest {
    /// The part that it is on.
    pub part: ShapePart,
    /// The number of the part from 1, or 0 for the ports or a number of parts.
    pub number: usize,
    /// Whether the part is the cell's.
    pub holds: bool,
}

impl ShapeTest {
    /// The question, where it does not hold.
    fn failed(self) -> Option<ShapeTest>
        ensures { result ≡ first_amiss (self ∷ []) }
    {
        if self.holds { None } else { Some(self) }
    }
}

/// Whether a pin is an input.
fn is_input(pin: &Pin) -> bool
    ensures { result ≡ is_input_at pin.now }
{
    match pin.direction {
        Direction::Input => true,
        Direction::Output => false,
        Direction::Internal => false,
    }
}

/// Whether two bits are the same.
fn same_bit(one: bool, other: bool) -> bool
    ensures { result ≡ same_bit one other }
{
    if one { other } else { !other }
}

/// Whether there are no ports.
fn no_ports(ports: &[VPort]) -> bool
    ensures { result ≡ same_bits (map (λ (port : VPort). port.input) ports.now) [] }
{
    match ports.split_first() {
        Some(_) => false,
        None => true,
    }
}

/// Whether ports have the directions of those pins that are ports.
fn same_ports(ports: &[VPort], pins: &[Pin]) -> bool
    ensures { result ≡ same_bits (map (λ (port : VPort). port.input) ports.now) (map is_input_at (filter is_port pins.now)) }
{
    let Some((pin, pins)) = pins.split_first() else {
        return no_ports(ports);
    };
    if !is_port(pin) {
        return same_ports(ports, pins);
    }
    let Some((port, ports)) = ports.split_first() else {
        return false;
    };
    same_bit(port.input, is_input(pin)) && same_ports(ports, pins)
}

/// Whether both are there or neither.
fn both_or_neither(condition: &Option<Function>, wire: Option<usize>) -> bool
    ensures { result ≡ both_or_neither condition.now wire }
{
    match (condition, wire) {
        (Some(_), Some(_)) => true,
        (None, None) => true,
        _ => false,
    }
}

/// Whether two kinds of checks are the same.
fn same_kind(one: CheckKind, other: CheckKind) -> bool
    ensures { result ≡ same_kind one other }
{
    one == other
}

/// Whether two edges are the same.
fn same_edge(one: Edge, other: Edge) -> bool
    ensures { result ≡ same_edge one other }
{
    one == other
}

/// Whether two events are the same.
fn same_event(one: Event, other: Event) -> bool
    ensures { result ≡ same_event one other }
{
    one.pin == other.pin && same_edge(one.edge, other.edge)
}

/// Whether a timing check of a module is this one of a cell with these pins.
fn same_check(pins: &[Pin], check: &Check, timing: TimingCheck) -> bool
    ensures { result ≡ same_check pins.now check.now timing }
{
    same_kind(timing.kind, check.kind)
        && same_event(timing.first, event_of(pins, check.first))
        && same_event(timing.second, event_of(pins, check.second))
        && timing.limit == check.limit
        && both_or_neither(&check.condition, timing.condition)
}

/// The same of the check with this number.
fn same_check_at(cell: &Cell, model: &VModule, check: usize) -> bool
    requires { check < length cell.now.checks }
    ensures { result ≡ same_check_at (data_of cell.now) model.now check }
{
    match model.checks.as_slice().get(check) {
        Some(timing) => same_check(cell.pins.as_slice(), cell.check(check), *timing),
        None => false,
    }
}

/// Whether a path is gated like an arc with this condition, where it is known whether an arc with a condition has its pins.
fn gated_by(beside: bool, condition: &Option<Function>, gate: Gate) -> bool
    ensures { result ≡ gated_by beside condition.now gate }
{
    match (condition, gate) {
        (Some(_), Gate::If(_)) => true,
        (None, Gate::IfNone) => beside,
        (None, Gate::Always) => !beside,
        _ => false,
    }
}

/// Whether an arc with a condition has the pins of this one.
fn is_beside(arcs: &[Arc], arc: &Arc) -> bool
    ensures { result ≡ list_any (is_conditional arc.now) arcs.now }
{
    arcs.iter()
        .any(|other| arc.same_pins(other) && other.condition.is_some())
}

/// Whether a path is this arc of a cell.
fn same_path(cell: &Cell, arc: &Arc, path: VPath) -> bool
    ensures { result ≡ same_path (data_of cell.now) arc.now path }
{
    let pins = cell.pins.as_slice();
    path.from == port_number(pins, arc.from)
        && path.to == port_number(pins, arc.to)
        && path.rise == arc.rise
        && path.fall == arc.fall
        && gated_by(
            is_beside(cell.arcs.as_slice(), arc),
            &arc.condition,
            path.gate,
        )
}

/// The same of the arc with this number.
fn same_path_at(cell: &Cell, model: &VModule, arc: usize) -> bool
    requires { arc < length cell.now.arcs }
    ensures { result ≡ same_path_at (data_of cell.now) model.now arc }
{
    match model.paths.as_slice().get(arc) {
        Some(path) => same_path(cell, cell.arc(arc), *path),
        None => false,
    }
}

impl ShapePart {
    /// Whether there are as many of a part, or the ports are the cell's.
    fn number_holds(self, cell: &Cell, model: &VModule) -> bool
        ensures { result ≡ number_holds (data_of cell.now) model.now self }
    {
        match self {
            ShapePart::Ports => same_ports(model.ports.as_slice(), cell.pins.as_slice()),
            ShapePart::States => state_count(model) == cell.groups.len(),
            ShapePart::StateInputs => true,
            ShapePart::Checks => model.checks.len() == cell.checks.len(),
            ShapePart::Paths => model.paths.len() == cell.arcs.len(),
            ShapePart::CheckInputs => true,
            ShapePart::PathInputs => true,
            ShapePart::Outputs => true,
        }
    }

    /// How many of a part of a cell are asked for one by one.
    fn count(self, cell: &Cell) -> usize
        ensures { result ≡ part_count (data_of cell.now) self }
    {
        match self {
            ShapePart::Ports => 0,
            ShapePart::States => 0,
            ShapePart::StateInputs => cell.groups.len(),
            ShapePart::Checks => cell.checks.len(),
            ShapePart::Paths => cell.arcs.len(),
            ShapePart::CheckInputs => cell.checks.len(),
            ShapePart::PathInputs => cell.arcs.len(),
            ShapePart::Outputs => cell.outputs.len(),
        }
    }

    /// Whether the one with this number, from 0, is the cell's.
    fn holds(self, cell: &Cell, model: &VModule, number: usize) -> bool
        requires { number < part_count (data_of cell.now) self }
        ensures { result ≡ part_holds (data_of cell.now) model.now self number }
    {
        match self {
            ShapePart::Ports => true,
            ShapePart::States => true,
            ShapePart::StateInputs => feeds_group(cell, model, number),
            ShapePart::Checks => same_check_at(cell, model, number),
            ShapePart::Paths => same_path_at(cell, model, number),
            ShapePart::CheckInputs => feeds_gating(cell, model, of_check(cell, model, number)),
            ShapePart::PathInputs => feeds_gating(cell, model, of_path(cell, model, number)),
            ShapePart::Outputs => feeds_output(cell, model, number),
        }
    }

    /// The first question on one of this part that does not hold.
    #[tactic(auto, using(crate::proofs::Asked::ask_turn, crate::proofs::Asked::ask_done))]
    fn first_of_each(self, cell: &Cell, model: &VModule) -> Option<ShapeTest>
        ensures { result ≡ first_amiss (asked (data_of cell.now) model.now self) }
    {
        let count = self.count(cell);
        for k in 0..count {
            let test = ShapeTest {
                part: self,
                number: k + 1,
                holds: self.holds(cell, model, k),
            };
            if let Some(failed) = test.failed() {
                return Some(failed);
            }
        }
        None
    }

    /// The first question on this part that does not hold.
    #[tactic(auto, using(crate::proofs::Asked::ask_first))]
    fn first(self, cell: &Cell, model: &VModule) -> Option<ShapeTest>
        ensures { result ≡ first_amiss (tests_of (data_of cell.now) model.now self) }
    {
        let test = ShapeTest {
            part: self,
            number: 0,
            holds: self.number_holds(cell, model),
        };
        match test.failed() {
            Some(failed) => Some(failed),
            None => self.first_of_each(cell, model),
        }
    }
}

/// The first question on these parts that does not hold.
#[tactic(auto, using(crate::proofs::Asked::parts_first))]
fn first_among(parts: &[ShapePart], cell: &Cell, model: &VModule) -> Option<ShapeTest>
    ensures { result ≡ first_amiss (flat_map (tests_of (data_of cell.now) model.now) parts.now) }
{
    let Some((part, rest)) = parts.split_first() else {
        return None;
    };
    match part.first(cell, model) {
        Some(failed) => Some(failed),
        None => first_among(rest, cell, model),
    }
}

/// The first question on the shape that does not hold.
pub fn first_amiss(cell: &Cell, model: &VModule) -> Option<ShapeTest>
    ensures { result ≡ first_amiss (shape_tests (data_of cell.now) model.now) }
{
    let parts = [
        ShapePart::Ports,
        ShapePart::States,
        ShapePart::StateInputs,
        ShapePart::Checks,
        ShapePart::Paths,
        ShapePart::CheckInputs,
        ShapePart::PathInputs,
        ShapePart::Outputs,
    ];
    first_among(&parts, cell, model)
}
