//! The parts of timing checks: their events, their conditions and their ends. (IEEE 1364-2005, 15.2 to 15.5.)

ghost use Rattle.std.specs.Prelude.{◌≡◌};
ghost use Rattle.udp_tables.specs.VerilogRules.{this_name};
ghost use Rattle.verilog_grammar.specs.VerilogBlocks as spec;
ghost use Rattle.grammar_reader.specs.Reading.{read, Reads};

use crate::netlist::Netlist;
use crate::paths::{condition_name, input_name};
use cell_machine::{Edge, Event};
use grammar_reader::{Read, Stop, value_of};
use verilog_udp_reader::{Cursor, Verilog};

/// The events that a word before a port allows.
fn edge_of(token: &[u8]) -> Option<Edge>
    ensures { result ≡ spec.edge_of token.now }
{
    value_of::<Verilog, _>(token, &[(b"posedge", Edge::Rise), (b"negedge", Edge::Fall)])
}

/// The word before the port of an event, if there is one.
#[tactic(auto, using(grammar_reader::proofs::Choices::choose_as, grammar_reader::proofs::Choices::choose_not_as), unfolding(verilog_grammar::specs::VerilogBlocks::any_edge))]
fn any_edge(cursor: &mut Cursor) -> Read<Edge>
    ensures { Reads (read spec.any_edge cursor.old) result cursor.new }
{
    match edge_of(cursor.bytes()) {
        Some(edge) => {
            cursor.skip();
            Ok(edge)
        }
        None => Ok(Edge::Any),
    }
}

/// An event of an input.
#[tactic(auto, unfolding(verilog_grammar::specs::VerilogBlocks::an_event))]
pub fn an_event(cursor: &mut Cursor, model: &Netlist) -> Read<Event>
    ensures { Reads (read (spec.an_event model.now) cursor.old) result cursor.new }
{
    let edge = any_edge(cursor)?;
    let pin = input_name(cursor, model)?;
    Ok(Event { pin, edge })
}

/// An event of an input, of one kind of edge.
#[tactic(auto, unfolding(verilog_grammar::specs::VerilogBlocks::an_edge_event), using(grammar_reader::proofs::Values::valued_found))]
pub fn an_edge_event(cursor: &mut Cursor, model: &Netlist) -> Read<Event>
    ensures { Reads (read (spec.an_edge_event model.now) cursor.old) result cursor.new }
{
    let found = edge_of(cursor.bytes());
    let edge = cursor.value(found)?;
    let pin = input_name(cursor, model)?;
    Ok(Event { pin, edge })
}

/// The condition of a check, if there is one.
#[tactic(auto, using(grammar_reader::proofs::Repeats::choose_begun, grammar_reader::proofs::Repeats::choose_other), unfolding(verilog_grammar::specs::VerilogBlocks::condition, verilog_grammar::specs::VerilogBlocks::condition_name))]
pub fn condition(cursor: &mut Cursor, model: &Netlist) -> Read<Option<usize>>
    ensures { Reads (read (spec.condition model.now) cursor.old) result cursor.new }
{
    if !cursor.is_next(b"&&&") {
        return Ok(None);
    }
    cursor.skip();
    let wire = condition_name(cursor, model)?;
    Ok(Some(wire))
}

/// The name of the register of the checks.
fn notifier_name(cursor: &mut Cursor, model: &Netlist) -> Read<()>
    ensures { Reads (read (this_name model.now.notifier) cursor.old) result cursor.new }
{
    match &model.module().notifier {
        Some(name) => cursor.this_name(name.as_slice()),
        None => Err(Stop::Refused(cursor.no_name())),
    }
}

/// The end of a check.
#[inline(always)]
#[tactic(auto, unfolding(verilog_grammar::specs::VerilogBlocks::check_end))]
pub fn check_end(cursor: &mut Cursor, model: &Netlist) -> Read<()>
    ensures { Reads (read (spec.check_end model.now) cursor.old) result cursor.new }
{
    cursor.expect(b",")?;
    notifier_name(cursor, model)?;
    cursor.expect(b")")?;
    cursor.expect(b";")
}
