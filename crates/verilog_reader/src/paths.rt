//! Paths of specify blocks. (IEEE 1364-2005, 14.2 and 14.3.)

ghost use Rattle.std.specs.Prelude.{◌≡◌};
ghost use Rattle.std.specs.List.{position};
ghost use Rattle.std.specs.Str.{bytes_eq};
ghost use Rattle.udp_tables.specs.Ports.{is_input_port};
ghost use Rattle.verilog_grammar.specs.specify_blocks.Nets as nets;
ghost use Rattle.verilog_grammar.specs.VerilogBlocks as spec;
ghost use Rattle.grammar_reader.specs.Reading.{read, Reads};
ghost use Rattle.grammar_reader.specs.Next.{next_bytes, rest};

use crate::netlist::Netlist;
use crate::nets::is_output_port;
use crate::numbers::number;
use grammar_reader::{Language, Read, with_end};
use sqlite_items::Items;
use std::alloc::Global;
use udp_tables::is_input_port;
use verilog_grammar::modules::{Gate, VPath};
use verilog_udp_reader::{Cursor, Verilog};

/// Whether a path begins with this token.
fn is_path_start(token: &[u8]) -> bool
    ensures { result ≡ spec.is_path_start token.now }
{
    Verilog::is_same(token, b"if")
        || Verilog::is_same(token, b"ifnone")
        || Verilog::is_same(token, b"(")
}

/// The number of the input with this name.
fn input_of(model: &Netlist, name: &[u8]) -> Option<usize>
    ensures { result ≡ spec.kept (is_input_port model.now.ports) (spec.port_of model.now name.now) }
{
    match model.port_of(name) {
        Some(port) if is_input_port(model.module().ports.as_slice(), port) => Some(port),
        _ => None,
    }
}

/// The number of the output with this name.
fn output_of(model: &Netlist, name: &[u8]) -> Option<usize>
    ensures { result ≡ spec.kept (nets.is_output_port model.now.ports) (spec.port_of model.now name.now) }
{
    match model.port_of(name) {
        Some(port) if is_output_port(model.module().ports.as_slice(), port) => Some(port),
        _ => None,
    }
}

/// The number of the condition with this name: a wire that an instance without a state drives.
fn condition_of(model: &Netlist, name: &[u8]) -> Option<usize>
    ensures { result ≡ spec.kept (nets.is_value model.now model.now.instances) (position (bytes_eq name.now) model.now.wires) }
{
    match model.wire_of(name) {
        Some(wire) if model.is_value(wire) => Some(wire),
        _ => None,
    }
}

/// The name of an input.
#[inline(always)]
#[tactic(auto, unfolding(verilog_grammar::specs::VerilogBlocks::an_input))]
pub fn input_name(cursor: &mut Cursor, model: &Netlist) -> Read<usize>
    ensures { Reads (read (spec.an_input model.now) cursor.old) result cursor.new }
{
    let found = input_of(model, cursor.bytes());
    cursor.known(found)
}

/// The name of a condition.
#[tactic(auto, unfolding(verilog_grammar::specs::VerilogBlocks::a_condition))]
pub fn condition_name(cursor: &mut Cursor, model: &Netlist) -> Read<usize>
    ensures { Reads (read (spec.a_condition model.now) cursor.old) result cursor.new }
{
    let found = condition_of(model, cursor.bytes());
    cursor.known(found)
}

/// What stands behind `if` and before the ports of a path.
#[tactic(auto, unfolding(verilog_grammar::specs::VerilogBlocks::if_gate))]
fn if_gate(cursor: &mut Cursor, model: &Netlist) -> Read<Gate>
    ensures { Reads (read (spec.if_gate model.now) cursor.old) result cursor.new }
{
    cursor.expect(b"(")?;
    let wire = condition_name(cursor, model)?;
    with_end(cursor, &[b")", b"("], Gate::If(wire))
}

/// What stands behind `ifnone` and before the ports of a path.
#[tactic(auto, unfolding(verilog_grammar::specs::VerilogBlocks::ifnone_gate))]
fn ifnone_gate(cursor: &mut Cursor) -> Read<Gate>
    ensures { Reads (read spec.ifnone_gate cursor.old) result cursor.new }
{
    cursor.expect(b"(")?;
    Ok(Gate::IfNone)
}

/// What stands before the ports of a path, of which the first token is next.
#[tactic(auto, unfolding(verilog_grammar::specs::VerilogBlocks::path_gate))]
fn path_gate(cursor: &mut Cursor, model: &Netlist) -> Read<Gate>
    ensures { Reads (read (spec.path_gate model.now (next_bytes cursor.old)) (rest cursor.old)) result cursor.new }
{
    let first = cursor.bytes();
    cursor.skip();
    if Verilog::is_same(first, b"if") {
        if_gate(cursor, model)
    } else if Verilog::is_same(first, b"ifnone") {
        ifnone_gate(cursor)
    } else {
        Ok(Gate::Always)
    }
}

/// The delays of a path between these ports, behind their bracket, and its end.
#[inline(always)]
fn delays(cursor: &mut Cursor, from: usize, to: usize, gate: Gate) -> Read<VPath>
    ensures { Reads (read (spec.delays from to gate) cursor.old) result cursor.new }
{
    let rise = number(cursor)?;
    cursor.expect(b",")?;
    let fall = number(cursor)?;
    with_end(
        cursor,
        &[b")", b";"],
        VPath {
            gate,
            from,
            to,
            rise,
            fall,
        },
    )
}

/// The name of an output.
#[tactic(auto, unfolding(verilog_grammar::specs::VerilogBlocks::an_output))]
fn output_name(cursor: &mut Cursor, model: &Netlist) -> Read<usize>
    ensures { Reads (read (spec.an_output model.now) cursor.old) result cursor.new }
{
    let found = output_of(model, cursor.bytes());
    cursor.known(found)
}

/// A path, of which the first token is next.
#[tactic(auto, unfolding(verilog_grammar::specs::VerilogBlocks::path))]
fn path(cursor: &mut Cursor, model: &Netlist) -> Read<VPath>
    ensures { Reads (read (spec.path model.now (next_bytes cursor.old)) (rest cursor.old)) result cursor.new }
{
    let gate = path_gate(cursor, model)?;
    let from = input_name(cursor, model)?;
    cursor.expect(b"=>")?;
    let to = output_name(cursor, model)?;
    cursor.expect(b")")?;
    cursor.expect(b"=")?;
    cursor.expect(b"(")?;
    delays(cursor, from, to, gate)
}

/// The paths of a specify block, in a list without room for more.
#[tactic(auto, using(grammar_reader::proofs::Repeats::turn, grammar_reader::proofs::Choices::choose_by, grammar_reader::proofs::Choices::choose_not_by), unfolding(verilog_grammar::specs::VerilogBlocks::paths, verilog_grammar::specs::VerilogBlocks::next_path))]
pub fn paths(cursor: &mut Cursor, alloc: Global, model: &Netlist) -> Read<Items<VPath>>
    ensures { Reads (read (spec.paths model.now) cursor.old) result cursor.new }
{
    let mut paths = Vec::new(alloc);
    for _turn in 0..cursor.left() {
        if !is_path_start(cursor.bytes()) {
            break;
        }
        paths.push(path(cursor, model)?)?;
    }
    paths.shrink_to_fit();
    Ok(Items::from_vec(paths))
}
