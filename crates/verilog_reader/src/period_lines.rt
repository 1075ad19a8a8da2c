//! Periods, which have a line for the rises of their port and one for its falls. (IEEE 1364-2005, 15.3.5.)

ghost use Rattle.std.specs.Prelude.{slice_get};
ghost use Rattle.std.specs.Option.{option_map};
ghost use Rattle.udp_tables.specs.VerilogRules.{this_name};
ghost use Rattle.verilog_grammar.specs.VerilogModules.{port_name};
ghost use Rattle.verilog_grammar.specs.VerilogBlocks as spec;
ghost use Rattle.grammar_reader.specs.Reading.{read, Reads};

use crate::check_parts::{check_end, condition};
use crate::netlist::Netlist;
use crate::numbers::number;
use crate::paths::input_name;
use cell_machine::{CheckKind, Edge, Event};
use grammar_reader::{Read, Stop};
use udp_tables::TimingCheck;
use verilog_tokens::number_of;
use verilog_udp_reader::Cursor;

/// The name of this wire.
fn wire_name(cursor: &mut Cursor, model: &Netlist, wire: usize) -> Read<()>
    ensures { Reads (read (this_name (slice_get model.now.wires wire)) cursor.old) result cursor.new }
{
    match model.module().wires.get(wire) {
        Some(name) => cursor.this_name(name.as_slice()),
        None => Err(Stop::Refused(cursor.no_name())),
    }
}

/// The name of this port.
fn port_name(cursor: &mut Cursor, model: &Netlist, port: usize) -> Read<()>
    ensures { Reads (read (this_name (option_map port_name (slice_get model.now.ports port))) cursor.old) result cursor.new }
{
    match model.module().ports.get(port) {
        Some(port) => cursor.this_name(port.name.as_slice()),
        None => Err(Stop::Refused(cursor.no_name())),
    }
}

/// The condition of the line before, if it has one.
#[tactic(auto, unfolding(verilog_grammar::specs::VerilogBlocks::same_condition))]
fn same_condition(cursor: &mut Cursor, model: &Netlist, condition: Option<usize>) -> Read<()>
    ensures { Reads (read (spec.same_condition model.now condition) cursor.old) result cursor.new }
{
    let Some(wire) = condition else {
        return Ok(());
    };
    cursor.expect(b"&&&")?;
    wire_name(cursor, model, wire)
}

/// The number of the line before.
#[tactic(auto, using(crate::proofs::Periods::number_found))]
fn same_number(cursor: &mut Cursor, limit: u64) -> Read<()>
    ensures { Reads (read (spec.same_number limit) cursor.old) result cursor.new }
{
    let found = number_of(cursor.bytes());
    cursor.same_number(found, limit)
}

/// The line of the falls of a period.
#[tactic(auto, unfolding(verilog_grammar::specs::VerilogBlocks::second_period))]
fn second_period(
    cursor: &mut Cursor,
    model: &Netlist,
    port: usize,
    condition: Option<usize>,
    limit: u64,
) -> Read<()>
    ensures { Reads (read (spec.second_period model.now port condition limit) cursor.old) result cursor.new }
{
    cursor.expect(b"$period")?;
    cursor.expect(b"(")?;
    cursor.expect(b"negedge")?;
    port_name(cursor, model, port)?;
    same_condition(cursor, model, condition)?;
    cursor.expect(b",")?;
    same_number(cursor, limit)?;
    check_end(cursor, model)
}

/// A period: its two lines.
#[tactic(auto, unfolding(verilog_grammar::specs::VerilogBlocks::period_check))]
pub fn period_check(cursor: &mut Cursor, model: &Netlist) -> Read<TimingCheck>
    ensures { Reads (read (spec.period_check model.now) cursor.old) result cursor.new }
{
    cursor.expect(b"posedge")?;
    let pin = input_name(cursor, model)?;
    let condition = condition(cursor, model)?;
    cursor.expect(b",")?;
    let limit = number(cursor)?;
    check_end(cursor, model)?;
    second_period(cursor, model, pin, condition, limit)?;
    let event = Event {
        pin,
        edge: Edge::Any,
    };
    Ok(TimingCheck {
        kind: CheckKind::Period,
        first: event,
        second: event,
        limit,
        condition,
    })
}
