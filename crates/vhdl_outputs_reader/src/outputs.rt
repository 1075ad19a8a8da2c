//! The lines of outputs: calls of path delays, and assignments. (IEEE 1076.4-2000, VitalPathDelay01; IEEE 1076-1993, 8.4.)

ghost use Rattle.std.specs.Prelude.{◌≡◌, ◌+◌, ◌<◌, ◌^◌, length, Some, IfOk, codes};
ghost use Rattle.std.specs.Option.{option_map, option_copied};
ghost use Rattle.grammar_reader.specs.declared.refusal.Refusal.TheVariants.{Syntax};
ghost use Rattle.grammar_reader.specs.Reading.{read, Reads, ReadsAs, Token};
ghost use Rattle.vhdl_grammar.specs.udp_tables.declared.models.VPort.{VPort};
ghost use Rattle.vhdl_grammar.specs.vital_tables.Sound.{output_ports_from};
ghost use Rattle.vhdl_grammar.specs.VhdlRules as rules;
ghost use Rattle.vhdl_grammar.specs.VhdlOutputs as spec;

use crate::paths::paths;
use grammar_reader::{Read, Refusal, Stop};
use sqlite_items::Items;
use std::alloc::{AllocError, Global};
use vhdl_grammar::entities::HPath;
use vhdl_grammar::primitives::VPort;
use vhdl_grammar::{Cursor, Declarations, Uses, expect_all, numbered};
use vhdl_tokens::{is_quoted, is_same, is_string};

/// The paths of each output so far, and the lists of the conditions that were looked up.
pub type Lines = (Items<Items<HPath>>, Uses);

/// The numbers of the outputs, in order. An `Err` comes only where memory is wanting.
pub fn output_ports(alloc: Global, ports: &[VPort]) -> Result<Items<usize>, AllocError>
    ensures { IfOk result (λ outputs. outputs ≡ output_ports_from 0 ports.now) }
{
    let mut outputs = Items::new(alloc);
    for (number, port) in ports.iter().enumerate() {
        if !port.input {
            outputs.push(number)?;
        }
    }
    Ok(outputs)
}

/// Whether the output with this number, from 0, has data of its delays.
fn has_glitch(scope: &Declarations, output: usize) -> bool
    ensures { result ≡ spec.has_glitch scope.now output }
{
    match scope.variables().glitches.as_slice().get(output) {
        Some(has) => *has,
        None => false,
    }
}

/// The port of the output with this number, from 0.
fn port_at<'a>(scope: &'a Declarations, output: usize) -> Option<&'a VPort>
    ensures { option_map (λ (port : VPort). port.name) (option_copied result) ≡ spec.output_name scope.now output }
{
    match scope.ports().outputs().get(output) {
        Some(port) => scope.ports().as_slice().get(*port),
        None => None,
    }
}

/// The name of the output with this number, from 0.
fn output_name(cursor: &mut Cursor, scope: &Declarations, output: usize) -> Read<()>
    ensures { Reads (read (rules.this_name (spec.output_name scope.now output)) cursor.old) result cursor.new }
{
    match port_at(scope, output) {
        Some(port) => cursor.this_name(port.name.as_slice()),
        None => Err(Stop::Refused(cursor.no_name())),
    }
}

/// The text of the name of the output with this number, from 0.
fn output_text(cursor: &mut Cursor, scope: &Declarations, output: usize) -> Read<()>
    ensures { Reads (read (Token (spec.text_by (spec.output_name scope.now output)) Syntax) cursor.old) result cursor.new }
{
    if !is_string(cursor.bytes()) {
        return Err(Stop::Refused(Refusal::Syntax));
    }
    let Some(port) = port_at(scope, output) else {
        return Err(Stop::Refused(Refusal::Undefined));
    };
    if !is_quoted(cursor.bytes(), port.name.as_slice()) {
        return Err(Stop::Refused(Refusal::Undefined));
    }
    cursor.skip();
    Ok(())
}

/// The data of the delays of the output with this number, from 0, which has to have them.
fn glitch_name(cursor: &mut Cursor, scope: &Declarations, output: usize) -> Read<()>
    requires { output < 2 ^ 63 }
    ensures { Reads (read (rules.this_name (rules.numbered_where (spec.has_glitch scope.now output) (codes "g_") (output + 1)))
        cursor.old) result cursor.new }
{
    let has_paths = has_glitch(scope, output);
    numbered(cursor, has_paths, b"g_", output + 1)
}

/// The variable of the output with this number, from 0.
fn value_name(cursor: &mut Cursor, output: usize) -> Read<()>
    requires { output < 2 ^ 63 }
    ensures { Reads (read (rules.this_name (Some (rules.numbered (codes "z_") (output + 1)))) cursor.old) result cursor.new }
{
    numbered(cursor, true, b"z_", output + 1)
}

/// The start of the path call of the output with this number, behind its word.
#[tactic(auto, unfolding(vhdl_grammar::specs::VhdlOutputs::path_call_start))]
fn path_call_start(cursor: &mut Cursor, scope: &Declarations, output: usize) -> Read<()>
    requires { output < 2 ^ 63 }
    ensures { Reads (read (spec.path_call_start scope.now output) cursor.old) result cursor.new }
{
    expect_all(cursor, &[b"(", b"OutSignal", b"=>"])?;
    output_name(cursor, scope, output)?;
    expect_all(cursor, &[b",", b"GlitchData", b"=>"])?;
    glitch_name(cursor, scope, output)?;
    expect_all(cursor, &[b",", b"OutSignalName", b"=>"])?;
    output_text(cursor, scope, output)?;
    expect_all(cursor, &[b",", b"OutTemp", b"=>"])?;
    value_name(cursor, output)?;
    cursor.expect(b",")
}

/// The start of the path call behind these lines of other outputs, and behind its word.
fn next_start(cursor: &mut Cursor, scope: &Declarations, lines: &[Items<HPath>]) -> Read<()>
    ensures { Reads (read (spec.path_call_start scope.now (length lines.now)) cursor.old) result cursor.new }
{
    path_call_start(cursor, scope, lines.len())
}

/// The variable of the output behind these lines of other outputs.
fn next_value_name(cursor: &mut Cursor, lines: &[Items<HPath>]) -> Read<()>
    ensures { Reads (read (rules.this_name (Some (rules.numbered (codes "z_") (length lines.now + 1)))) cursor.old) result
        cursor.new }
{
    value_name(cursor, lines.len())
}

/// A path call, behind its word, whose line stands behind those of other outputs then.
#[tactic(auto, unfolding(vhdl_grammar::specs::VhdlOutputs::path_call))]
fn path_call(cursor: &mut Cursor, scope: &Declarations, lines: &mut Lines) -> Read<()>
    ensures { ReadsAs (λ _. lines.new) (read (spec.path_call scope.now lines.old) cursor.old) result cursor.new }
{
    next_start(cursor, scope, lines.0.as_slice())?;
    expect_all(cursor, &[b"Paths", b"=>"])?;
    let found = paths(cursor, scope, &mut lines.1)?;
    expect_all(
        cursor,
        &[b",", b"Mode", b"=>", b"VitalTransport", b")", b";"],
    )?;
    lines.0.push(found)?;
    Ok(())
}

/// The variable of an output without paths, behind `<=`, whose line stands behind those of other outputs then.
#[tactic(auto, unfolding(vhdl_grammar::specs::VhdlOutputs::assigned_value))]
fn assigned_value(cursor: &mut Cursor, alloc: Global, lines: &mut Lines) -> Read<()>
    ensures { ReadsAs (λ _. lines.new) (read (spec.assigned_value lines.old) cursor.old) result cursor.new }
{
    next_value_name(cursor, lines.0.as_slice())?;
    cursor.expect(b";")?;
    lines.0.push(Items::new(alloc))?;
    Ok(())
}

/// An assignment, behind the name of its output, whose line stands behind those of other outputs then.
#[tactic(auto, unfolding(vhdl_grammar::specs::VhdlOutputs::assignment))]
pub fn assignment(cursor: &mut Cursor, alloc: Global, lines: &mut Lines) -> Read<()>
    ensures { ReadsAs (λ _. lines.new) (read (spec.assignment lines.old) cursor.old) result cursor.new }
{
    cursor.expect(b"<=")?;
    assigned_value(cursor, alloc, lines)
}

/// Whether a name is that of the output with this number, from 0, which has no paths.
fn is_unpathed(scope: &Declarations, output: usize, name: &[u8]) -> bool
    ensures { result ≡ spec.is_unpathed scope.now output name.now }
{
    if has_glitch(scope, output) {
        return false;
    }
    match port_at(scope, output) {
        Some(port) => is_same(name, port.name.as_slice()),
        None => false,
    }
}

/// Whether a name is that of the output behind these lines of other outputs, which has no paths.
pub fn is_next_unpathed(scope: &Declarations, lines: &[Items<HPath>], name: &[u8]) -> bool
    ensures { result ≡ spec.is_unpathed scope.now (length lines.now) name.now }
{
    is_unpathed(scope, lines.len(), name)
}

/// Whether a token behind `VitalPathDelay01` assigns the output behind these lines of other outputs, which has the same name and
/// no paths.
fn assigns_so_named(scope: &Declarations, lines: &[Items<HPath>], token: &[u8]) -> bool
    ensures { result ≡ spec.assigns_so_named scope.now (length lines.now) token.now }
{
    is_same(token, b"<=") && is_next_unpathed(scope, lines, b"VitalPathDelay01")
}

/// What stands behind `VitalPathDelay01`: the assignment of an output of this name, or a call. Its line stands behind those of
/// other outputs then.
#[tactic(auto, unfolding(vhdl_grammar::specs::VhdlOutputs::call_or_assignment), using(grammar_reader::proofs::Choices::choose_by, grammar_reader::proofs::Choices::choose_not_by))]
pub fn call_or_assignment(cursor: &mut Cursor, scope: &Declarations, lines: &mut Lines) -> Read<()>
    ensures { ReadsAs (λ _. lines.new) (read (spec.call_or_assignment scope.now lines.old) cursor.old) result cursor.new }
{
    if !assigns_so_named(scope, lines.0.as_slice(), cursor.bytes()) {
        return path_call(cursor, scope, lines);
    }
    cursor.skip();
    assigned_value(cursor, scope.alloc(), lines)
}
