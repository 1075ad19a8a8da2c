//! The instances of a module, by recursive descent. (IEEE 1364-2005, 7.1, 7.3 and 8.6.)

ghost use Rattle.std.specs.Prelude.{◌≡◌, Some, IfOk};
ghost use Rattle.grammar_reader.specs.Words.{valued};
ghost use Rattle.verilog_grammar.specs.VerilogModules as spec;
ghost use Rattle.verilog_grammar.specs.specify_blocks.Nets.{is_sequential};
ghost use Rattle.verilog_reader.specs.Begun.{is_instance_start, instance_primitive};
ghost use Rattle.verilog_reader.specs.Calls as calls;
ghost use Rattle.verilog_reader.specs.NameSearch.{udp_name};
ghost use Rattle.verilog_reader.specs.Netlist.{MayFind};
ghost use Rattle.grammar_reader.specs.Reading.{read, Reads, ReadsAs};

use crate::connections::{FedInstance, driven_terminal};
use crate::name_search::{many_names, place_of};
use crate::netlist::Netlist;
use crate::nets::is_sequential;
use first_names::FirstNames;
use grammar_reader::{Language, Read, Refusal, Stop, value_of};
use sqlite_items::Boxed;
use std::alloc::Global;
use verilog_grammar::modules::{Instance, VNet};
use verilog_tokens::is_name;
use verilog_udp_reader::{Cursor, Verilog};

/// The bit that a token stands for.
fn bit(token: &[u8]) -> Option<bool>
    ensures { result ≡ spec.bit token.now }
{
    value_of::<Verilog, _>(token, &[(b"1'b0", false), (b"1'b1", true)])
}

/// Whether a token begins an instance.
fn is_instance_start(token: &[u8]) -> bool
    ensures { result ≡ is_instance_start token.now }
{
    Verilog::is_same(token, b"buf") || is_name(token)
}

/// What a token begins an instance of: the primitive with a number, or a buffer. None where there is no such primitive.
fn instance_primitive(
    names: &Option<Boxed<FirstNames>>,
    model: &Netlist,
    token: &[u8],
) -> Option<Option<usize>>
    requires { MayFind udp_name names.now model.now.udps }
    ensures { result ≡ instance_primitive model.now.udps token.now }
{
    if Verilog::is_same(token, b"buf") {
        return Some(None);
    }
    match place_of(names, model.module().udps.as_slice(), token) {
        Some(udp) => Some(Some(udp)),
        None => None,
    }
}

/// The inputs of an instance of the primitive with this number, behind its output, which has this name.
fn call_inputs<'a>(
    cursor: &mut Cursor<'a>,
    alloc: Global,
    model: &Netlist,
    name: &'a [u8],
    output: VNet,
    udp: usize,
) -> Read<Instance>
    requires { spec.net_of model.now name.now ≡ Some output }
    ensures { ReadsAs (spec.with_instance model.now)
        (read (calls.call_inputs model.now (is_sequential model.now.udps udp) udp output) cursor.old) result cursor.new }
{
    let sequential = is_sequential(model.module().udps.as_slice(), udp);
    let instance = FedInstance {
        model,
        sequential,
        output,
    };
    let inputs = instance.all_inputs(cursor, alloc, name, udp)?;
    Ok(Instance::Primitive {
        udp,
        output,
        inputs,
    })
}

/// The terminals of an instance of the primitive with this number, behind its name.
#[tactic(auto, unfolding(verilog_grammar::specs::VerilogModules::call, crate::specs::Calls::call_inputs))]
fn call(cursor: &mut Cursor, alloc: Global, model: &Netlist, udp: usize) -> Read<Instance>
    ensures { ReadsAs (spec.with_instance model.now) (read (spec.call model.now udp) cursor.old) result cursor.new }
{
    let sequential = is_sequential(model.module().udps.as_slice(), udp);
    cursor.expect(b"(")?;
    let name = cursor.bytes();
    let output = driven_terminal(cursor, model, sequential)?;
    cursor.expect(b",")?;
    call_inputs(cursor, alloc, model, name, output, udp)
}

/// A bit.
#[tactic(auto, using(grammar_reader::proofs::Values::valued_found))]
fn a_bit(cursor: &mut Cursor) -> Read<bool>
    ensures { Reads (read (valued spec.bit) cursor.old) result cursor.new }
{
    let found = bit(cursor.bytes());
    cursor.value(found)
}

/// The terminals of a buffer of a constant, behind its word.
#[tactic(auto, unfolding(verilog_grammar::specs::VerilogModules::constant))]
fn constant(cursor: &mut Cursor, model: &Netlist) -> Read<Instance>
    ensures { ReadsAs (spec.with_instance model.now) (read (spec.constant model.now) cursor.old) result cursor.new }
{
    cursor.expect(b"(")?;
    let output = driven_terminal(cursor, model, false)?;
    cursor.expect(b",")?;
    let one = a_bit(cursor)?;
    cursor.expect(b")")?;
    cursor.expect(b";")?;
    Ok(Instance::Constant { output, one })
}

/// An instance of a primitive, or a buffer, behind its first token.
fn one_instance(
    cursor: &mut Cursor,
    alloc: Global,
    model: &Netlist,
    udp: Option<usize>,
) -> Read<Instance>
    ensures { ReadsAs (spec.with_instance model.now) (read (spec.one_instance model.now udp) cursor.old) result cursor.new }
{
    match udp {
        None => constant(cursor, model),
        Some(udp) => call(cursor, alloc, model, udp),
    }
}

/// Puts the instances of a module behind those that it has, where its primitives have these names, if they are many.
#[tactic(auto, unfolding(verilog_grammar::specs::VerilogModules::instances), using(grammar_reader::proofs::Repeats::turn, crate::proofs::Begun::no_instance, crate::proofs::Begun::undefined, crate::proofs::Begun::some_instance))]
fn more_instances(
    cursor: &mut Cursor,
    alloc: Global,
    names: &Option<Boxed<FirstNames>>,
    model: &mut Netlist,
) -> Read<()>
    requires { MayFind udp_name names.now model.old.udps }
    ensures reads { ReadsAs (λ _. model.new) (read (spec.instances model.old) cursor.old) result cursor.new }
    ensures named { IfOk result (λ _. model.new.name ≡ model.old.name) }
{
    for _turn in 0..cursor.left() {
        if !is_instance_start(cursor.bytes()) {
            break;
        }
        let Some(udp) = instance_primitive(names, model, cursor.bytes()) else {
            return Err(Stop::Refused(Refusal::Undefined));
        };
        cursor.skip();
        let instance = one_instance(cursor, alloc, model, udp)?;
        model.join(instance)?;
    }
    Ok(())
}

/// Puts all instances of a module behind those that it has.
pub fn all_instances(cursor: &mut Cursor, alloc: Global, model: &mut Netlist) -> Read<()>
    ensures reads { ReadsAs (λ _. model.new) (read (spec.instances model.old) cursor.old) result cursor.new }
    ensures named { IfOk result (λ _. model.new.name ≡ model.old.name) }
{
    let names = many_names(alloc, model.module().udps.as_slice())?;
    more_instances(cursor, alloc, &names, model)
}
