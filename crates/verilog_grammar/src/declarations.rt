//! The declarations of a module, by recursive descent. (IEEE 1364-2005, 12.1 and 12.3, and A.1 to A.3.)

ghost use Rattle.std.specs.Prelude.{◌≡◌, [], ◌∷◌, IfOk, IfErr};
ghost use Rattle.udp_tables.specs.VerilogRules.{known};
ghost use Rattle.verilog_grammar.specs.VerilogModules as spec;
ghost use Rattle.grammar_reader.specs.Reading.{read, Reads, ReadsAs};
ghost use Rattle.verilog_grammar.specs.Headers.{inputs_of};

use crate::ports::{output_place, port_place};
use crate::wires::{module_notifier, module_wires};
use grammar_reader::{Read, Refusal, RepeatedPart, Stop, where_read, while_next, with_end};
use specify_blocks::VModule;
use sqlite_items::Items;
use std::alloc::Global;
use udp_tables::{SmallBytes, Udp, VPort};
use verilog_tokens::is_name;
use verilog_udp_reader::{Cursor, NamedItems, NamedPart, TextNames, Verilog, add_listed, new_name};

/// The ports of a header with those that are declared inputs, and the place behind the last of these.
#[derive(Drop)]
pub struct Inputs {
    pub ports: Items<VPort>,
    pub behind: usize,
}

/// The ports of a header so far, with their names.
type HeaderPorts<'a> = NamedItems<'a, VPort>;

/// A port of a header.
#[derive(Clone, Copy)]
struct HeaderPort {
    alloc: Global,
}

impl NamedPart for HeaderPort {
    type Item = VPort;

    ghost are_named = { λ _ names ports. names ≡ spec.port_names ports };

    ghost reading = { λ _ ports s. read (spec.next_port ports) s };

    #[tactic(auto, unfolding(crate::specs::VerilogModules::next_port))]
    fn add<'a>(&self, cursor: &mut Cursor<'a>, found: &mut HeaderPorts<'a>) -> Read<()> {
        let name = new_name(cursor, &found.names)?;
        let port = VPort {
            name: SmallBytes::from_slice(self.alloc, name)?,
            input: false,
        };
        found.add(port, name)
    }
}

/// One port of a header, with its name.
fn one_port<'a>(alloc: Global, name: &'a [u8]) -> Read<HeaderPorts<'a>>
    ensures port { IfOk result (λ found. found.items ≡ spec.plain_port name.now ∷ []) }
    ensures named { IfOk result (λ found. found.names ≡ spec.port_names found.items) }
    ensures memory { IfErr result (λ stop. stop ≡ Stop.Memory) }
{
    let mut found = NamedItems {
        items: Items::new(alloc),
        names: TextNames::new(alloc),
    };
    let port = VPort {
        name: SmallBytes::from_slice(alloc, name)?,
        input: false,
    };
    found.add(port, name)?;
    Ok(found)
}

/// The ports of a header.
#[tactic(auto, unfolding(crate::specs::VerilogModules::some_ports, crate::specs::VerilogModules::more_ports), using(crate::proofs::Headers::choose_port, crate::proofs::Headers::choose_no_port, grammar_reader::proofs::WithRest::reads_before))]
pub fn some_ports(cursor: &mut Cursor, alloc: Global) -> Read<Items<VPort>>
    ensures { Reads (read spec.some_ports cursor.old) result cursor.new }
{
    let token = cursor.bytes();
    if !is_name(token) {
        return Ok(Items::new(alloc));
    }
    let mut found = one_port(alloc, token)?;
    cursor.skip();
    let more = add_listed(cursor, &HeaderPort { alloc }, &mut found);
    let NamedItems { items: ports, .. } = found;
    where_read(ports, more)
}

/// The header of a module, behind its name.
#[tactic(auto, unfolding(crate::specs::VerilogModules::header))]
fn module_header(cursor: &mut Cursor, alloc: Global) -> Read<Items<VPort>>
    ensures { Reads (read spec.header cursor.old) result cursor.new }
{
    cursor.expect(b"(")?;
    let ports = some_ports(cursor, alloc)?;
    with_end(cursor, &[b")", b";"], ports)
}

/// The name of a port behind those that are declared inputs, which it becomes.
fn module_input_name(cursor: &mut Cursor, alloc: Global, found: Inputs) -> Read<Inputs>
    ensures { ReadsAs inputs_of (read (known (spec.input_at (inputs_of found))) cursor.old) result cursor.new }
{
    let name = cursor.bytes();
    if !is_name(name) {
        return Err(Stop::Refused(Refusal::Syntax));
    }
    let Inputs { mut ports, behind } = found;
    let Some(place) = port_place(ports.as_slice(), behind, name) else {
        return Err(Stop::Refused(Refusal::Undefined));
    };
    ports.set(
        place,
        VPort {
            name: SmallBytes::from_slice(alloc, name)?,
            input: true,
        },
    );
    cursor.skip();
    Ok(Inputs {
        ports,
        behind: place + 1,
    })
}

/// One more declared input, behind its word.
#[tactic(auto, unfolding(crate::specs::VerilogModules::declared_input))]
fn module_input(cursor: &mut Cursor, alloc: Global, found: Inputs) -> Read<Inputs>
    ensures { ReadsAs inputs_of (read (spec.declared_input (inputs_of found)) cursor.old) result cursor.new }
{
    let more = module_input_name(cursor, alloc, found)?;
    cursor.expect(b";")?;
    Ok(more)
}

/// All declared inputs.
#[tactic(auto, unfolding(crate::specs::VerilogModules::declared_inputs), using(grammar_reader::proofs::Repeats::turns))]
pub fn module_inputs(cursor: &mut Cursor, alloc: Global, mut found: Inputs) -> Read<Inputs>
    ensures { ReadsAs inputs_of (read (spec.declared_inputs (inputs_of found)) cursor.old) result cursor.new }
{
    for _turn in 0..cursor.left() {
        if !cursor.is_next(b"input") {
            break;
        }
        cursor.skip();
        found = module_input(cursor, alloc, found)?;
    }
    Ok(found)
}

/// A declared output, behind its word: of the ports that are no inputs, the next one from a place on.
#[derive(Drop)]
struct DeclaredOutput<'a> {
    ports: &'a [VPort],
}

impl RepeatedPart<Verilog> for DeclaredOutput<'_> {
    type Found = usize;

    ghost reading = { λ output from s. read (spec.declared_output output.ports.now from) s };

    #[tactic(auto, unfolding(crate::specs::VerilogModules::declared_output))]
    fn next(&self, cursor: &mut Cursor<'_>, from: usize) -> Read<usize> {
        let Some(place) = output_place(self.ports, from) else {
            return Err(Stop::Refused(cursor.no_name()));
        };
        let Some(port) = self.ports.get(place) else {
            return Err(Stop::Refused(cursor.no_name()));
        };
        cursor.this_name(port.name.as_slice())?;
        cursor.expect(b";")?;
        Ok(place + 1)
    }
}

/// The declarations of all outputs.
#[tactic(auto, unfolding(crate::specs::VerilogModules::declared_outputs))]
pub fn module_outputs(cursor: &mut Cursor, ports: &[VPort]) -> Read<()>
    ensures { Reads (read (spec.declared_outputs ports.now) cursor.old) result cursor.new }
{
    let from = while_next(cursor, b"output", &DeclaredOutput { ports }, 0)?;
    cursor.go_on_where(output_place(ports, from).is_none())
}

/// The declarations of a module behind its name, where it has these primitives: the module without instances.
#[tactic(auto, unfolding(crate::specs::VerilogModules::declarations))]
pub fn module_declarations(
    cursor: &mut Cursor,
    alloc: Global,
    name: Items<u8>,
    udps: Items<Udp>,
) -> Read<VModule>
    ensures reads { Reads (read (spec.declarations name udps) cursor.old) result cursor.new }
    ensures named { IfOk result (λ model. model.name ≡ name) }
{
    let plain = module_header(cursor, alloc)?;
    let none = Inputs {
        ports: plain,
        behind: 0,
    };
    let Inputs { ports, .. } = module_inputs(cursor, alloc, none)?;
    module_outputs(cursor, ports.as_slice())?;
    let wires = module_wires(cursor, alloc, ports.as_slice())?;
    let notifier = module_notifier(cursor, alloc, ports.as_slice(), wires.as_slice())?;
    Ok(VModule {
        instances: Items::new(alloc),
        paths: Items::new(alloc),
        checks: Items::new(alloc),
        name,
        ports,
        wires,
        notifier,
        udps,
    })
}
