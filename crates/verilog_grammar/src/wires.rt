//! The wires of a module and the register of its checks, by recursive descent. (IEEE 1364-2005, A.2.1.3.)

ghost use Rattle.std.specs.Prelude.{◌≡◌, ◌++◌, ◌∷◌, [], false, IfOk, IfErr, OnOk};
ghost use Rattle.udp_tables.specs.VerilogRules.{is_among, new_name};
ghost use Rattle.verilog_grammar.specs.VerilogModules as spec;
ghost use Rattle.grammar_reader.specs.Next.{next_bytes};
ghost use Rattle.grammar_reader.specs.Reading.{read, Reads, ReadsAs};
ghost use Rattle.verilog_grammar.specs.SameNames.{HaveSame};

use crate::ports::is_declared;
use grammar_reader::{Read, Stop};
use sqlite_items::Items;
use std::alloc::Global;
use udp_tables::VPort;
use verilog_udp_reader::{Cursor, NamedItems, TextNames};

/// A name that is declared here, behind those of ports and of wires.
fn new_net_name(
    cursor: &mut Cursor,
    alloc: Global,
    ports: &[VPort],
    wires: &[Items<u8>],
) -> Read<Items<u8>>
    ensures { Reads (read (new_name (spec.port_names ports.now ++ wires.now)) cursor.old) result cursor.new }
{
    let taken = is_declared(ports, wires, cursor.bytes());
    cursor.fresh_name(alloc, taken)
}

/// The wires so far, and the names of the ports and of these.
type DeclaredWires<'a> = NamedItems<'a, Items<u8>>;

/// Adds a name behind these, where it is none of them.
#[tactic(auto, using(crate::proofs::SameNames::same_kept))]
fn add_name<'a>(names: &mut TextNames<'a>, name: &'a [u8]) -> Read<()>
    ensures same { OnOk result (HaveSame names.new (names.old ++ name.now ∷ [])) }
    ensures memory { IfErr result (λ stop. stop ≡ Stop.Memory) }
{
    if names.has(name) {
        return Ok(());
    }
    names.add(name)
}

/// The names of these ports.
fn names_of_ports<'a>(alloc: Global, ports: &'a [VPort]) -> Read<TextNames<'a>>
    ensures same { IfOk result (λ names. HaveSame names (spec.port_names ports.now)) }
    ensures memory { IfErr result (λ stop. stop ≡ Stop.Memory) }
{
    let mut names = TextNames::new(alloc);
    for port in ports {
        add_name(&mut names, port.name.as_slice())?;
    }
    Ok(names)
}

/// The name of a wire, behind the ports and others, of which these are the names.
fn new_wire_name(
    cursor: &mut Cursor,
    alloc: Global,
    ports: &[VPort],
    wires: &[Items<u8>],
    names: &TextNames<'_>,
) -> Read<Items<u8>>
    requires { HaveSame names.now (spec.port_names ports.now ++ wires.now) }
    ensures reads { Reads (read (new_name (spec.port_names ports.now ++ wires.now)) cursor.old) result cursor.new }
    ensures named { IfOk result (λ name. name ≡ next_bytes cursor.old) }
    ensures fresh { IfOk result (λ _. is_among names.now (next_bytes cursor.old) ≡ false) }
{
    let taken = names.has(cursor.bytes());
    cursor.fresh_name(alloc, taken)
}

/// Adds one more declared wire, behind its word, of which this is the next token.
#[tactic(auto, unfolding(crate::specs::VerilogModules::declared_wire))]
fn module_wire<'a>(
    cursor: &mut Cursor,
    alloc: Global,
    ports: &[VPort],
    token: &'a [u8],
    found: &mut DeclaredWires<'a>,
) -> Read<()>
    requires next { token.now ≡ next_bytes cursor.old }
    requires same { HaveSame found.old.names (spec.port_names ports.now ++ found.old.items) }
    ensures reads { ReadsAs (λ _. found.new.items) (read (spec.declared_wire ports.now found.old.items) cursor.old) result
        cursor.new }
    ensures named { OnOk result (HaveSame found.new.names (spec.port_names ports.now ++ found.new.items)) }
{
    let name = new_wire_name(cursor, alloc, ports, found.items.as_slice(), &found.names)?;
    cursor.expect(b";")?;
    found.add(name, token)
}

/// The declared wires, of which there are some as a rule.
#[tactic(auto, unfolding(crate::specs::VerilogModules::declared_wires), using(grammar_reader::proofs::Repeats::turns))]
fn some_wires(cursor: &mut Cursor, alloc: Global, ports: &[VPort]) -> Read<Items<Items<u8>>>
    ensures { Reads (read (spec.declared_wires ports.now) cursor.old) result cursor.new }
{
    let mut found = NamedItems {
        items: Items::new(alloc),
        names: names_of_ports(alloc, ports)?,
    };
    for _turn in 0..cursor.left() {
        if !cursor.is_next(b"wire") {
            break;
        }
        cursor.skip();
        let token = cursor.bytes();
        module_wire(cursor, alloc, ports, token, &mut found)?;
    }
    let NamedItems { items: wires, .. } = found;
    Ok(wires)
}

/// All declared wires. Where none is next, the names of the ports are not looked at.
#[tactic(auto, using(crate::proofs::NoWires::no_wires))]
pub fn module_wires(cursor: &mut Cursor, alloc: Global, ports: &[VPort]) -> Read<Items<Items<u8>>>
    ensures { Reads (read (spec.declared_wires ports.now) cursor.old) result cursor.new }
{
    if !cursor.is_next(b"wire") {
        return Ok(Items::new(alloc));
    }
    some_wires(cursor, alloc, ports)
}

/// The register of the checks, if there is one.
#[tactic(auto, unfolding(crate::specs::VerilogModules::notifier, crate::specs::VerilogModules::declared_notifier), using(grammar_reader::proofs::Repeats::choose_begun, grammar_reader::proofs::Repeats::choose_other))]
pub fn module_notifier(
    cursor: &mut Cursor,
    alloc: Global,
    ports: &[VPort],
    wires: &[Items<u8>],
) -> Read<Option<Items<u8>>>
    ensures { Reads (read (spec.notifier ports.now wires.now) cursor.old) result cursor.new }
{
    if !cursor.is_next(b"reg") {
        return Ok(None);
    }
    cursor.skip();
    let name = new_net_name(cursor, alloc, ports, wires)?;
    cursor.expect(b";")?;
    Ok(Some(name))
}
