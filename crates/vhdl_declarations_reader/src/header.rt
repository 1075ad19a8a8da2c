//! The header of an entity: its packages, name and ports. (IEEE 1076-1993, 1.1, 1.2 and 10.4.)

ghost use Rattle.std.specs.Prelude.{◌≡◌, [], ◌∷◌, ◌++◌, true, false, IfOk};
ghost use Rattle.grammar_reader.specs.Reading.{read, Reads, ReadsAs};
ghost use Rattle.grammar_reader.specs.Words.{valued};
ghost use Rattle.vhdl_tokens.specs.Tokens.{is_name};
ghost use Rattle.vhdl_grammar.specs.VhdlRules as rules;
ghost use Rattle.vhdl_grammar.specs.VhdlDeclarations as spec;
ghost use Rattle.vhdl_declarations_reader.specs.Tails as tails;

use grammar_reader::{Read, Refusal, RepeatedPart, Stop, one_or_more, with_read};
use std::alloc::Global;
use udp_tables::{SmallBytes, VPort};
use vhdl_grammar::{Cursor, Ports, Vhdl, either_word, expect_all};
use vhdl_tokens::{is_name, is_same};

/// The packages that an entity uses, behind its first word.
#[tactic(auto, unfolding(vhdl_grammar::specs::VhdlDeclarations::packages))]
pub fn packages(cursor: &mut Cursor<'_>) -> Read<()>
    ensures { Reads (read spec.packages cursor.old) result cursor.new }
{
    expect_all(cursor, &[b"IEEE", b";"])?;
    expect_all(
        cursor,
        &[b"use", b"IEEE", b".", b"std_logic_1164", b".", b"all", b";"],
    )?;
    expect_all(
        cursor,
        &[b"use", b"IEEE", b".", b"VITAL_Timing", b".", b"all", b";"],
    )?;
    expect_all(
        cursor,
        &[
            b"use",
            b"IEEE",
            b".",
            b"VITAL_Primitives",
            b".",
            b"all",
            b";",
        ],
    )
}

/// Whether a name has a `_`.
fn has_underscore(name: &[u8]) -> bool
    ensures { result ≡ spec.has_underscore name.now }
{
    for byte in name {
        if *byte == b'_' {
            return true;
        }
    }
    false
}

/// The name of a port of this entity, behind these ports.
#[tactic(auto, using(vhdl_grammar::proofs::NextWords::named_fits, vhdl_grammar::proofs::NextWords::named_foul, vhdl_grammar::proofs::NextWords::named_misfit, vhdl_grammar::proofs::NextWords::named_other))]
fn port_name(
    cursor: &mut Cursor<'_>,
    alloc: Global,
    entity: &[u8],
    ports: &Ports,
) -> Read<SmallBytes>
    ensures reads { Reads (read (rules.named (spec.port_by entity.now ports.now)) cursor.old) result cursor.new }
    ensures named { IfOk result (λ name. is_name name ≡ true) }
    ensures fresh { IfOk result (λ name. rules.is_among (spec.port_names ports.now) name ≡ false) }
{
    let token = cursor.bytes();
    if !is_name(token) {
        return Err(Stop::Refused(Refusal::Syntax));
    }
    if has_underscore(token) {
        return Err(Stop::Refused(Refusal::Undefined));
    }
    if is_same(token, entity) || ports.has(token)? {
        return Err(Stop::Refused(Refusal::Twice));
    }
    let name = SmallBytes::from_slice(alloc, token)?;
    cursor.skip();
    Ok(name)
}

/// The direction of a port: whether it is an input.
fn direction(cursor: &mut Cursor<'_>) -> Read<bool>
    ensures { Reads (read (valued spec.is_input_word) cursor.old) result cursor.new }
{
    either_word(cursor, b"in", true, b"out", false)
}

/// A port of this entity, behind these ports, whose name is none of theirs.
#[tactic(auto, unfolding(vhdl_grammar::specs::VhdlDeclarations::next_port))]
fn a_port(cursor: &mut Cursor<'_>, alloc: Global, entity: &[u8], ports: &Ports) -> Read<VPort>
    ensures reads { ReadsAs (λ port. ports.now ++ port ∷ []) (read (spec.next_port entity.now ports.now) cursor.old) result
        cursor.new }
    ensures named { IfOk result (λ port. is_name port.name ≡ true) }
    ensures fresh { IfOk result (λ port. rules.is_among (spec.port_names ports.now) port.name ≡ false) }
{
    let name = port_name(cursor, alloc, entity, ports)?;
    cursor.expect(b":")?;
    let input = direction(cursor)?;
    cursor.expect(b"std_ulogic")?;
    Ok(VPort { name, input })
}

/// A port of this entity.
#[derive(Drop)]
struct NextPort<'a> {
    alloc: Global,
    entity: &'a [u8],
}

impl RepeatedPart<Vhdl> for NextPort<'_> {
    type Found = Ports;

    ghost reading = { λ port ports s. read (spec.next_port port.entity.now ports) s };

    fn next(&self, cursor: &mut Cursor<'_>, ports: Ports) -> Read<Ports> {
        let port = a_port(cursor, self.alloc, self.entity, &ports);
        let (ports, port) = with_read(ports, port)?;
        ports.with(port)
    }
}

/// The end of the list of these ports.
#[tactic(auto, unfolding(crate::specs::Tails::ports_end))]
fn ports_end<T: Drop>(cursor: &mut Cursor<'_>, ports: T) -> Read<T>
    ensures { Reads (read (tails.ports_end ports) cursor.old) result cursor.new }
{
    expect_all(cursor, &[b")", b";"])?;
    Ok(ports)
}

/// The ports of this entity, behind their word.
#[tactic(auto, unfolding(vhdl_grammar::specs::VhdlDeclarations::port_list, crate::specs::Tails::ports_end))]
pub fn port_list(cursor: &mut Cursor<'_>, alloc: Global, entity: &[u8]) -> Read<Ports>
    ensures { Reads (read (spec.port_list entity.now) cursor.old) result cursor.new }
{
    cursor.expect(b"(")?;
    let ports = one_or_more(cursor, b";", &NextPort { alloc, entity }, Ports::new(alloc))?;
    ports_end(cursor, ports)
}

/// The ports of this entity, if there are any.
#[tactic(auto, unfolding(vhdl_grammar::specs::VhdlDeclarations::ports_of), using(grammar_reader::proofs::Repeats::choose_begun, grammar_reader::proofs::Repeats::choose_other))]
fn ports_of(cursor: &mut Cursor<'_>, alloc: Global, entity: &[u8]) -> Read<Ports>
    ensures { Reads (read (spec.ports_of entity.now) cursor.old) result cursor.new }
{
    if !cursor.is_next(b"port") {
        return Ok(Ports::new(alloc));
    }
    cursor.skip();
    port_list(cursor, alloc, entity)
}

/// The end of the header of this entity, behind these ports.
#[tactic(auto, unfolding(crate::specs::Tails::header_end))]
fn header_end<T: Drop>(cursor: &mut Cursor<'_>, entity: &[u8], ports: T) -> Read<T>
    ensures { Reads (read (tails.header_end entity.now ports) cursor.old) result cursor.new }
{
    cursor.expect(b"end")?;
    cursor.this_name(entity)?;
    cursor.expect(b";")?;
    Ok(ports)
}

/// The header of this entity, behind its name.
#[tactic(auto, unfolding(vhdl_grammar::specs::VhdlDeclarations::entity_header, crate::specs::Tails::header_end))]
pub fn entity_header(cursor: &mut Cursor<'_>, alloc: Global, entity: &[u8]) -> Read<Ports>
    ensures { Reads (read (spec.entity_header entity.now) cursor.old) result cursor.new }
{
    cursor.expect(b"is")?;
    let ports = ports_of(cursor, alloc, entity)?;
    header_end(cursor, entity, ports)
}

/// The header of the architecture of this entity.
#[tactic(auto, unfolding(vhdl_grammar::specs::VhdlDeclarations::architecture_header))]
pub fn architecture_header(cursor: &mut Cursor<'_>, entity: &[u8]) -> Read<()>
    ensures { Reads (read (spec.architecture_header entity.now) cursor.old) result cursor.new }
{
    expect_all(cursor, &[b"architecture", b"vital", b"of"])?;
    cursor.this_name(entity)?;
    cursor.expect(b"is")
}
