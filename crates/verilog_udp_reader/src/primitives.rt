//! Primitives, by recursive descent. (IEEE 1364-2005, clause 8.)

ghost use Rattle.std.specs.Prelude.{◌≡◌, ℕ, List, [], ◌∷◌, ◌++◌, IfOk};
ghost use Rattle.grammar_reader.specs.declared.refusal.Refusal.TheVariants.{Syntax};
ghost use Rattle.udp_tables.specs.VerilogPrimitives as spec;
ghost use Rattle.grammar_reader.specs.Reading.{read, Token, Many, Reads, ReadsAs};
ghost use Rattle.grammar_reader.specs.Next.{next_bytes};
ghost use Rattle.udp_tables.specs.VerilogRules.{any_name};
ghost use Rattle.verilog_udp_reader.specs.Headers.{header_of, header_rest, header_with};
ghost use Rattle.verilog_udp_reader.specs.Primitives.{behind_header, behind_name, udp_of};

use crate::declared::declare;
use crate::language::{Cursor, Verilog};
use crate::named_items::NamedItems;
use crate::named_parts::{NamedPart, add_listed};
use crate::row::{begins_entry, row};
use crate::text_names::{TextNames, new_name};
use bool_functions::Names;
use grammar_reader::{Read, Refusal, RepeatedPart, Stop, where_read, while_next, with_read};
use sqlite_items::Items;
use std::alloc::Global;
use udp_tables::{SmallBytes, Udp, UdpRow};
use verilog_tokens::is_name;

/// How many inputs a primitive may have.
const MOST_INPUTS: usize = 10;

/// How many inputs a primitive with a state may have.
const MOST_INPUTS_WITH_STATE: usize = 9;

/// For how many rows a table has room at first.
const SOME_ROWS: usize = 8;

/// The output and the inputs of a primitive's header.
#[derive(Drop)]
pub struct Header {
    pub output: SmallBytes,
    pub inputs: Items<SmallBytes>,
}

/// The inputs of a header so far, and the names of its output and of these.
type HeaderInputs<'a> = NamedItems<'a, SmallBytes>;

/// The name of the output, as it stands in the text, which is the first name of a header.
#[tactic(auto, using(crate::proofs::NewNames::any_fits, crate::proofs::NewNames::any_other))]
fn first_name<'a>(cursor: &mut Cursor<'a>, names: &mut TextNames<'a>) -> Read<&'a [u8]>
    requires { names.old ≡ [] }
    ensures reads { ReadsAs (λ name. name.now) (read any_name cursor.old) result cursor.new }
    ensures named { IfOk result (λ name. names.new ≡ name.now ∷ []) }
{
    let token = cursor.bytes();
    if !is_name(token) {
        return Err(Stop::Refused(Refusal::Syntax));
    }
    names.add(token)?;
    cursor.skip();
    Ok(token)
}

/// An input of a header with this output.
#[derive(Clone, Copy)]
struct HeaderInput<'o> {
    alloc: Global,
    output: &'o [u8],
}

impl NamedPart for HeaderInput<'_> {
    type Item = SmallBytes;

    ghost are_named = { λ input names items. names ≡ input.output.now ∷ items };

    ghost reading = { λ input items s. read (spec.next_input input.output.now items) s };

    #[tactic(auto, unfolding(udp_tables::specs::VerilogPrimitives::next_input))]
    fn add<'a>(&self, cursor: &mut Cursor<'a>, found: &mut HeaderInputs<'a>) -> Read<()> {
        let name = new_name(cursor, &found.names)?;
        let input = SmallBytes::from_slice(self.alloc, name)?;
        found.add(input, name)
    }
}

/// Adds the inputs of a header with this output to none, and reads its end.
#[tactic(auto, unfolding(crate::specs::Headers::header_rest, udp_tables::specs::VerilogPrimitives::more_inputs))]
fn add_inputs<'a>(
    cursor: &mut Cursor<'a>,
    alloc: Global,
    output: &[u8],
    found: &mut HeaderInputs<'a>,
) -> Read<()>
    requires none { found.old.items ≡ [] }
    requires named { found.old.names ≡ output.now ∷ [] }
    ensures { ReadsAs (λ _. header_with output.now found.new.items) (read (header_rest output.now) cursor.old) result cursor.new }
{
    let input = HeaderInput { alloc, output };
    input.add(cursor, found)?;
    add_listed(cursor, &input, found)?;
    let may = found.items.len() <= MOST_INPUTS;
    cursor.expect_where(may, Refusal::Width, b")")?;
    cursor.expect(b";")
}

/// Adds the inputs of a header to none: its output, as it stands in the text.
#[tactic(auto, unfolding(udp_tables::specs::VerilogPrimitives::header, crate::specs::Headers::header_rest))]
fn add_header<'a>(
    cursor: &mut Cursor<'a>,
    alloc: Global,
    found: &mut HeaderInputs<'a>,
) -> Read<&'a [u8]>
    requires none { found.old.items ≡ [] }
    requires unnamed { found.old.names ≡ [] }
    ensures { ReadsAs (λ output. header_with output.now found.new.items) (read spec.header cursor.old) result cursor.new }
{
    cursor.expect(b"(")?;
    let output = first_name(cursor, &mut found.names)?;
    cursor.expect(b",")?;
    add_inputs(cursor, alloc, output, found)?;
    Ok(output)
}

/// The header of a primitive, behind its name. Its names are not moved while they are found.
fn primitive_header(cursor: &mut Cursor<'_>, alloc: Global) -> Read<Header>
    ensures { ReadsAs header_of (read spec.header cursor.old) result cursor.new }
{
    let mut found = NamedItems {
        items: Items::new(alloc),
        names: TextNames::new(alloc),
    };
    let output = add_header(cursor, alloc, &mut found);
    let NamedItems { items: inputs, .. } = found;
    let (inputs, output) = with_read(inputs, output)?;
    let output = SmallBytes::from_slice(alloc, output)?;
    Ok(Header { output, inputs })
}

/// The declaration of the output.
#[tactic(auto, unfolding(udp_tables::specs::VerilogPrimitives::declared_output))]
fn primitive_output(cursor: &mut Cursor<'_>, output: &[u8]) -> Read<()>
    ensures { Reads (read (spec.declared_output output.now) cursor.old) result cursor.new }
{
    cursor.expect(b"output")?;
    cursor.this_name(output)?;
    cursor.expect(b";")
}

/// The declaration of the state, behind its word.
#[tactic(auto, unfolding(udp_tables::specs::VerilogPrimitives::declared_state))]
fn primitive_state(cursor: &mut Cursor<'_>, output: &[u8]) -> Read<bool>
    ensures { Reads (read (spec.declared_state output.now) cursor.old) result cursor.new }
{
    cursor.this_name(output)?;
    cursor.expect(b";")?;
    Ok(true)
}

/// Whether the primitive has a state.
#[tactic(auto, unfolding(udp_tables::specs::VerilogPrimitives::register))]
fn primitive_register(cursor: &mut Cursor<'_>, header: &Header) -> Read<bool>
    ensures { Reads (read (spec.register (header_of header.now)) cursor.old) result cursor.new }
{
    if !cursor.is_next(b"reg") {
        return Ok(false);
    }
    let may = header.inputs.len() <= MOST_INPUTS_WITH_STATE;
    cursor.expect_where(may, Refusal::Width, b"reg")?;
    primitive_state(cursor, header.output.as_slice())
}

/// A declared input, where so many are declared, behind its word.
#[derive(Drop)]
struct DeclaredInput<'a>(&'a [SmallBytes]);

impl RepeatedPart<Verilog> for DeclaredInput<'_> {
    type Found = usize;

    ghost reading = { λ input count s. read (spec.declared_input input.0.now count) s };

    #[tactic(auto, unfolding(udp_tables::specs::VerilogPrimitives::declared_input))]
    fn next(&self, cursor: &mut Cursor<'_>, count: usize) -> Read<usize> {
        let Some(name) = self.0.get(count) else {
            return Err(Stop::Refused(cursor.no_name()));
        };
        cursor.this_name(name.as_slice())?;
        cursor.expect(b";")?;
        Ok(count + 1)
    }
}

/// The declarations of all inputs.
#[tactic(auto, unfolding(udp_tables::specs::VerilogPrimitives::declared_inputs))]
fn primitive_inputs(cursor: &mut Cursor<'_>, inputs: &[SmallBytes]) -> Read<()>
    ensures { Reads (read (spec.declared_inputs inputs.now) cursor.old) result cursor.new }
{
    let count = while_next(cursor, b"input", &DeclaredInput(inputs), 0)?;
    cursor.go_on_where(count == inputs.len())
}

/// Puts one more row, behind its first token, behind these.
#[tactic(auto, unfolding(udp_tables::specs::VerilogPrimitives::next_row))]
fn next_row(
    cursor: &mut Cursor<'_>,
    alloc: Global,
    sequential: bool,
    inputs: usize,
    first: &[u8],
    rows: &mut Vec<UdpRow>,
) -> Read<()>
    ensures { ReadsAs (λ _. rows.new.items) (read (spec.next_row sequential inputs rows.old.items first.now) cursor.old) result
        cursor.new }
{
    let next = row(cursor, alloc, sequential, inputs, first)?;
    rows.push(next)?;
    Ok(())
}

/// Puts the rows of a table behind these.
#[tactic(auto, using(grammar_reader::proofs::Repeats::turn, crate::proofs::Entries::no_row, crate::proofs::Entries::one_row))]
fn more_rows(
    cursor: &mut Cursor<'_>,
    alloc: Global,
    sequential: bool,
    inputs: usize,
    rows: &mut Vec<UdpRow>,
) -> Read<()>
    ensures { ReadsAs (λ _. rows.new.items) (read (Many (λ _. spec.begins_row sequential) (spec.next_row sequential inputs)
        rows.old.items) cursor.old) result cursor.new }
{
    for _turn in 0..cursor.left() {
        let token = cursor.bytes();
        if !begins_entry(sequential, token) {
            break;
        }
        cursor.skip();
        next_row(cursor, alloc, sequential, inputs, token, rows)?;
    }
    Ok(())
}

/// Goes behind the first token of a table's first row.
fn begin_row(cursor: &mut Cursor<'_>, sequential: bool) -> Read<()>
    ensures { ReadsAs (λ _. next_bytes cursor.old) (read (Token (spec.first_of_row sequential) Syntax) cursor.old) result
        cursor.new }
{
    if !begins_entry(sequential, cursor.bytes()) {
        return Err(Stop::Refused(Refusal::Syntax));
    }
    cursor.skip();
    Ok(())
}

/// Adds the rows of a table to none.
#[tactic(auto, unfolding(udp_tables::specs::VerilogPrimitives::table))]
fn add_rows(
    cursor: &mut Cursor<'_>,
    rows: &mut Vec<UdpRow>,
    alloc: Global,
    sequential: bool,
    inputs: usize,
) -> Read<()>
    requires { rows.old.items ≡ [] }
    ensures { ReadsAs (λ _. rows.new.items) (read (spec.table sequential inputs) cursor.old) result cursor.new }
{
    cursor.expect(b"table")?;
    let token = cursor.bytes();
    begin_row(cursor, sequential)?;
    next_row(cursor, alloc, sequential, inputs, token, rows)?;
    more_rows(cursor, alloc, sequential, inputs, rows)?;
    cursor.expect(b"endtable")
}

/// The table of a primitive.
#[tactic(auto, using(grammar_reader::proofs::WithRest::reads_before))]
fn table(
    cursor: &mut Cursor<'_>,
    alloc: Global,
    sequential: bool,
    inputs: usize,
) -> Read<Items<UdpRow>>
    ensures { Reads (read (spec.table sequential inputs) cursor.old) result cursor.new }
{
    let mut rows = Vec::with_capacity(alloc, SOME_ROWS)?;
    let rest = add_rows(cursor, &mut rows, alloc, sequential, inputs);
    where_read(Items::from_vec(rows), rest)
}

/// What stands behind the header of a primitive.
#[derive(Drop)]
struct Body {
    sequential: bool,
    rows: Items<UdpRow>,
}

/// What stands behind this header of a primitive, whatever the primitive's name is.
#[tactic(auto, unfolding(crate::specs::Primitives::behind_header))]
fn behind_header(cursor: &mut Cursor<'_>, alloc: Global, header: &Header) -> Read<Body>
    ensures { (name : List ℕ) → ReadsAs (λ body. udp_of name header.now body)
        (read (behind_header name (header_of header.now)) cursor.old) result cursor.new }
{
    primitive_output(cursor, header.output.as_slice())?;
    let sequential = primitive_register(cursor, header)?;
    primitive_inputs(cursor, header.inputs.as_slice())?;
    let rows = table(cursor, alloc, sequential, header.inputs.len())?;
    cursor.expect(b"endprimitive")?;
    Ok(Body { sequential, rows })
}

/// A primitive behind its name.
#[tactic(auto, unfolding(crate::specs::Primitives::behind_name, crate::specs::Primitives::behind_header))]
fn behind_name(cursor: &mut Cursor<'_>, alloc: Global, name: SmallBytes) -> Read<Udp>
    ensures reads { Reads (read (behind_name name) cursor.old) result cursor.new }
    ensures named { IfOk result (λ udp. udp.name ≡ name) }
{
    let header = primitive_header(cursor, alloc);
    let (name, header) = with_read(name, header)?;
    let body = behind_header(cursor, alloc, &header);
    let ((name, header), body) = with_read((name, header), body)?;
    let Header { output, inputs } = header;
    let Body { sequential, rows } = body;
    Ok(Udp {
        name,
        output,
        inputs,
        sequential,
        rows,
    })
}

/// A primitive behind the word `primitive`, where primitives and modules of these names stand before it. Its own name is then
/// the last of them; where the reading stops they may have one name more.
#[tactic(auto, unfolding(udp_tables::specs::VerilogPrimitives::primitive, crate::specs::Primitives::behind_name, crate::specs::Primitives::behind_header))]
pub fn primitive(cursor: &mut Cursor<'_>, alloc: Global, names: &mut Names) -> Read<Udp>
    ensures reads { Reads (read (spec.primitive names.old) cursor.old) result cursor.new }
    ensures added { IfOk result (λ udp. names.new ≡ names.old ++ udp.name ∷ []) }
{
    let name = SmallBytes::from_slice(alloc, declare(cursor, names)?)?;
    behind_name(cursor, alloc, name)
}
