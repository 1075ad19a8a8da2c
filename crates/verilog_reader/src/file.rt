//! The primitives and modules of a text, by recursive descent. (IEEE 1364-2005, A.1 and 19.8.)

ghost use Rattle.std.specs.Prelude.{◌≡◌, [], ◌∷◌, ◌++◌, IfOk};
ghost use Rattle.verilog_grammar.specs.VerilogText as spec;
ghost use Rattle.verilog_reader.specs.File.{before_of, modules_of, module_rest};
ghost use Rattle.grammar_reader.specs.Reading.{read, Reads, ReadsAs};

use crate::checks::specify;
use crate::instances::all_instances;
use crate::netlist::Netlist;
use crate::terminals::are_all_driven;
use bool_functions::Names;
use grammar_reader::{Language, Read, Refusal, Stop, where_read};
use sqlite_items::Items;
use std::alloc::Global;
use udp_tables::Udp;
use verilog_grammar::module_declarations;
use verilog_grammar::modules::VModule;
use verilog_udp_reader::{Cursor, Verilog, declare, primitive};

/// What stands before a place of a text: the names of all primitives and modules, the modules, and the primitives behind the
/// last module.
#[derive(Drop)]
pub struct Before {
    pub names: Names,
    pub modules: Vec<VModule>,
    pub udps: Vec<Udp>,
}

/// Whether a token begins primitives and their module.
fn is_design_start(token: &[u8]) -> bool
    ensures { result ≡ spec.is_design_start token.now }
{
    Verilog::is_same(token, b"primitive") || Verilog::is_same(token, b"module")
}

/// The first line of a text.
#[tactic(auto, unfolding(verilog_grammar::specs::VerilogText::prelude))]
fn prelude(cursor: &mut Cursor) -> Read<()>
    ensures { Reads (read spec.prelude cursor.old) result cursor.new }
{
    cursor.expect(b"`timescale")?;
    cursor.expect(b"1ps")?;
    cursor.expect(b"/")?;
    cursor.expect(b"1ps")
}

/// Adds one more primitive, behind its word.
#[tactic(auto, unfolding(verilog_grammar::specs::VerilogText::next_primitive))]
fn next_primitive(cursor: &mut Cursor, alloc: Global, before: &mut Before) -> Read<()>
    ensures { ReadsAs (λ _. before_of before.new) (read (spec.next_primitive (before_of before.old)) cursor.old) result
        cursor.new }
{
    let udp = primitive(cursor, alloc, &mut before.names)?;
    before.udps.push(udp)?;
    Ok(())
}

/// Adds the primitives behind these.
#[tactic(auto, unfolding(verilog_grammar::specs::VerilogText::more_primitives), using(grammar_reader::proofs::Repeats::turns))]
fn more_primitives(cursor: &mut Cursor, alloc: Global, before: &mut Before) -> Read<()>
    ensures { ReadsAs (λ _. before_of before.new) (read (spec.more_primitives (before_of before.old)) cursor.old) result
        cursor.new }
{
    for _turn in 0..cursor.left() {
        if !cursor.is_next(b"primitive") {
            break;
        }
        cursor.skip();
        next_primitive(cursor, alloc, before)?;
    }
    Ok(())
}

/// Adds the instances of a module and its specify block, and reads its end, where all its outputs and wires are driven.
#[tactic(auto, unfolding(crate::specs::File::module_rest))]
fn add_rest(cursor: &mut Cursor, alloc: Global, model: &mut Netlist) -> Read<()>
    ensures reads { ReadsAs (λ _. model.new) (read (module_rest model.old) cursor.old) result cursor.new }
    ensures named { IfOk result (λ _. model.new.name ≡ model.old.name) }
{
    all_instances(cursor, alloc, model)?;
    specify(cursor, alloc, model)?;
    cursor.expect_where(are_all_driven(model), Refusal::Undriven, b"endmodule")
}

/// A module with what stands behind its declarations, alone.
#[inline(always)]
#[tactic(auto, using(grammar_reader::proofs::WithRest::reads_before, grammar_reader::proofs::WithRest::kept_before))]
fn with_rest(cursor: &mut Cursor, alloc: Global, mut model: Netlist) -> Read<VModule>
    ensures reads { Reads (read (module_rest model) cursor.old) result cursor.new }
    ensures named { IfOk result (λ whole. whole.name ≡ model.name) }
{
    let rest = add_rest(cursor, alloc, &mut model);
    where_read(model.into_module(), rest)
}

/// What stands behind the declarations of a module, which it then has.
fn behind_declarations(cursor: &mut Cursor, alloc: Global, declared: VModule) -> Read<VModule>
    ensures reads { Reads (read (module_rest declared) cursor.old) result cursor.new }
    ensures named { IfOk result (λ whole. whole.name ≡ declared.name) }
{
    let model = Netlist::new(alloc, declared)?;
    with_rest(cursor, alloc, model)
}

/// A module behind its word. Its own name is then the last of the names.
#[tactic(auto, unfolding(verilog_grammar::specs::VerilogText::one_module, crate::specs::File::module_rest))]
fn one_module(
    cursor: &mut Cursor,
    alloc: Global,
    names: &mut Names,
    udps: Items<Udp>,
) -> Read<VModule>
    ensures reads { Reads (read (spec.one_module names.old udps) cursor.old) result cursor.new }
    ensures added { IfOk result (λ model. names.new ≡ names.old ++ model.name ∷ []) }
{
    let name = Items::from_slice(alloc, declare(cursor, names)?)?;
    let declared = module_declarations(cursor, alloc, name, udps)?;
    behind_declarations(cursor, alloc, declared)
}

/// Adds one more module, which has the primitives behind the last one, behind its word.
#[tactic(auto, unfolding(verilog_grammar::specs::VerilogText::next_module))]
fn next_module(cursor: &mut Cursor, alloc: Global, before: &mut Before) -> Read<()>
    ensures { ReadsAs (λ _. before_of before.new) (read (spec.next_module (before_of before.old)) cursor.old) result cursor.new }
{
    let mut udps = Vec::with_capacity(alloc, before.udps.len())?;
    udps.append(&mut before.udps)?;
    let whole = one_module(cursor, alloc, &mut before.names, Items::from_vec(udps))?;
    before.modules.push(whole)?;
    cursor.give_back();
    Ok(())
}

/// Adds primitives and their module, behind the word `primitive`.
#[tactic(auto, unfolding(verilog_grammar::specs::VerilogText::primitives_and_module))]
fn primitives_and_module(cursor: &mut Cursor, alloc: Global, before: &mut Before) -> Read<()>
    ensures { ReadsAs (λ _. before_of before.new) (read (spec.primitives_and_module (before_of before.old)) cursor.old) result
        cursor.new }
{
    next_primitive(cursor, alloc, before)?;
    more_primitives(cursor, alloc, before)?;
    cursor.expect(b"module")?;
    next_module(cursor, alloc, before)
}

/// Adds primitives and their module, behind their first token.
fn design(cursor: &mut Cursor, alloc: Global, before: &mut Before, first: &[u8]) -> Read<()>
    ensures { ReadsAs (λ _. before_of before.new) (read (spec.design (before_of before.old) first.now) cursor.old) result
        cursor.new }
{
    if Verilog::is_same(first, b"primitive") {
        primitives_and_module(cursor, alloc, before)
    } else {
        next_module(cursor, alloc, before)
    }
}

/// Adds all primitives and modules of a text to nothing.
#[tactic(auto, unfolding(verilog_grammar::specs::VerilogText::designs), using(grammar_reader::proofs::Repeats::turn, grammar_reader::proofs::Choices::choose_by, grammar_reader::proofs::Choices::choose_not_by))]
fn add_designs(cursor: &mut Cursor, alloc: Global, before: &mut Before) -> Read<()>
    requires { before_of before.old ≡ spec.nothing }
    ensures { ReadsAs (λ _. before_of before.new) (read spec.designs cursor.old) result cursor.new }
{
    for _turn in 0..cursor.left() {
        let token = cursor.bytes();
        if !is_design_start(token) {
            break;
        }
        cursor.skip();
        design(cursor, alloc, before, token)?;
    }
    Ok(())
}

/// All primitives and modules of a text.
#[tactic(auto, using(crate::proofs::WholeParts::part_read))]
fn designs(cursor: &mut Cursor, alloc: Global) -> Read<Before>
    ensures { ReadsAs before_of (read spec.designs cursor.old) result cursor.new }
{
    let mut before = Before {
        names: Names::new(alloc),
        modules: Vec::new(alloc),
        udps: Vec::new(alloc),
    };
    let rest = add_designs(cursor, alloc, &mut before);
    where_read(before, rest)
}

/// All primitives and modules of a text, and nothing behind them.
#[tactic(auto, unfolding(verilog_grammar::specs::VerilogText::file))]
pub fn file(cursor: &mut Cursor, alloc: Global) -> Read<Before>
    ensures { ReadsAs modules_of (read spec.file cursor.old) result cursor.new }
{
    prelude(cursor)?;
    let all = designs(cursor, alloc)?;
    if cursor.left() > 0 {
        return Err(Stop::Refused(Refusal::Syntax));
    }
    Ok(all)
}
