//! Specify blocks, and their timing checks. (IEEE 1364-2005, 14.1, 15.2 and 15.3.)

ghost use Rattle.std.specs.Prelude.{◌≡◌, IfOk};
ghost use Rattle.verilog_grammar.specs.VerilogBlocks as spec;
ghost use Rattle.grammar_reader.specs.Reading.{read, Reads, ReadsAs};
ghost use Rattle.verilog_reader.specs.Checks.{limited};

use crate::check_parts::{an_edge_event, an_event, check_end, condition};
use crate::netlist::Netlist;
use crate::numbers::number;
use crate::paths::paths;
use crate::period_lines::period_check;
use cell_machine::{CheckKind, Edge, Event};
use grammar_reader::{Read, value_of};
use sqlite_items::Items;
use std::alloc::Global;
use udp_tables::TimingCheck;
use verilog_udp_reader::{Cursor, Verilog};

/// The edge with which a pulse ends that begins with this one.
fn opposite(edge: Edge) -> Edge
    ensures { result ≡ spec.opposite edge }
{
    match edge {
        Edge::Any => Edge::Any,
        Edge::Rise => Edge::Fall,
        Edge::Fall => Edge::Rise,
    }
}

/// The check that a word begins.
fn check_of(token: &[u8]) -> Option<CheckKind>
    ensures { result ≡ spec.check_of token.now }
{
    value_of::<Verilog, _>(
        token,
        &[
            (b"$setup", CheckKind::Setup),
            (b"$hold", CheckKind::Hold),
            (b"$recovery", CheckKind::Recovery),
            (b"$removal", CheckKind::Removal),
            (b"$width", CheckKind::Width),
            (b"$period", CheckKind::Period),
        ],
    )
}

/// The limit and the end of a check of these events, behind its last event and its condition.
#[inline(always)]
#[tactic(auto, unfolding(crate::specs::Checks::limited))]
fn limited(
    cursor: &mut Cursor,
    model: &Netlist,
    kind: CheckKind,
    first: Event,
    second: Event,
    condition: Option<usize>,
) -> Read<TimingCheck>
    ensures { Reads (read (limited model.now kind first second condition) cursor.old) result cursor.new }
{
    cursor.expect(b",")?;
    let limit = number(cursor)?;
    check_end(cursor, model)?;
    Ok(TimingCheck {
        kind,
        first,
        second,
        limit,
        condition,
    })
}

/// A check whose first argument is the earlier event.
#[tactic(auto, unfolding(verilog_grammar::specs::VerilogBlocks::ordered_check, crate::specs::Checks::limited))]
fn ordered_check(cursor: &mut Cursor, kind: CheckKind, model: &Netlist) -> Read<TimingCheck>
    ensures { Reads (read (spec.ordered_check kind model.now) cursor.old) result cursor.new }
{
    let first = an_event(cursor, model)?;
    cursor.expect(b",")?;
    let second = an_event(cursor, model)?;
    let condition = condition(cursor, model)?;
    limited(cursor, model, kind, first, second, condition)
}

/// A check whose first argument is the later event.
#[tactic(auto, unfolding(verilog_grammar::specs::VerilogBlocks::turned_check, crate::specs::Checks::limited))]
fn turned_check(cursor: &mut Cursor, kind: CheckKind, model: &Netlist) -> Read<TimingCheck>
    ensures { Reads (read (spec.turned_check kind model.now) cursor.old) result cursor.new }
{
    let second = an_event(cursor, model)?;
    let condition = condition(cursor, model)?;
    cursor.expect(b",")?;
    let first = an_event(cursor, model)?;
    limited(cursor, model, kind, first, second, condition)
}

/// The width of a pulse.
#[tactic(auto, unfolding(verilog_grammar::specs::VerilogBlocks::width_check))]
fn width_check(cursor: &mut Cursor, model: &Netlist) -> Read<TimingCheck>
    ensures { Reads (read (spec.width_check model.now) cursor.old) result cursor.new }
{
    let first = an_edge_event(cursor, model)?;
    let condition = condition(cursor, model)?;
    cursor.expect(b",")?;
    let limit = number(cursor)?;
    cursor.expect(b",")?;
    cursor.expect(b"0")?;
    check_end(cursor, model)?;
    let second = Event {
        pin: first.pin,
        edge: opposite(first.edge),
    };
    Ok(TimingCheck {
        kind: CheckKind::Width,
        first,
        second,
        limit,
        condition,
    })
}

/// A check of a kind, behind its bracket.
#[tactic(auto, unfolding(verilog_grammar::specs::VerilogBlocks::check_of_kind))]
fn check_of_kind(cursor: &mut Cursor, model: &Netlist, kind: CheckKind) -> Read<TimingCheck>
    ensures { Reads (read (spec.check_of_kind model.now kind) cursor.old) result cursor.new }
{
    match kind {
        CheckKind::Setup | CheckKind::Hold | CheckKind::Recovery => {
            ordered_check(cursor, kind, model)
        }
        CheckKind::Removal => turned_check(cursor, kind, model),
        CheckKind::Width => width_check(cursor, model),
        CheckKind::Period => period_check(cursor, model),
    }
}

/// A check, behind its word.
#[tactic(auto, unfolding(verilog_grammar::specs::VerilogBlocks::check))]
fn check(cursor: &mut Cursor, model: &Netlist, kind: CheckKind) -> Read<TimingCheck>
    ensures { Reads (read (spec.check model.now kind) cursor.old) result cursor.new }
{
    cursor.expect(b"(")?;
    check_of_kind(cursor, model, kind)
}

/// The checks of a specify block, in a list without room for more.
#[tactic(auto, using(grammar_reader::proofs::Repeats::turn, grammar_reader::proofs::Choices::choose_as, grammar_reader::proofs::Choices::choose_not_as), unfolding(verilog_grammar::specs::VerilogBlocks::checks, verilog_grammar::specs::VerilogBlocks::next_check))]
fn checks(cursor: &mut Cursor, alloc: Global, model: &Netlist) -> Read<Items<TimingCheck>>
    ensures { Reads (read (spec.checks model.now) cursor.old) result cursor.new }
{
    let mut checks = Vec::new(alloc);
    for _turn in 0..cursor.left() {
        let Some(kind) = check_of(cursor.bytes()) else {
            break;
        };
        cursor.skip();
        checks.push(check(cursor, model, kind)?)?;
    }
    checks.shrink_to_fit();
    Ok(Items::from_vec(checks))
}

/// The paths and checks of a specify block, behind its word, which the module gets.
#[tactic(auto, unfolding(verilog_grammar::specs::VerilogBlocks::block))]
fn block(cursor: &mut Cursor, alloc: Global, model: &mut Netlist) -> Read<()>
    ensures reads { ReadsAs (λ _. model.new) (read (spec.block model.old) cursor.old) result cursor.new }
    ensures named { IfOk result (λ _. model.new.name ≡ model.old.name) }
{
    let paths = paths(cursor, alloc, model)?;
    let checks = checks(cursor, alloc, model)?;
    cursor.expect(b"endspecify")?;
    model.set_block(paths, checks);
    Ok(())
}

/// The specify block of a module, if there is one, whose paths and checks the module gets.
#[tactic(auto, using(grammar_reader::proofs::Repeats::choose_begun, grammar_reader::proofs::Repeats::choose_other), unfolding(verilog_grammar::specs::VerilogBlocks::specify))]
pub fn specify(cursor: &mut Cursor, alloc: Global, model: &mut Netlist) -> Read<()>
    ensures reads { ReadsAs (λ _. model.new) (read (spec.specify model.old) cursor.old) result cursor.new }
    ensures named { IfOk result (λ _. model.new.name ≡ model.old.name) }
{
    if !cursor.is_next(b"specify") {
        return Ok(());
    }
    cursor.skip();
    block(cursor, alloc, model)
}
