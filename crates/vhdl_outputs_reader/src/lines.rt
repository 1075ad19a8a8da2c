//! The lines of all outputs. (IEEE 1076.4-2000, VitalPathDelay01; IEEE 1076-1993, 8.4.)

ghost use Rattle.std.specs.Prelude.{◌≡◌, nat_eq, length};
ghost use Rattle.grammar_reader.specs.Reading.{read, Reads, ReadsAs, Many};
ghost use Rattle.vhdl_grammar.specs.VhdlDeclarations as declarations;
ghost use Rattle.vhdl_grammar.specs.VhdlOutputs as spec;

use crate::outputs::{Lines, assignment, call_or_assignment, is_next_unpathed};
use grammar_reader::{Read, Refusal, Stop};
use sqlite_items::Items;
use vhdl_grammar::entities::HPath;
use vhdl_grammar::{Cursor, Declarations, Uses};
use vhdl_tokens::is_name;

/// The lines of outputs, which stand behind these then.
#[tactic(auto, using(grammar_reader::proofs::Repeats::turn, crate::proofs::NextLine::so_named, crate::proofs::NextLine::no_line, crate::proofs::NextLine::other_line, crate::proofs::NextLine::this_line))]
fn more_lines(cursor: &mut Cursor, scope: &Declarations, lines: &mut Lines) -> Read<()>
    ensures { ReadsAs (λ _. lines.new) (read (Many (spec.begins_line scope.now) (spec.line_by scope.now) lines.old) cursor.old)
        result cursor.new }
{
    for _turn in 0..cursor.left() {
        if cursor.is_next(b"VitalPathDelay01") {
            cursor.skip();
            call_or_assignment(cursor, scope, lines)?;
            continue;
        }
        if !is_name(cursor.bytes()) {
            break;
        }
        if !is_next_unpathed(scope, lines.0.as_slice(), cursor.bytes()) {
            return Err(Stop::Refused(Refusal::Undefined));
        }
        cursor.skip();
        assignment(cursor, scope.alloc(), lines)?;
    }
    Ok(())
}

/// Whether these are the lines of all outputs.
fn are_all_lines(scope: &Declarations, lines: &[Items<HPath>]) -> bool
    ensures { result ≡ nat_eq (length lines.now) (declarations.output_count scope.now.ports) }
{
    lines.len() == scope.ports().outputs().len()
}

/// The lines of all outputs, one for each: the paths of each, and the lists.
#[tactic(auto, unfolding(vhdl_grammar::specs::VhdlOutputs::output_lines))]
pub fn output_lines(cursor: &mut Cursor, scope: &Declarations, uses: Uses) -> Read<Lines>
    ensures { Reads (read (spec.output_lines scope.now uses) cursor.old) result cursor.new }
{
    let mut lines = (Items::new(scope.alloc()), uses);
    more_lines(cursor, scope, &mut lines)?;
    cursor.go_on_where(are_all_lines(scope, lines.0.as_slice()))?;
    Ok(lines)
}
