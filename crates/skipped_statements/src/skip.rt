//! Statements that are gone past, without a tree of them.

ghost use Rattle.std.specs.Prelude.{◌≡◌, Ok};
ghost use Rattle.grammar_rules.specs.Reading.{read};
ghost use Rattle.liberty_groups.specs.Grammar as spec;
ghost use Rattle.liberty_groups.specs.Grammar.{Reads};
ghost use Rattle.skipped_statements.specs.Skipping as skipping;

use liberty_groups::{Cursor, Expected, Item, Mark, Place, Refusal, Start, Stop, goes_on};
use small_bytes::SmallBytes;
use std::alloc::Global;

/// A statement with more tokens than these is gone past before a tree is made of it.
const MANY: usize = 65_536;

/// Goes past the values from here on.
#[tactic(auto, using(crate::proofs::Skips::part_turn, crate::proofs::Skips::part_end, crate::proofs::Skips::part_none))]
fn skip_parts(cursor: &mut Cursor<'_>, place: Place)
    ensures { read (skipping.skipped_parts place) cursor.old ≡ Ok (tt, cursor.new) }
{
    for _turn in 0..cursor.left() {
        match cursor.peek() {
            Some(token) if goes_on(place, token) => cursor.skip(),
            _ => break,
        }
    }
}

/// Goes past the arguments up to the closing bracket, and the bracket.
#[tactic(auto, unfolding(crate::specs::Skipping::skipped_arguments))]
fn skip_arguments(cursor: &mut Cursor<'_>) -> Result<(), Stop>
    ensures { Reads (read skipping.skipped_arguments cursor.old) result cursor.new }
{
    skip_parts(cursor, Place::Arguments);
    cursor.expect(Mark::Close, Expected::Argument)
}

/// Goes past the value of a simple attribute, after its colon.
#[tactic(auto, unfolding(crate::specs::Skipping::skipped_value, crate::specs::Skipping::skipped_more_value, crate::specs::Skipping::skipped_no_value))]
fn skip_value(cursor: &mut Cursor<'_>) -> Result<(), Stop>
    ensures { Reads (read skipping.skipped_value cursor.old) result cursor.new }
{
    match cursor.peek() {
        Some(token) if goes_on(Place::ValueStart, token) => {
            cursor.skip();
            skip_parts(cursor, Place::Value);
            cursor.value_end(Place::Value)
        }
        _ => cursor.value_end(Place::ValueStart),
    }
}

/// Goes past what follows the name of a statement, where groups may be open to `levels` more levels.
#[cycle(skipping)]
fn skip_statement(cursor: &mut Cursor<'_>, levels: usize) -> Result<(), Stop>
    ensures { Reads (read (skipping.skipped_statement levels) cursor.old) result cursor.new }
{
    if cursor.sees(Mark::Colon) {
        cursor.skip();
        skip_value(cursor)
    } else {
        skip_bracketed(cursor, levels)
    }
}

/// Goes past the arguments of a statement, and the statements of a group if it is one.
#[cycle(skipping)]
#[tactic(auto, unfolding(crate::specs::Skipping::skipped_bracketed))]
fn skip_bracketed(cursor: &mut Cursor<'_>, levels: usize) -> Result<(), Stop>
    ensures { Reads (read (skipping.skipped_bracketed levels (skipping.skipped_body levels)) cursor.old) result cursor.new }
{
    cursor.expect(Mark::Open, Expected::AfterName)?;
    skip_arguments(cursor)?;
    skip_group(cursor, levels)
}

/// Goes past the group, if a brace opens it.
#[cycle(skipping)]
#[tactic(auto, unfolding(crate::specs::Skipping::skipped_group), using(crate::proofs::Skips::inner))]
fn skip_group(cursor: &mut Cursor<'_>, levels: usize) -> Result<(), Stop>
    ensures { Reads (read (skipping.skipped_group levels (skipping.skipped_body levels)) cursor.old) result cursor.new }
{
    if !cursor.sees(Mark::Begin) {
        return Ok(());
    }
    if levels == 0 {
        return Err(Stop::Refused(Refusal::TooDeep));
    }
    cursor.skip();
    skip_statements(cursor, levels - 1)
}

/// Goes past the statements of a group up to its closing brace, and the brace.
#[cycle(skipping)]
fn skip_statements(cursor: &mut Cursor<'_>, levels: usize) -> Result<(), Stop>
    ensures { Reads (read (skipping.skipped_statements (skipping.skipped_statement levels)) cursor.old) result cursor.new }
{
    skip_some(cursor, levels)?;
    cursor.expect(Mark::End, Expected::Statement)
}

/// Goes past the statements from here on.
#[cycle(skipping)]
#[tactic(auto, using(crate::proofs::Skips::empty_turn, crate::proofs::Skips::named_turn, crate::proofs::Skips::no_turn))]
fn skip_some(cursor: &mut Cursor<'_>, levels: usize) -> Result<(), Stop>
    ensures { Reads (read (skipping.skipped_some (skipping.skipped_statement levels)) cursor.old) result cursor.new }
{
    for _turn in 0..cursor.left() {
        match cursor.start() {
            Start::Empty => cursor.skip(),
            Start::Named => {
                cursor.skip();
                skip_statement(cursor, levels)?;
            }
            Start::Other => break,
        }
    }
    Ok(())
}

/// What follows the name of a statement, where groups may be open to `levels` more levels. Of many tokens no tree is made
/// where one of them is refused or the statement does not end.
pub fn whole_statement(
    cursor: &mut Cursor<'_>,
    alloc: Global,
    levels: usize,
    name: SmallBytes,
    at: usize,
) -> Result<Item, Stop>
    ensures { Reads (read (spec.statement levels name at) cursor.old) result cursor.new }
{
    if cursor.left() > MANY {
        let mut ahead = cursor.again(alloc)?;
        if let Err(stop) = skip_statement(&mut ahead, levels) {
            *cursor = ahead;
            return Err(stop);
        }
    }
    cursor.statement(alloc, levels, name, at)
}
