//! Words, numbers and times at the next token.

ghost use Rattle.std.specs.Prelude.{◌≡◌, map};
ghost use Rattle.vhdl_grammar.specs.VhdlRules as spec;
ghost use Rattle.grammar_reader.specs.Reading.{read, Reads};
ghost use Rattle.grammar_reader.specs.Words.{valued};
ghost use Rattle.vhdl_grammar.specs.EitherWord.{either_word};

use crate::language::Cursor;
use grammar_reader::{Read, Refusal, Stop};
use vhdl_tokens::{is_name, is_numbered_name, number_of};

/// Tokens that must stand next, one behind the other.
#[tactic(auto, using(crate::proofs::NextWords::expect_next, crate::proofs::NextWords::expect_other))]
pub fn expect_all(cursor: &mut Cursor<'_>, texts: &[&[u8]]) -> Read<()>
    ensures { Reads (read (spec.expect_all (map (λ text. text.now) texts.now)) cursor.old) result cursor.new }
{
    for text in texts {
        if !cursor.is_next(text) {
            return Err(Stop::Refused(Refusal::Syntax));
        }
        cursor.skip();
    }
    Ok(())
}

/// Whether a token is this number, by its value.
pub fn is_number_token(number: usize, token: &[u8]) -> bool
    ensures { result ≡ spec.is_number_token number token.now }
{
    match number_of(token) {
        Some(found) => found == number as u64,
        None => false,
    }
}

/// This number.
pub fn this_number(cursor: &mut Cursor<'_>, number: usize) -> Read<()>
    ensures { Reads (read (spec.this_number number) cursor.old) result cursor.new }
{
    if !is_number_token(number, cursor.bytes()) {
        return Err(Stop::Refused(Refusal::Syntax));
    }
    cursor.skip();
    Ok(())
}

/// The number that stands next.
#[tactic(auto, using(grammar_reader::proofs::Values::valued_found), unfolding(crate::specs::VhdlRules::a_number))]
pub fn number(cursor: &mut Cursor<'_>) -> Read<u64>
    ensures { Reads (read spec.a_number cursor.old) result cursor.new }
{
    let found = number_of(cursor.bytes());
    cursor.value(found)
}

/// What the next token stands for, which has to be one of these two words.
#[tactic(auto, using(crate::proofs::EitherWords::either_found))]
pub fn either_word<A: Drop>(
    cursor: &mut Cursor<'_>,
    first: &[u8],
    one: A,
    second: &[u8],
    other: A,
) -> Read<A>
    ensures { Reads (read (valued (either_word first.now one second.now other)) cursor.old) result cursor.new }
{
    let found = if cursor.is_next(first) {
        Some(one)
    } else if cursor.is_next(second) {
        Some(other)
    } else {
        None
    };
    cursor.value(found)
}

/// The time in picoseconds that stands next.
#[tactic(auto, unfolding(crate::specs::VhdlRules::a_time))]
pub fn time(cursor: &mut Cursor<'_>) -> Read<u64>
    ensures { Reads (read spec.a_time cursor.old) result cursor.new }
{
    let number = number(cursor)?;
    cursor.expect(b"ps")?;
    Ok(number)
}

/// The name with this number, where it is the next one.
#[tactic(auto, using(crate::proofs::NextWords::named_fits, crate::proofs::NextWords::named_misfit, crate::proofs::NextWords::named_other))]
pub fn numbered(cursor: &mut Cursor<'_>, is_next: bool, word: &[u8], number: usize) -> Read<()>
    ensures { Reads (read (spec.this_name (spec.numbered_where is_next word.now number)) cursor.old) result cursor.new }
{
    if !is_next {
        return Err(Stop::Refused(cursor.no_name()));
    }
    if !is_name(cursor.bytes()) {
        return Err(Stop::Refused(Refusal::Syntax));
    }
    if !is_numbered_name(cursor.bytes(), word, number) {
        return Err(Stop::Refused(Refusal::Undefined));
    }
    cursor.skip();
    Ok(())
}
