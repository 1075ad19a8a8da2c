//! Parts that repeat.

ghost use Rattle.grammar_reader.specs.Repeated.{repeated, one_or_more};
ghost use Rattle.grammar_reader.specs.Reading.{Reads};

use crate::{Cursor, Language, Read};

/// A part of a text that may stand again and again, each read from what was found before it.
pub trait RepeatedPart<L: Language> {
    ghost use Rattle.std.specs.Prelude.{ℕ, List};
    ghost use Rattle.grammar_rules.specs.Reading.{Outcome};
    ghost use Rattle.grammar_reader.specs.declared.refusal.Refusal.{Refusal};
    ghost use Rattle.grammar_reader.specs.Reading.{Reads};

    /// What such parts give.
    type Found: Drop;

    ghost reading: { Self → Self.Found → List (List ℕ) → Outcome (List ℕ) Refusal Self.Found };

    /// What is found with one more part, which stands next.
    fn next(&self, cursor: &mut Cursor<'_, L>, found: Self::Found) -> Read<Self::Found>
        ensures { Reads (reading self.now found cursor.old) result cursor.new };
}

/// The parts that stand next, each behind this word: what is found with them.
#[tactic(auto, using(crate::proofs::Repeats::turns))]
pub fn while_next<L: Language, P: RepeatedPart<L>>(
    cursor: &mut Cursor<'_, L>,
    word: &[u8],
    part: &P,
    mut found: P::Found,
) -> Read<P::Found>
    ensures { Reads (repeated L.is_same word.now (P.reading part.now) found cursor.old) result cursor.new }
{
    for _turn in 0..cursor.left() {
        if !cursor.is_next(word) {
            break;
        }
        cursor.skip();
        found = part.next(cursor, found)?;
    }
    Ok(found)
}

/// One part, and the parts behind it, each behind this word: what is found with all of them.
pub fn one_or_more<L: Language, P: RepeatedPart<L>>(
    cursor: &mut Cursor<'_, L>,
    word: &[u8],
    part: &P,
    found: P::Found,
) -> Read<P::Found>
    ensures { Reads (one_or_more L.is_same word.now (P.reading part.now) found cursor.old) result cursor.new }
{
    let first = part.next(cursor, found)?;
    while_next(cursor, word, part, first)
}
