//! The rest of a text behind a part.

ghost use Rattle.std.specs.Prelude.{◌≡◌, map, Ok, Err, IfOk, IfErr};
ghost use Rattle.grammar_reader.specs.Reading.{read, Reads};
ghost use Rattle.grammar_reader.specs.Rests as spec;

use crate::{Cursor, Language, Read, Refusal, Stop};

/// What a part gives, where the rest behind it was read.
pub fn where_read<T: Drop>(value: T, rest: Read<()>) -> Read<T>
    ensures read { result ≡ spec.where_read value rest }
    ensures same { IfOk result (λ kept. kept ≡ value) }
{
    match rest {
        Ok(()) => Ok(value),
        Err(stop) => Err(stop),
    }
}

/// Two things, where the second was read.
pub fn with_read<A: Drop, B: Drop>(first: A, second: Read<B>) -> Read<(A, B)>
    ensures both { IfOk result (λ both. (both.0 ≡ first) × (second ≡ Ok both.1)) }
    ensures fault { IfErr result (λ stop. second ≡ Err stop) }
{
    match second {
        Ok(second) => Ok((first, second)),
        Err(stop) => Err(stop),
    }
}

/// What a part gives that ends with these words, which stand next.
#[tactic(auto, using(crate::proofs::WithRest::word_next, crate::proofs::WithRest::word_other))]
pub fn with_end<L: Language, T: Drop>(
    cursor: &mut Cursor<'_, L>,
    words: &[&[u8]],
    value: T,
) -> Read<T>
    ensures { Reads (read (spec.with_end L.is_same (map (λ word. word.now) words.now) value) cursor.old) result cursor.new }
{
    for word in words {
        if !cursor.is_next(word) {
            return Err(Stop::Refused(Refusal::Syntax));
        }
        cursor.skip();
    }
    Ok(value)
}
