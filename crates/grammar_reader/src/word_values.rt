//! Words that stand for values.

ghost use Rattle.std.specs.Prelude.{◌≡◌, map};
ghost use Rattle.grammar_reader.specs.WordValues.{value_among};

use crate::language::Language;

/// The value beside the first of these words that a token stands for, if it stands for one.
pub fn value_of<L: Language, A: Copy>(token: &[u8], words: &[(&[u8], A)]) -> Option<A>
    ensures { result ≡ value_among L.is_same (map (λ word. (word.0.now, word.1)) words.now) token.now }
{
    for (word, value) in words {
        if L::is_same(token, word) {
            return Some(*value);
        }
    }
    None
}
