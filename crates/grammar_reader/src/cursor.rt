//! A cursor over the tokens of a text.

ghost use Rattle.std.specs.Prelude.{◌≡◌, length};
ghost use Rattle.lexer.specs.Spans.{LieInside, spelled};
ghost use Rattle.grammar_reader.specs.Next.{is_next, is_next_name, next_bytes, rest};

use crate::language::Language;
use lexer::KeptSpan;
use std::marker::{Model, PhantomData};

/// The tokens of a text that are not read yet, each seen as its bytes, in a language `L`. It holds their places, and can give back
/// the memory of those that were read, so that the tokens of a text and what they are read as need not stand whole beside each
/// other.
#[derive(Drop)]
pub struct Cursor<'a, L> {
    text: &'a [u8],
    /// The last one first.
    left: Vec<KeptSpan>,
    language: PhantomData<L>,
}

impl<'a, L> Model for Cursor<'a, L> {
    ghost use Rattle.std.specs.Prelude.{ℕ, List, reverse};

    ghost Value = { List (List ℕ) };

    ghost use Rattle.lexer.specs.Spans.{spelled, LieInside};

    ghost view = { λ c. spelled c.text.now (reverse c.left.items) };

    ghost invariant = { λ c. LieInside c.text.now (reverse c.left.items) };
}

impl<'a, L: Language> Cursor<'a, L> {
    /// A cursor before the tokens that stand at these places of a text.
    pub fn new(text: &'a [u8], tokens: Vec<KeptSpan>) -> Cursor<'a, L>
        requires { LieInside text.now tokens.items }
        ensures { result ≡ spelled text.now tokens.items }
    {
        let mut left = tokens;
        left.reverse();
        Cursor {
            text,
            left,
            language: PhantomData,
        }
    }

    /// How many tokens are left.
    #[inline(always)]
    pub fn left(&self) -> usize
        ensures { result ≡ length self.now }
    {
        self.left.len()
    }

    /// The bytes of the next token. None where there is no token.
    #[inline(always)]
    pub fn bytes(&self) -> &'a [u8]
        ensures { result.now ≡ next_bytes self.now }
    {
        match self.left.as_slice() {
            [.., next] => {
                let span = next.span();
                &self.text[span.at..span.end]
            }
            [] => &[],
        }
    }

    /// Whether the next token stands for this word.
    #[inline(always)]
    pub fn is_next(&self, word: &[u8]) -> bool
        ensures { result ≡ is_next L.is_same word.now self.now }
    {
        !self.left.is_empty() && L::is_same(self.bytes(), word)
    }

    /// Whether the next token is a name.
    #[inline(always)]
    pub fn is_next_name(&self) -> bool
        ensures { result ≡ is_next_name L.is_name self.now }
    {
        !self.left.is_empty() && L::is_name(self.bytes())
    }

    /// Goes behind the next token.
    #[inline(always)]
    pub fn skip(&mut self)
        ensures { self.new ≡ rest self.old }
    {
        let _token = self.left.pop();
    }

    /// Gives back the memory of the tokens that were read, where that is more than the memory of those that are left.
    pub fn give_back(&mut self)
        ensures { self.new ≡ self.old }
    {
        if self.left.len() < self.left.capacity() / 2 {
            self.left.shrink_to_fit();
        }
    }
}
