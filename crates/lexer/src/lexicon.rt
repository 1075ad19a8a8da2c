//! What a scanner needs to know of a language.

ghost use Rattle.std.specs.Prelude.{◌≡◌, ◌<◌, ◌≤◌, length, true, false};

/// Which bytes are separators and tokens of a language. No function takes memory.
pub trait Lexicon {
    ghost use Rattle.std.specs.Prelude.{ℕ, List, ◌∷◌};
    ghost use Rattle.lexer.specs.Tokens.{Lexis, is_blank};

    ghost lexis: { Lexis };

    /// How many bytes of a separator stand at the front of these.
    fn separator_length(bytes: &[u8]) -> usize
        ensures value { result ≡ lexis.separator_length bytes.now }
        ensures within { result ≤ length bytes.now };

    /// A blank is a separator of one byte.
    ghost blank_length: { (b : ℕ) (s : List ℕ) → is_blank b ≡ true → lexis.separator_length (b ∷ s) ≡ 1 };
}

/// What the tokens of a text up to some place say of the tokens behind them. No function takes memory.
pub trait TokenState<'a>: Lexicon + Copy {
    ghost use Rattle.std.specs.Prelude.{Bool};

    /// The flag that the tokens before set.
    ghost flag: { Self → Bool };

    /// Where no token stands before.
    fn start() -> Self
        ensures { flag result ≡ false };

    /// How many bytes of the longest token stand at the front of these; none where no token begins. Where a token begins, no
    /// separator does.
    fn token_length(&self, bytes: &[u8]) -> usize
        ensures value { result ≡ Self.lexis.token_length (flag self.now) bytes.now }
        ensures within { result ≤ length bytes.now }
        ensures alone { 0 < result → Self.lexis.separator_length bytes.now ≡ 0 };

    /// Behind one more token.
    fn after(&self, token: &'a [u8]) -> Self
        ensures { flag result ≡ Self.lexis.flag_after (flag self.now) token.now };
}
