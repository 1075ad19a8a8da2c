//! What a reader needs to know of a language.

ghost use Rattle.std.specs.Prelude.{◌≡◌};

/// The spelling of a language: which tokens are names, and which token stands for a word.
pub trait Language {
    ghost use Rattle.std.specs.Prelude.{List, ℕ, Bool};

    ghost is_name: { List ℕ → Bool };

    ghost is_same: { List ℕ → List ℕ → Bool };

    /// Whether a token is a name. It takes no memory.
    fn is_name(token: &[u8]) -> bool
        ensures { result ≡ is_name token.now };

    /// Whether a token stands for this word, or for the same name. It takes no memory.
    fn is_same(token: &[u8], word: &[u8]) -> bool
        ensures { result ≡ is_same token.now word.now };
}
