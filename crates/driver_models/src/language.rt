//! What both languages' drivers have in common.
ghost use Rattle.std.specs.Prelude.{◌≡◌, true, IfOk};
ghost use Rattle.std.specs.Str.{bytes_eq};

use grammar_reader::Language;
use std::alloc::{AllocError, Global};

/// A language of drivers: its spelling, the words of which the names of wires are made, and what names are folded to, so that two
/// are the same where that is.
pub trait DriverLanguage {
    ghost use Rattle.std.specs.Prelude.{List, ℕ};

    /// How the language spells names and words.
    type Spelling: Language;

    ghost value: { List ℕ };

    ghost enable: { List ℕ };

    ghost fold: { List ℕ → List ℕ };

    /// The word before the number of a wire to the input of a buffer. It takes no memory.
    fn value_word() -> &'static [u8]
        ensures { result.now ≡ value };

    /// The word before the number of a wire to an enable. It takes no memory.
    fn enable_word() -> &'static [u8]
        ensures { result.now ≡ enable };

    /// What a name is folded to. An `Err` comes only where memory is wanting.
    fn folded(alloc: Global, name: &[u8]) -> Result<Vec<u8>, AllocError>
        ensures { IfOk result (λ folded. folded.items ≡ fold name.now) };

    /// A name is the same as another exactly where both are folded to the same.
    ghost same: { (name other : List ℕ) → Self.Spelling.is_name name ≡ true
        → Self.Spelling.is_same name other ≡ bytes_eq (fold name) (fold other) };
}
