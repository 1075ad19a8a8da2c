//! The machinery of readers by grammar rules: a cursor over the tokens of a text, and the places of words and names, for any
//! language that says which tokens are names and which token stands for a word.
//! Parts of texts, in any language: parts that repeat, each read from what was found before it, and what a part gives where the
//! rest behind it was read.
//! What a rule takes, put together from what its parts take, and the tokens of a text, put together from those of its pieces: how
//! a text that is written piece by piece is shown to read back, whatever its language is.
//!
//! The lemmas stand in `proofs/`, for the proofs of the crates above.
#![tactic(auto)]

mod cursor;
mod language;
mod parts;
mod refusal;
mod rests;
mod word_values;
mod words;

pub use cursor::Cursor;
pub use language::Language;
pub use lexer as tokens;
pub use parts::{RepeatedPart, one_or_more, while_next};
pub use refusal::{Read, Refusal, Stop};
pub use rests::{where_read, with_end, with_read};
pub use word_values::value_of;
pub use words::is_among;
