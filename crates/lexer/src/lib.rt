//! Where the tokens of a text stand: what any scanner gives, and what the scanners of many languages have in common.
#![tactic(auto)]

mod classes;
mod fronts;
mod lexicon;
mod numbers;
mod place;
mod scanner;
mod span;
mod tables;
mod word_groups;

pub use classes::{ByteClass, Digit, NameByte, are_all, run_length};
pub use fronts::{decimal_length, identifier_length, line_separator_length};
pub use lexicon::{Lexicon, TokenState};
pub use numbers::{is_number, number_after, number_of};
pub use place::place_of;
pub use scanner::scan;
pub use span::{KeptSpan, Scan, Span};
pub use word_groups::group_of;
