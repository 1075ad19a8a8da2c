//! Function texts of a cell library: their trees, their values, and lists of names.
#![tactic(auto)]

pub mod ascending;
mod blocks;
mod code_trees;
mod codes;
mod faults;
mod functions;
mod kept_values;
mod keys;
mod laws;
mod name_list;
mod pile;
mod postfix;
mod reader;
mod symbol;
mod texts;
mod tokens;
mod tree;
mod words;

pub use faults::FunctionFault;
pub use functions::Function;
pub use laws::{
    bound_is_least, joined_texts, one_tree, own_names, read_by_grammar, renamed_texts,
    renamed_values, word_texts,
};
pub use name_list::Names;
pub use symbol::Symbol;
pub use texts::{MAX_LEN, read_free, read_function};
pub use tokens::Span;
pub use tree::Node;
