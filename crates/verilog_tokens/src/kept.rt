//! Which names of a cell library are kept in Verilog text.

ghost use Rattle.std.specs.Prelude.{◌≡◌};
ghost use Rattle.verilog_tokens.specs.Kept.{is_identifier, is_numbered, is_kept_name, is_kept_cell_name, is_kept_port_name};

use crate::words::is_verilog_word;
use lexer::{NameByte, are_all, is_number};

/// Whether Verilog text keeps this name for a cell: a letter or `_` followed by letters, digits and `_`, that is no word of
/// Verilog, does not begin with `lib_`, and is not `cell` followed by a number. It takes no memory.
pub fn is_kept_cell_name(name: &[u8]) -> bool
    ensures { result ≡ is_kept_cell_name name.now }
{
    is_kept_name(b"cell", name)
}

/// Whether Verilog text keeps this name for a port: as for a cell, but `pin` in place of `cell`. It takes no memory.
pub fn is_kept_port_name(name: &[u8]) -> bool
    ensures { result ≡ is_kept_port_name name.now }
{
    is_kept_name(b"pin", name)
}

/// Whether a name is kept where this word with a number is a name that this project gives.
#[tactic(auto, unfolding(crate::specs::Kept::is_kept_name))]
fn is_kept_name(given: &[u8], name: &[u8]) -> bool
    ensures { result ≡ is_kept_name given.now name.now }
{
    is_identifier(name)
        && !is_verilog_word(name)
        && !name.starts_with(b"lib_")
        && !is_numbered(given, name)
}

/// Whether a name is a letter or `_` followed by letters, digits and `_`.
fn is_identifier(name: &[u8]) -> bool
    ensures { result ≡ is_identifier name.now }
{
    match name.split_first() {
        None => false,
        Some((first, others)) => {
            (first.is_ascii_alphabetic() || *first == b'_') && are_all::<NameByte>(others)
        }
    }
}

/// Whether a name is this word with a number behind it.
fn is_numbered(word: &[u8], name: &[u8]) -> bool
    ensures { result ≡ is_numbered word.now name.now }
{
    name.starts_with(word) && is_number(&name[word.len()..])
}
