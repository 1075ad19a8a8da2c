//! The words that are no names in VHDL text.
ghost use Rattle.std.specs.Prelude.{◌≡◌, true};
ghost use Rattle.std.specs.List.{list_any};
ghost use Rattle.std.specs.Str.{bytes_eq, str_eq_ignore_ascii_case, str_to_ascii_lowercase};
ghost use Rattle.lexer.specs.WordGroups.{begin_from, joined};
ghost use Rattle.vhdl_tokens.specs.Words.{is_reserved, is_used, is_vhdl_word};

use crate::word_groups::{RESERVED, USED};
use lexer::group_of;

/// Whether these bytes are a word that is no name in VHDL text: a reserved one, or another one that the text of an entity uses,
/// whatever the case of their letters. It takes no memory.
pub fn is_vhdl_word(name: &[u8]) -> bool
    ensures { result ≡ is_vhdl_word name.now }
{
    is_reserved(name) || is_used(name)
}

/// Whether these bytes are a reserved word of VHDL.
#[tactic(auto, unfolding(crate::specs::Words::is_reserved, crate::specs::Words::vhdl_words))]
fn is_reserved(name: &[u8]) -> bool
    ensures { result ≡ is_reserved name.now }
{
    is_in(&RESERVED, name)
}

/// Whether these bytes are another word that the text of an entity uses.
#[tactic(auto, unfolding(crate::specs::Words::is_used, crate::specs::Words::used_words))]
fn is_used(name: &[u8]) -> bool
    ensures { result ≡ is_used name.now }
{
    is_in(&USED, name)
}

/// Whether these bytes are a word of groups with one letter after another, from `a` on, whatever the case of their letters.
fn is_in(groups: &[&[&[u8]]], name: &[u8]) -> bool
    ensures { begin_from groups.now (λ group. group.now) (λ word. str_to_ascii_lowercase word.now) 97 ≡ true
        → result ≡ list_any (bytes_eq (str_to_ascii_lowercase name.now))
        (joined groups.now (λ group. group.now) (λ word. str_to_ascii_lowercase word.now)) }
{
    if name.len() < 1 {
        return false;
    }
    is_among(name, group_of(groups, name[0].to_ascii_lowercase()))
}

/// Whether these bytes are one of the words, whatever the case of their letters.
fn is_among(name: &[u8], words: &[&[u8]]) -> bool
    ensures { result ≡ list_any (λ word. str_eq_ignore_ascii_case name.now word.now) words.now }
{
    words.iter().any(|word| is_same_name(name, word))
}

/// Whether the bytes are equal, whatever the case of their letters: names of VHDL are the same then (IEEE 1076-1993, 13.3.1). It
/// takes no memory.
pub fn is_same_name(name: &[u8], other: &[u8]) -> bool
    ensures { result ≡ str_eq_ignore_ascii_case name.now other.now }
{
    name.eq_ignore_ascii_case(other)
}
