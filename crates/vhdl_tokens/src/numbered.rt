//! Names that are a word followed by a number.
ghost use Rattle.std.specs.Prelude.{◌≡◌, ◌&&◌, ◌++◌, decimal, IfOk};
ghost use Rattle.vhdl_tokens.specs.Spelling.{are_alike, is_character, is_same};

use itoa::Buffer;
use sqlite_items::Items;
use std::alloc::{AllocError, Global};

/// A word followed by a number. An `Err` comes only where memory is wanting.
pub fn numbered_name(alloc: Global, word: &[u8], number: usize) -> Result<Items<u8>, AllocError>
    ensures { IfOk result (λ name. name ≡ word.now ++ decimal number) }
{
    let mut buffer = Buffer::new();
    let digits = buffer.format(number).as_bytes();
    let mut name = Vec::with_capacity(alloc, word.len().saturating_add(digits.len()))?;
    name.extend_from_slice(word)?;
    name.extend_from_slice(digits)?;
    Ok(Items::from_vec(name))
}

/// Whether a token is a character literal, or a tick.
fn is_character(token: &[u8]) -> bool
    ensures { result ≡ is_character token.now }
{
    match token.first() {
        None => false,
        Some(first) => *first == b'\'',
    }
}

/// Whether two texts are alike: where they have to be exact, they are equal, and else the same whatever the case of their letters.
fn are_alike(exact: bool, text: &[u8], other: &[u8]) -> bool
    ensures { result ≡ are_alike exact text.now other.now }
{
    if exact {
        text == other
    } else {
        text.eq_ignore_ascii_case(other)
    }
}

/// Whether both parts of a token are like these.
fn are_parts(exact: bool, front: &[u8], behind: &[u8], word: &[u8], rest: &[u8]) -> bool
    ensures { result ≡ (are_alike exact front.now word.now && are_alike exact behind.now rest.now) }
{
    are_alike(exact, front, word) && are_alike(exact, behind, rest)
}

/// Whether a token stands for a word followed by these bytes. It takes no memory.
#[tactic(auto, using(crate::proofs::SameBytes::unlike_joined))]
fn is_joined(token: &[u8], word: &[u8], rest: &[u8]) -> bool
    ensures { result ≡ is_same token.now (word.now ++ rest.now) }
{
    if token.len() < word.len() {
        return false;
    }
    let (front, behind) = token.split_at(word.len());
    are_parts(is_character(token), front, behind, word, rest)
}

/// Whether a token stands for a word followed by a number. It takes no memory.
pub fn is_numbered_name(token: &[u8], word: &[u8], number: usize) -> bool
    ensures { result ≡ is_same token.now (word.now ++ decimal number) }
{
    let mut buffer = Buffer::new();
    is_joined(token, word, buffer.format(number).as_bytes())
}
