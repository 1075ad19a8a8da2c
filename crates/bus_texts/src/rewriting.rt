//! The texts of statements for one position.
ghost use Rattle.std.specs.Prelude.{◌≡◌, ◌++◌, IfOk, OnOk, map, flat_map, option_map};
ghost use Rattle.std.specs.List.{list_any};
ghost use Rattle.std.specs.Option.{option_copied};
ghost use Rattle.bus_texts.specs.Parts.{shown};
ghost use Rattle.bus_texts.specs.Texts as spec;

use crate::named_vectors::{Vectors, vector_named};
use crate::parts::{Part, is_identifier, parts};
use crate::vectors::Vector;
use liberty_groups::copy_bytes;
use sqlite_items::Items;
use std::alloc::{AllocError, Global};

/// What becomes of a part of a text.
#[derive(Clone, Copy)]
pub(crate) enum Replacement<'a> {
    /// It is the name of no vector.
    Stays,
    /// It is that of this member.
    Becomes(&'a [u8]),
    /// There is no such member, or its name is none of a function text.
    Missing,
}

/// The member that a vector has at a position.
pub fn member_at(vector: &Vector, at: usize) -> Option<&[u8]>
    ensures { option_map (λ member. member.now) result ≡ spec.member_of vector.now at None }
{
    Some(vector.members.get(at)?.as_slice())
}

/// The position of a bit.
fn bit_place(bits: &[u16], bit: u16) -> Option<usize>
    ensures { result ≡ spec.bit_place bit 0 bits.now }
{
    for (at, other) in bits.iter().enumerate() {
        if *other == bit {
            return Some(at);
        }
    }
    None
}

/// The member that a vector has for a bit.
fn bit_member(vector: &Vector, bit: u16) -> Option<&[u8]>
    ensures { option_map (λ member. member.now) result ≡ spec.member_of vector.now 0 (Some bit) }
{
    let at = bit_place(vector.bits.as_slice(), bit)?;
    Some(vector.members.get(at)?.as_slice())
}

/// The member that a name stands for at a position, or that of its bit.
fn member_of(vector: &Vector, at: usize, bit: Option<u16>) -> Option<&[u8]>
    ensures { option_map (λ member. member.now) result ≡ spec.member_of vector.now at bit }
{
    match bit {
        None => member_at(vector, at),
        Some(bit) => bit_member(vector, bit),
    }
}

/// What a name with this member becomes.
fn becomes(member: Option<&[u8]>) -> Replacement<'_>
    ensures { spec.shown_replacement result ≡ spec.becomes (option_map (λ bytes. bytes.now) member.entry) }
{
    match member {
        Some(member) if is_identifier(member) => Replacement::Becomes(member),
        _ => Replacement::Missing,
    }
}

/// What becomes of a part of a text at a position.
fn replacement_of<'a>(vectors: &'a Vectors, at: usize, part: Part<'_>) -> Replacement<'a>
    ensures { spec.shown_replacement result ≡ spec.replacement_for vectors.now at (shown part.entry) }
{
    match vector_named(vectors, part.name) {
        None => Replacement::Stays,
        Some(vector) => becomes(member_of(vector, at, part.bit)),
    }
}

/// Adds a part of a text as it becomes at a position.
fn add_part(
    text: &mut Vec<u8>,
    vectors: &Vectors,
    at: usize,
    part: Part<'_>,
) -> Result<(), AllocError>
    ensures { OnOk result (text.new.items ≡ text.old.items ++ spec.rewritten_part vectors.now at (shown part.entry)) }
{
    match replacement_of(vectors, at, part) {
        Replacement::Becomes(member) => {
            text.extend_from_slice(member)?;
            if part.followed {
                text.push(b' ')?;
            }
        }
        _ => text.extend_from_slice(part.written)?,
    }
    Ok(())
}

/// Adds parts of a text as they become at a position.
fn add_parts(
    text: &mut Vec<u8>,
    vectors: &Vectors,
    at: usize,
    parts: &[Part<'_>],
) -> Result<(), AllocError>
    ensures { OnOk result (text.new.items ≡ text.old.items
        ++ flat_map (spec.rewritten_part vectors.now at) (map shown parts.now)) }
{
    for part in parts {
        add_part(text, vectors, at, *part)?;
    }
    Ok(())
}

/// A text as it becomes at a position.
fn rewritten(
    alloc: Global,
    vectors: &Vectors,
    at: usize,
    text: &[u8],
) -> Result<Items<u8>, AllocError>
    ensures { IfOk result (λ made. made ≡ spec.rewritten vectors.now at text.now) }
{
    let parts = parts(alloc, text)?;
    let mut made = Vec::new(alloc);
    add_parts(&mut made, vectors, at, &parts)?;
    Ok(Items::from_vec(made))
}

/// A text as it becomes at a place.
pub fn text_for(
    alloc: Global,
    vectors: &Vectors,
    position: Option<usize>,
    text: &[u8],
) -> Result<Items<u8>, AllocError>
    ensures { IfOk result (λ made. made ≡ spec.text_for vectors.now position text.now) }
{
    match position {
        None => copy_bytes(alloc, text),
        Some(at) => rewritten(alloc, vectors, at, text),
    }
}

/// Whether a part has no member that it can become.
fn is_missing(vectors: &Vectors, at: usize, part: Part<'_>) -> bool
    ensures { result ≡ spec.is_missing (spec.replacement_for vectors.now at (shown part.entry)) }
{
    match replacement_of(vectors, at, part) {
        Replacement::Missing => true,
        _ => false,
    }
}

/// Whether one of these parts has no member that it can become.
fn any_missing(vectors: &Vectors, at: usize, parts: &[Part<'_>]) -> bool
    ensures { result ≡ list_any (spec.part_misses vectors.now at) (map shown parts.now) }
{
    for part in parts {
        if is_missing(vectors, at, *part) {
            return true;
        }
    }
    false
}

/// Whether one of these parts is the name of a vector.
fn any_vector(vectors: &Vectors, parts: &[Part<'_>]) -> bool
    ensures { result ≡ list_any (spec.is_vector vectors.now) (map shown parts.now) }
{
    for part in parts {
        if vector_named(vectors, part.name).is_some() {
            return true;
        }
    }
    false
}

/// Whether a text cannot become what it has to at a place.
pub fn text_fails(
    alloc: Global,
    vectors: &Vectors,
    position: Option<usize>,
    text: &[u8],
) -> Result<bool, AllocError>
    ensures { IfOk result (λ fails. fails ≡ spec.text_fails vectors.now position text.now) }
{
    let parts = parts(alloc, text)?;
    match position {
        None => Ok(any_vector(vectors, &parts)),
        Some(at) => Ok(any_missing(vectors, at, &parts)),
    }
}
