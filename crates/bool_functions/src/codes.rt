//! Trees as lists of codes, which take about an eighth of a tree's memory.
ghost use Rattle.std.specs.Prelude.{◌≡◌, ◌≤◌, ◌-◌, false, true, nat_lt, length, IfOk, MatchOption};
ghost use Rattle.std.specs.List.{list_any};
ghost use Rattle.bool_functions.specs.declared.codes.Code.TheVariants as code;
ghost use Rattle.bool_functions.specs.Code.{code_of, is_name_code, is_small, same_code, same_codes, AreHalves};
ghost use Rattle.bool_functions.specs.Code.{IsValue, Adds, AddsCode, Closes};

use crate::kept_values::bit_at;
use crate::tree::{Node, Pair};
use std::alloc::{AllocError, Global};

/// The least number that a code has no room for.
const LIMIT: usize = 65536;

/// A node of a tree. The codes of an operator's parts stand before its own, and an operator of two parts tells how many
/// codes the second one has.
#[derive(Clone, Copy)]
pub(crate) enum Code {
    Zero,
    One,
    Name(u16),
    Not,
    Xor(u16),
    And(u16),
    Or(u16),
}

/// The code of an operator, whose second part has so many codes.
fn code_of(pair: Pair, size: u16) -> Code
    ensures { result ≡ code_of pair size }
{
    match pair {
        Pair::Xor => Code::Xor(size),
        Pair::And => Code::And(size),
        Pair::Or => Code::Or(size),
    }
}

/// A number, where a code has room for it.
fn small(number: usize) -> Option<u16>
    ensures { MatchOption result (nat_lt number 65536 ≡ false) (λ n. (n ≡ number) × (nat_lt number 65536 ≡ true)) }
{
    if number < LIMIT {
        Some(number as u16)
    } else {
        None
    }
}

/// Adds a code without a number.
fn add_plain(codes: &mut Vec<Code>, code: Code) -> Result<bool, AllocError>
    requires { is_small code ≡ true }
    ensures { IfOk result (λ fits. AddsCode fits codes.old.items codes.new.items code) }
{
    codes.push(code)?;
    Ok(true)
}

/// Adds a name, and answers whether its number has room.
fn add_name(codes: &mut Vec<Code>, i: usize) -> Result<bool, AllocError>
    ensures { IfOk result (λ fits. AddsCode fits codes.old.items codes.new.items (code.Name i)) }
{
    let Some(number) = small(i) else {
        return Ok(false);
    };
    codes.push(Code::Name(number))?;
    Ok(true)
}

/// Adds an operator behind the codes of its parts, of which the second's begin at `start`, where the parts' were added, and
/// answers whether all numbers have room. Where not all of the parts' had, it adds nothing.
fn close(
    codes: &mut Vec<Code>,
    first: Result<bool, AllocError>,
    second: Result<bool, AllocError>,
    pair: Pair,
    start: usize,
) -> Result<bool, AllocError>
    ensures { IfOk result (λ all. Closes first second all codes.old.items codes.new.items
        (code_of pair (length codes.old.items - start))) }
{
    if !(first? && second?) {
        return Ok(false);
    }
    let Some(size) = small(codes.len().saturating_sub(start)) else {
        return Ok(false);
    };
    codes.push(code_of(pair, size))?;
    Ok(true)
}

/// Adds the codes of a tree, and answers whether all their numbers have room.
pub(crate) fn add_codes(node: &Node, codes: &mut Vec<Code>) -> Result<bool, AllocError>
    ensures { IfOk result (λ fits. Adds fits codes.old.items codes.new.items node.now) }
{
    match node {
        Node::Zero => add_plain(codes, Code::Zero),
        Node::One => add_plain(codes, Code::One),
        Node::Name(i) => add_name(codes, *i),
        Node::Not(part) => {
            if !add_codes(part.get(), codes)? {
                return Ok(false);
            }
            add_plain(codes, Code::Not)
        }
        Node::Xor(left, right) => {
            let first = add_codes(left.get(), codes);
            let start = codes.len();
            let second = add_codes(right.get(), codes);
            close(codes, first, second, Pair::Xor, start)
        }
        Node::And(left, right) => {
            let first = add_codes(left.get(), codes);
            let start = codes.len();
            let second = add_codes(right.get(), codes);
            close(codes, first, second, Pair::And, start)
        }
        Node::Or(left, right) => {
            let first = add_codes(left.get(), codes);
            let start = codes.len();
            let second = add_codes(right.get(), codes);
            close(codes, first, second, Pair::Or, start)
        }
    }
}

/// The codes of an operator's two parts, of which the second has so many.
fn halves(codes: &[Code], size: u16) -> (&[Code], &[Code])
    ensures parts { AreHalves codes.now size result.0.now result.1.now }
    ensures first { length result.0.now ≤ length codes.now }
    ensures second { length result.1.now ≤ length codes.now }
{
    codes.split_at(codes.len().saturating_sub(usize::from(size)))
}

/// The value of a tree where `bits[i]` is the value of the name `i`, from its codes.
pub(crate) fn value(codes: &[Code], bits: &[bool]) -> bool
    ensures { IsValue bits.now codes.now result }
{
    let Some((last, before)) = codes.split_last() else {
        return false;
    };
    match last {
        Code::Zero => false,
        Code::One => true,
        Code::Name(i) => bit_at(bits, usize::from(*i)),
        Code::Not => !value(before, bits),
        Code::Xor(size) => {
            let (left, right) = halves(before, *size);
            value(left, bits) != value(right, bits)
        }
        Code::And(size) => {
            let (left, right) = halves(before, *size);
            value(left, bits) && value(right, bits)
        }
        Code::Or(size) => {
            let (left, right) = halves(before, *size);
            value(left, bits) || value(right, bits)
        }
    }
}

/// Whether two codes are equal.
fn same_code(one: Code, other: Code) -> bool
    ensures { result ≡ same_code one other }
{
    match (one, other) {
        (Code::Zero, Code::Zero) | (Code::One, Code::One) | (Code::Not, Code::Not) => true,
        (Code::Name(i), Code::Name(j))
        | (Code::Xor(i), Code::Xor(j))
        | (Code::And(i), Code::And(j))
        | (Code::Or(i), Code::Or(j)) => i == j,
        _ => false,
    }
}

/// Whether two lists of codes are equal.
pub(crate) fn same(codes: &[Code], other: &[Code]) -> bool
    ensures { result ≡ same_codes codes.now other.now }
{
    match codes {
        [] => match other {
            [] => true,
            [_, ..] => false,
        },
        [one, codes @ ..] => match other {
            [] => false,
            [like, other @ ..] => same_code(*one, *like) && same(codes, other),
        },
    }
}

/// Whether a code is that of the name `i`.
fn is_name(code: Code, i: usize) -> bool
    ensures { result ≡ is_name_code i code }
{
    match code {
        Code::Name(j) => usize::from(j) == i,
        _ => false,
    }
}

/// Whether a name is among codes.
pub(crate) fn has(codes: &[Code], i: usize) -> bool
    ensures { result ≡ list_any (is_name_code i) codes.now }
{
    codes.iter().any(|code| is_name(*code, i))
}
