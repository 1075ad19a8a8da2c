//! Examples from outside: texts with the trees and the faults that Liberty's syntax gives them.

use bool_functions::{Function, FunctionFault, MAX_LEN, Names, read_free, read_function};
use std::alloc::{AllocError, Global};
use std::test::Fail;
use table_tests::{Row, all_hold};

/// The function of a text, where it reads.
fn read(alloc: Global, text: &[u8]) -> Option<Function> {
    match read_free(alloc, text) {
        Ok((function, _)) => Some(function),
        Err(_) => None,
    }
}

/// Whether two texts are read as one tree.
fn have_one_tree(alloc: Global, one: &[u8], other: &[u8]) -> Option<bool> {
    let one = read(alloc, one)?;
    let other = read(alloc, other)?;
    Some(one.same(&other))
}

/// A text, and the one with all brackets as which it is read.
struct BracketedText(&'static [u8], &'static [u8]);

impl Row for BracketedText {
    fn holds(&self, alloc: Global) -> bool {
        have_one_tree(alloc, self.0, self.1) == Some(true)
    }
}

const BRACKETED: [BracketedText; 10] = [
    BracketedText(b"A*B", b"(A*B)"),
    BracketedText(b"A B'", b"(A*(!B))"),
    BracketedText(b"A&B|C", b"((A*B)+C)"),
    BracketedText(b"A+B*C", b"(A+(B*C))"),
    BracketedText(b"A+B+A", b"((A+B)+A)"),
    BracketedText(b"!(A+B)^C", b"((!(A+B))^C)"),
    BracketedText(b"A ^ B C", b"((A^B)*C)"),
    BracketedText(b"A B^C", b"(A*(B^C))"),
    BracketedText(b"!A'", b"(!(!A))"),
    BracketedText(b"\t1\n( b_0)", b"(1*b_0)"),
];

#[test]
fn reads_as_with_all_brackets(rt: HostRuntime) -> Result<(), Fail> {
    all_hold(rt.alloc(), &BRACKETED)
}

/// How a text is at fault, and at which offset.
#[derive(Copy, Clone)]
enum Fault {
    Malformed(usize),
    Unknown(usize),
    TooLong,
}

/// Whether a fault is of this kind and at this offset.
fn is_fault(found: &FunctionFault, wanted: Fault) -> bool {
    match (found, wanted) {
        (FunctionFault::Malformed(found), Fault::Malformed(wanted)) => *found == wanted,
        (FunctionFault::UnknownName(found), Fault::Unknown(wanted)) => *found == wanted,
        (FunctionFault::TooLong, Fault::TooLong) => true,
        _ => false,
    }
}

/// The names A and B.
fn two_names(alloc: Global) -> Option<Names> {
    match read_free(alloc, b"A B") {
        Ok((_, names)) => Some(names),
        Err(_) => None,
    }
}

/// The fault of a text over the names A and B.
fn fault_of(alloc: Global, text: &[u8]) -> Option<FunctionFault> {
    let names = two_names(alloc)?;
    read_function(alloc, text, &names).err()
}

/// Whether a text over the names A and B has this fault.
fn has_fault(alloc: Global, text: &[u8], wanted: Fault) -> bool {
    match &fault_of(alloc, text) {
        Some(found) => is_fault(found, wanted),
        None => false,
    }
}

/// A text over the names A and B, and its fault.
struct FaultyText(&'static [u8], Fault);

impl Row for FaultyText {
    fn holds(&self, alloc: Global) -> bool {
        has_fault(alloc, self.0, self.1)
    }
}

const FAULTY: [FaultyText; 10] = [
    FaultyText(b"A+", Fault::Malformed(2)),
    FaultyText(b"(A", Fault::Malformed(2)),
    FaultyText(b"A&&B", Fault::Malformed(2)),
    FaultyText(b"a b 23", Fault::Malformed(4)),
    FaultyText(b"A 1B", Fault::Malformed(2)),
    FaultyText(b"A\rB", Fault::Malformed(1)),
    FaultyText(b"A)", Fault::Malformed(1)),
    FaultyText(b"", Fault::Malformed(0)),
    FaultyText(b"C+", Fault::Malformed(2)),
    FaultyText(b"A*C", Fault::Unknown(2)),
];

#[test]
fn finds_where_a_text_is_at_fault(rt: HostRuntime) -> Result<(), Fail> {
    all_hold(rt.alloc(), &FAULTY)?;
    let long = vec![in rt.alloc(); b'A'; MAX_LEN + 1]?;
    assert!(rt; has_fault(rt.alloc(), &long, Fault::TooLong));
    Ok(())
}

/// Whether a function depends on the names of these numbers.
fn depends_on(alloc: Global, function: &Function, names: &[usize]) -> bool {
    match function.support(alloc) {
        Ok(found) => found.as_slice() == names,
        Err(_) => false,
    }
}

/// Whether a text is read as a function of one name.
fn has_one_name(alloc: Global, text: &[u8]) -> bool {
    match read(alloc, text) {
        Some(function) => depends_on(alloc, &function, &[0]),
        None => false,
    }
}

/// Adds a byte so many times.
fn push_all(text: &mut Vec<u8>, byte: u8, count: usize) -> Result<(), AllocError> {
    for _ in 0..count {
        text.push(byte)?;
    }
    Ok(())
}

/// Whether a name behind so many signs of inversion is read.
fn reads_inversions(alloc: Global, count: usize) -> Result<bool, AllocError> {
    let mut text = Vec::new(alloc);
    push_all(&mut text, b'!', count)?;
    text.push(b'A')?;
    Ok(has_one_name(alloc, &text))
}

/// Whether a name within so many brackets is read.
fn reads_brackets(alloc: Global, count: usize) -> Result<bool, AllocError> {
    let mut text = Vec::new(alloc);
    push_all(&mut text, b'(', count)?;
    text.push(b'A')?;
    push_all(&mut text, b')', count)?;
    Ok(have_one_tree(alloc, &text, b"A") == Some(true))
}

#[test]
fn reads_deep_texts(rt: HostRuntime) -> Result<(), Fail> {
    assert!(rt; reads_inversions(rt.alloc(), 4095)?);
    assert!(rt; reads_brackets(rt.alloc(), 2047)?);
    Ok(())
}
