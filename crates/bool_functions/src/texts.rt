//! Function texts, read over a list of names or over their own.
ghost use Rattle.std.specs.Prelude.{◌≡◌, ◌≢◌, ◌≤◌, [], ℕ, Ok, Err, IfOk, IfErr, length, map};
ghost use Rattle.bool_functions.specs.Tree.{name_bound};
ghost use Rattle.bool_functions.specs.Token.{bytes_at, spans, symbol_of, symbols, offset_of, LieIn};
ghost use Rattle.bool_functions.specs.Machine.{run, start};
ghost use Rattle.bool_functions.specs.FunctionText.{FunctionText, HasFault, free_names, reading_of, OrMemory, OrMemoryFree};
ghost use Rattle.bool_functions.specs.FunctionText.{FaultOrMemory, TreeOf, Answers, AnswersFree, known, placed_in, StandsBeside};

use crate::faults::FunctionFault;
use crate::functions::Function;
use crate::name_list::Names;
use crate::reader::run;
use crate::symbol::{Symbol, symbol_of};
use crate::tokens::{Span, spans};
use crate::tree::Node;
use crate::words::{bytes_at, first_unknown, names_in};
use sqlite_items::Boxed;
use std::alloc::{AllocError, Global};

/// The greatest number of bytes of a function text.
pub const MAX_LEN: usize = 4096;

/// Reads a function text (Liberty Reference Manual, `function`) whose names are in a list, by which its tree numbers
/// them. Offsets are in bytes, from 0. The faults are, in this order:
///
/// - `TooLong` where the text has more than 4,096 bytes,
/// - `Malformed` at the first token with which no function text goes on, or at the text's length where it ends too early,
/// - `UnknownName` at the first name that is not in the list,
/// - `Memory` where memory is wanting.
pub fn read_function(alloc: Global, text: &[u8], names: &Names) -> Result<Function, FunctionFault>
    ensures exact { OrMemory result (reading_of names.now text.now) }
    ensures tree { IfOk result (FunctionText names.now text.now) }
    ensures only { (f : Node) → FunctionText names.now text.now f → Answers result f }
    ensures fault { IfErr result (FaultOrMemory names.now text.now) }
    ensures bound { IfOk result (λ f. name_bound f ≤ length names.now) }
{
    read_over(alloc, text, names).unwrap_or(Err(FunctionFault::Memory))
}

/// Reads a function text with its own names, which are numbered by their first appearances. The faults are those of
/// `read_function` but for `UnknownName`, which never comes.
pub fn read_free(alloc: Global, text: &[u8]) -> Result<(Function, Names), FunctionFault>
    ensures exact { OrMemoryFree result text.now }
    ensures names { IfOk result (λ r. r.1 ≡ free_names text.now) }
    ensures tree { IfOk result (λ r. FunctionText (free_names text.now) text.now r.0) }
    ensures only { (f : Node) → FunctionText (free_names text.now) text.now f → AnswersFree result f }
    ensures fault { IfErr result (FaultOrMemory (free_names text.now) text.now) }
    ensures known { (at : ℕ) → result ≢ Err (FunctionFault.UnknownName at) }
    ensures bound { IfOk result (λ r. name_bound r.0 ≤ length r.1) }
{
    read_own(alloc, text).unwrap_or(Err(FunctionFault::Memory))
}

/// Reads a text over a list of names.
fn read_over(
    alloc: Global,
    text: &[u8],
    names: &Names,
) -> Result<Result<Function, FunctionFault>, AllocError>
    ensures { IfOk result (λ read. OrMemory read (reading_of names.now text.now)) }
{
    if text.len() > MAX_LEN {
        return Ok(Err(FunctionFault::TooLong));
    }
    let tokens = spans(alloc, text)?;
    let read = read_tree(alloc, text, &tokens, names)?;
    Ok(known(read, first_unknown(text, &tokens, names)))
}

/// What reading a text answers, where this is its first name that is not in the list. It is a function of any type, so that what
/// was read is let go at one place.
fn known<T: Drop>(read: Result<T, usize>, unknown: Option<usize>) -> Result<T, FunctionFault>
    ensures { result ≡ known unknown read }
{
    match read {
        Ok(function) => match unknown {
            Some(at) => Err(FunctionFault::UnknownName(at)),
            None => Ok(function),
        },
        Err(at) => Err(FunctionFault::Malformed(at)),
    }
}

/// Reads a text over its own names.
fn read_own(
    alloc: Global,
    text: &[u8],
) -> Result<Result<(Function, Names), FunctionFault>, AllocError>
    ensures { IfOk result (λ read. OrMemoryFree read text.now) }
{
    if text.len() > MAX_LEN {
        return Ok(Err(FunctionFault::TooLong));
    }
    let tokens = spans(alloc, text)?;
    let names = names_in(alloc, text, &tokens)?;
    let read = read_tree(alloc, text, &tokens, &names);
    beside(read, names)
}

/// What was read beside its names, where no token is a fault. It is a function of any types, so that the names are let go at
/// one place where nothing was read.
fn beside<T: Drop, N: Drop>(
    read: Result<Result<T, usize>, AllocError>,
    names: N,
) -> Result<Result<(T, N), FunctionFault>, AllocError>
    ensures { IfOk result (StandsBeside read names) }
{
    match read? {
        Ok(function) => Ok(Ok((function, names))),
        Err(at) => Ok(Err(FunctionFault::Malformed(at))),
    }
}

/// The function of a text's tokens, where a name that is not in the list has the list's length for its number, or the offset of
/// the first token with which no function text goes on.
fn read_tree(
    alloc: Global,
    text: &[u8],
    tokens: &[Span],
    names: &Names,
) -> Result<Result<Function, usize>, AllocError>
    requires { tokens.now ≡ spans text.now }
    ensures { IfOk result (λ read. TreeOf names.now text.now read) }
{
    let symbols = symbols(alloc, text, tokens, names)?;
    let read = run(alloc, &symbols)?;
    function_of(alloc, text, tokens, read)
}

/// The function of a tree, or the offset of the token with this number.
fn function_of(
    alloc: Global,
    text: &[u8],
    tokens: &[Span],
    read: Result<Boxed<Node>, usize>,
) -> Result<Result<Function, usize>, AllocError>
    requires { tokens.now ≡ spans text.now }
    ensures { IfOk result (λ placed. placed ≡ placed_in text.now read) }
{
    match read {
        Ok(tree) => Ok(Ok(Function::new(alloc, tree.into_inner())?)),
        Err(n) => Ok(Err(offset_of(text, tokens, n))),
    }
}

/// What the tokens stand for.
fn symbols(
    alloc: Global,
    text: &[u8],
    tokens: &[Span],
    names: &Names,
) -> Result<Vec<Symbol>, AllocError>
    requires { LieIn text.now tokens.now }
    ensures { IfOk result (λ v. v.items ≡ map (λ t. symbol_of names.now (bytes_at text.now t)) tokens.now) }
{
    let mut found = Vec::with_capacity(alloc, tokens.len())?;
    for token in tokens {
        found.push(symbol_of(bytes_at(text, *token), names))?;
    }
    Ok(found)
}

/// The offset of a token by its number, or the text's length.
fn offset_of(text: &[u8], tokens: &[Span], n: usize) -> usize
    requires { tokens.now ≡ spans text.now }
    ensures { result ≡ offset_of text.now n }
{
    match tokens.get(n) {
        Some(token) => token.start,
        None => text.len(),
    }
}
