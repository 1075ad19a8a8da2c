//! Symbols as they are written: a word each.
ghost use Rattle.std.specs.Prelude.{◌≡◌, IfOk, map};
ghost use Rattle.std.specs.List.{list_any};
ghost use Rattle.statetables.specs.Written.{level_words, meaning, in_symbol, current_symbol, next_symbol};
ghost use Rattle.statetables.specs.Reading.{is_halved as is_halved_of, half_of, has_halves, half_row, split_rows};

use crate::symbols::{CurrentSymbol, InSymbol, NextSymbol};
use crate::table::TableRow;
use sqlite_items::Items;
use std::alloc::{AllocError, Global};

/// A symbol as it is written.
#[derive(Clone, Copy)]
pub enum Written<S> {
    /// One symbol, for one row.
    Whole(S),
    /// A halved symbol, as `L/H`: the first half for a first row, the second for a second row.
    Halves(S, S),
}

/// Which half of a halved symbol.
#[derive(Clone, Copy)]
pub enum Half {
    /// The one in front of the slash.
    First,
    /// The one behind it.
    Second,
}

/// A row as it is written.
#[derive(Drop)]
pub struct WrittenRow {
    /// A symbol for each input.
    pub inputs: Items<Written<InSymbol>>,
    /// A symbol for the present state of each node.
    pub current: Items<Written<CurrentSymbol>>,
    /// A symbol for the next state of each node.
    pub next: Items<Written<NextSymbol>>,
}

impl<S: Copy> Written<S> {
    /// Whether the symbol is halved.
    fn is_halved(&self) -> bool
        ensures { result ≡ is_halved_of self.now }
    {
        match self {
            Written::Whole(_) => false,
            Written::Halves(_, _) => true,
        }
    }

    /// The symbol that stands in the first or in the second row.
    fn half(&self, half: Half) -> S
        ensures { result ≡ half_of half self.now }
    {
        match (*self, half) {
            (Written::Whole(symbol), _) => symbol,
            (Written::Halves(first, _), Half::First) => first,
            (Written::Halves(_, second), Half::Second) => second,
        }
    }
}

impl WrittenRow {
    /// Whether a symbol of the row is halved.
    fn has_halves(&self) -> bool
        ensures { result ≡ has_halves self.now }
    {
        is_any_halved(self.inputs.as_slice())
            || is_any_halved(self.current.as_slice())
            || is_any_halved(self.next.as_slice())
    }

    /// The row of all first halves, or of all second ones.
    fn half(&self, alloc: Global, half: Half) -> Result<TableRow, AllocError>
        ensures { IfOk result (λ row. row ≡ half_row half self.now) }
    {
        Ok(TableRow {
            inputs: Items::from_vec(halves(alloc, self.inputs.as_slice(), half)?),
            current: Items::from_vec(halves(alloc, self.current.as_slice(), half)?),
            next: Items::from_vec(halves(alloc, self.next.as_slice(), half)?),
        })
    }

    /// The rows that the written one stands for.
    pub fn rows(&self, alloc: Global) -> Result<Items<TableRow>, AllocError>
        ensures { IfOk result (λ rows. rows ≡ split_rows self.now) }
    {
        let mut rows = Items::new(alloc);
        rows.push(self.half(alloc, Half::First)?)?;
        if self.has_halves() {
            rows.push(self.half(alloc, Half::Second)?)?;
        }
        Ok(rows)
    }
}

/// Whether a symbol is halved.
fn is_any_halved<S: Copy>(symbols: &[Written<S>]) -> bool
    ensures { result ≡ list_any is_halved_of symbols.now }
{
    symbols.iter().any(|symbol| symbol.is_halved())
}

/// The first halves, or the second ones, of all symbols.
fn halves<S: Copy>(alloc: Global, symbols: &[Written<S>], half: Half) -> Result<Vec<S>, AllocError>
    ensures { IfOk result (λ halves. halves.items ≡ map (half_of half) symbols.now) }
{
    symbols
        .iter()
        .map(|symbol| symbol.half(half))
        .collect(alloc)
}

/// A kind of symbol, each of which is written as a word.
pub trait Symbol: Copy {
    ghost use Rattle.std.specs.Prelude.{List, ℕ, Option};
    ghost use Rattle.statetables.specs.declared.written.Written.{Written};

    ghost of_word: { List ℕ → Option (Written Self) };

    /// What a word stands for: None where it is no symbol of this kind.
    fn of_word(word: &[u8]) -> Option<Written<Self>>
        ensures { result ≡ of_word word.now };
}

impl Symbol for InSymbol {
    ghost of_word = { in_symbol };

    fn of_word(word: &[u8]) -> Option<Written<InSymbol>> {
        match word {
            b"-" => Some(Written::Whole(InSymbol::Any)),
            b"R" => Some(Written::Whole(InSymbol::Rise)),
            b"F" => Some(Written::Whole(InSymbol::Fall)),
            b"~R" => Some(Written::Whole(InSymbol::NotRise)),
            b"~F" => Some(Written::Whole(InSymbol::NotFall)),
            _ => level(word, InSymbol::Low, InSymbol::High),
        }
    }
}

/// What a word stands for among those that each kind of symbol has, whose symbols of the two levels are these.
fn level<S: Copy>(word: &[u8], low: S, high: S) -> Option<Written<S>>
    ensures { result ≡ meaning (level_words low high) word.now }
{
    match word {
        b"L" => Some(Written::Whole(low)),
        b"H" => Some(Written::Whole(high)),
        b"L/H" => Some(Written::Halves(low, high)),
        b"H/L" => Some(Written::Halves(high, low)),
        _ => None,
    }
}

impl Symbol for CurrentSymbol {
    ghost of_word = { current_symbol };

    fn of_word(word: &[u8]) -> Option<Written<CurrentSymbol>> {
        match word {
            b"-" => Some(Written::Whole(CurrentSymbol::Any)),
            _ => level(word, CurrentSymbol::Low, CurrentSymbol::High),
        }
    }
}

impl Symbol for NextSymbol {
    ghost of_word = { next_symbol };

    fn of_word(word: &[u8]) -> Option<Written<NextSymbol>> {
        match word {
            b"X" | b"-" => Some(Written::Whole(NextSymbol::Unknown)),
            b"N" => Some(Written::Whole(NextSymbol::Keep)),
            _ => level(word, NextSymbol::Low, NextSymbol::High),
        }
    }
}
