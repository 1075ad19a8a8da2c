//! The names of the inputs of a `statetable`.
ghost use Rattle.std.specs.Prelude.{◌≡◌, IfOk, map};
ghost use Rattle.std.specs.Option.{option_map};
ghost use Rattle.cell_attributes.specs.StateReadings.{word_use as word_use_of, has_unknown_word as has_unknown_word_of};
ghost use Rattle.cell_attributes.specs.StateReadings.{has_coupled_word as has_coupled_word_of, input_words as input_words_of};
ghost use Rattle.cell_attributes.specs.StateReadings.{number_in as number_in_names, numbers_of as numbers_of_words};
ghost use Rattle.cell_attributes.specs.Shown.{shown_vocabulary, shown_arguments};

use crate::states::{Arguments, names_in};
use crate::texts::{Use, class_at, control_use};
use crate::vocabulary::Vocabulary;
use std::alloc::{AllocError, Global};

/// What the names of the inputs of a table are.
#[derive(Drop)]
pub(crate) struct TableInputs {
    /// Their numbers.
    pub(crate) numbers: Vec<usize>,
    /// Whether one names nothing.
    pub(crate) unknown: bool,
    /// Whether one is a variable or node.
    pub(crate) coupled: bool,
}

/// The names of the inputs of a table.
fn input_words(alloc: Global, arguments: Option<Arguments<'_>>) -> Result<Vec<&[u8]>, AllocError>
    ensures { IfOk result (λ words. map (λ word. word.now) words.items ≡ input_words_of
        (option_map shown_arguments arguments.entry)) }
{
    match arguments {
        None => Ok(Vec::new(alloc)),
        Some(arguments) => Ok(names_in(alloc, arguments.first)?),
    }
}

/// What a word among the inputs of a table is.
#[tactic(auto, unfolding(crate::specs::StateReadings::word_use))]
fn word_use(vocabulary: &Vocabulary<'_>, word: &[u8]) -> Use
    ensures { result ≡ word_use_of (shown_vocabulary vocabulary.now) word.now }
{
    match vocabulary.names.number(word) {
        None => Use::Unknown,
        Some(i) => control_use(class_at(&vocabulary.classes, i)),
    }
}

/// Whether what one of some words is passes this test.
macro_rules! any_word {
    ($vocabulary:expr, $words:expr, $passes:ident) => {{
        for word in $words {
            if word_use($vocabulary, word).$passes() {
                return true;
            }
        }
        false
    }};
}

/// Whether a word among the inputs of a table names nothing.
fn has_unknown_word(vocabulary: &Vocabulary<'_>, words: &[&[u8]]) -> bool
    ensures { result ≡ has_unknown_word_of (shown_vocabulary vocabulary.now) (map (λ word. word.now) words.now) }
{
    any_word!(vocabulary, words, is_unknown)
}

/// Whether a word among the inputs of a table is a variable or node.
fn has_coupled_word(vocabulary: &Vocabulary<'_>, words: &[&[u8]]) -> bool
    ensures { result ≡ has_coupled_word_of (shown_vocabulary vocabulary.now) (map (λ word. word.now) words.now) }
{
    any_word!(vocabulary, words, is_coupled)
}

/// The number of a name.
#[tactic(auto, unfolding(crate::specs::StateReadings::number_in))]
fn number_in(vocabulary: &Vocabulary<'_>, word: &[u8]) -> Option<usize>
    ensures { result ≡ number_in_names (shown_vocabulary vocabulary.now) word.now }
{
    vocabulary.names.number(word)
}

/// The numbers of words that are names.
fn numbers_of(
    alloc: Global,
    vocabulary: &Vocabulary<'_>,
    words: &[&[u8]],
) -> Result<Vec<usize>, AllocError>
    ensures { IfOk result (λ numbers. numbers.items ≡ numbers_of_words (shown_vocabulary vocabulary.now)
        (map (λ word. word.now) words.now)) }
{
    let mut numbers = Vec::new(alloc);
    for word in words {
        if let Some(i) = number_in(vocabulary, word) {
            numbers.push(i)?;
        }
    }
    Ok(numbers)
}

/// What the names of the inputs of a table are.
pub(crate) fn table_inputs(
    alloc: Global,
    vocabulary: &Vocabulary<'_>,
    arguments: Option<Arguments<'_>>,
) -> Result<TableInputs, AllocError>
    ensures numbers { IfOk result (λ inputs. inputs.numbers.items ≡ numbers_of_words (shown_vocabulary vocabulary.now)
        (input_words_of (option_map shown_arguments arguments.entry))) }
    ensures unknown { IfOk result (λ inputs. inputs.unknown ≡ has_unknown_word_of (shown_vocabulary vocabulary.now)
        (input_words_of (option_map shown_arguments arguments.entry))) }
    ensures coupled { IfOk result (λ inputs. inputs.coupled ≡ has_coupled_word_of (shown_vocabulary vocabulary.now)
        (input_words_of (option_map shown_arguments arguments.entry))) }
{
    let words = input_words(alloc, arguments)?;
    let numbers = numbers_of(alloc, vocabulary, &words)?;
    Ok(TableInputs {
        numbers,
        unknown: has_unknown_word(vocabulary, &words),
        coupled: has_coupled_word(vocabulary, &words),
    })
}
