//! The number of cells that a word asks for.
ghost use Rattle.std.specs.Prelude.{◌≡◌};
ghost use Rattle.std.specs.Char.{is_ascii_digit};
ghost use Rattle.std.specs.List.{list_all};
ghost use Rattle.command_words.specs.Numerals.{is_numeral, cells_within, asked_cells};

/// The most digits that a number of cells may have.
const MOST_DIGITS: usize = 5;

/// The most cells that a word may ask for.
const MOST_CELLS: u64 = 10_000;

/// The number of cells that a word of 1 to 5 decimal digits stands for, leading zeros among them, where it is from 1 to 10,000.
#[tactic(auto, unfolding(crate::specs::Numerals::asked_cells))]
pub(crate) fn asked_cells(word: &str) -> Option<u64>
    ensures { result ≡ asked_cells word.now }
{
    if !is_numeral(word.as_bytes()) {
        return None;
    }
    match word.parse::<u64>() {
        Ok(cells) => cells_within(cells),
        Err(_) => None,
    }
}

/// This number of cells, where it is from 1 to 10,000.
fn cells_within(cells: u64) -> Option<u64>
    ensures { result ≡ cells_within cells }
{
    if cells < 1 || cells > MOST_CELLS {
        None
    } else {
        Some(cells)
    }
}

/// Whether a word is of 1 to 5 decimal digits.
fn is_numeral(word: &[u8]) -> bool
    ensures { result ≡ is_numeral word.now }
{
    !word.is_empty() && word.len() <= MOST_DIGITS && are_digits(word)
}

/// Whether a word is of decimal digits alone.
fn are_digits(word: &[u8]) -> bool
    ensures { result ≡ list_all is_ascii_digit word.now }
{
    word.iter().all(|byte| byte.is_ascii_digit())
}
