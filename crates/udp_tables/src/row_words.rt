//! Two words of a row of a table, by which most rows that do not match are known without a look at their entries. A value takes
//! two bits of a word, the first column the lowest; of the columns behind the first 32 the words say nothing.
ghost use Rattle.std.specs.Prelude.{◌≡◌, ◌≤◌, ◌<◌, ◌+◌, ◌*◌, ◌^◌, length, map};
ghost use Rattle.udp_tables.specs.RowWords.{level_of, value_bits, value_word, words_of};

use crate::table::Level;
use trit_cubes::Trit;

/// Which bits of the word of the values a row asks for, and what these have to be.
#[derive(Clone, Copy)]
pub struct RowWords {
    /// The bits that the row asks for.
    pub asked: u64,
    /// What they have to be; 0 where the row does not ask.
    pub values: u64,
}

/// What stands at a column of a row, and asks something of the value that the column has after a change.
pub trait Column: Copy {
    ghost use Rattle.udp_tables.specs.declared.table.Level.{Level};

    /// The level that the value after a change has wherever the column matches.
    ghost level: { Self → Level };

    /// The level that the value after a change has wherever the column matches.
    fn level(self) -> Level
        ensures { result ≡ level self };
}

impl Column for Trit {
    ghost use Rattle.udp_tables.specs.RowWords.{level_of};

    ghost level = { level_of };

    fn level(self) -> Level {
        level_of(self)
    }
}

/// The level that only this value has.
fn level_of(value: Trit) -> Level
    ensures { result ≡ level_of value }
{
    match value {
        Trit::Zero => Level::Zero,
        Trit::One => Level::One,
        Trit::Unknown => Level::Unknown,
    }
}

impl Level {
    ghost use Rattle.udp_tables.specs.RowWords.{level_bits};

    /// Which of the two bits of a value the level asks for, and what these bits are.
    fn bits(self) -> (u64, u64)
        ensures is { result ≡ level_bits self }
        ensures below { (result.0 < 4) × (result.1 < 4) }
    {
        match self {
            Level::Zero => (3, 0),
            Level::One => (3, 1),
            Level::Unknown => (3, 2),
            Level::Any => (0, 0),
            Level::Binary => (2, 0),
        }
    }
}

impl RowWords {
    ghost use Rattle.udp_tables.specs.RowWords.{asked_bits, value_bits, row_words, may_match};

    /// The words of a row of these columns.
    pub fn of<C: Column>(columns: &[C]) -> RowWords
        ensures { result ≡ row_words C.level columns.now }
    {
        if columns.len() <= 32 {
            words_of(columns)
        } else {
            words_of(&columns[..32])
        }
    }

    /// The words where one more column stands in front.
    fn after(self, level: Level) -> RowWords
        requires asked { self.asked < 2 ^ 62 }
        requires values { self.values < 2 ^ 62 }
        ensures { result ≡ record { asked = asked_bits level + 4 * self.asked; values = value_bits level + 4 * self.values } }
    {
        let (asked, values) = level.bits();
        RowWords {
            asked: asked + 4 * self.asked,
            values: values + 4 * self.values,
        }
    }

    /// Whether the row may match where the values have this word.
    pub fn may_match(self, word: u64) -> bool
        ensures { result ≡ may_match self word }
    {
        word & self.asked == self.values
    }
}

/// The word of values.
pub fn value_word(values: &[Trit]) -> u64
    ensures { result ≡ value_word values.now }
{
    if values.len() <= 32 {
        word_of(values)
    } else {
        word_of(&values[..32])
    }
}

/// The two bits of a value.
fn trit_bits(value: Trit) -> u64
    ensures is { result ≡ value_bits (level_of value) }
    ensures below { result < 4 }
{
    match value {
        Trit::Zero => 0,
        Trit::One => 1,
        Trit::Unknown => 2,
    }
}

/// The word of these values, the last one first.
fn word_of(values: &[Trit]) -> u64
    requires { length values.now ≤ 32 }
    ensures { result ≡ (words_of (map level_of values.now)).values }
{
    let mut word = 0;
    let mut left = values.len();
    while left > 0 {
        left -= 1;
        word = trit_bits(values[left]) + 4 * word;
    }
    word
}

/// The words of these columns, the last one first.
fn words_of<C: Column>(columns: &[C]) -> RowWords
    requires { length columns.now ≤ 32 }
    ensures { result ≡ words_of (map C.level columns.now) }
{
    let mut words = RowWords {
        asked: 0,
        values: 0,
    };
    let mut left = columns.len();
    while left > 0 {
        left -= 1;
        words = words.after(columns[left].level());
    }
    words
}
