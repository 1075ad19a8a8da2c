//! The values of the inputs of a state table at 64 points, as words: bit k of a word is the value at point k.
ghost use Rattle.std.specs.Prelude.{◌≡◌, ℕ, ◌+◌, ◌*◌, ◌≤◌, ◌<◌, Bool, List, not, false, length, map, slice_index_or};
ghost use Rattle.std.specs.Prelude.{if◌then◌else◌};
ghost use Rattle.trit_cubes.specs.Sets.{point_of as point_with};
ghost use Rattle.statetables.specs.Lanes.{lane, before_at, after_at};
ghost use Rattle.cell_machine.specs.Values.{no_values, written, picked};
ghost use Rattle.step_tables.specs.Turned.{turned};

use crate::points::MOST_PLACES;
use cell_machine::Few;
use statetables::InputWords;

/// The points of a word.
pub const POINTS: usize = 64;

/// The most columns of a table's inputs.
pub const MOST_INPUTS: usize = 64;

/// The most names of a cell.
const MOST_NAMES: usize = 96;

/// A word for each place of a support.
pub type PlaceWords = Few<u64, MOST_PLACES>;

/// The words of a table's inputs.
pub type TableWords = Few<InputWords, MOST_INPUTS>;

/// The word of a value that is the same at all points.
pub fn word_of_all(value: bool) -> u64
    ensures { (k : ℕ) → k < 64 → lane k result ≡ value }
{
    if value { u64::MAX } else { 0 }
}

/// The word of the other values.
fn inverted(word: u64) -> u64
    ensures { (k : ℕ) → k < 64 → lane k result ≡ not (lane k word) }
{
    word ^ u64::MAX
}

/// Whether a place of the point with this number is 1.
fn is_set(place: usize, number: usize) -> bool
    requires { place < 64 }
    ensures { result ≡ lane place number }
{
    (number >> place) & 1 == 1
}

/// The words of the first six places, which repeat within 64 points.
const LOW_PLACES: [u64; 6] = [
    0xaaaa_aaaa_aaaa_aaaa,
    0xcccc_cccc_cccc_cccc,
    0xf0f0_f0f0_f0f0_f0f0,
    0xff00_ff00_ff00_ff00,
    0xffff_0000_ffff_0000,
    0xffff_ffff_0000_0000,
];

/// The word of a place at 64 points, of which so many times 64 stand before.
fn place_word(place: usize, block: usize) -> u64
    requires { place < 8 }
    ensures { (k : ℕ) → k < 64 → lane k result ≡ lane place (64 * block + k) }
{
    if place < 6 {
        LOW_PLACES[place]
    } else {
        word_of_all(is_set(place - 6, block))
    }
}

/// The words of so many places at these points.
pub fn place_words(places: usize, block: usize) -> PlaceWords
    requires { places ≤ 8 }
    ensures len { length result ≡ places }
    ensures is { (k : ℕ) → k < 64 → map (lane k) result ≡ point_with places (64 * block + k) }
{
    let mut words = Few::new(0);
    for place in 0..places {
        words.push(place_word(place, block));
    }
    words
}

/// The words of the places of points at which this place is turned.
pub fn turned_words(place: usize, words: &[u64]) -> PlaceWords
    requires { length words.now ≤ 8 }
    ensures { (k : ℕ) → k < 64 → map (lane k) result ≡ turned place (map (lane k) words.now) }
{
    let mut all = Few::new(0);
    if place >= words.len() {
        all.append(words);
        return all;
    }
    all.append(&words[..place]);
    all.push(inverted(words[place]));
    all.append(&words[place + 1..]);
    all
}

/// The word of a place that has a name, and the one that is found so far where it has another.
fn later_word(is_named: bool, word: u64, found: u64) -> u64
    ensures { result ≡ (if is_named then word else found) }
{
    if is_named { word } else { found }
}

/// The word of a name: that of the last of these names' places that has it, and the one that is found so far where none has.
fn last_word(names: &[usize], words: &[u64], name: usize, found: u64) -> u64
    ensures { (k : ℕ) (values : List Bool) → name < length values → lane k found ≡ slice_index_or values name false
        → lane k result ≡ slice_index_or (written values names.now (map (lane k) words.now)) name false }
{
    let (Some((first, names)), Some((word, words))) = (names.split_first(), words.split_first())
    else {
        return found;
    };
    let found = later_word(*first == name, *word, found);
    last_word(names, words, name, found)
}

/// The word of a name, where the places of a support have these words.
fn name_word(support: &[usize], words: &[u64], name: usize) -> u64
    ensures { (k : ℕ) → lane k result ≡ slice_index_or (written no_values support.now (map (lane k) words.now)) name false }
{
    if name >= MOST_NAMES {
        return 0;
    }
    last_word(support, words, name, 0)
}

/// The words of some names, where the places of a support have these words before a change and after it.
pub fn input_words(names: &[usize], support: &[usize], before: &[u64], after: &[u64]) -> TableWords
    requires { length names.now ≤ 64 }
    ensures before { (k : ℕ) → before_at k result ≡ picked (written no_values support.now (map (lane k) before.now)) names.now }
    ensures after { (k : ℕ) → after_at k result ≡ picked (written no_values support.now (map (lane k) after.now)) names.now }
{
    let mut words = Few::new(InputWords {
        before: 0,
        after: 0,
    });
    for name in names {
        words.push(InputWords {
            before: name_word(support, before, *name),
            after: name_word(support, after, *name),
        });
    }
    words
}
