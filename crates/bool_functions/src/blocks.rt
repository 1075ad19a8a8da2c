//! The values of a tree at many points, a machine word of points at a time.
ghost use Rattle.std.specs.Prelude.{◌≡◌, ◌≤◌, ◌<◌, ◌-◌, ◌^◌, ◌++◌, min, IfOk, OnOk, EachIndex, Some, length, map, slice_get};
ghost use Rattle.std.specs.List.{range_with_len};
ghost use Rattle.bool_functions.specs.Tree.{value_by};
ghost use Rattle.bool_functions.specs.Point.{entry_of};
ghost use Rattle.bool_functions.specs.Block.{word_by, word_at, name_word, named, bits_of};

use crate::tree::Node;
use std::alloc::{AllocError, Global};

/// The most points of a table.
const MOST_POINTS: usize = 1024;

/// The points of a block: as many as a word has bits.
const POINTS: usize = 64;

/// The values of a name at the points of a block, as the bits of a word.
#[derive(Clone, Copy)]
struct NameWord {
    name: usize,
    word: u64,
}

/// The value of a name at the point with this number.
fn entry_of(places: &[usize], point: usize, i: usize) -> bool
    ensures { result ≡ entry_of places.now point i }
{
    let mut rest = point;
    for place in places {
        if *place == i {
            return rest % 2 == 1;
        }
        rest /= 2;
    }
    false
}

/// The values of a name at the points of the block from this one on.
fn name_word(places: &[usize], start: usize, i: usize) -> u64
    requires { start < 1024 }
    ensures { result ≡ name_word places.now start i }
{
    let mut word = 0;
    for step in 0..POINTS {
        let point = start + (POINTS - 1 - step);
        word = if entry_of(places, point, i) {
            2 * word + 1
        } else {
            2 * word
        };
    }
    word
}

/// The values of all places' names at the points of the block from this one on.
fn name_words(alloc: Global, places: &[usize], start: usize) -> Result<Vec<NameWord>, AllocError>
    requires { start < 1024 }
    ensures { IfOk result (λ words. words.items ≡ map (named places.now start) places.now) }
{
    let mut words = Vec::new(alloc);
    for name in places {
        words.push(NameWord {
            name: *name,
            word: name_word(places, start, *name),
        })?;
    }
    Ok(words)
}

/// The word of a name among these, 0 where it is none of them.
fn word_at(words: &[NameWord], i: usize) -> u64
    ensures { result ≡ word_at words.now i }
{
    for named in words {
        if named.name == i {
            return named.word;
        }
    }
    0
}

/// The values of a tree at the points of a block, where these are the words of its names.
fn node_word(node: &Node, words: &[NameWord]) -> u64
    ensures { result ≡ word_by (word_at words.now) node.now }
{
    match node {
        Node::Zero => 0,
        Node::One => u64::MAX,
        Node::Name(i) => word_at(words, *i),
        Node::Not(part) => u64::MAX - node_word(part.get(), words),
        Node::Xor(left, right) => node_word(left.get(), words) ^ node_word(right.get(), words),
        Node::And(left, right) => node_word(left.get(), words) & node_word(right.get(), words),
        Node::Or(left, right) => node_word(left.get(), words) | node_word(right.get(), words),
    }
}

/// Adds the first bits of a word to a list.
fn push_bits(values: &mut Vec<bool>, word: u64, count: usize) -> Result<(), AllocError>
    ensures { OnOk result (values.new.items ≡ values.old.items ++ bits_of count word) }
{
    let mut rest = word;
    for at in 0..count {
        values.push(rest % 2 == 1)?;
        rest /= 2;
    }
    Ok(())
}

/// Adds the values of a tree at the points of the block from this one on, of so many points in all.
fn add_block(
    alloc: Global,
    values: &mut Vec<bool>,
    node: &Node,
    places: &[usize],
    start: usize,
    count: usize,
) -> Result<(), AllocError>
    requires start { start < 1024 }
    ensures { OnOk result (values.new.items ≡ values.old.items
        ++ map (λ k. value_by (entry_of places.now k) node.now) (range_with_len start (min (count - start) 64))) }
{
    let points = count.saturating_sub(start).min(POINTS);
    if points == 0 {
        return Ok(());
    }
    let words = name_words(alloc, places, start)?;
    let word = node_word(node, &words);
    push_bits(values, word, points)?;
    Ok(())
}

/// How many points there are over these places.
fn point_count(places: &[usize]) -> usize
    requires { length places.now ≤ 10 }
    ensures count { result ≡ 2 ^ length places.now }
    ensures few { result ≤ 1024 }
{
    1 << places.len()
}

/// The values of a tree at all points over these places.
pub(crate) fn table(node: &Node, alloc: Global, places: &[usize]) -> Result<Vec<bool>, AllocError>
    requires { length places.now ≤ 10 }
    ensures len { IfOk result (λ v. length v.items ≡ 2 ^ length places.now) }
    ensures entries { IfOk result (λ v. EachIndex v.items
        (λ k. slice_get v.items k ≡ Some (value_by (entry_of places.now k) node.now))) }
{
    let count = point_count(places);
    let mut values = Vec::with_capacity(alloc, count)?;
    for block in 0..MOST_POINTS / POINTS {
        add_block(alloc, &mut values, node, places, POINTS * block, count)?;
    }
    Ok(values)
}
