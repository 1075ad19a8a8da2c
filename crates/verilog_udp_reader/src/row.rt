//! The rows of a primitive's table, by recursive descent. (IEEE 1364-2005, 8.1.4, 8.2 and 8.4.)

ghost use Rattle.std.specs.Prelude.{◌≡◌, ◌&&◌};
ghost use Rattle.grammar_reader.specs.Words.{valued};
ghost use Rattle.udp_tables.specs.VerilogPrimitives as spec;
ghost use Rattle.grammar_reader.specs.Reading.{read, Reads, ReadsAs};

use crate::language::{Cursor, Verilog};
use grammar_reader::{Language, Read, Refusal, Stop};
use std::alloc::Global;
use udp_tables::{Entries, Entry, Level, Next, UdpRow};

/// The level that a token stands for.
#[inline(always)]
fn level(token: &[u8]) -> Option<Level>
    ensures { result ≡ spec.symbol spec.level_by token.now }
{
    match token {
        [byte] => match byte {
            b'0' => Some(Level::Zero),
            b'1' => Some(Level::One),
            b'x' | b'X' => Some(Level::Unknown),
            b'?' => Some(Level::Any),
            b'b' | b'B' => Some(Level::Binary),
            _ => None,
        },
        _ => None,
    }
}

/// The change that a token alone stands for.
#[inline(always)]
fn change(token: &[u8]) -> Option<Entry>
    ensures { result ≡ spec.symbol spec.change_by token.now }
{
    match token {
        [byte] => match byte {
            b'r' | b'R' => Some(Entry::R),
            b'f' | b'F' => Some(Entry::F),
            b'p' | b'P' => Some(Entry::P),
            b'n' | b'N' => Some(Entry::N),
            b'*' => Some(Entry::Star),
            _ => None,
        },
        _ => None,
    }
}

/// What a token gives as an output.
#[inline(always)]
fn next(sequential: bool, token: &[u8]) -> Option<Next>
    ensures { result ≡ spec.symbol (spec.next_by sequential) token.now }
{
    match token {
        [byte] => match byte {
            b'0' => Some(Next::Zero),
            b'1' => Some(Next::One),
            b'x' | b'X' => Some(Next::Unknown),
            b'-' if sequential => Some(Next::Keep),
            _ => None,
        },
        _ => None,
    }
}

/// Whether a token begins a change.
#[inline(always)]
fn begins_change(token: &[u8]) -> bool
    ensures { result ≡ spec.begins_change token.now }
{
    change(token).is_some() || Verilog::is_same(token, b"(")
}

/// Whether a token begins an entry.
#[inline(always)]
pub fn begins_entry(sequential: bool, token: &[u8]) -> bool
    ensures { result ≡ spec.begins_entry sequential token.now }
{
    level(token).is_some() || sequential && begins_change(token)
}

/// The entry that a token alone is.
#[inline(always)]
fn whole_entry(token: &[u8]) -> Option<Entry>
    ensures { result ≡ spec.whole_entry token.now }
{
    match level(token) {
        Some(level) => Some(Entry::Level(level)),
        None => change(token),
    }
}

/// Whether one of the entries is a change.
fn has_change(entries: &[Entry]) -> bool
    ensures { result ≡ spec.has_change entries.now }
{
    for entry in entries {
        if !matches!(entry, Entry::Level(_)) {
            return true;
        }
    }
    false
}

/// Whether a token begins a second change of a row with these entries.
#[inline(always)]
fn begins_second_change(entries: &[Entry], token: &[u8]) -> bool
    ensures { result ≡ (spec.has_change entries.now && spec.begins_change token.now) }
{
    begins_change(token) && has_change(entries)
}

/// A level.
#[tactic(auto, using(grammar_reader::proofs::Values::valued_found))]
fn a_level(cursor: &mut Cursor<'_>) -> Read<Level>
    ensures { Reads (read spec.a_level cursor.old) result cursor.new }
{
    let found = level(cursor.bytes());
    cursor.value(found)
}

/// What a row gives as an output.
#[tactic(auto, using(grammar_reader::proofs::Values::valued_found))]
fn an_output(cursor: &mut Cursor<'_>, sequential: bool) -> Read<Next>
    ensures { Reads (read (valued (spec.symbol (spec.next_by sequential))) cursor.old) result cursor.new }
{
    let found = next(sequential, cursor.bytes());
    cursor.value(found)
}

/// A change from a level to another, behind its bracket.
#[inline(always)]
#[tactic(auto, unfolding(udp_tables::specs::VerilogPrimitives::pair))]
fn pair(cursor: &mut Cursor<'_>) -> Read<Entry>
    ensures { Reads (read spec.pair cursor.old) result cursor.new }
{
    let before = a_level(cursor)?;
    let after = a_level(cursor)?;
    cursor.expect(b")")?;
    Ok(Entry::Pair(before, after))
}

/// An entry, behind its first token.
#[inline(always)]
fn entry_after(cursor: &mut Cursor<'_>, first: &[u8]) -> Read<Entry>
    ensures { Reads (read (spec.entry_after first.now) cursor.old) result cursor.new }
{
    match whole_entry(first) {
        Some(entry) => Ok(entry),
        None => pair(cursor),
    }
}

/// Puts one more entry of a row, behind its first token, behind these.
#[inline(always)]
#[tactic(auto, unfolding(udp_tables::specs::VerilogPrimitives::next_entry))]
fn next_entry(
    cursor: &mut Cursor<'_>,
    alloc: Global,
    first: &[u8],
    entries: &mut Entries,
) -> Read<()>
    ensures { ReadsAs (λ _. entries.new) (read (spec.next_entry entries.old first.now) cursor.old) result cursor.new }
{
    let entry = entry_after(cursor, first)?;
    entries.push(alloc, entry)?;
    Ok(())
}

/// Puts the entries of a row behind these. A level, as most of them are, is told by one look at its token.
#[tactic(auto, unfolding(udp_tables::specs::VerilogPrimitives::more_entries, udp_tables::specs::VerilogPrimitives::next_entry), using(grammar_reader::proofs::Repeats::turn, crate::proofs::Entries::no_entry, crate::proofs::Entries::second_change, crate::proofs::Entries::one_entry))]
fn more_entries(
    cursor: &mut Cursor<'_>,
    alloc: Global,
    sequential: bool,
    entries: &mut Entries,
) -> Read<()>
    ensures { ReadsAs (λ _. entries.new) (read (spec.more_entries sequential entries.old) cursor.old) result cursor.new }
{
    for _turn in 0..cursor.left() {
        let token = cursor.bytes();
        if let Some(level) = level(token) {
            cursor.skip();
            entries.push(alloc, Entry::Level(level))?;
            continue;
        }
        if !begins_entry(sequential, token) {
            break;
        }
        if begins_second_change(entries.as_slice(), token) {
            return Err(Stop::Refused(Refusal::TwoEdges));
        }
        cursor.skip();
        next_entry(cursor, alloc, token, entries)?;
    }
    Ok(())
}

/// The state and the output of a row with a state, behind its entries.
#[tactic(auto, unfolding(udp_tables::specs::VerilogPrimitives::state_and_next))]
fn state_and_next(cursor: &mut Cursor<'_>, inputs: Entries) -> Read<UdpRow>
    ensures { Reads (read (spec.state_and_next inputs) cursor.old) result cursor.new }
{
    let state = a_level(cursor)?;
    cursor.expect(b":")?;
    let next = an_output(cursor, true)?;
    cursor.expect(b";")?;
    Ok(UdpRow {
        inputs,
        state,
        next,
    })
}

/// The output of a row without a state, behind its entries.
#[tactic(auto, unfolding(udp_tables::specs::VerilogPrimitives::output_level))]
fn output_level(cursor: &mut Cursor<'_>, inputs: Entries) -> Read<UdpRow>
    ensures { Reads (read (spec.output_level inputs) cursor.old) result cursor.new }
{
    let next = an_output(cursor, false)?;
    cursor.expect(b";")?;
    Ok(UdpRow {
        inputs,
        state: Level::Any,
        next,
    })
}

/// What stands behind the entries of a row.
fn row_end(cursor: &mut Cursor<'_>, sequential: bool, inputs: Entries) -> Read<UdpRow>
    ensures { Reads (read (spec.row_end sequential inputs) cursor.old) result cursor.new }
{
    if sequential {
        state_and_next(cursor, inputs)
    } else {
        output_level(cursor, inputs)
    }
}

/// A row with an entry for each of so many inputs, behind its first token.
#[tactic(auto, unfolding(udp_tables::specs::VerilogPrimitives::row))]
pub fn row(
    cursor: &mut Cursor<'_>,
    alloc: Global,
    sequential: bool,
    inputs: usize,
    first: &[u8],
) -> Read<UdpRow>
    ensures { Reads (read (spec.row sequential inputs first.now) cursor.old) result cursor.new }
{
    let mut entries = Entries::new();
    next_entry(cursor, alloc, first, &mut entries)?;
    more_entries(cursor, alloc, sequential, &mut entries)?;
    cursor.expect_where(entries.len() == inputs, Refusal::Width, b":")?;
    row_end(cursor, sequential, entries)
}
