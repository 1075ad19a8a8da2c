//! The next state of a sequential primitive, by IEEE 1364-2005, clause 8.
ghost use Rattle.std.specs.Prelude.{◌≡◌, ◌<◌, IsTrue, All, Some, false, length, slice_set, slice_index_or};
ghost use Rattle.std.specs.Prelude.{unwrap_or};
ghost use Rattle.std.specs.List.{list_all};
ghost use Rattle.trit_cubes.specs.declared.trits.Trit.TheVariants as trit;
ghost use Rattle.udp_tables.specs.Tables.{columns_match, AreKept};
ghost use Rattle.udp_tables.specs.Primitive.{entry_matches, is_level};
ghost use Rattle.udp_tables.specs.Sequential.{row_matches, is_level_row, udp_next, HasEntries};
ghost use Rattle.udp_tables.specs.RowWords.{value_word};
ghost use Rattle.udp_tables.specs.RowKeys.{row_key};

use crate::row_keys::RowKey;
use crate::row_words::value_word;
use crate::table::{Entry, Udp, UdpRow};
use sqlite_items::at;
use trit_cubes::Trit;

/// The next state of a sequential primitive whose inputs are `inputs` after a change of the input with the number
/// `changed`, which was `old` before it: that of the first row of levels that matches, else of the first row with a change
/// entry that matches, else x (IEEE 1364-2005, clause 8). Takes no memory.
#[tactic(auto, using(crate::proofs::RowKeyLemmas::none_kept))]
pub fn udp_next(udp: &Udp, state: Trit, inputs: &[Trit], changed: usize, old: Trit) -> Trit
    requires table { HasEntries udp.now }
    requires entries { length inputs.now ≡ length udp.now.inputs }
    requires changed { changed < length inputs.now }
    ensures { result ≡ udp_next udp.now.rows (slice_set inputs.now changed old) inputs.now state }
{
    keyed_next(udp, &[], state, inputs, changed, old)
}

/// The same, sooner where the keys of the rows are kept: only rows are read whose keys let them match.
pub fn keyed_next(
    udp: &Udp,
    keys: &[RowKey],
    state: Trit,
    inputs: &[Trit],
    changed: usize,
    old: Trit,
) -> Trit
    requires table { HasEntries udp.now }
    requires entries { length inputs.now ≡ length udp.now.inputs }
    requires keys { AreKept row_key keys.now udp.now.rows }
    ensures { result ≡ udp_next udp.now.rows (slice_set inputs.now changed old) inputs.now state }
{
    let seen = Seen {
        inputs,
        word: value_word(inputs),
        changed,
        old,
        state,
    };
    seen_next(udp, keys, &seen)
}

/// What the first row of levels that matches gives, else the first row with a change entry that matches, x without one: that one is
/// noted on the way.
fn seen_next(udp: &Udp, keys: &[RowKey], seen: &Seen) -> Trit
    requires table { HasEntries udp.now }
    requires entries { length seen.now.inputs.now ≡ length udp.now.inputs }
    requires keys { AreKept row_key keys.now udp.now.rows }
    requires word { seen.now.word ≡ value_word seen.now.inputs.now }
    ensures { result ≡ udp_next udp.now.rows (slice_set seen.now.inputs.now seen.now.changed seen.now.old) seen.now.inputs.now
        seen.now.state }
{
    let mut found = None;
    for (i, row) in udp.rows.as_slice().iter().enumerate() {
        let key = RowKey::kept(keys, i, row);
        if row.matches_change(key, seen) {
            if key.of_levels {
                return row.next.after(seen.state);
            }
            found = earlier(found, row.next.after(seen.state));
        }
    }
    found.unwrap_or(Trit::Unknown)
}

/// What was found, and this where nothing was.
fn earlier(found: Option<Trit>, next: Trit) -> Option<Trit>
    ensures { result ≡ Some (unwrap_or found next) }
{
    match found {
        Some(first) => Some(first),
        None => Some(next),
    }
}

/// A change of one input, as a primitive with a state sees it.
#[derive(Clone, Copy)]
struct Seen<'a> {
    /// The inputs after the change.
    inputs: &'a [Trit],
    /// Their word.
    word: u64,
    /// The number of the input that changes.
    changed: usize,
    /// The value that it had.
    old: Trit,
    /// The state before the change.
    state: Trit,
}

impl UdpRow {
    /// Whether the row has no change entry.
    pub fn is_level(&self) -> bool
        ensures { result ≡ is_level_row self.now }
    {
        all_levels(self.inputs.as_slice())
    }

    /// Whether the row, which has this key, matches a change of one input.
    fn matches_change(&self, key: RowKey, seen: &Seen) -> bool
        requires entries { length self.now.inputs ≡ length seen.now.inputs.now }
        requires key { key ≡ row_key self.now }
        requires word { seen.now.word ≡ value_word seen.now.inputs.now }
        ensures { result ≡ row_matches (slice_set seen.now.inputs.now seen.now.changed seen.now.old) seen.now.inputs.now
            seen.now.state self.now }
    {
        self.entries_match_change(key, seen) && self.state.matches(seen.state)
    }

    /// Whether the entries of the row, which has this key, match a change of one input.
    #[tactic(auto, using(crate::proofs::RowKeyLemmas::entries_ruled_out, crate::proofs::RowMatches::levels_decide))]
    fn entries_match_change(&self, key: RowKey, seen: &Seen) -> bool
        requires entries { length self.now.inputs ≡ length seen.now.inputs.now }
        requires key { key ≡ row_key self.now }
        requires word { seen.now.word ≡ value_word seen.now.inputs.now }
        ensures { result ≡ columns_match entry_matches self.now.inputs
            (slice_set seen.now.inputs.now seen.now.changed seen.now.old) seen.now.inputs.now }
    {
        if !key.words.may_match(seen.word) {
            return false;
        }
        let entries = self.inputs.as_slice();
        if key.of_levels && entries.len() <= 32 {
            return true;
        }
        if !key.of_levels && is_no_change(entries, seen.inputs, seen.changed, seen.old) {
            return false;
        }
        changes_match(entries, seen.inputs, seen.changed, seen.old)
    }
}

/// Whether the entry of the changed input is a level or a change that the input did not make: then a row that has a change entry
/// does not match.
fn is_no_change(entries: &[Entry], inputs: &[Trit], changed: usize, old: Trit) -> bool
    ensures { IsTrue result → list_all is_level entries.now ≡ false
        → columns_match entry_matches entries.now (slice_set inputs.now changed old) inputs.now ≡ false }
{
    let Some(entry) = at(entries, changed) else {
        return false;
    };
    let Some(value) = at(inputs, changed) else {
        return false;
    };
    entry.is_level() || !entry.matches(old, *value)
}

/// Whether no entry is a change.
fn all_levels(entries: &[Entry]) -> bool
    ensures { result ≡ list_all is_level entries.now }
{
    entries.iter().all(|entry| entry.is_level())
}

/// The value before a change of the input with the number `changed`, of the input i.
fn value_before(inputs: &[Trit], changed: usize, old: Trit, i: usize) -> Trit
    requires { i < length inputs.now }
    ensures { result ≡ slice_index_or (slice_set inputs.now changed old) i trit.Unknown }
{
    if i == changed { old } else { inputs[i] }
}

/// Whether each entry matches its input at a change of one.
fn changes_match(entries: &[Entry], inputs: &[Trit], changed: usize, old: Trit) -> bool
    requires { length entries.now ≡ length inputs.now }
    ensures { result ≡ columns_match entry_matches entries.now (slice_set inputs.now changed old) inputs.now }
{
    for (i, entry) in entries.iter().enumerate() {
        if !entry.matches(value_before(inputs, changed, old, i), inputs[i]) {
            return false;
        }
    }
    true
}
