//! The tables of timing groups and the times in them.
ghost use Rattle.std.specs.Prelude.{◌≡◌, ◌≤◌, true, length, take};
ghost use Rattle.std.specs.Option.{option_copied};
ghost use Rattle.liberty_groups.specs.declared.tree.Item.{out-Item};
ghost use Rattle.liberty_groups.specs.Attributes.{groups_named, first_of};
ghost use Rattle.cell_machine.specs.Delay.{least};
ghost use Rattle.liberty_text.specs.Time.{IsWithin};
ghost use Rattle.timing_arcs.specs.Times.{time_of, time_in};
ghost use Rattle.timing_arcs.specs.Tables.{limit_of, bad_numbers_at, is_separator};
ghost use Rattle.timing_arcs.specs.Sums.{first_unless, no_sum, with_time, with_text, with_arguments, with_item, with_table};
ghost use Rattle.timing_arcs.specs.Sums.{with_tables};
ghost use Rattle.timing_arcs.specs.Words.{with_word, word_length};

use crate::offsets::lesser;
use crate::plain_entries::plain_entry;
use crate::words::{behind_first, entry_length, is_end};
use liberty_groups::{Group, Item, Value, inner_group};
use liberty_text::{Fixed, Unit, fixed, picoseconds};

/// What some entries of tables give.
#[derive(Clone, Copy)]
pub(crate) struct Sum {
    /// Whether there is an entry.
    has_entry: bool,
    /// The greatest of their times, in picoseconds, 0 where there is none.
    greatest: u64,
    /// The least offset of a `values` statement with an entry that is no time.
    bad_at: Option<usize>,
}

/// What the tables of one name give.
#[derive(Clone, Copy)]
pub(crate) struct Limit {
    /// The greatest of their times, in picoseconds, 0 where there is none.
    pub(crate) time: u64,
    /// The least offset of what is wrong in them: of a `values` statement with an entry that is no time, or of the
    /// first table where none has an entry.
    pub(crate) bad_at: Option<usize>,
}

/// The time that a text is, in picoseconds: nothing where it is no number within the limits or the unit is unknown.
#[tactic(auto, unfolding(crate::specs::Times::time_of))]
pub(crate) fn time(unit: Option<Unit>, text: &[u8]) -> Option<u64>
    ensures { result ≡ time_of unit text.now }
{
    let unit = unit?;
    match fixed(text) {
        Ok(number) => picoseconds(number, unit),
        Err(_) => None,
    }
}

/// The time of a number, in picoseconds: nothing where the unit is unknown or the time is above the greatest.
fn time_in(unit: Option<Unit>, number: Fixed) -> Option<u64>
    ensures { result ≡ time_in unit number }
{
    picoseconds(number, unit?)
}

/// Whether one product shows that a number is a time that is not above this one.
#[inline(always)]
fn is_shown_within(unit: Option<Unit>, number: Fixed, most: u64) -> bool
    ensures { result ≡ true → IsWithin most (time_in unit number) }
{
    match unit {
        Some(unit) => liberty_text::is_shown_within(number, unit, most),
        None => false,
    }
}

impl Sum {
    /// That of no entries.
    fn new() -> Sum
        ensures { result ≡ no_sum }
    {
        Sum {
            has_entry: false,
            greatest: 0,
            bad_at: None,
        }
    }

    /// Adds an entry, in the statement at this offset, that is this time or none.
    fn add_time(&mut self, at: usize, time: Option<u64>)
        ensures { self.new ≡ with_time at self.old time }
    {
        self.has_entry = true;
        match time {
            Some(time) => self.greatest = self.greatest.max(time),
            None => self.bad_at = lesser(self.bad_at, Some(at)),
        }
    }

    /// Adds an entry, in the statement at this offset, that is this number. Most entries of a table are below one before them,
    /// which a product shows sooner than a quotient.
    #[tactic(auto, using(crate::proofs::PlainEntries::not_above))]
    fn add_number(&mut self, unit: Option<Unit>, at: usize, number: Fixed)
        ensures { self.new ≡ with_time at self.old (time_in unit number) }
    {
        if is_shown_within(unit, number, self.greatest) {
            self.has_entry = true;
        } else {
            self.add_time(at, time_in(unit, number));
        }
    }

    /// Adds the entry at the front of a text, in the statement at this offset, if it has a byte, and answers how many it has.
    #[tactic(auto, using(crate::proofs::PlainEntries::joined, crate::proofs::PlainEntries::passed, crate::proofs::PlainEntries::none_there))]
    fn add_front(&mut self, unit: Option<Unit>, at: usize, text: &[u8]) -> usize
        ensures sum { self.new ≡ with_word unit at self.old (take (word_length is_separator text.now) text.now) }
        ensures length { result ≡ word_length is_separator text.now }
        ensures within { result ≤ length text.now }
    {
        if is_end(text) {
            return 0;
        }
        if let Some(entry) = plain_entry(text) {
            self.add_number(unit, at, entry.number);
            return entry.length;
        }
        let (word, _) = text.split_at(entry_length(text));
        self.add_time(at, time(unit, word));
        word.len()
    }

    /// Adds the entries of a text, in the statement at this offset.
    fn add_text(&mut self, unit: Option<Unit>, at: usize, text: &[u8])
        ensures { self.new ≡ with_text unit at self.old text.now }
    {
        let mut left = text;
        while left.len() != 0 {
            let (_, behind) = left.split_at(self.add_front(unit, at, left));
            left = behind_first(behind);
        }
    }

    /// Adds the entries of a `values` statement at this offset.
    fn add_arguments(&mut self, unit: Option<Unit>, at: usize, arguments: &[Value])
        ensures { self.new ≡ with_arguments unit at self.old arguments.now }
    {
        for value in arguments {
            self.add_text(unit, at, value.bytes());
        }
    }

    /// Adds the entries of a statement, if it is a `values` statement.
    fn add_item(&mut self, unit: Option<Unit>, item: &Item)
        ensures { self.new ≡ with_item unit self.old (out-Item item.now) }
    {
        match item {
            Item::Complex {
                name,
                arguments,
                at,
            } if name.as_slice() == b"values".as_slice() => {
                self.add_arguments(unit, *at, arguments.as_slice());
            }
            _ => {}
        }
    }

    /// Adds the entries of a table.
    fn add_table(&mut self, unit: Option<Unit>, table: &Group)
        ensures { self.new ≡ with_table unit self.old table.now }
    {
        for item in table.items.as_slice() {
            self.add_item(unit, item);
        }
    }

    /// Adds the entries of all tables of one name in a timing group.
    fn add_tables(&mut self, unit: Option<Unit>, group: &Group, name: &[u8])
        ensures { self.new ≡ with_tables unit name.now self.old group.now.items }
    {
        for item in group.items.as_slice() {
            if let Some(table) = inner_group(item, name) {
                self.add_table(unit, table);
            }
        }
    }
}

/// The first group of this name.
fn first_group<'a>(group: &'a Group, name: &[u8]) -> Option<&'a Group>
    ensures { option_copied result ≡ first_of (groups_named name.now group.now.items) }
{
    for item in group.items.as_slice() {
        if let Some(found) = inner_group(item, name) {
            return Some(found);
        }
    }
    None
}

/// The offset of the first table, unless there is an entry.
fn first_unless(has_entry: bool, first: Option<&Group>) -> Option<usize>
    ensures { result ≡ first_unless has_entry (option_copied first.entry) }
{
    match first {
        Some(table) if !has_entry => Some(table.at),
        _ => None,
    }
}

impl Limit {
    /// What all tables of one name in a timing group give together.
    pub(crate) fn of_tables(unit: Option<Unit>, group: &Group, name: &[u8]) -> Limit
        ensures time { result.time ≡ limit_of unit name.now group.now }
        ensures bad_at { result.bad_at ≡ least (bad_numbers_at unit name.now group.now) }
    {
        let mut sum = Sum::new();
        sum.add_tables(unit, group, name);
        let empty_at = first_unless(sum.has_entry, first_group(group, name));
        Limit {
            time: sum.greatest,
            bad_at: lesser(empty_at, sum.bad_at),
        }
    }
}
