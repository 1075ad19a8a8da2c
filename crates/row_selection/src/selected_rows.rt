//! The selection of rows that may match at a change of one input.
ghost use Rattle.std.specs.Prelude.{◌≡◌, ◌<◌, ◌≤◌, [], ◌∷◌, ◌++◌, true, length, slice_set, slice_index_or};
ghost use Rattle.std.specs.List.{list_all};
ghost use Rattle.udp_tables.specs.Primitive.{is_level};
ghost use Rattle.udp_tables.specs.Sequential.{HasEntries};
ghost use Rattle.row_selection.specs.Selection.{any, settled, may_go, selects, is_of, selected_row, selected_of, selected_hit};
ghost use Rattle.row_selection.specs.Selection.{chosen, is_any, asks_nothing, ignored_by, ignored};

use cell_machine::Few;
use trit_cubes::Trit;
use udp_tables::{Entry, Level, Next, RowWords, Udp, UdpRow};

/// What is asked of a row at changes of one input.
#[derive(Clone, Copy)]
pub struct SelectedRow {
    /// The words of its entries, with `?` in the place of that of the input.
    pub words: RowWords,
    /// The entry of the input.
    pub entry: Entry,
    /// What the current state has to be.
    pub state: Level,
    /// The next state.
    pub next: Next,
}

/// The entry of input i, and `?` where it is the input that changes.
fn settled_entry(entries: &[Entry], place: usize, i: usize) -> Entry
    requires { i < length entries.now }
    ensures { result ≡ slice_index_or (slice_set entries.now place any) i any }
{
    if i == place {
        Entry::Level(Level::Any)
    } else {
        entries[i]
    }
}

/// The entries with `?` in the place of that of the input that changes.
fn settled(entries: &[Entry], place: usize) -> Few<Entry, 32>
    requires { length entries.now ≤ 32 }
    ensures { result ≡ slice_set entries.now place any }
{
    let mut all = Few::new(Entry::Level(Level::Any));
    for i in 0..entries.len() {
        all.push(settled_entry(entries, place, i));
    }
    all
}

/// Whether an entry matches some change from this value.
fn may_go(entry: Entry, old: Trit) -> bool
    ensures { result ≡ may_go entry old }
{
    entry.matches(old, Trit::Zero)
        || entry.matches(old, Trit::One)
        || entry.matches(old, Trit::Unknown)
}

/// Whether no entry is a change.
fn all_levels(entries: &[Entry]) -> bool
    ensures { result ≡ list_all is_level entries.now }
{
    entries.iter().all(|entry| entry.is_level())
}

/// Whether the row has no change entry, or whether it has one.
fn is_of(row: &UdpRow, levels: bool) -> bool
    ensures { result ≡ is_of levels row.now }
{
    if levels {
        row.is_level()
    } else {
        !row.is_level()
    }
}

/// Whether the row may match at a change of one input from this value.
fn selects(row: &UdpRow, place: usize, old: Trit) -> bool
    requires place { place < length row.now.inputs }
    requires few { length row.now.inputs ≤ 32 }
    ensures { result ≡ selects place old row.now }
{
    let entries = row.inputs.as_slice();
    may_go(entries[place], old) && all_levels(settled(entries, place).as_slice())
}

/// What is asked of a row at changes of one input.
fn selected_row(row: &UdpRow, place: usize) -> SelectedRow
    requires place { place < length row.now.inputs }
    requires few { length row.now.inputs ≤ 32 }
    ensures { result ≡ selected_row place row.now }
{
    let entries = row.inputs.as_slice();
    SelectedRow {
        words: RowWords::of(settled(entries, place).as_slice()),
        entry: entries[place],
        state: row.state,
        next: row.next,
    }
}

/// Adds a row where it may match. Answers whether there was room.
fn add_row(
    rows: &mut Few<SelectedRow, 64>,
    row: &UdpRow,
    place: usize,
    old: Trit,
    levels: bool,
) -> bool
    requires place { place < length row.now.inputs }
    requires few { length row.now.inputs ≤ 32 }
    ensures { result ≡ true → rows.new ≡ rows.old ++ selected_of levels place old (row.now ∷ []) }
{
    if !is_of(row, levels) || !selects(row, place, old) {
        return true;
    }
    if rows.as_slice().len() >= 64 {
        return false;
    }
    rows.push(selected_row(row, place));
    true
}

/// Adds the rows that may match, of those without a change entry or of those with one. Answers whether there was room for all.
pub(crate) fn add_rows(
    rows: &mut Few<SelectedRow, 64>,
    udp: &Udp,
    place: usize,
    old: Trit,
    levels: bool,
) -> bool
    requires table { HasEntries udp.now }
    requires place { place < length udp.now.inputs }
    requires few { length udp.now.inputs ≤ 32 }
    ensures { result ≡ true → rows.new ≡ rows.old ++ selected_of levels place old udp.now.rows }
{
    for row in udp.rows.as_slice() {
        if !add_row(rows, row, place, old, levels) {
            return false;
        }
    }
    true
}

/// Whether the entries of the inputs that stand under this number are `?`.
fn asks_nothing(entries: &[Entry], order: &[usize], number: usize) -> bool
    ensures { result ≡ asks_nothing number order.now entries.now }
{
    let Some((at, order)) = order.split_first() else {
        return true;
    };
    let Some((entry, entries)) = entries.split_first() else {
        return true;
    };
    (*at != number || is_any(*entry)) && asks_nothing(entries, order, number)
}

/// Whether the entry is `?`.
fn is_any(entry: Entry) -> bool
    ensures { result ≡ is_any entry }
{
    match entry {
        Entry::Level(Level::Any) => true,
        _ => false,
    }
}

/// Whether the row asks nothing of the inputs that stand under this number, or may not match.
fn ignored_by(row: &UdpRow, place: usize, old: Trit, order: &[usize], number: usize) -> bool
    requires place { place < length row.now.inputs }
    requires few { length row.now.inputs ≤ 32 }
    ensures { result ≡ ignored_by place old number order.now row.now }
{
    asks_nothing(row.inputs.as_slice(), order, number) || !selects(row, place, old)
}

/// The same of all rows.
pub(crate) fn ignored(udp: &Udp, place: usize, old: Trit, order: &[usize], number: usize) -> bool
    requires table { HasEntries udp.now }
    requires place { place < length udp.now.inputs }
    requires few { length udp.now.inputs ≤ 32 }
    ensures { result ≡ ignored place old number order.now udp.now.rows }
{
    for row in udp.rows.as_slice() {
        if !ignored_by(row, place, old, order, number) {
            return false;
        }
    }
    true
}

impl SelectedRow {
    /// Whether the row matches, where the inputs have this word and the one that changes goes from the one value to the other.
    fn is_hit(&self, word: u64, old: Trit, new: Trit, state: Trit) -> bool
        ensures { result ≡ selected_hit word old new state self.now }
    {
        self.words.may_match(word) && self.entry.matches(old, new) && self.state.matches(state)
    }
}

/// What the first selected row that matches gives, x without one.
pub(crate) fn chosen(rows: &[SelectedRow], word: u64, old: Trit, new: Trit, state: Trit) -> Trit
    ensures { result ≡ chosen word old new state rows.now }
{
    for row in rows {
        if row.is_hit(word, old, new, state) {
            return row.next.after(state);
        }
    }
    Trit::Unknown
}
