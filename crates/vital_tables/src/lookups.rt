//! Looking up values in the tables of VITAL.
ghost use Rattle.std.specs.Prelude.{◌≡◌, All, length};
ghost use Rattle.udp_tables.specs.Tables.{columns_match, AreKept};
ghost use Rattle.udp_tables.specs.RowWords.{value_word};
ghost use Rattle.vital_tables.specs.Symbols.{level_matches, symbol_matches};
ghost use Rattle.vital_tables.specs.LookUps.{truth_matches, lookup_truth, state_matches, lookup_state};
ghost use Rattle.vital_tables.specs.RowWords.{truth_words, state_words};

use crate::row_words::kept_words;
use crate::table::{Trits, TruthRow, TruthTable, VStateRow, VStateTable, VSymbol};
use trit_cubes::Trit;
use udp_tables::{RowWords, value_word};

/// What a truth table gives at these inputs: the result of the first row that matches, X without one. (IEEE 1076.4-2000,
/// VitalTruthTable.) It takes no memory.
#[tactic(auto, using(udp_tables::proofs::RowKeyLemmas::none_kept))]
pub fn lookup_truth(table: &TruthTable, inputs: &[Trit]) -> Trit
    requires { All (λ row. length row.inputs ≡ length inputs.now) table.now.rows }
    ensures { result ≡ lookup_truth table.now.rows inputs.now }
{
    keyed_truth(table, &[], inputs)
}

/// The same, sooner where the words of the rows are kept: only rows are read whose words let them match.
pub fn keyed_truth(table: &TruthTable, words: &[RowWords], inputs: &[Trit]) -> Trit
    requires rows { All (λ row. length row.inputs ≡ length inputs.now) table.now.rows }
    requires words { AreKept truth_words words.now table.now.rows }
    ensures { result ≡ lookup_truth table.now.rows inputs.now }
{
    let word = value_word(inputs);
    for (i, row) in table.rows.as_slice().iter().enumerate() {
        let asked = kept_words(words, i, row);
        if row.matches(asked, word, inputs) {
            return row.result;
        }
    }
    Trit::Unknown
}

/// The next state that a state table gives where its input columns were `before` when it was last looked up and are `after`
/// now: that of the first row that matches, X without one. (IEEE 1076.4-2000, VitalStateTable.) It takes no memory.
#[tactic(auto, using(udp_tables::proofs::RowKeyLemmas::none_kept))]
pub fn lookup_state(table: &VStateTable, before: &[Trit], after: &[Trit], state: Trit) -> Trit
    requires rows { All (λ row. length row.inputs ≡ length after.now) table.now.rows }
    requires columns { length before.now ≡ length after.now }
    ensures { result ≡ lookup_state table.now.rows before.now after.now state }
{
    keyed_state(table, &[], before, after, state)
}

/// The same, sooner where the words of the rows are kept: only rows are read whose words let them match.
pub fn keyed_state(
    table: &VStateTable,
    words: &[RowWords],
    before: &[Trit],
    after: &[Trit],
    state: Trit,
) -> Trit
    requires rows { All (λ row. length row.inputs ≡ length after.now) table.now.rows }
    requires columns { length before.now ≡ length after.now }
    requires words { AreKept state_words words.now table.now.rows }
    ensures { result ≡ lookup_state table.now.rows before.now after.now state }
{
    let word = value_word(after);
    for (i, row) in table.rows.as_slice().iter().enumerate() {
        let asked = kept_words(words, i, row);
        if row.columns_match(asked, word, before, after) && row.state.matches(state) {
            return row.result.after(state);
        }
    }
    Trit::Unknown
}

impl TruthRow {
    /// Whether each level matches its input. The row has these words, and the inputs this word.
    #[tactic(auto, using(crate::proofs::RowWordLemmas::levels_ruled_out))]
    fn matches(&self, asked: RowWords, word: u64, inputs: &[Trit]) -> bool
        requires row { length self.now.inputs ≡ length inputs.now }
        requires asked { asked ≡ truth_words self.now }
        requires word { word ≡ value_word inputs.now }
        ensures { result ≡ truth_matches inputs.now self.now }
    {
        asked.may_match(word) && levels_match(self.inputs.as_slice(), inputs)
    }
}

impl VStateRow {
    /// Whether each symbol matches its column. The row has these words, and the columns now this word.
    #[tactic(auto, using(crate::proofs::RowWordLemmas::symbols_ruled_out))]
    fn columns_match(&self, asked: RowWords, word: u64, before: &[Trit], after: &[Trit]) -> bool
        requires row { length self.now.inputs ≡ length after.now }
        requires columns { length before.now ≡ length after.now }
        requires asked { asked ≡ state_words self.now }
        requires word { word ≡ value_word after.now }
        ensures { result ≡ columns_match symbol_matches self.now.inputs before.now after.now }
    {
        asked.may_match(word) && symbols_match(self.inputs.as_slice(), before, after)
    }
}

/// Whether each column matches its input.
fn levels_match(levels: &[Trits], inputs: &[Trit]) -> bool
    requires { length levels.now ≡ length inputs.now }
    ensures { result ≡ columns_match level_matches levels.now inputs.now inputs.now }
{
    for (i, level) in levels.iter().enumerate() {
        if !level.matches(inputs[i]) {
            return false;
        }
    }
    true
}

/// Whether each column matches its input before and after.
fn symbols_match(symbols: &[VSymbol], before: &[Trit], after: &[Trit]) -> bool
    requires row { length symbols.now ≡ length after.now }
    requires columns { length before.now ≡ length after.now }
    ensures { result ≡ columns_match symbol_matches symbols.now before.now after.now }
{
    for (i, symbol) in symbols.iter().enumerate() {
        if !symbol.matches(before[i], after[i]) {
            return false;
        }
    }
    true
}
