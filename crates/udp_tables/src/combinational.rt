//! The output of a combinational primitive, by IEEE 1364-2005, clause 8.
ghost use Rattle.std.specs.Prelude.{◌≡◌, length};
ghost use Rattle.udp_tables.specs.Tables.{columns_match, AreKept};
ghost use Rattle.udp_tables.specs.Primitive.{entry_matches, inputs_match, level_output, IsCombinational};
ghost use Rattle.udp_tables.specs.RowWords.{value_word};
ghost use Rattle.udp_tables.specs.RowKeys.{row_key};

use crate::row_keys::RowKey;
use crate::row_words::value_word;
use crate::table::{Entry, Udp, UdpRow};
use trit_cubes::Trit;

/// The output of a combinational primitive at these inputs: that of the first row that matches, x without one (IEEE
/// 1364-2005, clause 8).
#[tactic(auto, using(crate::proofs::RowKeyLemmas::none_kept))]
pub fn udp_level(udp: &Udp, inputs: &[Trit]) -> Trit
    requires table { IsCombinational udp.now }
    requires entries { length inputs.now ≡ length udp.now.inputs }
    ensures { result ≡ level_output udp.now.rows inputs.now }
{
    keyed_level(udp, &[], inputs)
}

/// The same, sooner where the keys of the rows are kept: only rows are read whose keys let them match.
pub fn keyed_level(udp: &Udp, keys: &[RowKey], inputs: &[Trit]) -> Trit
    requires table { IsCombinational udp.now }
    requires entries { length inputs.now ≡ length udp.now.inputs }
    requires keys { AreKept row_key keys.now udp.now.rows }
    ensures { result ≡ level_output udp.now.rows inputs.now }
{
    let word = value_word(inputs);
    for (i, row) in udp.rows.as_slice().iter().enumerate() {
        let key = RowKey::kept(keys, i, row);
        if row.matches(key, word, inputs) {
            return row.next.after(Trit::Unknown);
        }
    }
    Trit::Unknown
}

impl UdpRow {
    /// Whether each entry matches its input, where no input changes. The row has this key, and the inputs this word.
    #[tactic(auto, using(crate::proofs::RowKeyLemmas::entries_ruled_out, crate::proofs::RowMatches::same_levels_decide))]
    fn matches(&self, key: RowKey, word: u64, inputs: &[Trit]) -> bool
        requires entries { length self.now.inputs ≡ length inputs.now }
        requires key { key ≡ row_key self.now }
        requires word { word ≡ value_word inputs.now }
        ensures { result ≡ inputs_match inputs.now self.now }
    {
        if !key.words.may_match(word) {
            return false;
        }
        let entries = self.inputs.as_slice();
        key.of_levels && entries.len() <= 32 || entries_match(entries, inputs)
    }
}

/// Whether each entry matches its input.
fn entries_match(entries: &[Entry], inputs: &[Trit]) -> bool
    requires { length entries.now ≡ length inputs.now }
    ensures { result ≡ columns_match entry_matches entries.now inputs.now inputs.now }
{
    for (i, entry) in entries.iter().enumerate() {
        if !entry.matches(inputs[i], inputs[i]) {
            return false;
        }
    }
    true
}
