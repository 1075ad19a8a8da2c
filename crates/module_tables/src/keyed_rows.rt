//! The rows of primitives without a state, with what look-ups know of them before they read the entries.
ghost use Rattle.std.specs.Prelude.{◌≡◌, ◌≤◌, length, map};
ghost use Rattle.udp_tables.specs.{Primitive.IsCombinational, Primitive.level_output, Tables.AreKept, RowKeys.row_key};

use cell_machine::Few;
use trit_cubes::Trit;
use udp_tables::{RowKey, RowWords, Udp, UdpRow, keyed_level};

/// The rows of a combinational primitive, with the keys of the first 1,024 of them.
#[derive(Drop)]
pub struct KeyedRows<'a> {
    /// The primitive.
    pub udp: &'a Udp,
    keys: Few<RowKey, 1024>,
    ghost table: { IsCombinational udp.now },
    ghost kept: { AreKept row_key keys udp.now.rows },
}

/// The key of a row.
fn key_of(row: &UdpRow) -> RowKey
    ensures { result ≡ row_key row.now }
{
    RowKey {
        words: RowWords::of(row.inputs.as_slice()),
        of_levels: row.is_level(),
    }
}

/// The keys of these rows.
fn keys_of(rows: &[UdpRow]) -> Few<RowKey, 1024>
    requires { length rows.now ≤ 1024 }
    ensures { result ≡ map row_key rows.now }
{
    let mut keys = Few::new(RowKey {
        words: RowWords {
            asked: 0,
            values: 0,
        },
        of_levels: false,
    });
    for row in rows {
        keys.push(key_of(row));
    }
    keys
}

impl<'a> KeyedRows<'a> {
    /// The rows of this primitive. Takes no memory.
    #[tactic(auto, using(crate::proofs::KeptKeys::first_kept))]
    pub(crate) fn of(udp: &'a Udp) -> KeyedRows<'a>
        requires { IsCombinational udp.now }
        ensures { result.udp.now ≡ udp.now }
    {
        let rows = udp.rows.as_slice();
        let count = rows.len().min(1024);
        KeyedRows {
            udp,
            keys: keys_of(&rows[..count]),
        }
    }

    /// The output at these inputs.
    pub(crate) fn level(&self, inputs: &[Trit]) -> Trit
        requires { length inputs.now ≡ length self.now.udp.now.inputs }
        ensures { result ≡ level_output self.now.udp.now.rows inputs.now }
    {
        keyed_level(self.udp, self.keys.as_slice(), inputs)
    }
}
