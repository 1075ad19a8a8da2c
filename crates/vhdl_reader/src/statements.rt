//! What the statements of an entity say.

use sqlite_items::Items;
use vhdl_declarations_reader::entities::HPath;
use vhdl_declarations_reader::grammar::{Assigned, Columns, Uses};
use vhdl_declarations_reader::primitives::TimingCheck;

/// What the statements of an entity say: its checks, the columns of the calls of its state tables, the values of its outputs, and
/// their paths with the inputs of the conditions.
#[derive(Drop)]
pub struct Statements {
    pub checks: Items<TimingCheck>,
    pub columns: Items<Columns>,
    pub values: Items<Assigned>,
    pub paths: Items<Items<HPath>>,
    pub uses: Uses,
}
