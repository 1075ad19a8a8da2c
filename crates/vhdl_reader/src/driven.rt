//! What drives an output.

use sqlite_items::Items;
use vhdl_declarations_reader::entities::{HPath, OutValue};

/// The value of an output, and its paths.
#[derive(Drop)]
pub struct Driven {
    pub value: OutValue,
    pub paths: Items<HPath>,
}
