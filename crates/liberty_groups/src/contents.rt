//! What is kept of a library.

ghost use Rattle.std.specs.Prelude.{◌≡◌, OnOk, OnErr, IfOk};
ghost use Rattle.liberty_groups.specs.Library.{nothing_found, found_of, counted, with_named};

use crate::fault::Stop;
use crate::tree::{Group, Item};
use crate::values::{Values, one_text};
use small_bytes::SmallBytes;
use std::alloc::Global;

/// A time unit of a library: the text of a simple attribute `time_unit`, which is that of its one
/// value, and empty with no value or with several. `at` is the offset of the statement.
#[derive(Drop)]
pub struct UnitLine {
    pub value: SmallBytes,
    pub at: usize,
}

/// What is kept of a library, each kind in order.
#[derive(Drop)]
pub struct Contents {
    /// Its groups `cell`.
    pub cells: Vec<Group>,
    /// Its simple attributes `time_unit`.
    pub units: Vec<UnitLine>,
    /// The offsets of its statements `include_file`.
    pub left_out: Vec<usize>,
    /// Its groups `type`.
    pub types: Vec<Group>,
}

impl Contents {
    /// Nothing found yet.
    pub fn new(alloc: Global) -> Contents
        ensures { found_of result ≡ nothing_found }
    {
        Contents {
            cells: Vec::new(alloc),
            units: Vec::new(alloc),
            left_out: Vec::new(alloc),
            types: Vec::new(alloc),
        }
    }

    /// A statement that is neither cell nor type nor time unit.
    fn count_named(&mut self, name: &[u8], at: usize) -> Result<(), Stop>
        ensures ok { OnOk result (found_of self.new ≡ with_named name.now at (found_of self.old)) }
        ensures memory { OnErr result (result ≡ Err Stop.Memory) }
    {
        if name == b"include_file".as_slice() {
            self.left_out.push(at)?;
        }
        Ok(())
    }

    /// A simple attribute of the library.
    #[tactic(auto, unfolding(crate::specs::Library::counted))]
    fn count_simple(&mut self, name: &[u8], value: Values, at: usize) -> Result<(), Stop>
        ensures ok { OnOk result (found_of self.new ≡ counted (found_of self.old) (Item.Simple name.now value at)) }
        ensures memory { OnErr result (result ≡ Err Stop.Memory) }
    {
        if name == b"time_unit".as_slice() {
            let value = one_text(value);
            self.units.push(UnitLine { value, at })?;
            return Ok(());
        }
        self.count_named(name, at)
    }

    /// A group of the library.
    #[tactic(auto, unfolding(crate::specs::Library::counted))]
    fn count_group(&mut self, group: Group) -> Result<(), Stop>
        ensures ok { OnOk result (found_of self.new ≡ counted (found_of self.old) (Item.Inner group)) }
        ensures memory { OnErr result (result ≡ Err Stop.Memory) }
    {
        if group.name.as_slice() == b"cell".as_slice() {
            self.cells.push(group)?;
            return Ok(());
        }
        if group.name.as_slice() == b"type".as_slice() {
            self.types.push(group)?;
            return Ok(());
        }
        self.count_named(group.name.as_slice(), group.at)
    }

    /// A statement of the library.
    #[tactic(auto, unfolding(crate::specs::Library::counted))]
    pub fn count(&mut self, item: Item) -> Result<(), Stop>
        ensures ok { OnOk result (found_of self.new ≡ counted (found_of self.old) item) }
        ensures memory { OnErr result (result ≡ Err Stop.Memory) }
    {
        match item {
            Item::Simple { name, value, at } => self.count_simple(name.as_slice(), value, at),
            Item::Complex { name, at, .. } => self.count_named(name.as_slice(), at),
            Item::Inner(group) => self.count_group(group),
        }
    }
}
