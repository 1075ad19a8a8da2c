//! How far the items of a library are handled.
ghost use Rattle.std.specs.Prelude.{◌≡◌, ◌+◌, ◌<◌, ◌^◌, IfErr, OnOk, Some, None};
ghost use Rattle.cell_cursor.specs.declared.item.LibraryItem.TheVariants as item;
ghost use Rattle.library_reader.specs.Progress.{unit_of, no_progress, next_number, names_with, after_cell, after_item};

use bool_functions::Names;
use bus_texts::{BusTypes, bus_type};
use liberty_groups::Group;
use liberty_text::Unit;
use std::alloc::{AllocError, Global};
use text_io::Stop;

/// What counts for the items of a library that come next.
#[derive(Drop)]
pub struct Progress {
    /// The library's unit of time, where it is a known one.
    pub unit: Option<Unit>,
    /// The types of buses so far, in order. Of several of one name the last counts.
    pub types: BusTypes,
    /// The names of the cells so far, each once.
    pub names: Names,
    /// The names of the entities so far, in lower case, each once.
    pub entities: Names,
    /// How many cells were accepted.
    pub accepted: usize,
    /// How many cells were refused.
    pub refused: usize,
}

/// The unit of time that a text names.
pub(crate) fn unit_of(text: &[u8]) -> Option<Unit>
    ensures { result ≡ unit_of text.now }
{
    if text == b"1ns".as_slice() {
        Some(Unit::Ns1)
    } else if text == b"100ps".as_slice() {
        Some(Unit::Ps100)
    } else if text == b"10ps".as_slice() {
        Some(Unit::Ps10)
    } else if text == b"1ps".as_slice() {
        Some(Unit::Ps1)
    } else {
        None
    }
}

impl Progress {
    /// Before the first item.
    pub fn new(alloc: Global) -> Progress
        ensures { result ≡ no_progress }
    {
        Progress {
            unit: Some(Unit::Ns1),
            types: BusTypes::new(alloc),
            names: Names::new(alloc),
            entities: Names::new(alloc),
            accepted: 0,
            refused: 0,
        }
    }

    /// The number of the next cell, from 1.
    pub fn next_number(&self) -> usize
        requires { self.now.accepted + self.now.refused + 1 < 2 ^ 64 }
        ensures { result ≡ next_number self.now }
    {
        self.accepted + self.refused + 1
    }

    /// Counts a group `type`, where it tells of a type of buses. `AllocError` comes only where memory is wanting.
    pub(crate) fn count_type(&mut self, alloc: Global, group: &Group) -> Result<(), AllocError>
        ensures { OnOk result (self.new ≡ after_item self.old (item.BusType group.now)) }
    {
        if let Some(kind) = bus_type(alloc, group)? {
            self.types.add(kind)?;
        }
        Ok(())
    }

    /// Counts a cell that was refused. `AllocError` comes only where memory is wanting.
    pub(crate) fn count_refused(&mut self, name: &[u8]) -> Result<(), AllocError>
        requires { self.old.accepted + self.old.refused + 1 < 2 ^ 64 }
        ensures { OnOk result (self.new ≡ after_cell self.old name.now None) }
    {
        add_name(&mut self.names, name)?;
        self.refused += 1;
        Ok(())
    }

    /// Counts a cell that was accepted, and whose entity has this name. It stops only where memory is wanting.
    pub(crate) fn count_accepted(
        &mut self,
        alloc: Global,
        name: &[u8],
        entity: &[u8],
    ) -> Result<(), Stop>
        requires { self.old.accepted + self.old.refused + 1 < 2 ^ 64 }
        ensures counted { OnOk result (self.new ≡ after_cell self.old name.now (Some entity.now)) }
        ensures memory { IfErr result (λ stop. stop ≡ Stop.Memory) }
    {
        let lowered = entity.to_ascii_lowercase(alloc)?;
        add_name(&mut self.names, name)?;
        add_name(&mut self.entities, &lowered)?;
        self.accepted += 1;
        Ok(())
    }
}

/// Adds a name to those so far, unless it is there. `AllocError` comes only where memory is wanting.
fn add_name(names: &mut Names, name: &[u8]) -> Result<(), AllocError>
    ensures { OnOk result (names.new ≡ names_with names.old name.now) }
{
    names.add(name)?;
    Ok(())
}
