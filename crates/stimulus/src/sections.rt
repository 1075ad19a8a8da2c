//! Sections, gathered from what the lines say.
ghost use Rattle.std.specs.Prelude.{◌≡◌, [], ◌∷◌, OnOk, IfOk, List};
ghost use Rattle.stimulus.specs.declared.context.Said.{Said as SaidOf};
ghost use Rattle.stimulus.specs.Sections.{gathered};

use crate::context::Said;
use cell_machine::Change;
use sqlite_items::Items;
use std::alloc::{AllocError, Global};

/// The changes that a cell is given from its start on.
#[derive(Drop)]
pub struct Section {
    /// The number of the cell in the catalog.
    pub cell: usize,
    /// The changes, in the order of their times, which rise strictly.
    pub changes: Items<Change>,
}

/// The sections of the lines so far.
#[derive(Drop)]
pub(crate) struct Sections {
    /// Those that have ended.
    pub ended: Vec<Section>,
    /// The one that has begun last.
    pub current: Option<Section>,
}

impl Sections {
    /// The sections of no lines.
    pub(crate) fn new(alloc: Global) -> Sections
        ensures ended { result.ended.items ≡ [] }
        ensures current { result.current ≡ None }
    {
        Sections {
            ended: Vec::new(alloc),
            current: None,
        }
    }

    /// The sections after a further line, which says this.
    pub(crate) fn take(&mut self, alloc: Global, said: Said) -> Result<(), AllocError>
        ensures { OnOk result ((more : List SaidOf)
            → gathered self.new.ended.items self.new.current more ≡ gathered self.old.ended.items self.old.current
            (said ∷ more)) }
    {
        match said {
            Said::Nothing => Ok(()),
            Said::Begins(cell) => self.begin(alloc, cell),
            Said::Changes(change) => self.change(change),
        }
    }

    /// Ends the open section and begins one.
    fn begin(&mut self, alloc: Global, cell: usize) -> Result<(), AllocError>
        ensures { OnOk result ((more : List SaidOf)
            → gathered self.new.ended.items self.new.current more ≡ gathered self.old.ended.items self.old.current
            (Said.Begins cell ∷ more)) }
    {
        let next = Section {
            cell,
            changes: Items::new(alloc),
        };
        if let Some(section) = self.current.replace(next) {
            self.ended.push(section)?;
        }
        Ok(())
    }

    /// Adds a change to the open section.
    fn change(&mut self, change: Change) -> Result<(), AllocError>
        ensures { OnOk result ((more : List SaidOf)
            → gathered self.new.ended.items self.new.current more ≡ gathered self.old.ended.items self.old.current
            (Said.Changes change ∷ more)) }
    {
        match &mut self.current {
            Some(section) => section.changes.push(change),
            None => Ok(()),
        }
    }

    /// The sections of all lines.
    pub(crate) fn finish(self) -> Result<Vec<Section>, AllocError>
        ensures { IfOk result (λ sections. sections.items ≡ gathered self.ended.items self.current []) }
    {
        let Sections { mut ended, current } = self;
        if let Some(section) = current {
            ended.push(section)?;
        }
        Ok(ended)
    }
}
