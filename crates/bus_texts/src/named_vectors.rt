//! The names of a cell that stand for several bits, found in the time of one look-up.
ghost use Rattle.std.specs.Prelude.{◌≡◌, IfOk};
ghost use Rattle.std.specs.Option.{option_copied};
ghost use Rattle.bus_texts.specs.NamedVectors.{vector_name};
ghost use Rattle.bus_texts.specs.Vectors as spec;

use crate::bus_types::BusTypes;
use crate::vectors::{Vector, all_vectors};
use first_names::{FirstNames, Named, first_names};
use liberty_groups::Group;
use sqlite_items::Items;
use std::alloc::{AllocError, Global};
use std::marker::Model;

impl Named for Vector {
    ghost name_of = { vector_name };

    fn name(&self) -> &[u8] {
        self.name.as_slice()
    }
}

/// The names of a cell that stand for several bits, in order. Contracts see the list of them.
#[derive(Drop)]
pub struct Vectors {
    list: Items<Vector>,
    names: FirstNames,
}

impl Model for Vectors {
    ghost use Rattle.std.specs.Prelude.{List};
    ghost use Rattle.first_names.specs.Places.{FindsFirst};
    ghost use Rattle.bus_texts.specs.declared.vectors.Vector.{Vector};
    ghost use Rattle.bus_texts.specs.NamedVectors.{vector_name};

    ghost Value = { List Vector };

    ghost view = { λ v. v.list };

    ghost invariant = { λ v. FindsFirst vector_name v.names v.list };
}

impl Vectors {
    ghost use Rattle.std.specs.Prelude.{◌≡◌, IfOk};

    /// These vectors.
    fn new(alloc: Global, list: Items<Vector>) -> Result<Vectors, AllocError>
        ensures { IfOk result (λ vectors. vectors ≡ list) }
    {
        let names = first_names(alloc, list.as_slice())?;
        Ok(Vectors { list, names })
    }
}

/// All names of a cell that stand for several bits.
pub fn cell_vectors(alloc: Global, types: &BusTypes, cell: &Group) -> Result<Vectors, AllocError>
    ensures { IfOk result (λ vectors. vectors ≡ spec.cell_vectors types.now cell.now) }
{
    let list = all_vectors(alloc, types, cell)?;
    Vectors::new(alloc, list)
}

/// The vector of a name: of several the first.
pub fn vector_named<'a>(vectors: &'a Vectors, name: &[u8]) -> Option<&'a Vector>
    ensures { option_copied result ≡ spec.vector_named vectors.now name.now }
{
    if name.is_empty() {
        return None;
    }
    let place = vectors.names.place(name)?;
    vectors.list.get(place)
}
