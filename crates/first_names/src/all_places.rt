//! All places of things by their names.
ghost use Rattle.std.specs.Prelude.{◌≡◌, ◌∷◌, [], ◌++◌, None, length, OnOk};
ghost use Rattle.bool_functions.specs.NameList.{number_of};
ghost use Rattle.first_names.specs.PutOnce as spec;

use bool_functions::Names;
use sqlite_items::Items;
use std::alloc::{AllocError, Global};

/// Different names, and for each the places of all things that have it, in the order in which they were put.
#[derive(Drop)]
pub struct AllPlaces {
    pub names: Names,
    pub places: Vec<Items<usize>>,
    ghost same_length: { length places.items ≡ length names },
}

impl AllPlaces {
    ghost use Rattle.first_names.specs.AllPlaces.{places_of, PutsPlace};

    /// No names.
    pub fn new(alloc: Global) -> AllPlaces
        ensures names { result.names ≡ [] }
        ensures places { result.places.items ≡ [] }
    {
        AllPlaces {
            names: Names::new(alloc),
            places: Vec::new(alloc),
        }
    }

    /// The places that stand for a name, in the time of one look-up.
    pub fn of(&self, name: &[u8]) -> &[usize]
        ensures { result.now ≡ places_of self.now name.now }
    {
        match self.names.number(name) {
            Some(number) => match self.places.get(number) {
                Some(places) => places.as_slice(),
                None => &[],
            },
            None => &[],
        }
    }

    /// Puts the thing at this place behind those that have its name, where it is not the last of them already. `AllocError` comes
    /// only where memory is wanting.
    pub fn put(&mut self, alloc: Global, name: &[u8], place: usize) -> Result<(), AllocError>
        ensures { OnOk result (PutsPlace self.old name.now place self.new) }
    {
        match self.names.number(name) {
            Some(number) => put_once(&mut self.places[number], place),
            None => self.append(alloc, name, place),
        }
    }

    /// Adds a new name with this place.
    fn append(&mut self, alloc: Global, name: &[u8], place: usize) -> Result<(), AllocError>
        requires { number_of self.old.names name.now ≡ None }
        ensures names { OnOk result (self.new.names ≡ self.old.names ++ name.now ∷ []) }
        ensures places { OnOk result (self.new.places.items ≡ self.old.places.items ++ (place ∷ []) ∷ []) }
    {
        let mut places = Items::new(alloc);
        places.push(place)?;
        self.places.push(places)?;
        match self.names.add(name) {
            Ok(_) => Ok(()),
            Err(wanting) => {
                self.places.pop();
                Err(wanting)
            }
        }
    }
}

/// Whether places end with a place.
fn end_with(places: &[usize], place: usize) -> bool
    ensures { result ≡ spec.end_with places.now place }
{
    match places.last() {
        Some(last) => *last == place,
        None => false,
    }
}

/// Puts a place behind others that do not end with it.
fn put_once(places: &mut Items<usize>, place: usize) -> Result<(), AllocError>
    ensures { OnOk result (places.new ≡ spec.with_place places.old place) }
{
    if end_with(places.as_slice(), place) {
        Ok(())
    } else {
        places.push(place)
    }
}
