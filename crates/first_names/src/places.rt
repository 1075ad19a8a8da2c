//! The places of things by their names.
ghost use Rattle.std.specs.Prelude.{◌≡◌, ◌∷◌, [], ◌++◌, None, length, IfOk, OnOk, OnErr};
ghost use Rattle.bool_functions.specs.NameList.{number_of};
ghost use Rattle.first_names.specs.Places.{place_by, AddsPlace, SetsPlace, FindsFirst};

use bool_functions::Names;
use sqlite_items::Items;
use std::alloc::{AllocError, Global};

/// A thing with a name.
pub trait Named {
    ghost use Rattle.std.specs.Prelude.{ℕ, List};

    ghost name_of: { Self → List ℕ };

    /// The name.
    fn name(&self) -> &[u8]
        ensures { result.now ≡ name_of self.now };
}

/// Different names, and for each the place of the thing that counts of those that have it: the first (`add`) or the last
/// (`set`).
#[derive(Drop)]
pub struct FirstNames {
    pub names: Names,
    pub places: Items<usize>,
}

impl FirstNames {
    /// No names.
    pub fn new(alloc: Global) -> FirstNames
        ensures names { result.names ≡ [] }
        ensures places { result.places ≡ [] }
    {
        FirstNames {
            names: Names::new(alloc),
            places: Items::new(alloc),
        }
    }

    /// The place that stands for a name, in the time of one look-up.
    pub fn place(&self, name: &[u8]) -> Option<usize>
        ensures { result ≡ place_by self.now name.now }
    {
        match self.names.number(name) {
            Some(number) => self.places.get(number).copied(),
            None => None,
        }
    }

    /// Adds the thing at this place, where none so far has its name. `AllocError` comes only where memory is wanting.
    pub fn add(&mut self, name: &[u8], place: usize) -> Result<(), AllocError>
        ensures { OnOk result (AddsPlace self.old name.now place self.new) }
    {
        match self.names.add(name)? {
            Some(_) => Ok(self.places.push(place)?),
            None => Ok(()),
        }
    }

    /// Lets a name stand for this place from now on. `AllocError` comes only where memory is wanting, and then all is as before.
    pub fn set(&mut self, name: &[u8], place: usize) -> Result<(), AllocError>
        requires { length self.old.places ≡ length self.old.names }
        ensures set { OnOk result (SetsPlace self.old name.now place self.new) }
        ensures err { OnErr result (self.new ≡ self.old) }
    {
        match self.names.number(name) {
            Some(number) => {
                self.places.set(number, place);
                Ok(())
            }
            None => self.append(name, place),
        }
    }

    /// Adds a new name that stands for this place.
    fn append(&mut self, name: &[u8], place: usize) -> Result<(), AllocError>
        requires { number_of self.old.names name.now ≡ None }
        ensures names { OnOk result (self.new.names ≡ self.old.names ++ name.now ∷ []) }
        ensures places { OnOk result (self.new.places ≡ self.old.places ++ place ∷ []) }
        ensures err { OnErr result (self.new ≡ self.old) }
    {
        self.places.push(place)?;
        match self.names.add(name) {
            Ok(_) => Ok(()),
            Err(wanting) => {
                self.places.pop();
                Err(wanting)
            }
        }
    }
}

/// The names of these things. `AllocError` comes only where memory is wanting.
pub fn first_names<T: Named>(alloc: Global, things: &[T]) -> Result<FirstNames, AllocError>
    ensures { IfOk result (λ found. FindsFirst T.name_of found things.now) }
{
    let mut found = FirstNames::new(alloc);
    for (place, thing) in things.iter().enumerate() {
        found.add(thing.name(), place)?;
    }
    Ok(found)
}
