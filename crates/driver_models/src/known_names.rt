//! Names that are taken in a file.
ghost use Rattle.std.specs.Prelude.{◌≡◌, [], ◌∷◌, ◌++◌, true, IfOk};
ghost use Rattle.grammar_reader.specs.Words.{is_among};
ghost use Rattle.driver_models.specs.Cores.{HaveSame};

use crate::language::DriverLanguage;
use bool_functions::Names;
use sqlite_items::Items;
use std::alloc::{AllocError, Global};
use std::marker::{Model, PhantomData};

/// Names of a language, in the order in which they were added, with a list that finds one at once. Contracts see the list of
/// them.
#[derive(Drop)]
pub struct KnownNames<L: DriverLanguage> {
    alloc: Global,
    names: Items<Items<u8>>,
    folded: Names,
    language: PhantomData<L>,
}

impl<L: DriverLanguage> Model for KnownNames<L> {
    ghost use Rattle.std.specs.Prelude.{ℕ, List};
    ghost use Rattle.driver_models.specs.Cores.{HaveSame};

    ghost Value = { List (List ℕ) };

    ghost view = { λ k. k.names };

    ghost invariant = { λ k. HaveSame L.fold k.folded k.names };
}

impl<L: DriverLanguage> KnownNames<L> {
    /// No names. Takes no memory.
    pub fn new(alloc: Global) -> KnownNames<L>
        ensures { result ≡ [] }
    {
        KnownNames {
            alloc,
            names: Items::new(alloc),
            folded: Names::new(alloc),
            language: PhantomData,
        }
    }

    /// Whether a name is one of these, in the time of one look-up. An `Err` comes only where memory is wanting.
    pub fn has(&self, name: &[u8]) -> Result<bool, AllocError>
        requires { L.Spelling.is_name name.now ≡ true }
        ensures { IfOk result (λ taken. taken ≡ is_among L.Spelling.is_same self.now name.now) }
    {
        let folded = L::folded(self.alloc, name)?;
        Ok(self.folded.number(&folded).is_some())
    }

    /// These names, and one more behind them. An `Err` comes only where memory is wanting.
    pub fn with(self, name: &[u8]) -> Result<KnownNames<L>, AllocError>
        ensures { IfOk result (λ more. more ≡ self ++ name.now ∷ []) }
    {
        let KnownNames {
            alloc,
            mut names,
            mut folded,
            language,
        } = self;
        add_name::<L>(alloc, &mut names, &mut folded, name)?;
        Ok(KnownNames {
            alloc,
            names,
            folded,
            language,
        })
    }
}

/// Puts a name behind these, and what it is folded to behind those.
fn add_name<L: DriverLanguage>(
    alloc: Global,
    names: &mut Items<Items<u8>>,
    folded: &mut Names,
    name: &[u8],
) -> Result<(), AllocError>
    requires { HaveSame L.fold folded.old names.old }
    ensures added { IfOk result (λ _. names.new ≡ names.old ++ name.now ∷ []) }
    ensures same { IfOk result (λ _. HaveSame L.fold folded.new names.new) }
{
    let key = L::folded(alloc, name)?;
    folded.add(&key)?;
    names.push(Items::from_slice(alloc, name)?)?;
    Ok(())
}
