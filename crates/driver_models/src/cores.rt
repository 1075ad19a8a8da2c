//! The models of a file that may be cores of drivers.
ghost use Rattle.std.specs.Prelude.{◌≡◌, not, ℕ, [], ◌∷◌, ◌++◌, List, true, map, length, Option, IfOk};
ghost use Rattle.std.specs.List.{list_all};
ghost use Rattle.std.specs.Option.{option_map};
ghost use Rattle.grammar_reader.specs.Reading.{read, Reads};
ghost use Rattle.grammar_reader.specs.Words.{known};
ghost use Rattle.udp_tables.specs.declared.models.VPort.{VPort as Port};
ghost use Rattle.driver_models.specs.Models.{are_core_ports};
ghost use Rattle.driver_models.specs.Cores as spec;
ghost use Rattle.driver_models.specs.Found.{core_of, AreFound, with_first};

use crate::language::DriverLanguage;
use bool_functions::Names;
use grammar_reader::{Cursor, Read, Refusal, Stop};
use sqlite_items::Items;
use std::alloc::{AllocError, Global};
use std::marker::{Model, PhantomData};
use udp_tables::VPort;

/// A model that may be a core: its name, and its ports.
#[derive(Clone, Copy)]
pub struct Core<'a> {
    /// In bytes.
    pub name: &'a [u8],
    /// In the order of the header.
    pub ports: &'a [VPort],
}

/// The models of a file that may be cores, in the order of the file, with a list that finds one by its name at once. Contracts
/// see the list of them.
#[derive(Drop)]
pub struct Cores<'a, L: DriverLanguage> {
    alloc: Global,
    cores: Vec<Core<'a>>,
    /// What their names are folded to, each once, and of each the number of the first core of that name.
    folded: Names,
    firsts: Items<usize>,
    language: PhantomData<L>,
}

impl<'a, L: DriverLanguage> Model for Cores<'a, L> {
    ghost use Rattle.std.specs.Prelude.{List, map};
    ghost use Rattle.driver_models.specs.Cores as spec;
    ghost use Rattle.driver_models.specs.Found.{core_of, AreFound, with_first};

    ghost Value = { List spec.Core };

    ghost view = { λ c. map core_of c.cores.items };

    ghost invariant = { λ c. AreFound L.fold c.folded c.firsts (map core_of c.cores.items) };
}

/// Puts the number of a core behind these, where its name was added.
fn push_first(
    firsts: &mut Items<usize>,
    added: Option<usize>,
    number: usize,
) -> Result<(), AllocError>
    ensures { IfOk result (λ _. firsts.new ≡ with_first added firsts.old number) }
{
    match added {
        Some(_) => firsts.push(number),
        None => Ok(()),
    }
}

/// Puts a core behind these, where a name that is new, folded, goes with its number behind these.
fn add_core<'a, L: DriverLanguage>(
    alloc: Global,
    cores: &mut Vec<Core<'a>>,
    folded: &mut Names,
    firsts: &mut Items<usize>,
    core: Core<'a>,
) -> Result<(), AllocError>
    requires { AreFound L.fold folded.old firsts.old (map core_of cores.old.items) }
    ensures added { IfOk result (λ _. cores.new.items ≡ cores.old.items ++ core.entry ∷ []) }
    ensures found { IfOk result (λ _. AreFound L.fold folded.new firsts.new (map core_of cores.new.items)) }
{
    let key = L::folded(alloc, core.name)?;
    let added = folded.add(&key)?;
    push_first(firsts, added, cores.as_slice().len())?;
    cores.push(core)?;
    Ok(())
}

impl<'a, L: DriverLanguage> Cores<'a, L> {
    /// No cores. Takes no memory.
    pub fn new(alloc: Global) -> Cores<'a, L>
        ensures { result ≡ [] }
    {
        Cores {
            alloc,
            cores: Vec::new(alloc),
            folded: Names::new(alloc),
            firsts: Items::new(alloc),
            language: PhantomData,
        }
    }

    /// These cores, and one more behind them. An `Err` comes only where memory is wanting.
    pub fn with(self, core: Core<'a>) -> Result<Cores<'a, L>, AllocError>
        ensures { IfOk result (λ more. more ≡ self.entry ++ core_of core.entry ∷ []) }
    {
        let Cores {
            alloc,
            mut cores,
            mut folded,
            mut firsts,
            language,
        } = self;
        add_core::<L>(alloc, &mut cores, &mut folded, &mut firsts, core)?;
        Ok(Cores {
            alloc,
            cores,
            folded,
            firsts,
            language,
        })
    }

    /// The ports of the core with this number.
    fn ports_at(&self, number: usize) -> Option<&'a [VPort]>
        ensures { option_map (λ ports. ports.now) result ≡ spec.ports_at self.now number }
    {
        let core = self.cores.get(number)?;
        Some(core.ports)
    }

    /// The ports of the first core of a name, in the time of one look-up. An `Err` comes only where memory is wanting.
    pub fn ports(&self, name: &[u8]) -> Result<Option<&'a [VPort]>, AllocError>
        requires { L.Spelling.is_name name.now ≡ true }
        ensures { IfOk result (λ found. option_map (λ ports. ports.now) found ≡ spec.core_ports L.Spelling.is_same self.now
            name.now) }
    {
        let folded = L::folded(self.alloc, name)?;
        let Some(number) = self.folded.number(&folded) else {
            return Ok(None);
        };
        let Some(first) = self.firsts.get(number) else {
            return Ok(None);
        };
        Ok(self.ports_at(*first))
    }

    /// Whether a core of this name fits a driver with these ports and so many driven outputs. An `Err` comes only where memory is
    /// wanting.
    fn fits(&self, name: &[u8], ports: &[VPort], driven: usize) -> Result<bool, AllocError>
        requires { L.Spelling.is_name name.now ≡ true }
        ensures { IfOk result (λ good. good ≡ spec.fits ports.now driven (spec.core_ports L.Spelling.is_same self.now name.now)) }
    {
        match self.ports(name)? {
            None => Ok(false),
            Some(core) => Ok(are_core_ports(ports, driven, core)),
        }
    }
}

/// Whether these ports are all outputs.
fn are_outputs(ports: &[VPort]) -> bool
    ensures { result ≡ list_all (λ port. not port.input) ports.now }
{
    ports.iter().all(|port| !port.input)
}

/// Whether these ports are those of a core for a driver with these ports and so many driven outputs.
fn are_core_ports(ports: &[VPort], driven: usize, core: &[VPort]) -> bool
    ensures { result ≡ are_core_ports ports.now driven core.now }
{
    let mut left = core;
    for port in ports {
        match left {
            [first, rest @ ..] if first.input == port.input => left = rest,
            _ => return false,
        }
    }
    left.len() == driven && are_outputs(left)
}

/// The name of the core of a driver with these ports and so many driven outputs: the name of a model that may be it.
pub fn core_name<L: DriverLanguage>(
    cursor: &mut Cursor<'_, L::Spelling>,
    alloc: Global,
    cores: &Cores<'_, L>,
    ports: &[VPort],
    driven: usize,
) -> Read<Items<u8>>
    ensures { Reads (read (known L.Spelling.is_name (spec.core_name L.Spelling.is_same cores.now ports.now driven)) cursor.old)
        result cursor.new }
{
    if !cursor.is_next_name() {
        return Err(Stop::Refused(Refusal::Syntax));
    }
    if !cores.fits(cursor.bytes(), ports, driven)? {
        return Err(Stop::Refused(Refusal::Undefined));
    }
    let name = Items::from_slice(alloc, cursor.bytes())?;
    cursor.skip();
    Ok(name)
}
