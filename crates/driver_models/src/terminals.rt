//! The terminals of the instance of a core.
ghost use Rattle.std.specs.Prelude.{◌≡◌, true, IfOk};
ghost use Rattle.grammar_reader.specs.Reading.{read, Reads};
ghost use Rattle.grammar_reader.specs.Words.{this_name, known};
ghost use Rattle.driver_models.specs.Terminals as spec;
ghost use Rattle.driver_models.specs.Wires.{numbered};

use crate::known_names::KnownNames;
use crate::language::DriverLanguage;
use crate::wires::{is_numbered, number_behind};
use grammar_reader::{Cursor, Language, Read, Refusal, Stop};
use sqlite_items::Items;
use std::alloc::{AllocError, Global};
use udp_tables::VPort;
use vhdl_tokens::numbered_name;

/// The terminals that are read: how many outputs there are, and which of them are driven.
#[derive(Drop)]
pub struct Terminals {
    pub outputs: usize,
    pub drives: Items<usize>,
}

/// The names of a word with the numbers from 1 on, so many.
fn all_numbered<L: DriverLanguage>(
    alloc: Global,
    word: &[u8],
    count: usize,
) -> Result<KnownNames<L>, AllocError>
    ensures { IfOk result (λ names. names ≡ spec.all_numbered word.now count) }
{
    let mut names = KnownNames::new(alloc);
    for i in 0..count {
        let name = numbered_name(alloc, word, i + 1)?;
        names = names.with(name.as_slice())?;
    }
    Ok(names)
}

/// What is read of the instance of a core: the names of all wires to inputs of buffers, of which there are so many.
#[derive(Drop)]
struct Wired<L: DriverLanguage> {
    alloc: Global,
    values: KnownNames<L>,
    count: usize,
    ghost named: { values ≡ spec.all_numbered L.value count },
}

impl<L: DriverLanguage> Wired<L> {
    /// So many wires to inputs of buffers.
    fn new(alloc: Global, count: usize) -> Result<Wired<L>, AllocError>
        ensures { IfOk result (λ wired. wired.count ≡ count) }
    {
        let values = all_numbered(alloc, L::value_word(), count)?;
        Ok(Wired {
            alloc,
            values,
            count,
        })
    }

    /// Whether an output of this name is driven that has the other name at its terminal, where so many are driven before it.
    fn is_driven_by(
        &self,
        own: &[u8],
        before: usize,
        name: &[u8],
    ) -> Result<Option<bool>, AllocError>
        requires { L.Spelling.is_name name.now ≡ true }
        ensures { IfOk result (λ driven. driven ≡ spec.is_driven_by L.Spelling.is_name L.Spelling.is_same L.value L.enable
            self.now.count own.now before name.now) }
    {
        if self.values.has(name)? {
            let number = number_behind(before)?;
            let next = is_numbered::<L::Spelling>(self.alloc, name, L::value_word(), number)?;
            return Ok(next.then_some(true));
        }
        Ok(L::Spelling::is_same(name, own).then_some(false))
    }

    /// The name at the terminal of an output of this name, where so many are driven before it: whether it is driven.
    fn output_name(
        &self,
        cursor: &mut Cursor<'_, L::Spelling>,
        own: &[u8],
        before: usize,
    ) -> Read<bool>
        ensures { Reads (read (known L.Spelling.is_name (spec.is_driven_by L.Spelling.is_name L.Spelling.is_same L.value L.enable
            self.now.count own.now before)) cursor.old) result cursor.new }
    {
        if !cursor.is_next_name() {
            return Err(Stop::Refused(Refusal::Syntax));
        }
        let driven = self.is_driven_by(own, before, cursor.bytes())?;
        cursor.known(driven)
    }

    /// The terminal of an output, behind others.
    #[tactic(auto, unfolding(crate::specs::Terminals::output_terminal))]
    fn output_terminal(
        &self,
        cursor: &mut Cursor<'_, L::Spelling>,
        own: &[u8],
        found: Terminals,
    ) -> Read<Terminals>
        ensures { Reads (read (spec.output_terminal L.Spelling.is_name L.Spelling.is_same L.value L.enable self.now.count own.now
            found) cursor.old) result cursor.new }
    {
        let Terminals {
            outputs,
            mut drives,
        } = found;
        if self.output_name(cursor, own, drives.len())? {
            drives.push(outputs)?;
        }
        Ok(Terminals {
            outputs: number_behind(outputs)?,
            drives,
        })
    }

    /// The terminal of a port, behind others.
    #[tactic(auto, unfolding(crate::specs::Terminals::input_terminal))]
    fn port_terminal(
        &self,
        cursor: &mut Cursor<'_, L::Spelling>,
        port: &VPort,
        found: Terminals,
    ) -> Read<Terminals>
        ensures { Reads (read (spec.port_terminal L.Spelling.is_name L.Spelling.is_same L.value L.enable self.now.count port.now
            found) cursor.old) result cursor.new }
    {
        if !port.input {
            return self.output_terminal(cursor, port.name.as_slice(), found);
        }
        cursor.this_name(port.name.as_slice())?;
        Ok(found)
    }

    /// The terminals of ports, behind others.
    fn more_terminals(
        &self,
        cursor: &mut Cursor<'_, L::Spelling>,
        ports: &[VPort],
        mut found: Terminals,
    ) -> Read<Terminals>
        ensures { Reads (read (spec.more_terminals L.Spelling.is_name L.Spelling.is_same L.value L.enable self.now.count ports.now
            found) cursor.old) result cursor.new }
    {
        for port in ports {
            cursor.expect(b",")?;
            found = self.port_terminal(cursor, port, found)?;
        }
        Ok(found)
    }

    /// The terminals of ports.
    fn port_terminals(
        &self,
        cursor: &mut Cursor<'_, L::Spelling>,
        ports: &[VPort],
    ) -> Read<Terminals>
        ensures { Reads (read (spec.port_terminals L.Spelling.is_name L.Spelling.is_same L.value L.enable self.now.count
            ports.now) cursor.old) result cursor.new }
    {
        let none = Terminals {
            outputs: 0,
            drives: Items::new(self.alloc),
        };
        let Some((port, ports)) = ports.split_first() else {
            return Ok(none);
        };
        let first = self.port_terminal(cursor, port, none)?;
        self.more_terminals(cursor, ports, first)
    }

    /// The terminal of the wire to an enable, which stands only behind all wires to inputs.
    fn enable_terminal(
        &self,
        cursor: &mut Cursor<'_, L::Spelling>,
        ready: bool,
        number: usize,
    ) -> Read<()>
        ensures { Reads (read (this_name L.Spelling.is_name L.Spelling.is_same (spec.enable_name L.Spelling.is_name
            L.Spelling.is_same L.value L.enable self.now.count ready number)) cursor.old) result cursor.new }
    {
        if !ready {
            return Err(Stop::Refused(cursor.no_name()));
        }
        let name = numbered_name(self.alloc, L::enable_word(), number)?;
        cursor.this_name(name.as_slice())
    }

    /// The terminals of all wires to enables.
    fn enables(&self, cursor: &mut Cursor<'_, L::Spelling>, ready: bool) -> Read<()>
        ensures { Reads (read (spec.more_enables L.Spelling.is_name L.Spelling.is_same L.value L.enable self.now.count ready 1
            self.now.count) cursor.old) result cursor.new }
    {
        for i in 0..self.count {
            cursor.expect(b",")?;
            self.enable_terminal(cursor, ready, i + 1)?;
        }
        Ok(())
    }

    /// No further terminal.
    #[tactic(auto, using(grammar_reader::proofs::Repeats::choose_begun, grammar_reader::proofs::Repeats::choose_other), unfolding(crate::specs::Terminals::no_terminal))]
    fn no_terminal(&self, cursor: &mut Cursor<'_, L::Spelling>) -> Read<()>
        ensures { Reads (read (spec.no_terminal L.Spelling.is_name L.Spelling.is_same L.value L.enable self.now.count) cursor.old)
            result cursor.new }
    {
        if !cursor.is_next(b",") {
            return Ok(());
        }
        cursor.skip();
        Err(Stop::Refused(cursor.no_name()))
    }

    /// The terminals of a core, by the ports of its driver.
    #[tactic(auto, unfolding(crate::specs::Terminals::core_terminals))]
    fn terminals(&self, cursor: &mut Cursor<'_, L::Spelling>, ports: &[VPort]) -> Read<Items<usize>>
        ensures { Reads
            (read (spec.core_terminals L.Spelling.is_name L.Spelling.is_same L.value L.enable self.now.count ports.now) cursor.old)
            result cursor.new }
    {
        let Terminals { drives, .. } = self.port_terminals(cursor, ports)?;
        self.enables(cursor, drives.len() == self.count)?;
        self.no_terminal(cursor)?;
        Ok(drives)
    }
}

/// The terminals of a core, behind "(", by the ports of its driver and the number of wires to inputs of buffers, each of which
/// stands at one: the places among the outputs that are driven, ascending.
pub fn core_terminals<L: DriverLanguage>(
    cursor: &mut Cursor<'_, L::Spelling>,
    alloc: Global,
    ports: &[VPort],
    count: usize,
) -> Read<Items<usize>>
    ensures { Reads (read (spec.core_terminals L.Spelling.is_name L.Spelling.is_same L.value L.enable count ports.now) cursor.old)
        result cursor.new }
{
    let wired = Wired::<L>::new(alloc, count)?;
    wired.terminals(cursor, ports)
}
