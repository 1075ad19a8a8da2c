//! Statements and groups, by recursive descent.

ghost use Rattle.std.specs.Prelude.{◌≡◌, ◌++◌, ℕ, [], OnOk, OnErr, IfOk};
ghost use Rattle.grammar_rules.specs.Reading.{read};
ghost use Rattle.liberty_groups.specs.Lexeme.{next_bytes, rest};
ghost use Rattle.liberty_groups.specs.Grammar as spec;
ghost use Rattle.liberty_groups.specs.Grammar.{Reads, next_at};

use crate::cursor::Cursor;
use crate::fault::{Expected, Refusal, Stop};
use crate::reader::{Mark, Place, Start};
use crate::tree::{Group, Item, Value};
use crate::values::Values;
use small_bytes::SmallBytes;
use small_lists::SmallList;
use sqlite_items::Items;
use std::alloc::{AllocError, Global};

/// A list of statements begins with so many places, which most groups do not fill: one kilobyte, the most that an allocator keeps
/// at hand for the next list.
const FIRST: usize = 18;

/// No statements yet. An `Err` comes only where memory is wanting.
fn first_room(alloc: Global) -> Result<Items<Item>, AllocError>
    ensures { IfOk result (λ items. items ≡ []) }
{
    Ok(Items::from_vec(Vec::with_capacity(alloc, FIRST)?))
}

impl Cursor<'_> {
    /// The bytes and the offset of the next token, which is taken.
    pub fn name(&mut self, alloc: Global) -> Result<(SmallBytes, usize), Stop>
        ensures name { IfOk result (λ found. found ≡ (next_bytes self.old, next_at self.old)) }
        ensures left { OnOk result (self.new ≡ rest self.old) }
        ensures memory { OnErr result (result ≡ Err Stop.Memory) }
    {
        let at = self.at();
        let bytes = self.word(alloc)?;
        self.skip();
        self.give_back();
        Ok((bytes, at))
    }

    /// What follows the name of a statement, where groups may be open to `levels` more levels.
    #[cycle(nest)]
    pub fn statement(
        &mut self,
        alloc: Global,
        levels: usize,
        name: SmallBytes,
        at: usize,
    ) -> Result<Item, Stop>
        ensures { Reads (read (spec.statement levels name at) self.old) result self.new }
    {
        if self.sees(Mark::Colon) {
            self.skip();
            self.simple(alloc, name, at)
        } else {
            self.bracketed(alloc, levels, name, at)
        }
    }

    /// The arguments of a statement, and the statements of a group if it is one.
    #[cycle(nest)]
    #[tactic(auto, unfolding(crate::specs::Grammar::bracketed))]
    fn bracketed(
        &mut self,
        alloc: Global,
        levels: usize,
        name: SmallBytes,
        at: usize,
    ) -> Result<Item, Stop>
        ensures { Reads (read (spec.bracketed levels (spec.body levels) name at) self.old) result self.new }
    {
        self.expect(Mark::Open, Expected::AfterName)?;
        let arguments = self.arguments(alloc)?;
        self.complex_or_group(alloc, levels, name, arguments, at)
    }

    /// The group, if a brace opens it; otherwise the complex attribute that was read.
    #[cycle(nest)]
    #[tactic(auto, unfolding(crate::specs::Grammar::complex_or_group), using(crate::proofs::Statements::inner))]
    fn complex_or_group(
        &mut self,
        alloc: Global,
        levels: usize,
        name: SmallBytes,
        arguments: Values,
        at: usize,
    ) -> Result<Item, Stop>
        ensures { Reads (read (spec.complex_or_group levels (spec.body levels) name arguments at) self.old) result self.new }
    {
        if !self.sees(Mark::Begin) {
            return Ok(Item::Complex {
                name,
                arguments,
                at,
            });
        }
        if levels == 0 {
            return Err(Stop::Refused(Refusal::TooDeep));
        }
        self.skip();
        let arguments = self.group_arguments(alloc, arguments)?;
        let items = self.statements(alloc, levels - 1)?;
        Ok(Item::Inner(Group {
            name,
            arguments,
            items,
            at,
        }))
    }

    /// The statements of a group up to its closing brace, and the brace.
    #[cycle(nest)]
    fn statements(&mut self, alloc: Global, levels: usize) -> Result<SmallList<Item>, Stop>
        ensures { Reads (read (spec.statements (spec.statement levels)) self.old) result self.new }
    {
        let items = self.some_statements(alloc, levels)?;
        self.expect(Mark::End, Expected::Statement)?;
        Ok(SmallList::from_items(alloc, items)?)
    }

    /// The statements from here on.
    #[cycle(nest)]
    #[tactic(auto, using(crate::proofs::Statements::empty_turn, crate::proofs::Statements::named_turn, crate::proofs::Statements::failed_turn, crate::proofs::Statements::no_turn))]
    fn some_statements(&mut self, alloc: Global, levels: usize) -> Result<Items<Item>, Stop>
        ensures { Reads (read (spec.some_statements (spec.statement levels) []) self.old) result self.new }
    {
        let mut items = first_room(alloc)?;
        for _turn in 0..self.left() {
            match self.start() {
                Start::Empty => self.skip(),
                Start::Named => {
                    let (name, at) = self.name(alloc)?;
                    items.push(self.statement(alloc, levels, name, at)?)?;
                }
                Start::Other => break,
            }
        }
        Ok(items)
    }
}
