//! The places of words and of names, by recursive descent.

ghost use Rattle.std.specs.Prelude.{◌≡◌, ℕ, true, List, ◌∷◌, Option, Some, None, Err};
ghost use Rattle.grammar_rules.specs.Reading.{read};
ghost use Rattle.grammar_reader.specs.Words as spec;
ghost use Rattle.grammar_reader.specs.Reading.{Reads, found_at, number_at};
ghost use Rattle.grammar_reader.specs.Next.{next_bytes, is_next_name};

use crate::cursor::Cursor;
use crate::language::Language;
use crate::refusal::{Refusal, Stop};
use sqlite_items::Items;
use std::alloc::Global;

/// Whether a name is one of these.
pub fn is_among<L: Language>(names: &[Items<u8>], name: &[u8]) -> bool
    ensures { result ≡ spec.is_among L.is_same names.now name.now }
{
    for other in names {
        if L::is_same(name, other.as_slice()) {
            return true;
        }
    }
    false
}

impl<L: Language> Cursor<'_, L> {
    /// A token that must stand next.
    #[inline(always)]
    pub fn expect(&mut self, text: &[u8]) -> Result<(), Stop>
        ensures { Reads (read (spec.expect L.is_same text.now) self.old) result self.new }
    {
        if !self.is_next(text) {
            return Err(Stop::Refused(Refusal::Syntax));
        }
        self.skip();
        Ok(())
    }

    /// A token that must stand next, and breaks a strict rule unless the condition holds.
    #[inline(always)]
    pub fn expect_where(&mut self, holds: bool, refusal: Refusal, text: &[u8]) -> Result<(), Stop>
        ensures { Reads (read (spec.expect_where L.is_same holds refusal text.now) self.old) result self.new }
    {
        if !self.is_next(text) {
            return Err(Stop::Refused(Refusal::Syntax));
        }
        if !holds {
            return Err(Stop::Refused(refusal));
        }
        self.skip();
        Ok(())
    }

    /// A place that no text gets past unless the condition holds.
    pub fn go_on_where(&self, holds: bool) -> Result<(), Stop>
        ensures { Reads (read (spec.go_on_where holds) self.now) result self.now }
    {
        if holds {
            Ok(())
        } else {
            Err(Stop::Refused(Refusal::Syntax))
        }
    }

    /// Any name.
    pub fn any_name(&mut self, alloc: Global) -> Result<Items<u8>, Stop>
        ensures { Reads (read (spec.any_name L.is_name) self.old) result self.new }
    {
        if !self.is_next_name() {
            return Err(Stop::Refused(Refusal::Syntax));
        }
        let name = Items::from_slice(alloc, self.bytes())?;
        self.skip();
        Ok(name)
    }

    /// A name that is declared here, where `taken` says whether it was declared before.
    pub fn fresh_name(&mut self, alloc: Global, taken: bool) -> Result<Items<u8>, Stop>
        ensures { (names : List (List ℕ)) → taken ≡ spec.is_among L.is_same names (next_bytes self.old)
            → Reads (read (spec.new_name L.is_name L.is_same names) self.old) result self.new }
    {
        if !self.is_next_name() {
            return Err(Stop::Refused(Refusal::Syntax));
        }
        if taken {
            return Err(Stop::Refused(Refusal::Twice));
        }
        let name = Items::from_slice(alloc, self.bytes())?;
        self.skip();
        Ok(name)
    }

    /// A name that is declared here, and was none of these before.
    pub fn new_name(&mut self, alloc: Global, names: &[Items<u8>]) -> Result<Items<u8>, Stop>
        ensures { Reads (read (spec.new_name L.is_name L.is_same names.now) self.old) result self.new }
    {
        let taken = is_among::<L>(names, self.bytes());
        self.fresh_name(alloc, taken)
    }

    /// Why a place refuses the next token that allows no name.
    pub fn no_name(&self) -> Refusal
        ensures { read (spec.this_name L.is_name L.is_same None) self.now ≡ Err (result, self.now) }
    {
        if self.is_next_name() {
            Refusal::Undefined
        } else {
            Refusal::Syntax
        }
    }

    /// This name.
    #[inline(always)]
    pub fn this_name(&mut self, name: &[u8]) -> Result<(), Stop>
        ensures { Reads (read (spec.this_name L.is_name L.is_same (Some name.now)) self.old) result self.new }
    {
        if !self.is_next_name() {
            return Err(Stop::Refused(Refusal::Syntax));
        }
        if !L::is_same(self.bytes(), name) {
            return Err(Stop::Refused(Refusal::Undefined));
        }
        self.skip();
        Ok(())
    }

    /// The value that the next token was found to stand for, if it stands for one.
    #[inline(always)]
    pub fn value<A: Drop>(&mut self, found: Option<A>) -> Result<A, Stop>
        ensures { Reads (found_at found self.old) result self.new }
    {
        let Some(value) = found else {
            return Err(Stop::Refused(Refusal::Syntax));
        };
        self.skip();
        Ok(value)
    }

    /// The value that a name was found to stand for, if it stands for one. What was found of a token that is no name is not
    /// asked.
    #[tactic(auto, using(crate::proofs::Values::next_known, crate::proofs::Values::next_unknown, crate::proofs::Values::next_no_name))]
    pub fn known<A: Drop>(&mut self, found: Option<A>) -> Result<A, Stop>
        ensures { (find : List ℕ → Option A) → (is_next_name L.is_name self.old ≡ true → found ≡ find (next_bytes self.old))
            → Reads (read (spec.known L.is_name find) self.old) result self.new }
    {
        if !self.is_next_name() {
            return Err(Stop::Refused(Refusal::Syntax));
        }
        let Some(value) = found else {
            return Err(Stop::Refused(Refusal::Undefined));
        };
        self.skip();
        Ok(value)
    }

    /// The number that the next token was found to stand for, which has to be this one.
    pub fn same_number(&mut self, found: Option<u64>, number: u64) -> Result<(), Stop>
        ensures { Reads (number_at number found self.old) result self.new }
    {
        match found {
            None => Err(Stop::Refused(Refusal::Syntax)),
            Some(other) if other != number => Err(Stop::Refused(Refusal::Unequal)),
            Some(_) => {
                self.skip();
                Ok(())
            }
        }
    }
}
