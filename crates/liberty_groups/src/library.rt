//! The library over its tokens.

ghost use Rattle.std.specs.Prelude.{◌≡◌};
ghost use Rattle.grammar_rules.specs.Reading.{read};
ghost use Rattle.liberty_groups.specs.Grammar.{Reads};
ghost use Rattle.liberty_groups.specs.Library.{nothing_found, found_of, header, contents, counted_statement, rest_of_library};
ghost use Rattle.liberty_groups.specs.Library.{library, is_library_name, next_is_library, Gathers};

use crate::contents::Contents;
use crate::cursor::Cursor;
use crate::fault::{Expected, Refusal, Stop};
use crate::reader::{Mark, Start};
use liberty_text::TokenKind;
use small_bytes::SmallBytes;
use std::alloc::Global;

/// Groups inside the library may be open to this many levels: the library itself is the first of 32.
pub const LEVELS_INSIDE: usize = 31;

impl Cursor<'_> {
    /// Whether the next token is the name of a library.
    pub fn sees_library(&self) -> bool
        ensures { result ≡ next_is_library self.now }
    {
        match self.peek() {
            Some(token) => token.kind == TokenKind::Word && self.bytes() == b"library".as_slice(),
            None => false,
        }
    }

    /// The name of the library, its arguments and the brace that opens it.
    #[tactic(auto, unfolding(crate::specs::Library::header))]
    pub fn header(&mut self, alloc: Global) -> Result<(), Stop>
        ensures { Reads (read header self.old) result self.new }
    {
        if !self.sees_library() {
            return Err(Stop::Refused(Refusal::NotLibrary));
        }
        self.skip();
        self.expect(Mark::Open, Expected::Opening)?;
        let _arguments = self.arguments(alloc)?;
        self.expect(Mark::Begin, Expected::Opening)
    }

    /// A statement of the library, of which `contents` keeps what is kept.
    #[tactic(auto, unfolding(crate::specs::Library::counted_statement))]
    fn counted_statement(
        &mut self,
        alloc: Global,
        name: SmallBytes,
        at: usize,
        contents: &mut Contents,
    ) -> Result<(), Stop>
        ensures { Gathers (read (counted_statement (found_of contents.old) name at) self.old) result
            (found_of contents.new) self.new }
    {
        let item = self.statement(alloc, LEVELS_INSIDE, name, at)?;
        contents.count(item)
    }

    /// The statements of the library from here on.
    #[tactic(auto, using(crate::proofs::Counting::empty_turn, crate::proofs::Counting::named_turn, crate::proofs::Counting::failed_turn, crate::proofs::Counting::no_turn))]
    fn contents(&mut self, alloc: Global, found: &mut Contents) -> Result<(), Stop>
        ensures { Gathers (read (contents (found_of found.old)) self.old) result (found_of found.new) self.new }
    {
        for _turn in 0..self.left() {
            match self.start() {
                Start::Empty => self.skip(),
                Start::Named => {
                    let (name, at) = self.name(alloc)?;
                    self.counted_statement(alloc, name, at, found)?;
                }
                Start::Other => break,
            }
        }
        Ok(())
    }

    /// What follows the brace that opens the library.
    #[tactic(auto, unfolding(crate::specs::Library::rest_of_library))]
    fn rest_of_library(&mut self, alloc: Global, found: &mut Contents) -> Result<(), Stop>
        requires { found_of found.old ≡ nothing_found }
        ensures { Gathers (read rest_of_library self.old) result (found_of found.new) self.new }
    {
        self.contents(alloc, found)?;
        self.expect(Mark::End, Expected::Statement)?;
        match self.peek() {
            Some(_) => Err(Stop::Refused(Refusal::Syntax(Expected::FileEnd))),
            None => Ok(()),
        }
    }

    /// The library, of which `found` keeps what is kept.
    #[tactic(auto, unfolding(crate::specs::Library::library))]
    pub fn library(&mut self, alloc: Global, found: &mut Contents) -> Result<(), Stop>
        requires { found_of found.old ≡ nothing_found }
        ensures { Gathers (read library self.old) result (found_of found.new) self.new }
    {
        self.header(alloc)?;
        self.rest_of_library(alloc, found)
    }
}
