//! The values and the arguments of statements.

ghost use Rattle.std.specs.Prelude.{◌≡◌, ◌++◌, ℕ, [], OnOk, OnErr, IfOk};
ghost use Rattle.grammar_rules.specs.Reading.{read};
ghost use Rattle.liberty_groups.specs.Lexeme.{next_token, next_bytes, rest};
ghost use Rattle.liberty_groups.specs.Grammar as spec;
ghost use Rattle.liberty_groups.specs.Grammar.{Reads, next_part, next_start, next_at};

use crate::cursor::Cursor;
use crate::fault::{Expected, Refusal, Stop};
use crate::tree::{Item, Value};
use crate::values::Values;
use liberty_text::{Token, TokenKind};
use small_bytes::SmallBytes;
use std::alloc::Global;

/// Where a list of values stands.
#[derive(Clone, Copy)]
pub enum Place {
    /// In the brackets of a statement.
    Arguments,
    /// Right after the colon of a simple attribute.
    ValueStart,
    /// After the first token of a value.
    Value,
}

/// A mark of one byte.
#[derive(Clone, Copy)]
pub enum Mark {
    Open,
    Close,
    Begin,
    End,
    Colon,
}

/// What a token begins among the statements of a group.
#[derive(Clone, Copy)]
pub enum Start {
    /// A statement, by its name.
    Named,
    /// An empty statement.
    Empty,
    Other,
}

/// What a token begins at the place of a statement.
pub fn start_by(kind: TokenKind) -> Start
    ensures { result ≡ spec.start_by kind }
{
    match kind {
        TokenKind::Word => Start::Named,
        TokenKind::Semicolon => Start::Empty,
        _ => Start::Other,
    }
}

/// Whether the token is this mark.
pub fn is_mark(mark: Mark, kind: TokenKind) -> bool
    ensures { result ≡ spec.is_mark mark kind }
{
    match (mark, kind) {
        (Mark::Open, TokenKind::Brace(byte)) => byte == b'(',
        (Mark::Close, TokenKind::Brace(byte)) => byte == b')',
        (Mark::Begin, TokenKind::Brace(byte)) => byte == b'{',
        (Mark::End, TokenKind::Brace(byte)) => byte == b'}',
        (Mark::Colon, TokenKind::Colon) => true,
        _ => false,
    }
}

/// Whether the token may stand among arguments.
pub fn is_argument(kind: TokenKind) -> bool
    ensures { result ≡ spec.is_argument kind }
{
    match kind {
        TokenKind::Word | TokenKind::Text | TokenKind::Comma => true,
        _ => false,
    }
}

/// Whether the token may stand in a value.
pub fn is_value(kind: TokenKind) -> bool
    ensures { result ≡ spec.is_value kind }
{
    match kind {
        TokenKind::Word | TokenKind::Text | TokenKind::Comma | TokenKind::Colon => true,
        TokenKind::Brace(byte) => byte == b'(' || byte == b')',
        TokenKind::Semicolon => false,
    }
}

/// Whether the token goes on what stands at the place.
pub fn goes_on(place: Place, token: Token) -> bool
    ensures { result ≡ spec.goes_on place token }
{
    match place {
        Place::Arguments => is_argument(token.kind),
        Place::ValueStart => is_value(token.kind),
        Place::Value => is_value(token.kind) && !token.line_before,
    }
}

/// Whether the token ends a value.
pub fn ends_by(kind: TokenKind) -> bool
    ensures { result ≡ spec.ends_by kind }
{
    match kind {
        TokenKind::Semicolon => true,
        TokenKind::Brace(byte) => byte == b'}',
        _ => false,
    }
}

/// Whether the token ends the value at the place, also by the line end before it.
pub fn ends_value(place: Place, token: Token) -> bool
    ensures { result ≡ spec.ends_value place token }
{
    match place {
        Place::Value => ends_by(token.kind) || token.line_before,
        _ => ends_by(token.kind),
    }
}

impl Cursor<'_> {
    /// A mark that must stand next.
    pub fn expect(&mut self, mark: Mark, expected: Expected) -> Result<(), Stop>
        ensures { Reads (read (spec.expect mark (Refusal.Syntax expected)) self.old) result self.new }
    {
        match self.peek() {
            Some(token) if is_mark(mark, token.kind) => {
                self.skip();
                Ok(())
            }
            _ => Err(Stop::Refused(Refusal::Syntax(expected))),
        }
    }

    /// Whether a mark stands next.
    pub fn sees(&self, mark: Mark) -> bool
        ensures { result ≡ spec.sees mark self.now }
    {
        match self.peek() {
            Some(token) => is_mark(mark, token.kind),
            None => false,
        }
    }

    /// The offset of the next token.
    pub(crate) fn at(&self) -> usize
        ensures { result ≡ next_at self.now }
    {
        match self.peek() {
            Some(token) => token.at,
            None => 0,
        }
    }

    /// Takes the next token, and adds what it is in a list of values.
    fn add_part(&mut self, alloc: Global, found: &mut Values) -> Result<(), Stop>
        ensures found { OnOk result (found.new ≡ found.old ++ next_part self.old) }
        ensures left { OnOk result (self.new ≡ rest self.old) }
        ensures memory { OnErr result (result ≡ Err Stop.Memory) }
    {
        let Some(token) = self.peek() else {
            return Ok(());
        };
        match token.kind {
            TokenKind::Word => {
                let bytes = self.word(alloc)?;
                found.push(alloc, Value::new(bytes, false))?;
            }
            TokenKind::Text => {
                let bytes = self.text(alloc)?;
                found.push(alloc, Value::new(bytes, true))?;
            }
            _ => {}
        }
        self.skip();
        self.give_back();
        Ok(())
    }

    /// The values from here on, behind those that there are.
    fn parts(&mut self, alloc: Global, place: Place, mut found: Values) -> Result<Values, Stop>
        ensures { Reads (read (spec.parts place found) self.old) result self.new }
    {
        for _turn in 0..self.left() {
            match self.peek() {
                Some(token) if goes_on(place, token) => self.add_part(alloc, &mut found)?,
                _ => break,
            }
        }
        Ok(found)
    }

    /// The arguments up to the closing bracket, and the bracket.
    #[tactic(auto, unfolding(crate::specs::Grammar::arguments))]
    pub fn arguments(&mut self, alloc: Global) -> Result<Values, Stop>
        ensures { Reads (read spec.arguments self.old) result self.new }
    {
        // exactly the room that they need: the first growth of a list would be one of four places
        let room = Values::with_capacity(alloc, self.values_ahead())?;
        let found = self.parts(alloc, Place::Arguments, room)?;
        self.expect(Mark::Close, Expected::Argument)?;
        Ok(found)
    }

    /// The end of a value, which is not taken.
    pub fn value_end(&self, place: Place) -> Result<(), Stop>
        ensures { Reads (read (spec.value_end place) self.now) result self.now }
    {
        match self.peek() {
            Some(token) if ends_value(place, token) => Ok(()),
            _ => Err(Stop::Refused(Refusal::Syntax(Expected::Value))),
        }
    }

    /// The value of a simple attribute, after its colon.
    #[tactic(auto, unfolding(crate::specs::Grammar::value, crate::specs::Grammar::more_value, crate::specs::Grammar::no_value))]
    fn value(&mut self, alloc: Global) -> Result<Values, Stop>
        ensures { Reads (read spec.value self.old) result self.new }
    {
        match self.peek() {
            Some(token) if goes_on(Place::ValueStart, token) => {
                let mut found = Values::new();
                self.add_part(alloc, &mut found)?;
                let found = self.parts(alloc, Place::Value, found)?;
                self.value_end(Place::Value)?;
                Ok(found.exactly(alloc)?)
            }
            _ => {
                self.value_end(Place::ValueStart)?;
                Ok(Values::new())
            }
        }
    }

    /// A simple attribute, after its colon.
    #[tactic(auto, unfolding(crate::specs::Grammar::simple))]
    pub(crate) fn simple(
        &mut self,
        alloc: Global,
        name: SmallBytes,
        at: usize,
    ) -> Result<Item, Stop>
        ensures { Reads (read (spec.simple name at) self.old) result self.new }
    {
        let value = self.value(alloc)?;
        Ok(Item::Simple { name, value, at })
    }

    /// What the next token begins among the statements of a group.
    pub fn start(&self) -> Start
        ensures { result ≡ next_start self.now }
    {
        match self.peek() {
            Some(token) => start_by(token.kind),
            None => Start::Other,
        }
    }
}
