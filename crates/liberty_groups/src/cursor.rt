//! A cursor over the tokens of a text.

ghost use Rattle.std.specs.Prelude.{◌≡◌, ◌<◌, ◌≤◌, ◌+◌, ◌^◌, [], length, slice_range, IfOk};
ghost use Rattle.liberty_groups.specs.Lexeme.{lexemes_of, lexemes_behind, LieInside, next_token, next_bytes, rest};
ghost use Rattle.liberty_groups.specs.Answer.{is_last};

use crate::reader::is_argument;
use crate::recent_arguments::RecentArguments;
use crate::values::{Arguments, Values};
use liberty_text::{Kept, Token, TokenKind, Unread};
use small_bytes::{SharedBytes, SmallBytes};
use std::alloc::{AllocError, Global};
use std::marker::Model;

/// The tokens of a text, or of a part of it, that are not read yet. It shows them with the offsets of
/// the whole text.
#[derive(Drop)]
pub struct Cursor<'a> {
    text: &'a [u8],
    /// The bytes of the text, where what is read may share them.
    shared: Option<&'a SharedBytes>,
    left: Unread,
    /// How many bytes stand before the part.
    before: usize,
    /// The arguments of the groups that were read.
    recent: RecentArguments,
}

impl<'a> Model for Cursor<'a> {
    ghost use Rattle.std.specs.Prelude.{List};
    ghost use Rattle.liberty_groups.specs.Lexeme.{Lexeme};

    ghost Value = { List Lexeme };

    ghost use Rattle.liberty_groups.specs.Cursor.{lexemes_left, IsInside};

    ghost view = { lexemes_left };

    ghost invariant = { IsInside };
}

impl<'a> Cursor<'a> {
    /// A cursor before the first token.
    pub fn new(text: &'a [u8], tokens: Vec<Kept>) -> Cursor<'a>
        requires { LieInside text.now tokens.items }
        ensures { result ≡ lexemes_of text.now tokens.items }
    {
        Cursor::behind(0, text, tokens)
    }

    /// The tokens of a part of a text, before which so many bytes stand.
    pub fn behind(before: usize, text: &'a [u8], tokens: Vec<Kept>) -> Cursor<'a>
        requires inside { LieInside text.now tokens.items }
        requires fits { before + length text.now < 2 ^ 64 }
        ensures { result ≡ lexemes_behind before text.now tokens.items }
    {
        Cursor {
            text,
            shared: None,
            recent: RecentArguments::new(tokens.len()),
            left: Unread::new(tokens),
            before,
        }
    }

    /// The same, where the texts that are read share the bytes of the part.
    pub fn sharing(before: usize, shared: &'a SharedBytes, tokens: Vec<Kept>) -> Cursor<'a>
        requires inside { LieInside shared.now tokens.items }
        requires fits { before + length shared.now < 2 ^ 64 }
        ensures { result ≡ lexemes_behind before shared.now tokens.items }
    {
        Cursor {
            text: shared.as_slice(),
            shared: Some(shared),
            recent: RecentArguments::new(tokens.len()),
            left: Unread::new(tokens),
            before,
        }
    }

    /// A cursor at the same place. An `Err` comes only where memory is wanting.
    pub fn again(&self, alloc: Global) -> Result<Cursor<'a>, AllocError>
        ensures { IfOk result (λ same. same ≡ self.now) }
    {
        Ok(Cursor {
            text: self.text,
            shared: self.shared,
            left: self.left.again(alloc)?,
            before: self.before,
            recent: RecentArguments::new(self.left.len()),
        })
    }

    /// An empty list, with the memory that the tokens stood in.
    pub fn into_room(self) -> Vec<Kept>
        ensures { result.items ≡ [] }
    {
        let Cursor { left, .. } = self;
        left.into_room()
    }

    /// Gives back the memory of the tokens that were read, where it is much.
    pub(crate) fn give_back(&mut self)
        ensures { self.new ≡ self.old }
    {
        self.left.give_back();
    }

    /// The arguments of a group with these values. An `Err` comes only where memory is wanting, or no more groups can be counted.
    pub(crate) fn group_arguments(
        &mut self,
        alloc: Global,
        values: Values,
    ) -> Result<Arguments, AllocError>
        ensures same { IfOk result (λ same. same ≡ values) }
        ensures left { self.new ≡ self.old }
    {
        self.recent.shared(alloc, values)
    }

    /// How many tokens are left.
    pub fn left(&self) -> usize
        ensures { result ≡ length self.now }
    {
        self.left.len()
    }

    /// How many values stand among the arguments from here on.
    pub(crate) fn values_ahead(&self) -> usize {
        self.left
            .turned()
            .iter()
            .rev()
            .map(|kept| kept.token().kind)
            .take_while(|kind| is_argument(*kind))
            .filter(|kind| *kind != TokenKind::Comma)
            .count()
    }

    /// The next token, which stays. Where it is asked for, no more of it is unpacked than what is wanted of it.
    #[inline(always)]
    #[tactic(auto, using(crate::proofs::Unreads::next_is, crate::proofs::Unreads::first_inside))]
    pub fn peek(&self) -> Option<Token>
        ensures { result ≡ next_token self.now }
    {
        match self.left.first() {
            Some(token) => Some(Token {
                kind: token.kind,
                at: token.at + self.before,
                end: token.end + self.before,
                line_before: token.line_before,
            }),
            None => None,
        }
    }

    /// Whether exactly one token is left.
    #[tactic(auto, using(crate::proofs::Unreads::one_is_last))]
    pub fn is_last(&self) -> bool
        ensures { result ≡ is_last self.now }
    {
        self.left.len() == 1
    }

    /// Goes past the next token.
    #[inline(always)]
    #[tactic(auto, using(crate::proofs::Unreads::others_are, crate::proofs::Unreads::others_inside))]
    pub fn skip(&mut self)
        ensures { self.new ≡ rest self.old }
    {
        self.left.skip();
    }

    /// The bytes of the next token.
    #[inline(always)]
    #[tactic(auto, using(crate::proofs::Unreads::bytes_are, crate::proofs::Unreads::first_inside))]
    pub fn bytes(&self) -> &'a [u8]
        ensures { result.now ≡ next_bytes self.now }
    {
        match self.left.first() {
            Some(token) => &self.text[token.at..token.end],
            None => &[],
        }
    }

    /// The bytes of the next token from one place up to another. An `Err` comes only where memory is wanting.
    #[tactic(auto, using(crate::proofs::Unreads::part_inside, crate::proofs::Unreads::part_is))]
    pub(crate) fn part(
        &self,
        alloc: Global,
        from: usize,
        to: usize,
    ) -> Result<SmallBytes, AllocError>
        requires ordered { from ≤ to }
        requires within { to ≤ length (next_bytes self.now) }
        ensures { IfOk result (λ part. part ≡ slice_range (next_bytes self.now) from to) }
    {
        if let Some(shared) = self.shared {
            if let Some(token) = self.left.first() {
                return SmallBytes::part(alloc, shared, token.at + from, token.at + to);
            }
        }
        SmallBytes::from_slice(alloc, &self.bytes()[from..to])
    }
}
