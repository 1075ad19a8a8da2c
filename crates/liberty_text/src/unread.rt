//! Tokens that are read one after another, in memory that is given back as they are read.

ghost use Rattle.std.specs.Prelude.{◌≡◌, [], reverse, length, IfOk};
ghost use Rattle.liberty_text.specs.Unread.{first, others};

use crate::kept::{Kept, copy_kept};
use crate::token::Token;
use std::alloc::{AllocError, Global};
use std::marker::Model;

/// The room of fewer tokens than these is kept.
const FEW: usize = 65_536;

/// The tokens of a text that are not read yet. Contracts see the list of them.
#[derive(Drop)]
pub struct Unread {
    /// The last token of the text stands first, so that the next one can be taken off the end.
    turned: Vec<Kept>,
}

impl Model for Unread {
    ghost use Rattle.std.specs.Prelude.{List, reverse};
    ghost use Rattle.liberty_text.specs.declared.token.Token.{Token};

    ghost Value = { List Token };

    ghost view = { λ u. reverse u.turned.items };
}

impl Unread {
    /// All of these tokens.
    #[tactic(auto, using(crate::proofs::Turning::turned_back))]
    pub fn new(tokens: Vec<Kept>) -> Unread
        ensures { result ≡ tokens.items }
    {
        let mut turned = tokens;
        turned.reverse();
        Unread { turned }
    }

    /// The same tokens once more. An `Err` comes only where memory is wanting.
    pub fn again(&self, alloc: Global) -> Result<Unread, AllocError>
        ensures { IfOk result (λ same. same ≡ self.now) }
    {
        let turned = copy_kept(alloc, &self.turned)?;
        Ok(Unread { turned })
    }

    /// The tokens, the last one first.
    pub fn turned(&self) -> &[Kept]
        ensures { reverse result.now ≡ self.now }
    {
        self.turned.as_slice()
    }

    /// How many tokens there are.
    #[tactic(auto, using(crate::proofs::Turning::turned_length))]
    #[inline(always)]
    pub fn len(&self) -> usize
        ensures { result ≡ length self.now }
    {
        self.turned.len()
    }

    /// The next token, which stays.
    #[tactic(auto, using(crate::proofs::Turning::turned_first))]
    #[inline(always)]
    pub fn first(&self) -> Option<Token>
        ensures { result ≡ first self.now }
    {
        match self.turned.as_slice() {
            [.., next] => Some(next.token()),
            [] => None,
        }
    }

    /// Takes off the next token.
    #[tactic(auto, using(crate::proofs::Turning::turned_others))]
    #[inline(always)]
    pub fn skip(&mut self)
        ensures { self.new ≡ others self.old }
    {
        self.turned.pop();
    }

    /// Gives back the memory of the tokens that were taken off, where it is that of many and more than an eighth of all.
    pub fn give_back(&mut self)
        ensures { self.new ≡ self.old }
    {
        let room = self.turned.capacity();
        if room > FEW && self.turned.len() < room - room / 8 {
            self.turned.shrink_to(FEW);
        }
    }

    /// An empty list, with the memory that the tokens stood in.
    pub fn into_room(self) -> Vec<Kept>
        ensures { result.items ≡ [] }
    {
        let Unread { mut turned } = self;
        turned.clear();
        turned
    }
}
