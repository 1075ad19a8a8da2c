//! A pile, of which the value that was added last is taken first.
ghost use Rattle.std.specs.Prelude.{◌≡◌, ◌↔◌, List, [], ◌∷◌, IsTrue, OnOk, MatchOption};

use std::alloc::{AllocError, Global};
use std::marker::Model;

/// Values, the innermost last. Contracts see the innermost first.
#[derive(Drop)]
pub(crate) struct Pile<T> {
    items: Vec<T>,
}

impl<T> Model for Pile<T> {
    ghost use Rattle.std.specs.Prelude.{List, reverse};
    ghost use Rattle.std.specs.Coded.{coded_list};

    ghost Value = { List T };

    ghost coded = { coded_list T.code };

    ghost view = { λ p. reverse p.items.items };
}

impl<T: Drop> Pile<T> {
    /// No values.
    pub(crate) fn new(alloc: Global) -> Pile<T>
        ensures { result ≡ [] }
    {
        Pile {
            items: Vec::new(alloc),
        }
    }

    /// Adds the innermost.
    pub(crate) fn push(&mut self, value: T) -> Result<(), AllocError>
        ensures { OnOk result (self.new ≡ value ∷ self.old) }
    {
        self.items.push(value)?;
        Ok(())
    }

    /// Takes the innermost.
    pub(crate) fn pop(&mut self) -> Option<T>
        ensures { MatchOption result ((self.old ≡ []) × (self.new ≡ [])) (λ top. self.old ≡ top ∷ self.new) }
    {
        self.items.pop()
    }

    /// The innermost.
    pub(crate) fn top(&self) -> Option<&T>
        ensures { MatchOption result (self.now ≡ []) (λ top. (rest : List T) × (self.now ≡ top.now ∷ rest)) }
    {
        self.items.last()
    }

    /// Whether there are no values.
    pub(crate) fn is_empty(&self) -> bool
        ensures { IsTrue result ↔ (self.now ≡ []) }
    {
        self.items.is_empty()
    }
}
