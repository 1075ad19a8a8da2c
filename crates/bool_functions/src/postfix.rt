//! The tree of a long function, held as its codes, of which an operator's stands behind those of its parts.
ghost use Rattle.std.specs.Prelude.{◌≡◌, ◌≤◌, ◌^◌, ◌↔◌, ℕ, false, true, Some, IsTrue, IfOk, MatchOption, EachIndex, length};
ghost use Rattle.std.specs.Prelude.{slice_get};
ghost use Rattle.bool_functions.specs.Tree.{value_of, value_by, renamed_by, Has};
ghost use Rattle.bool_functions.specs.Point.{entry_of};
ghost use Rattle.bool_functions.specs.Support.{support_of};
ghost use Rattle.bool_functions.specs.Code.{fits};

use crate::ascending::support;
use crate::blocks::table;
use crate::code_trees::{renamed, tree};
use crate::codes::{Code, add_codes, has, same, value};
use crate::kept_values::{KeptValues, copied};
use crate::tree::Node;
use std::alloc::{AllocError, Global};
use std::marker::Model;

/// A tree as its codes, with its values where it names few names. Contracts see the tree.
#[derive(Drop)]
pub(crate) struct Postfix {
    spelled: Vec<Code>,
    kept: Option<KeptValues>,
}

impl Model for Postfix {
    ghost use Rattle.std.specs.Prelude.{◌≡◌};
    ghost use Rattle.bool_functions.specs.declared.tree.Node.{Node};
    ghost use Rattle.bool_functions.specs.Code.{codes_of, tree_of};
    ghost use Rattle.bool_functions.specs.Kept.{AreOfTree};

    ghost Value = { Node };

    ghost use Rattle.bool_functions.specs.contracts.tree.Node as nodes;
    ghost use Rattle.std.specs.Coded.{codes};

    ghost coded = { Prim.hlevel (codes, nodes.the_row.coded) };

    ghost view = { λ l. tree_of l.spelled.items };

    ghost invariant = { λ l. (l.spelled.items ≡ codes_of (tree_of l.spelled.items))
        × AreOfTree (tree_of l.spelled.items) l.kept };
}

impl Postfix {
    /// A tree as its codes, where they have room for its numbers.
    pub(crate) fn new(alloc: Global, node: &Node) -> Result<Option<Postfix>, AllocError>
        ensures { IfOk result (λ codes. MatchOption codes (fits node.now ≡ false) (λ c. (c ≡ node.now)
            × (fits node.now ≡ true))) }
    {
        let mut spelled = Vec::new(alloc);
        if !add_codes(node, &mut spelled)? {
            return Ok(None);
        }
        spelled.shrink_to_fit();
        let kept = KeptValues::of(alloc, node)?;
        Ok(Some(Postfix { spelled, kept }))
    }

    /// The same codes and values in lists of their own.
    pub(crate) fn copied(&self, alloc: Global) -> Result<Postfix, AllocError>
        ensures { IfOk result (λ f. f ≡ self.now) }
    {
        let spelled = Vec::from_slice(alloc, self.spelled.as_slice())?;
        let kept = copied(&self.kept, alloc)?;
        Ok(Postfix { spelled, kept })
    }

    /// The tree itself.
    fn tree(&self, alloc: Global) -> Result<Node, AllocError>
        ensures { IfOk result (λ f. f ≡ self.now) }
    {
        tree(self.spelled.as_slice(), alloc)
    }

    /// The tree in which `to[i]` stands for each name `i`.
    pub(crate) fn renamed(&self, alloc: Global, to: &[usize]) -> Result<Node, AllocError>
        ensures { IfOk result (λ f. f ≡ renamed_by to.now self.now) }
    {
        renamed(self.spelled.as_slice(), alloc, to)
    }

    /// The values at all points over these places.
    pub(crate) fn table(&self, alloc: Global, places: &[usize]) -> Result<Vec<bool>, AllocError>
        requires { length places.now ≤ 10 }
        ensures len { IfOk result (λ v. length v.items ≡ 2 ^ length places.now) }
        ensures entries { IfOk result (λ v. EachIndex v.items
            (λ k. slice_get v.items k ≡ Some (value_by (entry_of places.now k) self.now))) }
    {
        if let Some(kept) = &self.kept {
            if kept.are_over(places) {
                return kept.list(alloc);
            }
        }
        let node = self.tree(alloc)?;
        table(&node, alloc, places)
    }

    /// The value where `bits[i]` is the value of the name `i`.
    pub(crate) fn value(&self, bits: &[bool]) -> bool
        ensures { result ≡ value_of bits.now self.now }
    {
        match &self.kept {
            Some(kept) => kept.at(bits),
            None => value(self.spelled.as_slice(), bits),
        }
    }

    /// Whether the two trees are equal.
    pub(crate) fn same(&self, other: &Postfix) -> bool
        ensures { IsTrue result ↔ (self.now ≡ other.now) }
    {
        same(self.spelled.as_slice(), other.spelled.as_slice())
    }

    /// Whether the name `i` is written in the tree.
    pub(crate) fn has(&self, i: usize) -> bool
        ensures { IsTrue result ↔ Has self.now i }
    {
        has(self.spelled.as_slice(), i)
    }

    /// The names of the tree, each once, in ascending order.
    pub(crate) fn support(&self, alloc: Global) -> Result<Vec<usize>, AllocError>
        ensures { IfOk result (λ v. v.items ≡ support_of self.now) }
    {
        if let Some(kept) = &self.kept {
            return Ok(Vec::from_slice(alloc, &kept.names)?);
        }
        self.written_names(alloc)
    }

    /// The same of the tree itself.
    fn written_names(&self, alloc: Global) -> Result<Vec<usize>, AllocError>
        ensures { IfOk result (λ v. v.items ≡ support_of self.now) }
    {
        let node = self.tree(alloc)?;
        support(&node, alloc)
    }
}
