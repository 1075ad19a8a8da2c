//! The trees that codes stand for, made without recursion.
ghost use Rattle.std.specs.Prelude.{◌≡◌, [], ◌∷◌, IfOk, OnOk, map, slice_index};
ghost use Rattle.bool_functions.specs.Pair.{node_of};
ghost use Rattle.bool_functions.specs.Code.{inverted, joined, read_code, renamed_code, innermost, tree_of};

use crate::codes::Code;
use crate::pile::Pile;
use crate::tree::{Node, Pair, over};
use sqlite_items::Boxed;
use std::alloc::{AllocError, Global};

/// The trees that were made of the codes so far.
#[derive(Drop)]
struct Trees {
    alloc: Global,
    pile: Pile<Boxed<Node>>,
}

impl Trees {
    /// Before the first code.
    fn new(alloc: Global) -> Trees
        ensures { result.pile ≡ [] }
    {
        Trees {
            alloc,
            pile: Pile::new(alloc),
        }
    }

    /// Adds the innermost.
    fn push(&mut self, tree: Node) -> Result<(), AllocError>
        ensures { OnOk result (self.new.pile ≡ tree ∷ self.old.pile) }
    {
        self.pile.push(Boxed::new(self.alloc, tree)?)
    }

    /// Inverts the innermost.
    fn invert(&mut self) -> Result<(), AllocError>
        ensures { OnOk result (self.new.pile ≡ inverted self.old.pile) }
    {
        match self.pile.pop() {
            Some(part) => self.push(Node::Not(part)),
            None => Ok(()),
        }
    }

    /// Joins the two innermost by an operator.
    fn join(&mut self, pair: Pair) -> Result<(), AllocError>
        ensures { OnOk result (self.new.pile ≡ joined (node_of pair) self.old.pile) }
    {
        let Some(right) = self.pile.pop() else {
            return Ok(());
        };
        match self.pile.pop() {
            Some(left) => self.push(over(pair, left, right)),
            None => Ok(()),
        }
    }

    /// Takes the next code.
    fn read(&mut self, code: Code) -> Result<(), AllocError>
        ensures { OnOk result (self.new.pile ≡ read_code self.old.pile code) }
    {
        match code {
            Code::Zero => self.push(Node::Zero),
            Code::One => self.push(Node::One),
            Code::Name(i) => self.push(Node::Name(usize::from(i))),
            Code::Not => self.invert(),
            Code::Xor(_) => self.join(Pair::Xor),
            Code::And(_) => self.join(Pair::And),
            Code::Or(_) => self.join(Pair::Or),
        }
    }

    /// Takes the next code, where other numbers stand for those of names.
    fn read_renamed(&mut self, code: Code, to: &[usize]) -> Result<(), AllocError>
        ensures { OnOk result (self.new.pile ≡ read_code self.old.pile (renamed_code to.now code)) }
    {
        match code {
            Code::Name(i) => self.push(Node::Name(number_at(to, usize::from(i)))),
            _ => self.read(code),
        }
    }

    /// The innermost.
    fn finish(mut self) -> Node
        ensures { result ≡ innermost self.pile }
    {
        match self.pile.pop() {
            Some(tree) => tree.into_inner(),
            None => Node::Zero,
        }
    }
}

/// The number at a place, 0 where there is none.
fn number_at(to: &[usize], i: usize) -> usize
    ensures { result ≡ slice_index to.now i }
{
    match to.get(i) {
        Some(number) => *number,
        None => 0,
    }
}

/// The tree that codes stand for.
pub(crate) fn tree(codes: &[Code], alloc: Global) -> Result<Node, AllocError>
    ensures { IfOk result (λ f. f ≡ tree_of codes.now) }
{
    let mut trees = Trees::new(alloc);
    for code in codes {
        trees.read(*code)?;
    }
    Ok(trees.finish())
}

/// The tree that codes stand for, in which `to[i]` stands for each name `i`.
pub(crate) fn renamed(codes: &[Code], alloc: Global, to: &[usize]) -> Result<Node, AllocError>
    ensures { IfOk result (λ f. f ≡ tree_of (map (renamed_code to.now) codes.now)) }
{
    let mut trees = Trees::new(alloc);
    for code in codes {
        trees.read_renamed(*code, to)?;
    }
    Ok(trees.finish())
}
