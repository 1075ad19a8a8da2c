//! A function as the tree of its operators.
ghost use Rattle.std.specs.Prelude.{◌≡◌, ◌≤◌, ◌==◌, ℕ, Ok, IsTrue, IfOk, length, slice_get, ◌↔◌};
ghost use Rattle.std.specs.List.{list_any};
ghost use Rattle.bool_functions.specs.Tree.{value_of, name_bound, names_of, renamed_by};
ghost use Rattle.bool_functions.specs.Code.{room_after};
ghost use Rattle.bool_functions.specs.Pair.{node_of, Joins};

use sqlite_items::Boxed;
use std::alloc::{AllocError, Global};

/// An operator of a function with its parts, or one of its leaves. A name is a number that a list of names gives it.
///
/// A text has at most 4,096 bytes, so its tree has at most 4,096 levels. What goes down a tree, as `value` or its
/// drop, calls itself once a level, and so at most 4,096 deep.
#[derive(Drop)]
pub enum Node {
    Zero,
    One,
    Name(usize),
    Not(Boxed<Node>),
    Xor(Boxed<Node>, Boxed<Node>),
    And(Boxed<Node>, Boxed<Node>),
    Or(Boxed<Node>, Boxed<Node>),
}

/// The value of a tree where `bits[i]` is the value of the name `i`.
pub(crate) fn value(node: &Node, bits: &[bool]) -> bool
    requires { name_bound node.now ≤ length bits.now }
    ensures { result ≡ value_of bits.now node.now }
{
    match node {
        Node::Zero => false,
        Node::One => true,
        Node::Name(i) => bits[*i],
        Node::Not(part) => !value(part.get(), bits),
        Node::Xor(left, right) => value(left.get(), bits) != value(right.get(), bits),
        Node::And(left, right) => value(left.get(), bits) && value(right.get(), bits),
        Node::Or(left, right) => value(left.get(), bits) || value(right.get(), bits),
    }
}

/// Whether two trees are equal.
pub(crate) fn same(node: &Node, other: &Node) -> bool
    ensures { IsTrue result ↔ (node.now ≡ other.now) }
{
    match (node, other) {
        (Node::Zero, Node::Zero) | (Node::One, Node::One) => true,
        (Node::Name(i), Node::Name(j)) => i == j,
        (Node::Not(part), Node::Not(like)) => same(part.get(), like.get()),
        (Node::Xor(left, right), Node::Xor(first, second))
        | (Node::And(left, right), Node::And(first, second))
        | (Node::Or(left, right), Node::Or(first, second)) => {
            same(left.get(), first.get()) && same(right.get(), second.get())
        }
        _ => false,
    }
}

/// Whether a name is written in a tree.
#[tactic(auto, using(crate::proofs::Trees::names_by_top))]
pub(crate) fn has(node: &Node, i: usize) -> bool
    ensures { result ≡ list_any (λ j. j == i) (names_of node.now) }
{
    match node {
        Node::Zero | Node::One => false,
        Node::Name(j) => *j == i,
        Node::Not(part) => has(part.get(), i),
        Node::Xor(left, right) | Node::And(left, right) | Node::Or(left, right) => {
            has(left.get(), i) || has(right.get(), i)
        }
    }
}

/// An operator of two parts.
#[derive(Clone, Copy)]
pub(crate) enum Pair {
    Xor,
    And,
    Or,
}

/// An operator over its parts.
pub(crate) fn over(pair: Pair, left: Boxed<Node>, right: Boxed<Node>) -> Node
    ensures { result ≡ node_of pair left right }
{
    match pair {
        Pair::Xor => Node::Xor(left, right),
        Pair::And => Node::And(left, right),
        Pair::Or => Node::Or(left, right),
    }
}

/// A tree in a box, where it was made.
fn boxed(alloc: Global, made: Result<Node, AllocError>) -> Result<Boxed<Node>, AllocError>
    ensures { IfOk result (λ tree. made ≡ Ok tree) }
{
    Ok(Boxed::new(alloc, made?)?)
}

/// An operator over two trees, where both were made.
fn joined(
    alloc: Global,
    pair: Pair,
    left: Result<Node, AllocError>,
    right: Result<Node, AllocError>,
) -> Result<Node, AllocError>
    ensures { IfOk result (Joins pair left right) }
{
    let left = boxed(alloc, left)?;
    let right = boxed(alloc, right)?;
    Ok(over(pair, left, right))
}

/// The same tree in boxes of its own.
pub(crate) fn copied(node: &Node, alloc: Global) -> Result<Node, AllocError>
    ensures { IfOk result (λ f. f ≡ node.now) }
{
    match node {
        Node::Zero => Ok(Node::Zero),
        Node::One => Ok(Node::One),
        Node::Name(i) => Ok(Node::Name(*i)),
        Node::Not(part) => Ok(Node::Not(boxed(alloc, copied(part.get(), alloc))?)),
        Node::Xor(left, right) => joined(
            alloc,
            Pair::Xor,
            copied(left.get(), alloc),
            copied(right.get(), alloc),
        ),
        Node::And(left, right) => joined(
            alloc,
            Pair::And,
            copied(left.get(), alloc),
            copied(right.get(), alloc),
        ),
        Node::Or(left, right) => joined(
            alloc,
            Pair::Or,
            copied(left.get(), alloc),
            copied(right.get(), alloc),
        ),
    }
}

/// A copy of a tree with other numbers for its names.
pub(crate) fn renamed(node: &Node, alloc: Global, to: &[usize]) -> Result<Node, AllocError>
    requires { name_bound node.now ≤ length to.now }
    ensures { IfOk result (λ f. f ≡ renamed_by to.now node.now) }
{
    match node {
        Node::Zero => Ok(Node::Zero),
        Node::One => Ok(Node::One),
        Node::Name(i) => Ok(Node::Name(to[*i])),
        Node::Not(part) => Ok(Node::Not(boxed(alloc, renamed(part.get(), alloc, to))?)),
        Node::Xor(left, right) => joined(
            alloc,
            Pair::Xor,
            renamed(left.get(), alloc, to),
            renamed(right.get(), alloc, to),
        ),
        Node::And(left, right) => joined(
            alloc,
            Pair::And,
            renamed(left.get(), alloc, to),
            renamed(right.get(), alloc, to),
        ),
        Node::Or(left, right) => joined(
            alloc,
            Pair::Or,
            renamed(left.get(), alloc, to),
            renamed(right.get(), alloc, to),
        ),
    }
}

/// What is left of so many nodes after those of a tree.
pub(crate) fn room(node: &Node, most: usize) -> usize
    ensures { result ≡ room_after node.now most }
{
    let left = most.saturating_sub(1);
    match node {
        Node::Zero | Node::One | Node::Name(_) => left,
        Node::Not(part) => room(part.get(), left),
        Node::Xor(first, second) | Node::And(first, second) | Node::Or(first, second) => {
            room(second.get(), room(first.get(), left))
        }
    }
}
