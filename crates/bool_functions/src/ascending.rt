//! The names that a tree is written with, and the ascending lists in which they stand.
ghost use Rattle.std.specs.Prelude.{◌≡◌, IfOk, OnOk};
ghost use Rattle.bool_functions.specs.Tree.{names_of};
ghost use Rattle.bool_functions.specs.Support.{inserted, insert_all, support_of};

use crate::tree::Node;
use std::alloc::{AllocError, Global};

/// The names of a tree, each once, in ascending order.
pub(crate) fn support(node: &Node, alloc: Global) -> Result<Vec<usize>, AllocError>
    ensures { IfOk result (λ v. v.items ≡ support_of node.now) }
{
    let mut found = Vec::new(alloc);
    collect(node, &mut found)?;
    Ok(found)
}

/// Puts the names of a tree into an ascending list.
#[tactic(auto, using(crate::proofs::Trees::names_by_top))]
fn collect(node: &Node, found: &mut Vec<usize>) -> Result<(), AllocError>
    ensures { OnOk result (found.new.items ≡ insert_all found.old.items (names_of node.now)) }
{
    match node {
        Node::Zero | Node::One => Ok(()),
        Node::Name(i) => insert(found, *i),
        Node::Not(part) => collect(part.get(), found),
        Node::Xor(left, right) | Node::And(left, right) | Node::Or(left, right) => {
            collect(left.get(), found)?;
            collect(right.get(), found)
        }
    }
}

/// Puts a number at its place in an ascending list, unless it is there. The one fault is want of memory.
pub fn insert(found: &mut Vec<usize>, i: usize) -> Result<(), AllocError>
    ensures { OnOk result (found.new.items ≡ inserted i found.old.items) }
{
    for at in 0..found.len() {
        if found[at] == i {
            return Ok(());
        }
        if i < found[at] {
            found.insert(at, i)?;
            return Ok(());
        }
    }
    found.push(i)?;
    Ok(())
}
