//! Numbers by which most unlike trees are told apart without going down them.
ghost use Rattle.std.specs.Prelude.{◌≡◌};
ghost use Rattle.bool_functions.specs.Key.{mixed, key_of};

use crate::tree::Node;

/// Two numbers in one.
fn mixed(one: u64, other: u64) -> u64
    ensures { result ≡ mixed one other }
{
    one.wrapping_mul(6364136223846793005).wrapping_add(other)
}

/// The number of a tree. Equal trees have equal ones.
pub(crate) fn key(node: &Node) -> u64
    ensures { result ≡ key_of node.now }
{
    match node {
        Node::Zero => 1,
        Node::One => 2,
        Node::Name(i) => mixed(3, *i as u64),
        Node::Not(part) => mixed(4, key(part.get())),
        Node::Xor(left, right) => mixed(mixed(5, key(left.get())), key(right.get())),
        Node::And(left, right) => mixed(mixed(6, key(left.get())), key(right.get())),
        Node::Or(left, right) => mixed(mixed(7, key(left.get())), key(right.get())),
    }
}
