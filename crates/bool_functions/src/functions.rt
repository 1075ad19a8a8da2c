//! Functions of numbered names: a short one as its tree, a long one as its codes.
ghost use Rattle.std.specs.Prelude.{◌≡◌, ◌≤◌, ◌^◌, ◌↔◌, ℕ, false, IsTrue, IfOk, MatchOption, Contains, length};
ghost use Rattle.std.specs.List.Sorted.{IsStrictlyIncreasing};
ghost use Rattle.bool_functions.specs.Tree.{value_of, name_bound, Has, renamed_by};
ghost use Rattle.bool_functions.specs.Support.{support_of};
ghost use Rattle.bool_functions.specs.SameTrees.{same_tree};
ghost use Rattle.bool_functions.specs.Point.{IsTable, HasValues};
ghost use Rattle.bool_functions.specs.declared.tree.Node.{Node};
ghost use Rattle.bool_functions.specs.declared.tree.Node.TheVariants as tree;
ghost use Rattle.bool_functions.specs.declared.functions.Form.TheVariants as form;
ghost use Rattle.bool_functions.specs.Code.{is_long};

use crate::ascending::support;
use crate::blocks::table;
use crate::keys::key;
use crate::postfix::Postfix;
use crate::tree::{Node, copied, has, renamed, room, same, value};
use std::alloc::{AllocError, Global};
use std::marker::Model;

/// The least number of nodes of a tree that is held as its codes, since a shorter one's nodes are read as fast.
const LONG: usize = 16;

/// A tree, short or long.
#[derive(Drop)]
enum Form {
    Short(Node),
    Long(Postfix),
}

impl Form {
    /// A tree of its own, held as this one is.
    fn copied(&self, alloc: Global) -> Result<Form, AllocError>
        ensures { IfOk result (λ f. f ≡ self.now) }
    {
        match self {
            Form::Short(node) => Form::short_copied(alloc, node),
            Form::Long(codes) => Form::long_copied(alloc, codes),
        }
    }

    /// A short tree of its own.
    fn short_copied(alloc: Global, node: &Node) -> Result<Form, AllocError>
        ensures { IfOk result (λ f. f ≡ form.Short node.now) }
    {
        Ok(Form::Short(copied(node, alloc)?))
    }

    /// A long tree of its own.
    fn long_copied(alloc: Global, codes: &Postfix) -> Result<Form, AllocError>
        ensures { IfOk result (λ f. f ≡ form.Long codes.now) }
    {
        Ok(Form::Long(codes.copied(alloc)?))
    }
}

/// A function of numbered names, which contracts see as its tree.
#[derive(Drop)]
pub struct Function {
    form: Form,
    /// The number of the tree, by which most unlike trees are told apart.
    key: u64,
}

impl Model for Function {
    ghost use Rattle.std.specs.Prelude.{◌≡◌};
    ghost use Rattle.bool_functions.specs.declared.tree.Node.{Node};
    ghost use Rattle.bool_functions.specs.Key.{key_of};
    ghost use Rattle.bool_functions.specs.Code.{is_long};
    ghost use Rattle.bool_functions.specs.Form.{shown, holds_codes};

    ghost Value = { Node };

    ghost use Rattle.bool_functions.specs.contracts.tree.Node as nodes;
    ghost use Rattle.std.specs.Coded.{codes};

    ghost coded = { Prim.hlevel (codes, nodes.the_row.coded) };

    ghost view = { λ f. shown f.form };

    ghost invariant = { λ f. (f.key ≡ key_of (shown f.form)) × (is_long (shown f.form) ≡ holds_codes f.form) };
}

impl Function {
    /// The function of a tree that is not long.
    fn short(node: Node) -> Function
        requires { is_long node ≡ false }
        ensures { result ≡ node }
    {
        let key = key(&node);
        Function {
            form: Form::Short(node),
            key,
        }
    }

    /// The function of a tree that is long, held as its codes.
    fn long(alloc: Global, node: &Node) -> Result<Option<Function>, AllocError>
        ensures { IfOk result (λ long. MatchOption long (is_long node.now ≡ false) (λ f. f ≡ node.now)) }
    {
        if room(node, LONG) > 0 {
            return Ok(None);
        }
        let Some(codes) = Postfix::new(alloc, node)? else {
            return Ok(None);
        };
        Ok(Some(Function {
            form: Form::Long(codes),
            key: key(node),
        }))
    }

    /// The function of a tree.
    pub(crate) fn new(alloc: Global, node: Node) -> Result<Function, AllocError>
        ensures { IfOk result (λ f. f ≡ node) }
    {
        match Function::long(alloc, &node)? {
            Some(long) => Ok(long),
            None => Ok(Function::short(node)),
        }
    }

    /// The function that is the name `i`. Takes no memory.
    pub fn of_name(i: usize) -> Function
        ensures { result ≡ tree.Name i }
    {
        Function::short(Node::Name(i))
    }

    /// The value where `bits[i]` is the value of the name `i`. Needs an entry for each name, and takes no memory.
    pub fn value(&self, bits: &[bool]) -> bool
        requires { name_bound self.now ≤ length bits.now }
        ensures { result ≡ value_of bits.now self.now }
    {
        match &self.form {
            Form::Short(node) => value(node, bits),
            Form::Long(codes) => codes.value(bits),
        }
    }

    /// Whether the two trees are equal. Takes no memory.
    pub fn same(&self, other: &Function) -> bool
        ensures equal { IsTrue result ↔ (self.now ≡ other.now) }
        ensures test { result ≡ same_tree self.now other.now }
    {
        if self.key != other.key {
            return false;
        }
        match (&self.form, &other.form) {
            (Form::Short(node), Form::Short(other)) => same(node, other),
            (Form::Long(codes), Form::Long(other)) => codes.same(other),
            _ => false,
        }
    }

    /// Whether the name `i` is written in the tree. Takes no memory.
    pub fn has(&self, i: usize) -> bool
        ensures { IsTrue result ↔ Has self.now i }
    {
        match &self.form {
            Form::Short(node) => has(node, i),
            Form::Long(codes) => codes.has(i),
        }
    }

    /// The same tree in a function of its own. `AllocError` comes only where memory is wanting.
    pub fn copied(&self, alloc: Global) -> Result<Function, AllocError>
        ensures { IfOk result (λ f. f ≡ self.now) }
    {
        let form = self.form.copied(alloc)?;
        Ok(Function {
            form,
            key: self.key,
        })
    }

    /// The tree in which `to[i]` stands for each name `i`. Needs an entry for each name. `AllocError` comes only where
    /// memory is wanting.
    pub fn renamed(&self, alloc: Global, to: &[usize]) -> Result<Function, AllocError>
        requires { name_bound self.now ≤ length to.now }
        ensures { IfOk result (λ f. f ≡ renamed_by to.now self.now) }
    {
        let node = match &self.form {
            Form::Short(node) => renamed(node, alloc, to)?,
            Form::Long(codes) => codes.renamed(alloc, to)?,
        };
        Function::new(alloc, node)
    }

    /// The numbers of the written names, each once, in ascending order. `AllocError` comes only where memory is wanting.
    pub fn support(&self, alloc: Global) -> Result<Vec<usize>, AllocError>
        ensures ascending { IfOk result (λ v. IsStrictlyIncreasing v.items) }
        ensures written { IfOk result (λ v. (i : ℕ) → Contains v.items i ↔ Has self.now i) }
        ensures list { IfOk result (λ v. v.items ≡ support_of self.now) }
    {
        match &self.form {
            Form::Short(node) => support(node, alloc),
            Form::Long(codes) => codes.support(alloc),
        }
    }

    /// The value at each point over these places, which are numbers of names, at the point's number, in which place `i`
    /// weighs 2 to the power `i`. Needs each written name among at most 10 places; where a place stands twice, its name
    /// has the first one's value. `AllocError` comes only where memory is wanting.
    pub fn table(&self, alloc: Global, places: &[usize]) -> Result<Vec<bool>, AllocError>
        requires few { length places.now ≤ 10 }
        requires inside { (i : ℕ) → Has self.now i → Contains places.now i }
        ensures len { IfOk result (λ v. length v.items ≡ 2 ^ length places.now) }
        ensures points { IfOk result (λ v. IsTable places.now self.now v.items) }
        ensures values { IfOk result (λ v. HasValues places.now self.now v.items) }
    {
        match &self.form {
            Form::Short(node) => table(node, alloc, places),
            Form::Long(codes) => codes.table(alloc, places),
        }
    }
}
