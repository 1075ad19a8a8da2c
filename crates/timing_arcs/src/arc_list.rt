//! Arcs that are merged as they come.
ghost use Rattle.std.specs.Prelude.{◌≡◌, [], ◌∷◌, ◌++◌, ◌==◌, length, map, OnOk, not};
ghost use Rattle.std.specs.List.{list_any};
ghost use Rattle.std.specs.Option.{option_copied};
ghost use Rattle.timing_arcs.specs.Merging.{same_condition, same_path};
ghost use Rattle.timing_arcs.specs.Adding.{joined_with, pushed};
ghost use Rattle.timing_arcs.specs.Shown.{arc_on};

use bool_functions::Function;
use cell_machine::Arc;
use sqlite_items::Items;
use std::alloc::{AllocError, Global};
use std::marker::Model;

/// Arcs, of which those with the same ends and the same condition are one. Contracts see the list of them.
#[derive(Drop)]
pub(crate) struct ArcList {
    arcs: Vec<Arc>,
}

impl Model for ArcList {
    ghost use Rattle.std.specs.Prelude.{List};
    ghost use Rattle.std.specs.Coded.{codes};
    ghost use Rattle.bool_functions.specs.contracts.tree.Node as tree;
    ghost use Rattle.cell_machine.specs.declared.arcs.Arc.{Arc};

    ghost Value = { List Arc };

    ghost coded = { Prim.hlevel (codes, tree.the_row.coded) };

    ghost view = { λ a. a.arcs.items };
}

/// An arc whose condition stands elsewhere.
#[derive(Clone, Copy)]
pub(crate) struct Path<'a> {
    pub(crate) from: usize,
    pub(crate) to: usize,
    pub(crate) rise: u64,
    pub(crate) fall: u64,
    pub(crate) condition: Option<&'a Function>,
}

impl Path<'_> {
    /// The arc on it, with this condition of its own.
    pub(crate) fn arc(&self, condition: Option<Function>) -> Arc
        ensures { result ≡ record {
          from = self.now.from;
          to = self.now.to;
          rise = self.now.rise;
          fall = self.now.fall;
          condition = condition;
        } }
    {
        Arc {
            from: self.from,
            to: self.to,
            rise: self.rise,
            fall: self.fall,
            condition,
        }
    }
}

/// Whether two conditions are equal: the same tree, or none.
fn same_condition(one: Option<&Function>, other: &Option<Function>) -> bool
    ensures { result ≡ same_condition (option_copied one.entry) other.now }
{
    match (one, other) {
        (None, None) => true,
        (Some(one), Some(other)) => one.same(other),
        (None, Some(_)) => false,
        (Some(_), None) => false,
    }
}

/// Whether an arc has the ends and the condition of a path.
fn same_path(path: &Path<'_>, arc: &Arc) -> bool
    ensures { result ≡ same_path (arc_on path.now) arc.now }
{
    path.from == arc.from && path.to == arc.to && same_condition(path.condition, &arc.condition)
}

/// Gives an arc with the ends and the condition of the new one the greater rise and the greater fall, and answers
/// whether it is one.
fn join_one(kept: &mut Arc, path: &Path<'_>) -> bool
    ensures kept { kept.new ≡ joined_with (arc_on path.now) kept.old }
    ensures same { result ≡ same_path (arc_on path.now) kept.old }
{
    if !same_path(path, kept) {
        return false;
    }
    kept.rise = kept.rise.max(path.rise);
    kept.fall = kept.fall.max(path.fall);
    true
}

/// Gives each arc with the ends and the condition of the new one the greater rise and the greater fall, and answers
/// whether there is one.
fn join(arcs: &mut [Arc], path: &Path<'_>) -> bool
    ensures arcs { arcs.new ≡ map (joined_with (arc_on path.now)) arcs.old }
    ensures found { result ≡ list_any (same_path (arc_on path.now)) arcs.old }
{
    let mut found = false;
    for kept in arcs.iter_mut() {
        found |= join_one(kept, path);
    }
    found
}

/// Adds one at the end of a list, where fewer than so many are there.
fn push_within<T: Drop>(items: &mut Vec<T>, room: usize, item: T) -> Result<(), AllocError>
    ensures { OnOk result (items.new.items ≡ pushed room items.old.items item) }
{
    if items.len() < room {
        items.push(item)?;
    }
    Ok(())
}

impl ArcList {
    /// No arcs.
    pub(crate) fn new(alloc: Global) -> ArcList
        ensures { result ≡ [] }
    {
        ArcList {
            arcs: Vec::new(alloc),
        }
    }

    /// How many arcs there are.
    pub(crate) fn len(&self) -> usize
        ensures { result ≡ length self.now }
    {
        self.arcs.len()
    }

    /// Merges an arc into the one that has its ends and its condition, and answers whether there is one.
    pub(crate) fn join(&mut self, path: &Path<'_>) -> bool
        ensures arcs { self.new ≡ map (joined_with (arc_on path.now)) self.old }
        ensures found { result ≡ list_any (same_path (arc_on path.now)) self.old }
    {
        join(&mut self.arcs, path)
    }

    /// Adds an arc of its own at the end, where fewer than so many are there.
    pub(crate) fn push_within(&mut self, room: usize, arc: Arc) -> Result<(), AllocError>
        ensures { OnOk result (self.new ≡ pushed room self.old arc) }
    {
        push_within(&mut self.arcs, room, arc)
    }

    /// The arcs in their order.
    pub(crate) fn into_items(self) -> Items<Arc>
        ensures { result ≡ self }
    {
        let ArcList { arcs } = self;
        Items::from_vec(arcs)
    }
}
