//! The names of conditions, and what feeds the wires that stand for them, without memory.
ghost use Rattle.std.specs.Prelude.{◌≡◌, ◌<◌, ◌≤◌, [], ◌∷◌, ◌++◌, length, filter, IsTrue};
ghost use Rattle.bool_functions.specs.Tree.{name_bound};
ghost use Rattle.bool_functions.specs.Support.{support_of};
ghost use Rattle.cell_machine.specs.Names.{has};

use crate::condition_wires::ConditionWire;
use crate::terminals::{drives_value, pin_nets};
use bool_functions::Function;
use cell_machine::{Cell, Few};
use specify_blocks::{VModule, VNet};

/// The most names of a cell: 64 pins, and two variables for each of 16 groups.
pub const MOST_NAMES: usize = 96;

/// Adds a number where it is the name of a pin that a condition names.
fn add_name(names: &mut Few<usize, 10>, condition: &Function, name: usize)
    requires { IsTrue (has (support_of condition.now) name) → length names.old < 10 }
    ensures { names.new ≡ names.old ++ filter (has (support_of condition.now)) (name ∷ []) }
{
    if condition.has(name) {
        names.push(name);
    }
}

/// The names of a condition, ascending. They are all below `bound`, and at most ten.
pub fn support_of(condition: &Function, bound: usize) -> Few<usize, 10>
    requires bounded { name_bound condition.now ≤ bound }
    requires few { length (support_of condition.now) ≤ 10 }
    ensures { result ≡ support_of condition.now }
{
    let mut names = Few::new(0);
    for name in 0..bound {
        add_name(&mut names, condition, name);
    }
    names
}
